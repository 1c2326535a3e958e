//! A source in memory, some of whose calls fail.

ghost use Rattle.std.specs.Prelude.{◌≡◌, ◌<◌};
ghost use Rattle.ports.specs.Calls.{uncalled};
ghost use Rattle.ports.specs.InMemory.{unbounded};

use crate::calls::{Calls, Numbered};
use crate::left::Left;
use crate::source::{Failed, Source};
use lists::Bytes;
use std::marker::Model;

/// Bytes in memory to be read. The listed calls fail.
#[derive(Drop)]
pub struct MemorySource {
    bytes: Left,
    calls: Numbered,
}

impl Model for MemorySource {
    ghost use Rattle.ports.specs.InMemory.{NumberedSource};

    ghost Value = { NumberedSource };

    ghost view = { λ s. record { left = s.bytes.left; most = s.bytes.most; calls = s.calls } };
}

impl MemorySource {
    pub fn new(bytes: Bytes, failing: Calls) -> MemorySource
        ensures { result ≡ record { left = bytes; most = unbounded; calls = uncalled failing } }
    {
        MemorySource {
            bytes: Left::new(bytes),
            calls: Numbered::new(failing),
        }
    }

    /// One call gives so many bytes at most.
    pub fn by_pieces(bytes: Bytes, failing: Calls, most: usize) -> MemorySource
        requires { 0 < most }
        ensures { result ≡ record { left = bytes; most = most; calls = uncalled failing } }
    {
        MemorySource {
            bytes: Left::by_pieces(bytes, most),
            calls: Numbered::new(failing),
        }
    }
}

impl Source for MemorySource {
    ghost use Rattle.std.specs.Prelude.{◌≡◌, ◌<◌, ◌↔◌, min, length, Some, IfOk, IsErr, IsTrue};
    ghost use Rattle.std.specs.Io.{ReadsAtMost};
    ghost use Rattle.ports.specs.Causes.{HasCause};
    ghost use Rattle.ports.specs.Streams.{Pulls};
    ghost use Rattle.ports.specs.Calls.{next_fails, failures, after_call};

    ghost left = { λ s. Some s.left };

    ghost faults = { λ s. failures s.calls };

    fn pull(&mut self, buf: &mut [u8]) -> Result<usize, Failed>
        requires { 0 < length buf.old }
        ensures bound { ReadsAtMost result buf.new }
        ensures bytes { Pulls (Some self.old.left) (Some self.new.left) result buf.new }
        ensures cause { HasCause (failures self.old.calls) (failures self.new.calls) result }
        ensures fails { IsErr result ↔ IsTrue (next_fails self.old.calls) }
        ensures count { IfOk result (λ n.
            n ≡ min self.old.most (min (length buf.new) (length self.old.left))) }
        ensures most { self.new.most ≡ self.old.most }
        ensures calls { self.new.calls ≡ after_call self.old.calls }
    {
        if self.calls.call_fails() {
            return Err(Failed);
        }
        Ok(self.bytes.pull(buf))
    }
}
