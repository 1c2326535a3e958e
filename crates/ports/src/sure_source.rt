//! A source in memory whose calls never fail.

ghost use Rattle.std.specs.Prelude.{◌≡◌, ◌<◌};
ghost use Rattle.ports.specs.InMemory.{unbounded};

use crate::left::Left;
use crate::source::{Failed, Source};
use lists::Bytes;
use std::marker::Model;

/// Bytes in memory to be read. No call fails.
#[derive(Drop)]
pub struct SureSource {
    bytes: Left,
}

impl Model for SureSource {
    ghost use Rattle.ports.specs.InMemory.{BytesLeft};

    ghost Value = { BytesLeft };

    ghost view = { λ s. s.bytes };
}

impl SureSource {
    pub fn new(bytes: Bytes) -> SureSource
        ensures { result ≡ record { left = bytes; most = unbounded } }
    {
        SureSource {
            bytes: Left::new(bytes),
        }
    }

    /// One call gives so many bytes at most.
    pub fn by_pieces(bytes: Bytes, most: usize) -> SureSource
        requires { 0 < most }
        ensures { result ≡ record { left = bytes; most = most } }
    {
        SureSource {
            bytes: Left::by_pieces(bytes, most),
        }
    }
}

impl Source for SureSource {
    ghost use Rattle.std.specs.Prelude.{◌≡◌, ◌<◌, min, length, Some, IfOk, IsOk};
    ghost use Rattle.std.specs.Io.{ReadsAtMost};
    ghost use Rattle.ports.specs.Causes.{HasCause};
    ghost use Rattle.ports.specs.Streams.{Pulls};

    ghost left = { λ s. Some s.left };

    ghost faults = { λ s. 0 };

    fn pull(&mut self, buf: &mut [u8]) -> Result<usize, Failed>
        requires { 0 < length buf.old }
        ensures bound { ReadsAtMost result buf.new }
        ensures bytes { Pulls (Some self.old.left) (Some self.new.left) result buf.new }
        ensures cause { HasCause 0 0 result }
        ensures sure { IsOk result }
        ensures count { IfOk result (λ n.
            n ≡ min self.old.most (min (length buf.new) (length self.old.left))) }
        ensures most { self.new.most ≡ self.old.most }
    {
        Ok(self.bytes.pull(buf))
    }
}
