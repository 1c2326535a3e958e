//! A sink in memory, some of whose calls fail.

ghost use Rattle.std.specs.Prelude.{◌≡◌, ◌<◌, IfOk, MatchOption, Some, None, []};
ghost use Rattle.ports.specs.Calls.{uncalled};
ghost use Rattle.ports.specs.InMemory.{unbounded};

use crate::calls::{Calls, Numbered};
use crate::room::Room;
use crate::sink::Sink;
use crate::source::Failed;
use lists::Memory;
use std::alloc::Global;
use std::marker::Model;

/// Room for so many bytes, whose memory is taken when it is made. The listed calls fail.
#[derive(Drop)]
pub struct MemorySink {
    bytes: Room,
    calls: Numbered,
    most: usize,
}

impl Model for MemorySink {
    ghost use Rattle.std.specs.Prelude.{◌<◌};
    ghost use Rattle.ports.specs.InMemory.{NumberedSink};

    ghost Value = { NumberedSink };

    ghost view = { λ s. record { room = s.bytes.room; held = s.bytes.held; most = s.most; calls = s.calls } };

    ghost invariant = { λ s. 0 < s.most };
}

impl MemorySink {
    pub fn new(alloc: Global, room: usize, failing: Calls) -> Result<MemorySink, Memory>
        ensures { IfOk result (λ s. s ≡
            record { room = room; held = Some []; most = unbounded; calls = uncalled failing }) }
    {
        MemorySink::by_pieces(alloc, room, failing, usize::MAX)
    }

    /// One call takes so many bytes at most.
    pub fn by_pieces(
        alloc: Global,
        room: usize,
        failing: Calls,
        most: usize,
    ) -> Result<MemorySink, Memory>
        requires { 0 < most }
        ensures { IfOk result (λ s. s ≡
            record { room = room; held = Some []; most = most; calls = uncalled failing }) }
    {
        let bytes = Room::with_room(alloc, room)?;
        Ok(MemorySink {
            bytes,
            calls: Numbered::new(failing),
            most,
        })
    }

    /// All bytes that were put, and None exactly where more than it has room for were.
    pub fn bytes(&self) -> Option<&[u8]>
        ensures { MatchOption result (self.now.held ≡ None) (λ bytes. self.now.held ≡ Some bytes.now) }
    {
        self.bytes.bytes()
    }
}

impl Sink for MemorySink {
    ghost use Rattle.std.specs.Prelude.{◌≡◌, ◌<◌, ◌≤◌, ◌↔◌, min, take, length, IfOk, IsErr, IsTrue};
    ghost use Rattle.ports.specs.Causes.{HasCause};
    ghost use Rattle.ports.specs.Streams.{Puts};
    ghost use Rattle.ports.specs.Calls.{next_fails, failures, after_call};
    ghost use Rattle.ports.specs.InMemory.{held_after};

    ghost held = { λ s. s.held };

    ghost faults = { λ s. failures s.calls };

    fn put(&mut self, bytes: &[u8]) -> Result<usize, Failed>
        requires { 0 < length bytes.now }
        ensures bound { IfOk result (λ n. (0 < n) × (n ≤ length bytes.now)) }
        ensures bytes { Puts self.old.held self.new.held result bytes.now }
        ensures cause { HasCause (failures self.old.calls) (failures self.new.calls) result }
        ensures fails { IsErr result ↔ IsTrue (next_fails self.old.calls) }
        ensures count { IfOk result (λ n. n ≡ min self.old.most (length bytes.now)) }
        ensures whole { IfOk result (λ n.
            self.new.held ≡ held_after self.old.room self.old.held (take n bytes.now)) }
        ensures kept { IsErr result → self.new.held ≡ self.old.held }
        ensures room { self.new.room ≡ self.old.room }
        ensures most { self.new.most ≡ self.old.most }
        ensures calls { self.new.calls ≡ after_call self.old.calls }
    {
        if self.calls.call_fails() {
            return Err(Failed);
        }
        let count = self.most.min(bytes.len());
        self.bytes.put(&bytes[..count]);
        Ok(count)
    }
}
