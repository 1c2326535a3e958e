//! A sink in memory whose calls never fail.

ghost use Rattle.std.specs.Prelude.{◌≡◌, IfOk, MatchOption, Some, None, []};

use crate::room::Room;
use crate::sink::Sink;
use crate::source::Failed;
use lists::Memory;
use std::alloc::Global;
use std::marker::Model;

/// Room for so many bytes, whose memory is taken when it is made. No call fails.
#[derive(Drop)]
pub struct SureSink {
    bytes: Room,
}

impl Model for SureSink {
    ghost use Rattle.ports.specs.InMemory.{BytesHeld};

    ghost Value = { BytesHeld };

    ghost view = { λ s. s.bytes };
}

impl SureSink {
    pub fn with_room(alloc: Global, room: usize) -> Result<SureSink, Memory>
        ensures { IfOk result (λ s. s ≡ record { room = room; held = Some [] }) }
    {
        let bytes = Room::with_room(alloc, room)?;
        Ok(SureSink { bytes })
    }

    /// All bytes that were put, and None exactly where more than it has room for were.
    pub fn bytes(&self) -> Option<&[u8]>
        ensures { MatchOption result (self.now.held ≡ None) (λ bytes. self.now.held ≡ Some bytes.now) }
    {
        self.bytes.bytes()
    }
}

impl Sink for SureSink {
    ghost use Rattle.std.specs.Prelude.{◌≡◌, ◌<◌, ◌≤◌, IfOk, IsOk, length};
    ghost use Rattle.ports.specs.Causes.{HasCause};
    ghost use Rattle.ports.specs.Streams.{Puts};
    ghost use Rattle.ports.specs.InMemory.{held_after};

    ghost held = { λ s. s.held };

    ghost faults = { λ s. 0 };

    fn put(&mut self, bytes: &[u8]) -> Result<usize, Failed>
        requires { 0 < length bytes.now }
        ensures bound { IfOk result (λ n. (0 < n) × (n ≤ length bytes.now)) }
        ensures bytes { Puts self.old.held self.new.held result bytes.now }
        ensures cause { HasCause 0 0 result }
        ensures sure { IsOk result }
        ensures count { IfOk result (λ n. n ≡ length bytes.now) }
        ensures whole { self.new.held ≡ held_after self.old.room self.old.held bytes.now }
        ensures room { self.new.room ≡ self.old.room }
    {
        self.bytes.put(bytes);
        Ok(bytes.len())
    }
}
