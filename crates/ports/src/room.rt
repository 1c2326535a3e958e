//! The room of a sink in memory.

ghost use Rattle.std.specs.Prelude.{◌≡◌, IfOk, MatchOption, Some, None, []};
ghost use Rattle.ports.specs.InMemory.{held_after};

use lists::Memory;
use std::alloc::Global;
use std::marker::Model;

/// Room for so many bytes. It holds what was put while all of it fits.
#[derive(Drop)]
pub(crate) struct Room {
    bytes: Vec<u8>,
    room: usize,
    fits: bool,
}

impl Model for Room {
    ghost use Rattle.std.specs.Prelude.{Some, None, if◌then◌else◌, ◌≤◌, vec_capacity, vec_len};
    ghost use Rattle.ports.specs.InMemory.{BytesHeld};

    ghost Value = { BytesHeld };

    ghost view = { λ s. record { room = s.room; held = if s.fits then Some s.bytes.items else None } };

    ghost invariant = { λ s. (s.room ≤ vec_capacity s.bytes) × (vec_len s.bytes ≤ s.room) };
}

impl Room {
    /// Takes the memory for all of it.
    pub(crate) fn with_room(alloc: Global, room: usize) -> Result<Room, Memory>
        ensures { IfOk result (λ s. s ≡ record { room = room; held = Some [] }) }
    {
        let bytes = Vec::with_capacity(alloc, room)?;
        Ok(Room {
            bytes,
            room,
            fits: true,
        })
    }

    pub(crate) fn put(&mut self, piece: &[u8])
        ensures room { self.new.room ≡ self.old.room }
        ensures held { self.new.held ≡ held_after self.old.room self.old.held piece.now }
    {
        if !self.fits {
            return;
        }
        if piece.len() <= self.room - self.bytes.len() {
            self.bytes.extend_from_slice(piece).unwrap();
        } else {
            self.fits = false;
        }
    }

    pub(crate) fn bytes(&self) -> Option<&[u8]>
        ensures { MatchOption result (self.now.held ≡ None) (λ bytes. self.now.held ≡ Some bytes.now) }
    {
        if self.fits {
            Some(self.bytes.as_slice())
        } else {
            None
        }
    }
}
