//! The bytes that a source has left.

ghost use Rattle.std.specs.Prelude.{◌≡◌, ◌<◌, ◌≤◌, ◌++◌, [], length, take, min};
ghost use Rattle.ports.specs.InMemory.{unbounded};

use lists::Bytes;
use std::marker::Model;

/// Bytes that are read from the first on, so many a call at most.
#[derive(Drop)]
pub(crate) struct Left {
    bytes: Bytes,
    place: usize,
    most: usize,
}

impl Model for Left {
    ghost use Rattle.std.specs.Prelude.{◌≤◌, ◌<◌, drop, length};
    ghost use Rattle.ports.specs.InMemory.{BytesLeft};

    ghost Value = { BytesLeft };

    ghost view = { λ s. record { left = drop s.place s.bytes; most = s.most } };

    ghost invariant = { λ s. (s.place ≤ length s.bytes) × (0 < s.most) };
}

impl Left {
    pub(crate) fn by_pieces(bytes: Bytes, most: usize) -> Left
        requires { 0 < most }
        ensures { result ≡ record { left = bytes; most = most } }
    {
        Left {
            bytes,
            place: 0,
            most,
        }
    }

    pub(crate) fn new(bytes: Bytes) -> Left
        ensures { result ≡ record { left = bytes; most = unbounded } }
    {
        Left::by_pieces(bytes, usize::MAX)
    }

    /// Moves the next bytes to the start of the buffer, and answers how many.
    pub(crate) fn pull(&mut self, buf: &mut [u8]) -> usize
        requires { 0 < length buf.old }
        ensures count { result ≡ min self.old.most (min (length buf.new) (length self.old.left)) }
        ensures bound { result ≤ length buf.new }
        ensures bytes { self.old.left ≡ take result buf.new ++ self.new.left }
        ensures end { result ≡ 0 → self.old.left ≡ [] }
        ensures most { self.new.most ≡ self.old.most }
    {
        let left = &self.bytes.as_slice()[self.place..];
        let count = copy_front(left, buf, self.most);
        self.place += count;
        count
    }
}

/// Copies as many bytes as fit to the start of the buffer, so many at most, and answers how many.
fn copy_front(from: &[u8], buf: &mut [u8], most: usize) -> usize
    ensures count { result ≡ min most (min (length buf.new) (length from.now)) }
    ensures bytes { take result buf.new ≡ take result from.now }
{
    let count = most.min(buf.len().min(from.len()));
    buf[..count].copy_from_slice(&from[..count]);
    count
}
