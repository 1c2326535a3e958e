//! Sources: what gives bytes, and counts its faults.

ghost use Rattle.std.specs.Prelude.{◌≡◌, ℕ, ◌<◌, ◌≤◌, List, Option, length, IfOk};
ghost use Rattle.std.specs.Io.{ReadsAtMost};
ghost use Rattle.ports.specs.Causes.{HasCause, Rose};
ghost use Rattle.ports.specs.Streams.{Pulls};
ghost use Rattle.ports.specs.ReadAll.{IsWhole, IsCut, IsReadFault, IfTooLong};

use lists::{Bytes, Memory};
use std::alloc::Global;

/// What stands outside did not do what a call asked of it.
#[derive(Clone, Copy, Debug, PartialEq, Eq)]
pub struct Failed;

/// What bytes are read from, up to an end.
pub trait Source {
    /// The bytes that are left, where it tells them.
    ghost left: { Self → Option (List ℕ) };

    /// How many faults there were.
    ghost faults: { Self → ℕ };

    /// Puts the next bytes at the start of the buffer, and answers how many: none only at the end.
    /// A source that tells its bytes before a call tells them after it.
    fn pull(&mut self, buf: &mut [u8]) -> Result<usize, Failed>
        requires { 0 < length buf.old }
        ensures bound { ReadsAtMost result buf.new }
        ensures bytes { Pulls (left self.old) (left self.new) result buf.new }
        ensures cause { HasCause (faults self.old) (faults self.new) result };
}

/// Why not all bytes were read.
#[derive(Debug, Drop)]
pub enum ReadAllError {
    ReadFault,
    /// More bytes than the limit were left. These are the first, as many as the limit.
    TooLong(Bytes),
    Memory,
}

impl From<Memory> for ReadAllError {
    ghost use Rattle.std.specs.Prelude.{◌≡◌};
    ghost use Rattle.ports.specs.declared.source.ReadAllError.TheVariants.{Memory as OutOfMemory};

    ghost from_gives = { λ _ e. e ≡ OutOfMemory };

    fn from(_error: Memory) -> ReadAllError {
        ReadAllError::Memory
    }
}

/// Reads all bytes that are left, where they are no more than the limit.
pub fn read_all<S: Source>(alloc: Global, src: &mut S, limit: usize) -> Result<Bytes, ReadAllError>
    ensures whole { IfOk result (λ all. IsWhole (S.left src.old) (S.left src.new) limit all) }
    ensures cut { IfTooLong result (λ front. IsCut (S.left src.old) limit front) }
    ensures fault { IsReadFault result → Rose (S.faults src.old) (S.faults src.new) }
    ensures later { S.faults src.old ≤ S.faults src.new }
{
    let mut all = Bytes::new(alloc);
    let mut buf = [0u8; 1024];
    loop {
        let Ok(count) = src.pull(&mut buf) else {
            return Err(ReadAllError::ReadFault);
        };
        if count == 0 {
            return Ok(all);
        }
        let room = limit - all.len();
        if room < count {
            all.extend(&buf[..room])?;
            return Err(ReadAllError::TooLong(all));
        }
        all.extend(&buf[..count])?;
    }
}
