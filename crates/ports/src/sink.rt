//! Sinks: what takes bytes, and counts its faults.

ghost use Rattle.std.specs.Prelude.{◌≡◌, ℕ, ◌<◌, ◌≤◌, List, Option, length, IfOk, OnOk, OnErr};
ghost use Rattle.ports.specs.Causes.{HasCause};
ghost use Rattle.ports.specs.Streams.{Puts, Grows, GrowsByFront};

use crate::source::Failed;

/// What bytes are written to.
pub trait Sink {
    /// The bytes that it holds, where it tells them.
    ghost held: { Self → Option (List ℕ) };

    /// How many faults there were.
    ghost faults: { Self → ℕ };

    /// Appends a prefix of the piece, of one byte at least, and answers how long it is. A sink that
    /// tells its bytes after a call told them before it.
    fn put(&mut self, bytes: &[u8]) -> Result<usize, Failed>
        requires { 0 < length bytes.now }
        ensures bound { IfOk result (λ n. (0 < n) × (n ≤ length bytes.now)) }
        ensures bytes { Puts (held self.old) (held self.new) result bytes.now }
        ensures cause { HasCause (faults self.old) (faults self.new) result };
}

/// Appends all bytes. After a fault a prefix of them was appended.
pub fn put_all<K: Sink>(sink: &mut K, bytes: &[u8]) -> Result<(), Failed>
    ensures ok { OnOk result (Grows (K.held sink.old) (K.held sink.new) bytes.now) }
    ensures failed { OnErr result (GrowsByFront (K.held sink.old) (K.held sink.new) bytes.now) }
    ensures cause { HasCause (K.faults sink.old) (K.faults sink.new) result }
{
    let mut at: usize = 0;
    while at < bytes.len() {
        at += sink.put(&bytes[at..])?;
    }
    Ok(())
}
