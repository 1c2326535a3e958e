//! The real standard input and output.
ghost use Rattle.std.specs.Prelude.{◌≡◌};

use crate::sink::Sink;
use crate::source::{Failed, Source};
use std::io::{Input, Print, Read};
use std::marker::Model;

/// Standard input. It tells no content.
#[derive(Drop)]
pub struct StdinSource<'a, R> {
    rt: &'a R,
    faults: u64,
}

impl<'a, R> Model for StdinSource<'a, R> {
    ghost use Rattle.ports.specs.Causes.{FaultCount};

    ghost Value = { FaultCount };

    ghost view = { λ s. record { faults = s.faults } };
}

impl<'a, R: Input> StdinSource<'a, R> {
    pub fn new(rt: &'a R) -> StdinSource<'a, R>
        ensures { result.faults ≡ 0 }
    {
        StdinSource { rt, faults: 0 }
    }
}

impl<R: Input> Source for StdinSource<'_, R> {
    ghost use Rattle.std.specs.Prelude.{◌<◌, length, None};
    ghost use Rattle.std.specs.Io.{ReadsAtMost};
    ghost use Rattle.ports.specs.Causes.{HasCause, IsCounted};
    ghost use Rattle.ports.specs.Streams.{Pulls};

    ghost left = { λ s. None };

    ghost faults = { λ s. s.faults };

    fn pull(&mut self, buf: &mut [u8]) -> Result<usize, Failed>
        requires { 0 < length buf.old }
        ensures bound { ReadsAtMost result buf.new }
        ensures bytes { Pulls None None result buf.new }
        ensures cause { HasCause self.old.faults self.new.faults result }
        ensures counted { IsCounted self.old.faults self.new.faults result }
    {
        let mut reader = self.rt.reader();
        match reader.read(buf) {
            Ok(count) => Ok(count),
            Err(_) => {
                self.faults = self.faults.saturating_add(1);
                Err(Failed)
            }
        }
    }
}

/// Standard output. It tells no content.
#[derive(Drop)]
pub struct StdoutSink<'a, R> {
    rt: &'a R,
    faults: u64,
}

impl<'a, R> Model for StdoutSink<'a, R> {
    ghost use Rattle.ports.specs.Causes.{FaultCount};

    ghost Value = { FaultCount };

    ghost view = { λ s. record { faults = s.faults } };
}

impl<'a, R: Print> StdoutSink<'a, R> {
    pub fn new(rt: &'a R) -> StdoutSink<'a, R>
        ensures { result.faults ≡ 0 }
    {
        StdoutSink { rt, faults: 0 }
    }
}

impl<R: Print> Sink for StdoutSink<'_, R> {
    ghost use Rattle.std.specs.Prelude.{◌<◌, ◌≤◌, length, None, IfOk};
    ghost use Rattle.ports.specs.Causes.{HasCause, IsCounted};
    ghost use Rattle.ports.specs.Streams.{Puts};

    ghost held = { λ s. None };

    ghost faults = { λ s. s.faults };

    /// An output that takes nothing of a piece is a fault.
    fn put(&mut self, bytes: &[u8]) -> Result<usize, Failed>
        requires { 0 < length bytes.now }
        ensures bound { IfOk result (λ n. (0 < n) × (n ≤ length bytes.now)) }
        ensures bytes { Puts None None result bytes.now }
        ensures cause { HasCause self.old.faults self.new.faults result }
        ensures counted { IsCounted self.old.faults self.new.faults result }
    {
        match self.rt.write_some(bytes) {
            Ok(count) if count > 0 => Ok(count),
            _ => {
                self.faults = self.faults.saturating_add(1);
                Err(Failed)
            }
        }
    }
}
