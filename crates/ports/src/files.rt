//! Real files.
ghost use Rattle.std.specs.Prelude.{◌≡◌, ◌≤◌, length, IfOk};
ghost use Rattle.std.specs.Io.{ReadsAtMost};

use crate::sink::Sink;
use crate::source::{Failed, Source};
use std::io::{Read, Write};
use std::marker::Model;
use std::rt::Files;
use std::{fs, io};

/// A file to be read, which is opened at the first call. It tells no content.
#[derive(Drop)]
pub struct FileSource<'a, R: Files> {
    rt: &'a R,
    name: &'a str,
    file: Option<R::File>,
    faults: u64,
}

impl<'a, R: Files> Model for FileSource<'a, R> {
    ghost use Rattle.ports.specs.Causes.{FaultCount};

    ghost Value = { FaultCount };

    ghost view = { λ s. record { faults = s.faults } };
}

impl<'a, R: Files> FileSource<'a, R> {
    pub fn new(rt: &'a R, name: &'a str) -> FileSource<'a, R>
        ensures { result.faults ≡ 0 }
    {
        FileSource {
            rt,
            name,
            file: None,
            faults: 0,
        }
    }
}

impl<R: Files> Source for FileSource<'_, R> {
    ghost use Rattle.std.specs.Prelude.{◌<◌, length, None};
    ghost use Rattle.std.specs.Io.{ReadsAtMost};
    ghost use Rattle.ports.specs.Causes.{HasCause, IsCounted};
    ghost use Rattle.ports.specs.Streams.{Pulls};

    ghost left = { λ s. None };

    ghost faults = { λ s. s.faults };

    /// A file that can't be opened is a fault, and the next call opens it again.
    fn pull(&mut self, buf: &mut [u8]) -> Result<usize, Failed>
        requires { 0 < length buf.old }
        ensures bound { ReadsAtMost result buf.new }
        ensures bytes { Pulls None None result buf.new }
        ensures cause { HasCause self.old.faults self.new.faults result }
        ensures counted { IsCounted self.old.faults self.new.faults result }
    {
        match read_some(self.rt, self.name, &mut self.file, buf) {
            Ok(count) => Ok(count),
            Err(_) => {
                self.faults = self.faults.saturating_add(1);
                Err(Failed)
            }
        }
    }
}

/// A file to be written, which is made, or emptied where it is there, at the first call. It tells
/// no content.
#[derive(Drop)]
pub struct FileSink<'a, R: Files> {
    rt: &'a R,
    name: &'a str,
    file: Option<R::File>,
    faults: u64,
}

impl<'a, R: Files> Model for FileSink<'a, R> {
    ghost use Rattle.ports.specs.Causes.{FaultCount};

    ghost Value = { FaultCount };

    ghost view = { λ s. record { faults = s.faults } };
}

impl<'a, R: Files> FileSink<'a, R> {
    pub fn new(rt: &'a R, name: &'a str) -> FileSink<'a, R>
        ensures { result.faults ≡ 0 }
    {
        FileSink {
            rt,
            name,
            file: None,
            faults: 0,
        }
    }
}

impl<R: Files> Sink for FileSink<'_, R> {
    ghost use Rattle.std.specs.Prelude.{◌<◌, ◌≤◌, length, None, IfOk};
    ghost use Rattle.ports.specs.Causes.{HasCause, IsCounted};
    ghost use Rattle.ports.specs.Streams.{Puts};

    ghost held = { λ s. None };

    ghost faults = { λ s. s.faults };

    /// A file that can't be made is a fault, and the next call makes it again. One that takes
    /// nothing of a piece is a fault.
    fn put(&mut self, bytes: &[u8]) -> Result<usize, Failed>
        requires { 0 < length bytes.now }
        ensures bound { IfOk result (λ n. (0 < n) × (n ≤ length bytes.now)) }
        ensures bytes { Puts None None result bytes.now }
        ensures cause { HasCause self.old.faults self.new.faults result }
        ensures counted { IsCounted self.old.faults self.new.faults result }
    {
        match write_some(self.rt, self.name, &mut self.file, bytes) {
            Ok(count) if count > 0 => Ok(count),
            _ => {
                self.faults = self.faults.saturating_add(1);
                Err(Failed)
            }
        }
    }
}

/// Opens the file where it is not open yet, and reads from it.
fn read_some<R: Files>(
    rt: &R,
    name: &str,
    file: &mut Option<R::File>,
    buf: &mut [u8],
) -> io::Result<usize>
    ensures { ReadsAtMost result buf.new }
{
    match file {
        Some(open) => open.read(buf),
        None => file.insert(fs::open(rt, name)?).read(buf),
    }
}

/// Makes or empties the file where it is not open yet, and writes to it.
fn write_some<R: Files>(
    rt: &R,
    name: &str,
    file: &mut Option<R::File>,
    bytes: &[u8],
) -> io::Result<usize>
    ensures { IfOk result (λ n. n ≤ length bytes.now) }
{
    match file {
        Some(open) => open.write(bytes),
        None => file.insert(fs::create(rt, name)?).write(bytes),
    }
}
