//! Exit statuses.

ghost use Rattle.std.specs.Prelude.{◌≡◌};
ghost use Rattle.book_cli.specs.Outcomes.{code_of, status_after};

use crate::stop::Stop;

/// How a run ended.
#[derive(Clone, Copy, Debug, PartialEq, Eq)]
pub enum Status {
    /// The report has no refused line.
    Accepted,
    /// The report has a refused line.
    Refused,
    /// The words aren't a command.
    Usage,
    /// The book can't be read.
    ReadFault,
    /// The report can't be written.
    WriteFault,
    /// There was no memory.
    Memory,
}

impl Status {
    /// The program's exit status, from 0 to 5.
    pub fn code(&self) -> u8
        ensures { result ≡ code_of self.now }
    {
        match self {
            Status::Accepted => 0,
            Status::Refused => 1,
            Status::Usage => 2,
            Status::ReadFault => 3,
            Status::WriteFault => 4,
            Status::Memory => 5,
        }
    }
}

/// The status after a report, which says whether all events were accepted.
pub(crate) fn status_of(report: Result<bool, Stop>) -> Status
    ensures { result ≡ status_after report }
{
    match report {
        Ok(true) => Status::Accepted,
        Ok(false) => Status::Refused,
        Err(Stop::WriteFault) => Status::WriteFault,
        Err(Stop::Memory) => Status::Memory,
    }
}
