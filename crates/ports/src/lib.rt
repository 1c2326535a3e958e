//! What a program reads and writes: sources and sinks that count their faults.
#![tactic(auto)]

mod calls;
mod files;
mod left;
mod memory_sink;
mod memory_source;
mod room;
mod sink;
mod source;
mod stdio;
mod sure_sink;
mod sure_source;
#[cfg(test)]
mod tests;

pub use calls::Calls;
pub use files::{FileSink, FileSource};
pub use memory_sink::MemorySink;
pub use memory_source::MemorySource;
pub use sink::{Sink, put_all};
pub use source::{Failed, ReadAllError, Source, read_all};
pub use stdio::{StdinSource, StdoutSink};
pub use sure_sink::SureSink;
pub use sure_source::SureSource;
