//! Where an input comes from and an output goes: sources and sinks, over memory and over the system.
#![tactic(auto)]

// A buffer before a sink.
mod buffer;
// Counts of calls and of faults.
mod faults;
// The law of the counts of faults.
mod law;
// The sources and the sinks over memory.
mod memory;
// The loop that reads a whole input.
mod reading;
// The trait of what an output is written to.
mod sink;
// The trait of what an input comes from.
mod source;
// The source and the sink over the system, as standard input and output.
mod stdio;
// The loop that writes.
mod writing;

pub use buffer::Buffer;
pub use faults::{Calls, Faults};
pub use law::fault_shows;
pub use memory::{MemorySink, MemorySource, RepeatSource, SureSink, SureSource};
pub use reading::{LIMIT, ReadError, read_all};
pub use sink::Sink;
pub use source::{Failed, Source};
pub use stdio::{InputSource, OutputSink};
pub use writing::write_all;
