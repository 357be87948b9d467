//! A stream of JSON records that comes in pieces, as a log that is still being written.
#![tactic(auto)]

// That each stream has one next answer.
mod law;
// A reader of such a stream, and what is next in one.
mod stream;

pub use law::stream_has_one_next;
pub use stream::{NextRecord, RecordStream};
