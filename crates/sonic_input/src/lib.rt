//! The texts that JSON is read from: shared text, slices of an input, and a cursor over one.
#![tactic(auto)]

// Text that several owners share.
mod faststr;
// The kinds of input that JSON is read from.
mod input;
// Running out of memory, as an error.
mod memory;
// The cursor that a parser reads an input with.
mod read;
// A part of shared bytes.
mod shared;
// A part of an input, borrowed from it.
mod slice;

pub use faststr::FastStr;
pub use input::JsonInput;
pub use read::Read;
pub use shared::SharedSlice;
pub use slice::JsonSlice;
