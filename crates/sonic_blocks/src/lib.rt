//! Blocks of a text as words of bits, one bit for each byte: which bytes are escaped, which are
//! inside a string, and where the first byte of a kind is.
#![tactic(auto)]

// Escapes and strings in a block of 64 bytes, and what carries over to the next block.
mod bits;
// Where a container ends among the brackets of a block.
mod closing;
// How often a byte occurs.
mod count;
// Numbers between commas, in a block of 64 bytes.
mod elements;
// What the crates above need, and no user of this one.
#[doc(hidden)]
pub mod internal;
// White space in a block of 64 bytes, as bits.
mod lanes;
// Where a run of bytes of one kind ends, and where the first byte of another kind is.
mod runs;
// A counter of steps that takes no bytes at run time.
mod steps;
// The backslashes, the quotes and the control bytes among 32 bytes.
mod string_block;
// A text that is seen by blocks of 64 bytes alone, each view of it a counted step.
mod tape;

pub use bits::{get_escaped, get_string_bits, next_bit, prefix_xor};
pub use lanes::get_nonspace_bits;
pub use steps::Steps;
pub use string_block::StringBlock;
pub use tape::{Masks, Tape};
