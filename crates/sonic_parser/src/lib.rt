//! A parser that reads one value after the other, and beneath it the checked skipper, and the
//! unchecked one for a value that is known to be there.
#![tactic(auto)]

// What the beginning of a value leads to.
mod begin;
// Where a container ends that is known to be there.
mod blocks;
// The syntax of containers: brackets, separators, keys with their colons.
mod container;
// A walk through a value, from part to part.
mod descent;
// Why a reader goes no further.
mod fault;
// What the crates above need, and no user of this one.
#[doc(hidden)]
pub mod internal;
// The law of honest errors, and the law of walks.
mod law;
// The calls, over a cursor.
mod parser;
// What is at a place of a text, for a walk that keeps its own stack.
mod parts;
// The loop over items that fit.
mod quick;
// Text that is borrowed from one of two places.
mod reference;
// Runs of numbers, passed by blocks.
mod number_run;
// The loop over open containers.
mod skip;
// White space by blocks.
mod space;
// What a skipped value needs.
mod status;
// Where a value of a text is, and what a string denotes.
mod value_span;
// Where a value ends that is known to be there.
mod unchecked;

pub use blocks::container_end;
pub use fault::Fault;
pub use law::honest_error_shows_the_fault;
pub use parser::Parser;
pub use reference::Reference;
pub use status::ParseStatus;
pub use value_span::ValueSpan;
