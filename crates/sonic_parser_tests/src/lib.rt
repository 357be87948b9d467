//! What no clause of `sonic_parser` says: that calls answer the worked examples, and succeed where
//! nothing is wrong.
#![tactic(auto)]

// The skipper at each place of a block of bytes.
#[cfg(test)]
mod blocks;
// Each call once.
#[cfg(test)]
mod calls;
// Values as deep as memory allows.
#[cfg(test)]
mod depth;
// A walk through a value beside the skipper.
#[cfg(test)]
mod descent;
// Each fault, with its place and its code.
#[cfg(test)]
mod faults;
// Values of another type than is wanted.
#[cfg(test)]
mod mismatches;
// What is at a place of a text.
#[cfg(test)]
mod parts;
// A plain program beside the skipper.
#[cfg(test)]
mod reference;
// Assertions as calls.
#[cfg(test)]
mod same;
// The calls as a caller writes them.
#[cfg(test)]
mod signatures;
// White space by blocks.
#[cfg(test)]
mod space;
// Strings that are read as text.
#[cfg(test)]
mod strings;
// The unchecked skips beside the checked ones.
#[cfg(test)]
mod unchecked;
