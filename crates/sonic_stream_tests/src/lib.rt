//! What no clause of `sonic_stream` says: that a stream gives the same however it is cut.
#![tactic(auto)]

// Assertions as calls.
#[cfg(test)]
mod same;
// A stream that is cut into pieces.
#[cfg(test)]
mod stream;
