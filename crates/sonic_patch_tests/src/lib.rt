//! What no clause of `sonic_patch` says: patches from outside, what they make of values, worked examples
//! of values that are the same, and that calls succeed where nothing is wrong.
#![tactic(auto)]

// Patches that are made on values.
#[cfg(test)]
mod applies;
// Patches, and why a text is none.
#[cfg(test)]
mod reads;
// Assertions as calls.
#[cfg(test)]
mod same;
// Values that are the same, and others.
#[cfg(test)]
mod sameness;
