//! What no clause of `sonic_error` says: that the numbers are those of the variants, and how errors look.
#![tactic(auto)]

// Codes, families, places and texts.
#[cfg(test)]
mod error;
// Assertions as calls.
#[cfg(test)]
mod same;
