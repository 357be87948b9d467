//! What no clause of `sonic_io` says: that calls succeed where nothing is wrong, and what passes a reader
//! and a writer of the system.
#![tactic(auto)]

// Sources and sinks over memory.
#[cfg(test)]
mod memory;
// Assertions as calls.
#[cfg(test)]
mod same;
// The forms over the system.
#[cfg(test)]
mod stdio;
