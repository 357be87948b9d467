//! What no clause of `sonic_input` says: that the calls answer the worked examples of their documents,
//! and that they succeed where memory is ample.
#![tactic(auto)]

// The five kinds of input.
#[cfg(test)]
mod inputs;
// The cursor over them.
#[cfg(test)]
mod read;
// Assertions as calls.
#[cfg(test)]
mod same;
