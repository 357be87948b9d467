//! What no clause of `sonic_edits` says: lines and heads from outside, random edits beside a plain
//! program, and that calls succeed where nothing is wrong.
#![tactic(auto)]

// Edit lines, and heads of them.
#[cfg(test)]
mod lines;
// Random lists of edits.
#[cfg(test)]
mod random;
// Assertions as calls.
#[cfg(test)]
mod same;
