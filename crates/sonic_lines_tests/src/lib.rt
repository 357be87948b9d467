//! What no clause of `sonic_lines` says: rows from outside, a stream that is cut anywhere beside a plain
//! program, and that calls succeed where memory is ample.
#![tactic(auto)]

// What is held between pieces.
#[cfg(test)]
mod pieces;
// Random streams, cut at random.
#[cfg(test)]
mod random;
// The rows of a stream by a plain slow program.
#[cfg(test)]
mod reference;
// Worked examples of rows.
#[cfg(test)]
mod rows;
// Assertions as calls.
#[cfg(test)]
mod same;
