//! What no clause of `sonic_paths` says: lines and heads from outside, and that calls succeed where
//! nothing is wrong.
#![tactic(auto)]

// Heads that are read into a tree that holds a path.
#[cfg(test)]
mod heads;
// Path lines, and heads of them.
#[cfg(test)]
mod lines;
// Assertions as calls.
#[cfg(test)]
mod same;
