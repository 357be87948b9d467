//! What no clause of `sonic_blocks` says: that the calls answer the worked examples of their documents,
//! at each place of a block and after it, and as plain loops over bytes do.
#![tactic(auto)]

// Escapes, strings and white space in a block.
#[cfg(test)]
mod bits;
// Masks by blocks, and the bracket that closes all.
#[cfg(test)]
mod blocks;
// Whole elements at the start of a block.
#[cfg(test)]
mod elements;
// Assertions as calls.
#[cfg(test)]
mod same;
// Where runs end, and the first of some bytes.
#[cfg(test)]
mod search;
