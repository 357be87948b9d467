//! What no clause of `sonic_pointer` says: that the calls answer the worked examples of their documents,
//! and that trees with many keys under one prefix are quick to make and to search.
#![tactic(auto)]

// Nodes, paths and trees.
#[cfg(test)]
mod pointer;
// Assertions as calls.
#[cfg(test)]
mod same;
