//! What no clause of `sonic_owned` says: that calls answer the worked examples, and succeed where memory
//! is ample.
#![tactic(auto)]

// Edits of values.
#[cfg(test)]
mod edits;
// Items that are put between others, and removed.
#[cfg(test)]
mod items;
// Values that are lent.
#[cfg(test)]
mod lending;
// Levels that are opened.
#[cfg(test)]
mod levels;
// Paths into values.
#[cfg(test)]
mod pointers;
// Assertions as calls.
#[cfg(test)]
mod same;
// Values that are read, made and written.
#[cfg(test)]
mod values;
