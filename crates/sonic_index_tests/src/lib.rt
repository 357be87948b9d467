//! What no clause of `sonic_index` says: entries of documents from outside and by a plain program, that
//! broken text is refused as `validate` does, and that calls succeed where memory is ample.
#![tactic(auto)]

// Documents that are deeper than any stack.
#[cfg(test)]
mod depth;
// Elements of long and of nested arrays.
#[cfg(test)]
mod elements;
// Worked examples of entries.
#[cfg(test)]
mod entries;
// Where paths lead by an index.
#[cfg(test)]
mod find;
// Objects of many members.
#[cfg(test)]
mod members;
// The entries of a text by a plain recursive program.
#[cfg(test)]
mod reference;
// What is refused.
#[cfg(test)]
mod refused;
// Assertions as calls.
#[cfg(test)]
mod same;
