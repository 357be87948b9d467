//! What no clause of `sonic_text` says: that the calls answer the worked examples of their documents.
#![tactic(auto)]

// What is short and near.
#[cfg(test)]
mod near;
// Numbers, literals, white space and brackets.
#[cfg(test)]
mod numbers;
// Text that is written as a string.
#[cfg(test)]
mod quoting;
// Assertions as calls.
#[cfg(test)]
mod same;
// Where strings end, at every state of their escapes.
#[cfg(test)]
mod strings;
// What strings denote.
#[cfg(test)]
mod unescaping;
