//! What no clause of `sonic_min` says: worked examples over each kind of input, that calls succeed where
//! memory is ample, and that the text agrees with that of a plain program.
#![tactic(auto)]

// Worked examples of texts over lines, and deep ones.
#[cfg(test)]
mod indent;
// Worked examples, and white space and backslashes at each offset of a block.
#[cfg(test)]
mod minify;
// The text of a document without white space by a plain slow program.
#[cfg(test)]
mod reference;
// Assertions as calls.
#[cfg(test)]
mod same;
// All short texts beside the plain program.
#[cfg(test)]
mod short;
