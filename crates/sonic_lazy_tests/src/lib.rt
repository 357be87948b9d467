//! What no clause of `sonic_lazy` says: worked examples over each kind of input, that calls succeed where
//! memory is ample, and that the walk agrees with a plain program.
#![tactic(auto)]

// Lists and maps of lazy values.
#[cfg(test)]
mod containers;
// Texts that are cut at each place.
#[cfg(test)]
mod cuts;
// Which inputs are documents.
#[cfg(test)]
mod document;
// Each of many paths by itself.
#[cfg(test)]
mod each;
// Iterators over items.
#[cfg(test)]
mod iterators;
// Lazy values that are whole inputs.
#[cfg(test)]
mod lazyvalue;
// Many paths at once.
#[cfg(test)]
mod lookups;
// Many paths without memory.
#[cfg(test)]
mod many_unchecked;
// One path, checked or not.
#[cfg(test)]
mod one;
// Numbers that keep their text.
#[cfg(test)]
mod rawnumbers;
// A plain program beside the walk.
#[cfg(test)]
mod reference;
// Many texts, one after the other.
#[cfg(test)]
mod room;
// Equal keys, by each rule.
#[cfg(test)]
mod rules;
// Assertions as calls.
#[cfg(test)]
mod same;
// The span of what one path finds.
#[cfg(test)]
mod spans;
// What a value is.
#[cfg(test)]
mod scalars;
// Tables of containers.
#[cfg(test)]
mod tables;
