//! What no clause of `sonic_value` says: that calls answer the worked examples, and succeed where memory
//! is ample.
#![tactic(auto)]

// Values deeper than any stack.
#[cfg(test)]
mod deep;
// What indexes lead to.
#[cfg(test)]
mod look_ups;
// Documents that are read whole.
#[cfg(test)]
mod reading;
// A plain program that fills schemas.
#[cfg(test)]
mod reference;
// Assertions as calls.
#[cfg(test)]
mod same;
// Schemas that are filled.
#[cfg(test)]
mod schemas;
// Values of each type.
#[cfg(test)]
mod values;
