//! What no clause of `sonic_reports` says: rows from outside, and that calls succeed where nothing is
//! wrong.
#![tactic(auto)]

// Texts that are cut or wrong.
#[cfg(test)]
mod cuts;
// Where one path leads.
#[cfg(test)]
mod documents;
// Runs of `edit`.
#[cfg(test)]
mod edits;
// Runs of `fast`.
#[cfg(test)]
mod fast;
// Each way in which a text can stop being JSON.
#[cfg(test)]
mod faults;
// Runs of `fill`.
#[cfg(test)]
mod fills;
// The examples of the format.
#[cfg(test)]
mod format;
// Runs of `gen`.
#[cfg(test)]
mod generated;
// Runs of `indent`.
#[cfg(test)]
mod indents;
// Runs of `index`.
#[cfg(test)]
mod index;
// Runs of `get --keys`.
#[cfg(test)]
mod keys;
// Runs of `lines`.
#[cfg(test)]
mod lines;
// Runs of `list`.
#[cfg(test)]
mod lists;
// One call after the other fails.
#[cfg(test)]
mod memory;
// Runs of `patch`.
#[cfg(test)]
mod patches;
// Where many paths lead.
#[cfg(test)]
mod paths;
// Runs in one table.
#[cfg(test)]
mod rows;
// Assertions as calls.
#[cfg(test)]
mod same;
// Runs of `min`.
#[cfg(test)]
mod small;
// By which calls a report goes out.
#[cfg(test)]
mod writing;
