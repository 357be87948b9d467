// What a call comes to.

// What was asked for is there.
pub(crate) const OK: u32 = 0;
// The text has an error, which is told.
pub(crate) const DOCUMENT_ERROR: u32 = 1;
// There are not as many paths as spans: the number of paths is told as the line.
pub(crate) const WRONG_COUNT: u32 = 2;
// A line says no path: its number, from 1, is told.
pub(crate) const BAD_LINES: u32 = 3;
// Memory ran out.
pub(crate) const NO_MEMORY: u32 = 7;
// The value is of another type than was asked for.
pub(crate) const WRONG_TYPE: u32 = 8;
// The number is no integer of those that were asked for.
pub(crate) const NO_INTEGER: u32 = 9;
// No item is left.
pub(crate) const END: u32 = 10;
// A line is to be indented by too many blanks.
pub(crate) const BAD_WIDTH: u32 = 11;
// The patch is none.
pub(crate) const BAD_PATCH: u32 = 12;
// An element of the patch is no operation: its number, from 0, is told as the line.
pub(crate) const BAD_OPERATION: u32 = 13;
// A pointer of an operation leads to nothing: the operation's number, from 0, is told as the line.
pub(crate) const MISSING: u32 = 14;
// The value that an operation tests is another one: told so too.
pub(crate) const TEST_FAILED: u32 = 15;
// An operation would move a value into itself: told so too.
pub(crate) const INTO_CHILD: u32 = 16;
// An edit makes nothing of the document: its number, from 1, is told as the line.
pub(crate) const EDIT_REFUSED: u32 = 17;
// The schema is none.
pub(crate) const BAD_SCHEMA: u32 = 18;
// Too many lines are said to come before.
pub(crate) const BAD_NUMBER: u32 = 19;
// The number says no rule for equal keys.
pub(crate) const BAD_RULE: u32 = 20;
