// The edit that a line says.
ghost use Rattle.std.specs.Prelude.{◌≤◌, length};

use sonic_owned::Change;
use sonic_pointer::OwnedPath;

/// An edit: where a path leads, a change is made.
///
/// The line `["set", ["a", 1], null]` says the edit whose path is `["a", 1]` and whose change is
/// `Change::Set` with the value `null`.
#[derive(Drop)]
pub struct Edit {
    /// Where. A path that is followed in a value has at most 255 nodes.
    pub path: OwnedPath,
    /// And what.
    pub change: Change,
    ghost short: { length path ≤ 255 },
}
