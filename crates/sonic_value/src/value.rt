// Plain values.
ghost use Rattle.std.specs.Prelude.{◌≡◌};

// Values that are taken apart.
mod apart;
// Copies.
mod copy;
// Equality.
mod equal;
// What a value is.
mod kind;
// Parts that are lent to be changed.
mod lend;
// What a node or a path leads to.
mod look_up;
// The text.
mod show;

pub(crate) use copy::copy;
pub(crate) use lend::{Holds, lend_item};

/// A JSON value that is read whole.
///
/// Members keep their order and their repeats, and numbers their text. A pattern looks at a value and
/// moves nothing out of it: `as_array_mut` and `as_object_mut` lend what is taken out.
pub enum Value {
    Null,
    Bool(bool),
    Number(String),
    String(String),
    Array(Vec<Value>),
    Object(Vec<(String, Value)>),
}

// A loop that takes no memory, so that no value is too deep for it.
impl Drop for Value {
    fn drop(mut self) {
        'values: loop {
            match self.shrunk() {
                Some(rest) => self = rest,
                None => return,
            }
        }
    }
}

/// `null`.
impl Default for Value {
    ghost use Rattle.sonic_text.specs.Trees.Tree.{null};
    ghost use Rattle.sonic_value.specs.Views.{tree};

    ghost is_default = { λ value. tree value ≡ null };

    fn default() -> Value {
        Value::Null
    }
}
