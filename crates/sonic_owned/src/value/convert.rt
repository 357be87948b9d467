// Values that are made of scalars and levels.
use super::{LazyArray, LazyObject, Node, OwnedLazyValue};
use crate::integer::{Integer, Kept};

/// The value `null`.
impl Default for OwnedLazyValue {
    ghost use Rattle.std.specs.Prelude.{◌≡◌, codes};
    ghost use Rattle.sonic_owned.specs.Forms.{raw};
    ghost use Rattle.sonic_owned.specs.Views.{form};

    ghost is_default = { λ value. form value ≡ raw (codes "null") };

    fn default() -> OwnedLazyValue {
        OwnedLazyValue { node: Node::Null }
    }
}

/// The value `null`.
impl From<()> for OwnedLazyValue {
    ghost use Rattle.std.specs.Prelude.{◌≡◌, codes};
    ghost use Rattle.sonic_owned.specs.Forms.{raw};
    ghost use Rattle.sonic_owned.specs.Views.{form};

    ghost from_gives = { λ _ value. form value ≡ raw (codes "null") };

    fn from(_: ()) -> OwnedLazyValue {
        OwnedLazyValue { node: Node::Null }
    }
}

/// The value `true` or `false`.
impl From<bool> for OwnedLazyValue {
    ghost use Rattle.std.specs.Prelude.{◌≡◌, codes, if◌then◌else◌};
    ghost use Rattle.sonic_owned.specs.Forms.{raw};
    ghost use Rattle.sonic_owned.specs.Views.{form};

    ghost from_gives = { λ truth value. form value ≡ raw (if truth then codes "true" else codes "false") };

    fn from(truth: bool) -> OwnedLazyValue {
        OwnedLazyValue {
            node: Node::Bool(truth),
        }
    }
}

/// The number with no sign.
impl From<u64> for OwnedLazyValue {
    ghost use Rattle.std.specs.Prelude.{◌≡◌};
    ghost use Rattle.std.specs.Fmt.{decimal};
    ghost use Rattle.sonic_owned.specs.Forms.{raw};
    ghost use Rattle.sonic_owned.specs.Views.{form};

    ghost from_gives = { λ n value. form value ≡ raw (decimal n) };

    fn from(n: u64) -> OwnedLazyValue {
        let kept = Kept::Unsigned(n);
        OwnedLazyValue {
            node: Node::Integer(Integer { kept }),
        }
    }
}

/// The number, with a sign where it is below zero.
impl From<i64> for OwnedLazyValue {
    ghost use Rattle.std.specs.Prelude.{◌≡◌};
    ghost use Rattle.std.specs.Fmt.{signed_decimal};
    ghost use Rattle.sonic_owned.specs.Forms.{raw};
    ghost use Rattle.sonic_owned.specs.Views.{form};

    ghost from_gives = { λ z value. form value ≡ raw (signed_decimal z) };

    fn from(z: i64) -> OwnedLazyValue {
        let kept = Kept::Signed(z);
        OwnedLazyValue {
            node: Node::Integer(Integer { kept }),
        }
    }
}

/// The array with these elements.
impl From<LazyArray> for OwnedLazyValue {
    ghost use Rattle.std.specs.Prelude.{◌≡◌};
    ghost use Rattle.sonic_owned.specs.Forms.{level, unnamed};
    ghost use Rattle.sonic_owned.specs.Views.{form, elements};
    ghost use Rattle.sonic_text.specs.declared.kind.Kind.TheVariants.{Array};

    ghost from_gives = { λ array value. form value ≡ level Array (unnamed (elements array)) };

    fn from(array: LazyArray) -> OwnedLazyValue {
        OwnedLazyValue {
            node: Node::Array(array),
        }
    }
}

/// The object with these members.
impl From<LazyObject> for OwnedLazyValue {
    ghost use Rattle.std.specs.Prelude.{◌≡◌};
    ghost use Rattle.sonic_owned.specs.Forms.{level, named};
    ghost use Rattle.sonic_owned.specs.Views.{form, members};
    ghost use Rattle.sonic_text.specs.declared.kind.Kind.TheVariants.{Object};

    ghost from_gives = { λ object value. form value ≡ level Object (named (members object)) };

    fn from(object: LazyObject) -> OwnedLazyValue {
        OwnedLazyValue {
            node: Node::Object(object),
        }
    }
}
