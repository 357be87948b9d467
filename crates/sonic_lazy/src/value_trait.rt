// What a value is, as far as its own first level says.
ghost use Rattle.std.specs.Prelude.{◌≡◌, ◌↔◌, ℕ, List, length, IsTrue, true, false};
ghost use Rattle.std.specs.Option.{SomeIff};
ghost use Rattle.sonic_text.specs.Trees.{Tree, Means};
ghost use Rattle.sonic_lazy.specs.Scalars.{Scalar, null, truth, text, container, scalar_of, scalar_of_tree, type_of, truth_of, IsU64, IsI64, natural_of, integer_of};

use crate::lazyvalue::LazyValue;
use sonic_error::JsonType;
use sonic_text::{Kind, byte_at, type_of, whole_i64, whole_u64};

/// The calls that ask what a value is (RFC 8259, section 3).
///
/// They look at the value's own first level: of a string they say that it is one, of a container
/// which kind it is, of `true` and `false` which of the two, and of a number whether it is an
/// integer, and which.
///
/// An `Option` and a `Result` are what the value in them is, and `None` and `Err` count as `null`.
/// So a lookup and the question are one line:
///
/// ```text
/// assert_eq!(rt; get(alloc, "[7]", &path).as_u64(), Some(7));
/// ```
pub trait JsonValueTrait {
    // What the value is.
    ghost scalar: { Self → Scalar };

    /// The type of the value.
    ///
    /// Of `[1]` it is `JsonType::Array`, of `"1"` it is `JsonType::String`, and of `None` it is
    /// `JsonType::Null`.
    fn get_type(&self) -> JsonType
        ensures { result ≡ type_of (scalar self.now) };

    /// Which of `true` and `false` the value is, and `None` where it is another.
    ///
    /// Of `true` it is `Some(true)`, and of `"true"`, which is a string, it is `None`.
    fn as_bool(&self) -> Option<bool>
        ensures { result ≡ truth_of (scalar self.now) };

    /// The value of a number that is an integer and fits in 64 bits with a sign, and else `None`.
    ///
    /// A fraction or an exponent makes it no integer, whatever its value is. Of `-1` it is
    /// `Some(-1)`, of `-0` it is `Some(0)`, and of `1.0`, `9223372036854775808` and `"1"` it is
    /// `None`.
    fn as_i64(&self) -> Option<i64>
        ensures { SomeIff result (IsI64 (scalar self.now)) (integer_of (scalar self.now)) };

    /// The value of a number that is an integer with no sign and fits in 64 bits, and else `None`.
    ///
    /// A fraction or an exponent makes it no integer, whatever its value is. Of `1` it is
    /// `Some(1)`, and of `-1`, `-0`, `1.0`, `18446744073709551616` and `"1"` it is `None`.
    fn as_u64(&self) -> Option<u64>
        ensures { SomeIff result (IsU64 (scalar self.now)) (natural_of (scalar self.now)) };

    /// Whether the value is `true` or `false`.
    ///
    /// Of `false` it is `true`, and of `0` and `null` it is `false`.
    fn is_boolean(&self) -> bool
        ensures { IsTrue result ↔ (type_of (scalar self.now) ≡ JsonType.Boolean) }
    {
        self.get_type() == JsonType::Boolean
    }

    /// Whether the value is `true`.
    ///
    /// Of `1` and of `"true"` it is `false`.
    fn is_true(&self) -> bool
        ensures { IsTrue result ↔ (scalar self.now ≡ truth true) }
    {
        self.as_bool() == Some(true)
    }

    /// Whether the value is `false`.
    ///
    /// Of `true` it is `false`, and so it is of `null`, `0` and `None`.
    fn is_false(&self) -> bool
        ensures { IsTrue result ↔ (scalar self.now ≡ truth false) }
    {
        self.as_bool() == Some(false)
    }

    /// Whether the value is `null`, or there is none.
    ///
    /// Of `None` and of `Err(error)` it is `true`, and of `""` and `[]` it is `false`.
    fn is_null(&self) -> bool
        ensures { IsTrue result ↔ (scalar self.now ≡ null) }
    {
        self.get_type() == JsonType::Null
    }

    /// Whether the value is a number.
    ///
    /// Of `1.10` it is `true`, and of `"1"` it is `false`.
    fn is_number(&self) -> bool
        ensures { IsTrue result ↔ (type_of (scalar self.now) ≡ JsonType.Number) }
    {
        self.get_type() == JsonType::Number
    }

    /// Whether the value is a string.
    ///
    /// Of `""` and of `"1"` it is `true`.
    fn is_str(&self) -> bool
        ensures { IsTrue result ↔ (scalar self.now ≡ text) }
    {
        self.get_type() == JsonType::String
    }

    /// Whether the value is an array.
    ///
    /// Of `[]` it is `true`, and of `{}` it is `false`.
    fn is_array(&self) -> bool
        ensures { IsTrue result ↔ (scalar self.now ≡ container Kind.Array) }
    {
        self.get_type() == JsonType::Array
    }

    /// Whether the value is an object.
    ///
    /// Of `{}` it is `true`, and of `[]` it is `false`.
    fn is_object(&self) -> bool
        ensures { IsTrue result ↔ (scalar self.now ≡ container Kind.Object) }
    {
        self.get_type() == JsonType::Object
    }

    /// Whether the value is a number that is an integer and fits in 64 bits with a sign.
    ///
    /// Of `-1` it is `true`, and of `1.0` and `9223372036854775808` it is `false`.
    fn is_i64(&self) -> bool
        ensures { IsTrue result ↔ IsI64 (scalar self.now) }
    {
        self.as_i64().is_some()
    }

    /// Whether the value is a number that is an integer with no sign and fits in 64 bits.
    ///
    /// Of `1` it is `true`, and of `-1`, `-0` and `1.0` it is `false`.
    fn is_u64(&self) -> bool
        ensures { IsTrue result ↔ IsU64 (scalar self.now) }
    {
        self.as_u64().is_some()
    }
}

/// A law of values: what one is by the first byte of its text is what its tree is.
///
/// So readers need not believe in first bytes. A text that means the numeral `-1` is that numeral.
pub fn scalar_is_that_of_the_tree()
    ensures { (t : List ℕ) (x : Tree) → Means t 0 (length t) x → scalar_of t ≡ scalar_of_tree x }
{}

/// A lazy value is what the first byte of its text says.
impl<'a> JsonValueTrait for LazyValue<'a> {
    ghost use Rattle.sonic_lazy.specs.LazyValues.{raw_bytes};

    ghost scalar = { λ value. scalar_of (raw_bytes value) };

    fn get_type(&self) -> JsonType {
        type_of(byte_at(self.as_raw_str().as_bytes(), 0))
    }

    fn as_bool(&self) -> Option<bool> {
        match byte_at(self.as_raw_str().as_bytes(), 0) {
            b't' => Some(true),
            b'f' => Some(false),
            _ => None,
        }
    }

    fn as_i64(&self) -> Option<i64> {
        if !self.is_number() {
            return None;
        }
        whole_i64(self.as_raw_str())
    }

    fn as_u64(&self) -> Option<u64> {
        if !self.is_number() {
            return None;
        }
        whole_u64(self.as_raw_str())
    }
}

/// What the value is, and `null` where there is none.
impl<V: JsonValueTrait> JsonValueTrait for Option<V> {
    ghost use Rattle.std.specs.Option.{option_map_or};

    ghost scalar = { λ value. option_map_or V.scalar value null };

    fn get_type(&self) -> JsonType {
        self.as_ref()
            .map_or(JsonType::Null, |value| value.get_type())
    }

    fn as_bool(&self) -> Option<bool> {
        self.as_ref()?.as_bool()
    }

    fn as_i64(&self) -> Option<i64> {
        self.as_ref()?.as_i64()
    }

    fn as_u64(&self) -> Option<u64> {
        self.as_ref()?.as_u64()
    }
}

/// What the value is, and `null` where there is an error instead.
impl<V: JsonValueTrait, E> JsonValueTrait for Result<V, E> {
    ghost use Rattle.std.specs.Option.{option_map_or};
    ghost use Rattle.std.specs.Result.{result_ok};

    ghost scalar = { λ value. option_map_or V.scalar (result_ok value) null };

    fn get_type(&self) -> JsonType {
        self.as_ref().ok().get_type()
    }

    fn as_bool(&self) -> Option<bool> {
        self.as_ref().ok().as_bool()
    }

    fn as_i64(&self) -> Option<i64> {
        self.as_ref().ok().as_i64()
    }

    fn as_u64(&self) -> Option<u64> {
        self.as_ref().ok().as_u64()
    }
}

/// What the value is that it points to.
impl<V: JsonValueTrait> JsonValueTrait for &V {
    ghost scalar = { λ value. V.scalar value.now };

    fn get_type(&self) -> JsonType {
        let value: &V = self;
        value.get_type()
    }

    fn as_bool(&self) -> Option<bool> {
        let value: &V = self;
        value.as_bool()
    }

    fn as_i64(&self) -> Option<i64> {
        let value: &V = self;
        value.as_i64()
    }

    fn as_u64(&self) -> Option<u64> {
        let value: &V = self;
        value.as_u64()
    }
}
