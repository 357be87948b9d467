// What a value is, and the level that it is opened to.
ghost use Rattle.std.specs.Prelude.{◌≡◌, ◌↔◌, length, IsSome, IfSome, IfOk, IfErr, OnErr, None};
ghost use Rattle.std.specs.Cow.{cow_str_bytes};
ghost use Rattle.sonic_error.specs.Errors.{IsPlainError};
ghost use Rattle.sonic_lazy.specs.RawNumbers.{IsNumberText};
ghost use Rattle.sonic_lazy.specs.Scalars.{text as a_text};
ghost use Rattle.sonic_lazy.specs.StringTexts.{IsEscapedText};
ghost use Rattle.sonic_owned.specs.Forms.{text, scalar_of_form};
ghost use Rattle.sonic_owned.specs.Seen.{IsLentText};
ghost use Rattle.sonic_owned.specs.Views.{form, made_text};
ghost use Rattle.sonic_text.specs.Strings.{strict, IsString};

use super::{LazyArray, LazyObject, Node, OwnedLazyValue};
use crate::integer::Kept;
use sonic_error::{Error, ErrorCode, JsonType, Result};
use sonic_lazy::{JsonContainerTrait, JsonValueTrait, RawNumber};
use sonic_text::quoted_text_is_a_string;
use std::alloc::Global;
use std::borrow::CowStr;

impl JsonValueTrait for OwnedLazyValue {
    ghost use Rattle.sonic_owned.specs.Forms.{scalar_of_form};
    ghost use Rattle.sonic_owned.specs.Views.{form};

    ghost scalar = { λ value. scalar_of_form (form value) };

    fn get_type(&self) -> JsonType {
        match &self.node {
            Node::Null => JsonType::Null,
            Node::Bool(_) => JsonType::Boolean,
            Node::Integer(_) => JsonType::Number,
            Node::Text(_) => JsonType::String,
            Node::Raw(raw) => raw.as_lazy().get_type(),
            Node::Array(_) => JsonType::Array,
            Node::Object(_) => JsonType::Object,
        }
    }

    fn as_bool(&self) -> Option<bool> {
        match &self.node {
            Node::Bool(truth) => Some(*truth),
            Node::Raw(raw) => raw.as_lazy().as_bool(),
            Node::Integer(_) => None,
            _ => None,
        }
    }

    fn as_i64(&self) -> Option<i64> {
        match &self.node {
            Node::Integer(integer) => match integer.kept {
                Kept::Unsigned(n) => i64::try_from(n).ok(),
                Kept::Signed(z) => Some(z),
            },
            Node::Raw(raw) => raw.as_lazy().as_i64(),
            _ => None,
        }
    }

    fn as_u64(&self) -> Option<u64> {
        match &self.node {
            Node::Integer(integer) => match integer.kept {
                Kept::Unsigned(n) => Some(n),
                Kept::Signed(z) => u64::try_from(z).ok(),
            },
            Node::Raw(raw) => raw.as_lazy().as_u64(),
            _ => None,
        }
    }
}

impl OwnedLazyValue {
    /// What the value denotes where it is a string (RFC 8259, section 7), and else `None`.
    ///
    /// The text is borrowed exactly where the string was made of it, or has no backslash, and else made
    /// anew at each call. Only that takes memory, and the only error is `ErrorCode::NoMemory`.
    pub fn as_str(&self, alloc: Global) -> Result<Option<CowStr<'_>>>
        ensures some { IfOk result (λ found. IsSome found ↔ (scalar_of_form (form self.now) ≡ a_text)) }
        ensures text { IfOk result (λ found. IfSome found (λ shown.
            IsString strict (text (form self.now)) 0 (length (text (form self.now))) (cow_str_bytes shown))) }
        ensures err { IfErr result (λ error. IsPlainError error ErrorCode.NoMemory) }
        ensures lent { IfOk result (λ found. IfSome found
            (IsLentText (made_text self.now) (text (form self.now)))) }
        ensures memory { OnErr result ((made_text self.now ≡ None) × IsEscapedText (text (form self.now))) }
    {
        match &self.node {
            Node::Text(text) => {
                // The law by which the value's text, the quoted one, denotes this.
                quoted_text_is_a_string();
                Ok(Some(CowStr::Borrowed(text.text.as_str())))
            }
            Node::Raw(raw) => raw.as_lazy().as_str(alloc),
            Node::Integer(_) => Ok(None),
            _ => Ok(None),
        }
    }

    /// The number with its text where the value is one, and else `None`. A quoted number is a string.
    ///
    /// The only error is `ErrorCode::NoMemory`, and of a number alone.
    pub fn as_raw_number(&self, alloc: Global) -> Result<Option<RawNumber>>
        ensures some { IfOk result (λ found. IsSome found ↔ IsNumberText (text (form self.now))) }
        ensures text { IfOk result (λ found. IfSome found (λ number. number ≡ text (form self.now))) }
        ensures err { IfErr result (λ error. IsPlainError error ErrorCode.NoMemory) }
        ensures memory { OnErr result (IsNumberText (text (form self.now))) }
    {
        let integer = match &self.node {
            Node::Integer(integer) => integer,
            Node::Raw(raw) => return raw.as_lazy().as_raw_number(alloc),
            _ => return Ok(None),
        };
        let Ok(text) = format!(in alloc; "{integer}") else {
            return Err(Error::plain(ErrorCode::NoMemory));
        };
        match RawNumber::from_str(alloc, &text) {
            Ok(number) => Ok(Some(number)),
            Err(error) => Err(error),
        }
    }
}

impl JsonContainerTrait for OwnedLazyValue {
    type ObjectType = LazyObject;

    type ArrayType = LazyArray;

    ghost use Rattle.sonic_owned.specs.Views.{array_in, object_in};

    ghost object = { object_in };

    ghost array = { array_in };

    fn as_object(&self) -> Option<&LazyObject> {
        match &self.node {
            Node::Object(level) => Some(level),
            _ => None,
        }
    }

    fn as_array(&self) -> Option<&LazyArray> {
        match &self.node {
            Node::Array(level) => Some(level),
            _ => None,
        }
    }
}
