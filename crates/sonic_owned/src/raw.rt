// The text of one value, which isn't opened.
ghost use Rattle.std.specs.Prelude.{◌≡◌};
ghost use Rattle.sonic_lazy.specs.LazyValues.{raw_bytes};
ghost use Rattle.sonic_lazy.specs.Wholes.{IsWholeValue};

use sonic_input::{FastStr, JsonSlice};
use sonic_lazy::LazyValue;

// The text of one value in UTF-8, from end to end, and whether that is a string with a backslash.
#[derive(Drop)]
pub(crate) struct RawValue {
    pub(crate) text: FastStr,
    pub(crate) has_escaped: bool,
    ghost whole: { ∥ IsWholeValue text has_escaped ∥₁ },
}

impl RawValue {
    // The value, as it is read.
    pub(crate) fn as_lazy(&self) -> LazyValue<'_>
        ensures { raw_bytes result ≡ self.now.text }
    {
        LazyValue::whole(JsonSlice::from(&self.text), self.has_escaped)
    }
}
