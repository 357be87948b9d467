// What each prefix of a tree had last, where a key leads on in whole objects alone.
ghost use Rattle.std.specs.Prelude.{◌≡◌, ◌≢◌, Some, None};

use sonic_parser::ValueSpan;

// The value to which a prefix led last.
//
// It counts where it lies in the value that counts of the prefix before it. Places only rise, so that
// is where it begins after that one, and no mark has to be taken back.
#[derive(Clone, Copy)]
pub(crate) struct Mark {
    pub(crate) value: ValueSpan,
    // Whether it is a container, with items, of the kind in which the prefix goes on.
    pub(crate) has_items: bool,
    // The quote of the second member with the prefix's last key, where that is refused.
    pub(crate) again: Option<usize>,
}

impl Mark {
    // The mark of a prefix that led nowhere yet: it begins nowhere inside a value.
    pub(crate) fn none() -> Mark
        ensures { result.value.start ≡ 0 }
    {
        Mark::passed(ValueSpan::plain(0, 0), false)
    }

    // The mark of a value that was passed.
    pub(crate) fn passed(value: ValueSpan, has_items: bool) -> Mark
        ensures { result ≡ record { value = value; has_items = has_items; again = None } }
    {
        Mark {
            value,
            has_items,
            again: None,
        }
    }

    // The mark, once its key came again at this quote, unless it did before.
    pub(crate) fn repeated_at(self, quote: usize) -> Mark
        ensures value { result.value ≡ self.value }
        ensures first { self.again ≡ None → result.again ≡ Some quote }
        ensures later { self.again ≢ None → result.again ≡ self.again }
    {
        match self.again {
            None => Mark {
                again: Some(quote),
                ..self
            },
            Some(_) => self,
        }
    }
}
