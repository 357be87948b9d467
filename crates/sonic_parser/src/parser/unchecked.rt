// The calls that pass what is known to be whole.
ghost use Rattle.std.specs.Prelude.{◌≡◌, ◌^◌, ◌<◌, true, false};
ghost use Rattle.sonic_parser.specs.Containers.{GoesOn, IsEnd, IsSeparated};
ghost use Rattle.sonic_parser.specs.Parsers.{moved, value_start, HasKey, HasValue, IsSkipped, IsKeyPassed, IsPassed};

use super::Parser;
use crate::container::AfterItem;
use crate::status::ParseStatus;
use crate::unchecked::{whole_key, whole_next, whole_value};
use crate::value_span::ValueSpan;
use sonic_text::Kind;

impl<'de> Parser<'de> {
    /// Goes on after an item as `next_item` does, where a comma or the closing bracket is known to
    /// come.
    ///
    /// After the `1` of `[1 , 2]` the cursor moves to the `2`.
    #[inline]
    pub fn next_item_unchecked(&mut self, kind: Kind) -> bool
        requires { GoesOn self.old.text kind self.old.place }
        ensures item { result ≡ true → IsSeparated self.old.text self.old.place self.new.place }
        ensures end { result ≡ false → IsEnd self.old.text kind self.old.place self.new.place }
        ensures moved { self.new ≡ moved self.old self.new.place }
        ensures fits { self.new.place < 2 ^ 64 }
    {
        match whole_next(self.read.as_u8_slice(), self.read.index(), kind) {
            AfterItem::Item(next) => {
                self.read.set_index(next);
                true
            }
            AfterItem::End(end) => {
                self.read.set_index(end);
                false
            }
        }
    }

    /// Passes the key that begins at the cursor as `key` does, where a key with a colon is known to be.
    ///
    /// Of `"a" : 1` the key is from 0 to 3, and the cursor moves to the `1`.
    #[inline]
    pub fn key_unchecked(&mut self) -> ValueSpan
        requires { HasKey self.old }
        ensures ok { IsKeyPassed self.old self.new result }
        ensures moved { self.new ≡ moved self.old self.new.place }
    {
        let start = self.read.index();
        let (string, value) = whole_key(self.read.as_u8_slice(), start, self.lossy);
        self.read.set_index(value);
        ValueSpan::of_string(start, string)
    }

    /// Skips the value that begins at the cursor, which is known to be whole: as `skip_value` does,
    /// without memory, and without a second look at what is in it.
    ///
    /// The cursor moves past the value's last byte: from the start of `{"a":"}"},1` to the comma.
    /// Strings are passed up to their quotes, and only the brackets of the value's own kind are
    /// counted, which finds its end as RFC 8259 has it (sections 4, 5 and 7; the law is
    /// `value_balances`).
    #[inline(always)]
    pub fn skip_value_unchecked(&mut self) -> ValueSpan
        requires { HasValue self.old self.old.place }
        ensures ok { IsPassed self.old self.new result }
        ensures moved { self.new ≡ moved self.old self.new.place }
    {
        let start = self.read.index();
        let (end, escaped) = whole_value(self.read.as_u8_slice(), start, self.lossy);
        self.read.set_index(end);
        ValueSpan {
            start,
            end,
            escaped,
        }
    }

    /// Passes the value that is expected, which is known to be whole, and gives its text: as
    /// `skip_one` does, without memory, and without a second look at what is in it.
    ///
    /// Of ` [1, 2] x` the text is `[1, 2]`, with the cursor after it.
    pub fn skip_one_unchecked(&mut self) -> (&'de [u8], ParseStatus)
        requires { HasValue self.old (value_start self.old) }
        ensures { IsSkipped self.old self.new result.0.now result.1 }
    {
        self.skip_space_peek();
        let value = self.skip_value_unchecked();
        (
            self.read.slice(value.start, self.read.index()),
            value.status(),
        )
    }
}
