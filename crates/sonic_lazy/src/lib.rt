//! Lazy values, as paths find them in a text or one by one in a container, and what they are.
//!
//! Where paths lead, as spans alone, is said by `sonic_find`, whose `PathOutcome`, `Span`,
//! `find_many_unchecked` and `validate` stand here too.
#![tactic(auto)]

// What a container holds, as the collections of its kind of value.
mod container_trait;
// The value that a text is.
mod document;
// Where each of many paths leads, whatever the others lead to.
mod each;
// One item of a container after the other.
mod items;
// How far an iterator has come in its container.
mod iteration;
// Iterators over the items of a container.
mod iterator;
// The laws of items, and of numbers by their text.
mod law;
// One value that was found in a text and isn't read yet.
mod lazyvalue;
// What many paths find in an input.
mod many;
// What many paths find in an input that is known to begin with a value.
mod many_unchecked;
// What one path finds in an input, without a tree.
mod one;
// Numbers that keep their text.
mod rawnumber;
// What paths find in an input that is known to begin with a value.
mod unchecked;
// What a value is, as far as its own first level says.
mod value_trait;
// What paths find in a lazy value.
mod within;

pub use container_trait::JsonContainerTrait;
pub use document::from_str;
pub use each::{get_each, get_each_with};
pub use iterator::{
    ArrayJsonIter, ObjectJsonIter, to_array_iter, to_array_iter_unchecked, to_object_iter,
    to_object_iter_unchecked,
};
pub use law::{
    container_has_one_listing, document_is_one_number_or_has_one_reason,
    items_of_a_value_are_closed, utf8_has_the_same_items,
};
pub use lazyvalue::LazyValue;
pub use many::{get_many, get_many_with};
pub use many_unchecked::get_many_unchecked;
pub use one::{get, get_from_bytes, get_from_faststr, get_from_slice, get_from_str};
pub use rawnumber::RawNumber;
pub use sonic_find::{PathOutcome, Span, find_many_unchecked, validate};
pub use unchecked::{
    get_from_bytes_unchecked, get_from_faststr_unchecked, get_from_slice_unchecked,
    get_from_str_unchecked, get_unchecked,
};
pub use value_trait::{JsonValueTrait, scalar_is_that_of_the_tree};
