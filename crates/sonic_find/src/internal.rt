// What the crates above need, and no user of this one: it is public, and proved, and no page shows it.
pub use crate::answer::locate_many;
pub use crate::buffers::{fill_buffers, fill_each_buffers};
pub use crate::cursor::Cursor;
pub use crate::document::pass_alone;
pub use crate::each::locate_each;
pub use crate::many_unchecked::value_span;
pub use crate::path::{locate, locate_from};
pub use crate::utf8::check;
