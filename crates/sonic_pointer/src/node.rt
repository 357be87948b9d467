// The steps of a path.
ghost use Rattle.std.specs.Prelude.{◌≡◌, ◌≢◌, true, false};

use sonic_input::FastStr;

/// One step of a path: a key of an object, or an index of an array.
///
/// It is made from `usize`, `&usize`, `&str`, `&String` and `&FastStr`. A key is borrowed. Keys
/// come before indexes in the order of nodes, and keys go by their bytes.
#[derive(Clone, Copy, PartialEq, Eq, PartialOrd, Ord, Hash, Debug)]
pub enum PointerNode<'p> {
    Key(&'p str),
    Index(usize),
}

impl<'p> PointerNode<'p> {
    ghost use Rattle.std.specs.Prelude.{◌≡◌, ◌≢◌, true, false, IfSome, IfNone};
    ghost use Rattle.sonic_text.specs.Paths.{key, index};
    ghost use Rattle.sonic_pointer.specs.Nodes.{node_of, is_key};

    /// The key, or `None` for an index.
    ///
    /// `PointerNode::Key("a").as_key()` is `Some("a")`.
    pub fn as_key(&self) -> Option<&'p str>
        ensures some { IfSome result (λ text. node_of self.now ≡ key text.now) }
        ensures none { IfNone result (is_key (node_of self.now) ≡ false) }
    {
        match self {
            PointerNode::Key(text) => Some(*text),
            PointerNode::Index(_) => None,
        }
    }

    /// The index, or `None` for a key.
    ///
    /// `PointerNode::Index(1).as_index()` is `Some(1)`.
    pub fn as_index(&self) -> Option<usize>
        ensures some { IfSome result (λ number. node_of self.now ≡ index number) }
        ensures none { IfNone result (is_key (node_of self.now) ≡ true) }
    {
        match self {
            PointerNode::Key(_) => None,
            PointerNode::Index(number) => Some(*number),
        }
    }

    pub(crate) fn is_key(&self) -> bool
        ensures { result ≡ is_key (node_of self.now) }
    {
        match self {
            PointerNode::Key(_) => true,
            PointerNode::Index(_) => false,
        }
    }

    // Whether it is the key of these bytes.
    #[inline(always)]
    pub(crate) fn is_key_of(&self, bytes: &[u8]) -> bool
        ensures same { result ≡ true → node_of self.now ≡ key bytes.now }
        ensures other { result ≡ false → node_of self.now ≢ key bytes.now }
    {
        match self {
            PointerNode::Key(text) => are_same(text.as_bytes(), bytes),
            PointerNode::Index(_) => false,
        }
    }
}

// Whether two lists of bytes are the same, of which most have few bytes.
#[inline(always)]
fn are_same(left: &[u8], right: &[u8]) -> bool
    ensures same { result ≡ true → left.now ≡ right.now }
    ensures other { result ≡ false → left.now ≢ right.now }
{
    if left.len() != right.len() {
        return false;
    }
    let mut n = 0;
    while n < left.len() {
        if left[n] != right[n] {
            return false;
        }
        n += 1;
    }
    true
}

impl<'p> From<usize> for PointerNode<'p> {
    ghost use Rattle.std.specs.Prelude.{◌≡◌};
    ghost use Rattle.sonic_text.specs.Paths.{index};
    ghost use Rattle.sonic_pointer.specs.Nodes.{node_of};

    ghost from_gives = { λ number node. node_of node ≡ index number };

    fn from(number: usize) -> Self {
        PointerNode::Index(number)
    }
}

impl<'p> From<&usize> for PointerNode<'p> {
    ghost use Rattle.std.specs.Prelude.{◌≡◌};
    ghost use Rattle.sonic_text.specs.Paths.{index};
    ghost use Rattle.sonic_pointer.specs.Nodes.{node_of};

    ghost from_gives = { λ number node. node_of node ≡ index number.now };

    fn from(number: &usize) -> Self {
        PointerNode::Index(*number)
    }
}

impl<'p> From<&'p str> for PointerNode<'p> {
    ghost use Rattle.std.specs.Prelude.{◌≡◌};
    ghost use Rattle.sonic_text.specs.Paths.{key};
    ghost use Rattle.sonic_pointer.specs.Nodes.{node_of};

    ghost from_gives = { λ text node. node_of node ≡ key text.now };

    fn from(text: &'p str) -> Self {
        PointerNode::Key(text)
    }
}

impl<'p> From<&'p String> for PointerNode<'p> {
    ghost use Rattle.std.specs.Prelude.{◌≡◌, string_bytes};
    ghost use Rattle.sonic_text.specs.Paths.{key};
    ghost use Rattle.sonic_pointer.specs.Nodes.{node_of};

    ghost from_gives = { λ text node. node_of node ≡ key (string_bytes text.now) };

    fn from(text: &'p String) -> Self {
        PointerNode::Key(text.as_str())
    }
}

impl<'p> From<&'p FastStr> for PointerNode<'p> {
    ghost use Rattle.std.specs.Prelude.{◌≡◌};
    ghost use Rattle.sonic_text.specs.Paths.{key};
    ghost use Rattle.sonic_pointer.specs.Nodes.{node_of};

    ghost from_gives = { λ text node. node_of node ≡ key text.now };

    fn from(text: &'p FastStr) -> Self {
        PointerNode::Key(text.as_str())
    }
}
