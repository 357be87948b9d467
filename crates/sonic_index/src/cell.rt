// The entries as they are kept: four words of 32 bits each.
ghost use Rattle.std.specs.Prelude.{◌≡◌, ◌^◌, ◌<◌};

// What is kept of an entry. Its type, and the kind of its label, are read from the text.
#[derive(Clone, Copy)]
pub(crate) struct Cell {
    pub(crate) start: u32,
    pub(crate) end: u32,
    pub(crate) parent: u32,
    // Of a member where its key begins, of an element how many come before it.
    pub(crate) label: u32,
}

impl Cell {
    // A value that begins at a place, in the one with this number. Its end is not known.
    #[inline(always)]
    pub(crate) fn begun(start: usize, parent: usize, label: usize) -> Cell
        requires start { start < 2 ^ 32 }
        requires parent { parent < 2 ^ 32 }
        requires label { label < 2 ^ 32 }
        ensures { result ≡ record { start = start; end = 0; parent = parent; label = label } }
    {
        Cell {
            start: start as u32,
            end: 0,
            parent: parent as u32,
            label: label as u32,
        }
    }

    // The same value, which ends at a place.
    #[inline(always)]
    pub(crate) fn ended(self, end: usize) -> Cell
        requires { end < 2 ^ 32 }
        ensures { result ≡ record self { end = end } }
    {
        Cell {
            start: self.start,
            end: end as u32,
            parent: self.parent,
            label: self.label,
        }
    }
}
