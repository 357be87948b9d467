ghost use Rattle.std.specs.Prelude.{◌≡◌, ◌+◌, ◌++◌, ℕ, List, length};
ghost use Rattle.std.specs.List.{concat};
ghost use Rattle.sonic_find.specs.Laws.{ExactlyOne};
ghost use Rattle.sonic_lines.specs.LineRows.{AreRows, Columns};
ghost use Rattle.sonic_lines.specs.Pieces.{AreFed, begun};
ghost use Rattle.sonic_lines.specs.Streams.{EndsLines, lines_of};

/// The law of rows, for every stream, however many lines there were before it, and all columns: it has its
/// rows, and no others.
pub fn stream_has_its_rows()
    ensures { (columns : Columns) (n : ℕ) (stream : List ℕ) → ExactlyOne (AreRows columns n stream) }
{}

/// The law of two streams, of which the first ends with a line feed or is empty: the rows of both
/// together are those of the first and then those of the second, whose lines count on.
pub fn rows_join()
    ensures on { (columns : Columns) (n : ℕ) (a b xs ys : List ℕ) → EndsLines a → AreRows columns n a xs
        → AreRows columns (n + length (lines_of a)) b ys → AreRows columns n (a ++ b) (xs ++ ys) }
    ensures back { (columns : Columns) (n : ℕ) (a b zs : List ℕ) → EndsLines a → AreRows columns n (a ++ b) zs
        → (xs : List ℕ) × (ys : List ℕ) × AreRows columns n a xs × AreRows columns (n + length (lines_of a)) b ys × (zs ≡ xs ++ ys) }
{}

/// The law of pieces: however a stream is cut, its rows are those of the whole.
pub fn pieces_have_no_part()
    ensures { (columns : Columns) (pieces : List (List ℕ)) (rows : List ℕ) → AreFed (begun columns) pieces rows
        → AreRows columns 0 (concat pieces) rows }
{}
