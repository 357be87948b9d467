ghost use Rattle.std.specs.Prelude.{◌≡◌};
ghost use Rattle.sonic_stream.specs.declared.stream.NextRecord.{NextRecord};
ghost use Rattle.sonic_stream.specs.Streams.{Stream, IsNextRecord};

/// The law of streams, for every stream: it has one next answer, and it is one stream afterwards.
///
/// So of `[1` the one answer is `NeedsMore`, and after `finish` it is `Cut`. It is never `Wrong`.
pub fn stream_has_one_next()
    ensures { (s a b : Stream) (x y : NextRecord) → IsNextRecord s a x → IsNextRecord s b y → (x ≡ y) × (a ≡ b) }
{}
