//! A buffer before a sink, in which short pieces are put together.
ghost use Rattle.std.specs.Prelude.{◌≤◌, vec_len};

use crate::sink::Sink;
use crate::source::Failed;
use crate::writing::write_all;

/// Room for bytes that are still to be written, so that a sink takes many short pieces in one call.
///
/// A piece that is longer than the room goes to the sink without a copy, and so does each piece where
/// there is no room.
#[derive(Debug, Drop)]
pub struct Buffer {
    room: Vec<u8>,
    filled: usize,
    ghost within: { filled ≤ vec_len room },
}

impl Buffer {
    ghost use Rattle.std.specs.Prelude.{◌≡◌, ◌++◌, ◌+◌, ◌≤◌, [], length, vec_len, OnOk, OnErr};
    ghost use Rattle.sonic_io.specs.Buffers.{held, IsWritten};
    ghost use Rattle.sonic_io.specs.Outside.{Rose, Took, TookPrefix};

    /// A buffer in this room, that holds nothing. It takes no memory, now or later.
    ///
    /// It holds as many bytes as the room has, whatever they are.
    pub fn new(room: Vec<u8>) -> Buffer
        ensures { held result ≡ [] }
    {
        Buffer { room, filled: 0 }
    }

    /// Writes a piece after what is held, or holds it too.
    ///
    /// The first fault ends the writing, and what the sink took before it stays written. In a room of
    /// four bytes the pieces `[1`, `,` and `23` are held up to the second, and `[1,` is written before
    /// the third is held.
    #[inline(always)]
    pub fn write<K: Sink>(&mut self, sink: &mut K, piece: &[u8]) -> Result<(), Failed>
        ensures { IsWritten K.Sink (sink.old, self.old) (sink.new, self.new) piece.now result }
    {
        if piece.len() <= self.room.len() - self.filled {
            self.hold(piece);
            return Ok(());
        }
        self.write_over(sink, piece)
    }

    // The same of a piece for which what is held leaves no room, so that `write` stays short.
    #[inline(never)]
    fn write_over<K: Sink>(&mut self, sink: &mut K, piece: &[u8]) -> Result<(), Failed>
        ensures { IsWritten K.Sink (sink.old, self.old) (sink.new, self.new) piece.now result }
    {
        self.flush(sink)?;
        if piece.len() < self.room.len() {
            self.hold(piece);
            return Ok(());
        }
        write_all(sink, piece)
    }

    /// Writes what is held. Nothing held is no call.
    ///
    /// The first fault ends the writing, and what the sink took before it stays written. The sink isn't
    /// finished. Of `[1,` over a sink that takes two bytes in one call it makes two calls.
    pub fn flush<K: Sink>(&mut self, sink: &mut K) -> Result<(), Failed>
        ensures all { OnOk result (Took (K.written sink.old) (K.written sink.new) (held self.old)) }
        ensures empty { OnOk result (held self.new ≡ []) }
        ensures prefix { OnErr result (TookPrefix (K.written sink.old) (K.written sink.new) (held self.old)) }
        ensures calm { OnOk result (K.faults sink.new ≡ K.faults sink.old) }
        ensures cause { OnErr result (Rose (K.faults sink.old) (K.faults sink.new)) }
    {
        write_all(sink, &self.room[..self.filled])?;
        self.filled = 0;
        Ok(())
    }

    // Puts a piece after what is held.
    #[inline(always)]
    fn hold(&mut self, piece: &[u8])
        requires { self.old.filled + length piece.now ≤ vec_len self.old.room }
        ensures { held self.new ≡ held self.old ++ piece.now }
    {
        let end = self.filled + piece.len();
        self.room[self.filled..end].copy_from_slice(piece);
        self.filled = end;
    }
}
