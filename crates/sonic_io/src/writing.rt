//! The loop that writes.
ghost use Rattle.std.specs.Prelude.{◌≡◌, OnOk, OnErr};
ghost use Rattle.sonic_io.specs.Outside.{Rose, Took, TookPrefix};

use crate::sink::Sink;
use crate::source::Failed;

/// Writes all of `bytes`, in as many calls as the sink needs. No bytes are no call.
///
/// The first fault ends the writing, and what the sink took before it stays written. The sink isn't
/// finished. Of the four bytes `[1]\n` over a sink that takes three in one call it makes two calls.
pub fn write_all<K: Sink>(sink: &mut K, bytes: &[u8]) -> Result<(), Failed>
    ensures all { OnOk result (Took (K.written sink.old) (K.written sink.new) bytes.now) }
    ensures prefix { OnErr result (TookPrefix (K.written sink.old) (K.written sink.new) bytes.now) }
    ensures calm { OnOk result (K.faults sink.new ≡ K.faults sink.old) }
    ensures cause { OnErr result (Rose (K.faults sink.old) (K.faults sink.new)) }
{
    let mut done = 0;
    while done < bytes.len() {
        let count = sink.write(&bytes[done..])?;
        done += count;
    }
    Ok(())
}
