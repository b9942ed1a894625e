ghost use Rattle.std.specs.Prelude.{◌≤◌, ℕ, take, OnOk, OnErr};
ghost use Rattle.std.specs.Io.KnownBytes.{Appends};
ghost use Rattle.agg_streams.specs.Causes.{Rose};

use super::Sink;
use crate::fault::Failed;

/// Writes all bytes, piece by piece.
pub fn write_all<W: Sink>(sink: &mut W, bytes: &[u8]) -> Result<(), Failed>
    ensures ok { OnOk result (Appends (W.contents sink.old) (W.contents sink.new) bytes.now) }
    ensures err { OnErr result
        ((count : ℕ) × Appends (W.contents sink.old) (W.contents sink.new) (take count bytes.now)) }
    ensures fault { OnErr result (Rose (W.faults sink.old) (W.faults sink.new)) }
    ensures later { W.faults sink.old ≤ W.faults sink.new }
{
    let mut rest = bytes;
    while !rest.is_empty() {
        let count = sink.write(rest)?;
        rest = &rest[count..];
    }
    Ok(())
}
