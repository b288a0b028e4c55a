//! Writing a whole piece, where it is known that no count of faults stands at its end.

ghost use Rattle.std.specs.Prelude.{◌<◌, ◌-◌, ◌^◌};
ghost use Rattle.harec_core.specs.Outside.{Writes, sent};

use hx_io::{Failed, Sink, write_all};

/// Writes all of the piece, in as many writes as it takes; where one fails, a front of it was written.
pub fn write<O: Sink>(out: &mut O, piece: &[u8]) -> Result<(), Failed>
    requires { O.faults out.old < 2 ^ 64 - 1 }
    ensures { Writes piece.now (sent (O.faults out.old) (O.faults out.new) (O.written out.old) (O.written out.new)) result }
{
    write_all(out, piece)?;
    Ok(())
}
