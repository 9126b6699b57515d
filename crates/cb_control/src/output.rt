//! Writing a whole piece to a sink.

ghost use Rattle.std.specs.Prelude.{◌≡◌, true, OnOk, OnErr, IsOkUnless};
ghost use Rattle.std.specs.Io.KnownBytes.{Appends};
ghost use Rattle.cb_control.specs.declared.ending.Halt.TheVariants.{WriteFailed};

use crate::ending::Halt;
use cb_base::Sink;

/// Writes all of a piece. Fails only with `Halt::WriteFailed`: a write failed or took no byte. A
/// beginning of the piece may have been written then, and the sink has failed.
pub fn write_all<W: Sink>(writer: &mut W, piece: &[u8]) -> Result<(), Halt>
    ensures written { OnOk result
        (Appends (W.contents writer.old) (W.contents writer.new) piece.now) }
    ensures failed { IsOkUnless result WriteFailed }
    ensures marked { OnErr result (W.has_failed writer.new ≡ true) }
    ensures stays { W.has_failed writer.old ≡ true → W.has_failed writer.new ≡ true }
{
    cb_base::write_all(writer, piece).map_err(|_| Halt::WriteFailed)
}
