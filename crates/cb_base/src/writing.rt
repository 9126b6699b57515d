ghost use Rattle.std.specs.Prelude.{◌≡◌, ◌<◌, true, false, [], length, take, OnOk, OnErr, IfErr, IsOk};
ghost use Rattle.std.specs.Io.KnownBytes.{Appends};
ghost use Rattle.cb_base.specs.Bytes.{first};

use crate::sink::{Sink, SinkFailure};
use thiserror::Error;

/// How far writing a piece came, and why it stopped.
#[derive(Clone, Copy, Debug, PartialEq, Eq, Error)]
#[error("{failure} behind {taken} bytes")]
pub struct Unwritten {
    /// How many bytes were taken.
    pub taken: usize,
    /// Why no more were taken.
    pub failure: SinkFailure,
}

/// Writes all of a piece, in as many writes as the sink needs. An empty piece makes no write and
/// can't fail.
///
/// The error tells how many bytes were taken, from the start of the piece, and why it stopped:
/// `SinkFailure::Io` if a write failed, `SinkFailure::Zero` if a write took no byte. That is always
/// fewer bytes than the piece has, and the sink has failed.
pub fn write_all<W: Sink>(writer: &mut W, piece: &[u8]) -> Result<(), Unwritten>
    ensures ok { OnOk result (Appends (W.contents writer.old) (W.contents writer.new) piece.now) }
    ensures err { IfErr result
        (λ end. Appends (W.contents writer.old) (W.contents writer.new)
        (take end.taken piece.now)) }
    ensures short { IfErr result (λ end. end.taken < length piece.now) }
    ensures cause { IfErr result
        (λ end. W.failure writer.new ≡ first (W.failure writer.old) end.failure) }
    ensures unfailed { OnOk result (W.failure writer.new ≡ W.failure writer.old) }
    ensures marked { OnErr result (W.has_failed writer.new ≡ true) }
    ensures unmarked { OnOk result (W.has_failed writer.new ≡ W.has_failed writer.old) }
    ensures stays { W.has_failed writer.old ≡ true → W.has_failed writer.new ≡ true }
    // If the sink hadn't failed before, no write follows a failed one.
    ensures heeds { W.has_failed writer.old ≡ false → W.heeds_failure writer.old writer.new }
    // An empty piece makes no write.
    ensures nothing { piece.now ≡ [] → IsOk result }
    ensures untouched { piece.now ≡ [] → writer.new ≡ writer.old }
{
    let mut rest = piece;
    while !rest.is_empty() {
        let taken = piece.len() - rest.len();
        match writer.write(rest) {
            None => {
                return Err(Unwritten {
                    taken,
                    failure: SinkFailure::Io,
                });
            }
            Some(0) => {
                return Err(Unwritten {
                    taken,
                    failure: SinkFailure::Zero,
                });
            }
            Some(more) => {
                let (_, after) = rest.split_at(more);
                rest = after;
            }
        }
    }
    Ok(())
}
