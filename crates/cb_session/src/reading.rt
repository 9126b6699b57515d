//! Reads a peer's stream to its end, piece by piece.
ghost use Rattle.std.specs.Prelude.{◌≡◌, ◌≤◌, ◌++◌, ℕ, List, [], length, IfOk, IfErr, OnOk, OnErr};
ghost use Rattle.std.specs.Io.KnownBytes.{Consumes};
ghost use Rattle.cb_base.specs.declared.read_end.ReadEnd.{ReadEnd};
ghost use Rattle.cb_session.specs.Reading.{SourceEndsSo};

use crate::read_from::ReadFrom;
use cb_base::{ReadEnd, Source};

/// The most bytes in one read.
pub(crate) const READ_SIZE: usize = 65_536;

/// The most reads of one source.
const TURNS: u64 = 1 << 40;

/// What takes the pieces of a stream.
pub(crate) trait TakesPieces {
    /// It can take a piece.
    ghost is_ready: { Self → Type 0 };

    /// The second is the first after it took these bytes.
    ghost took: { Self → List ℕ → Self → Type 0 };

    /// The second is the first after it ended reading with these bytes, for this reason.
    ghost ended: { Self → List ℕ → ReadEnd → Self → Type 0 };

    /// Takes the next piece. The error tells that it takes no more, and why.
    fn take(&mut self, piece: &[u8]) -> Result<(), ReadEnd>
        requires ready { is_ready self.old }
        requires some { 1 ≤ length piece.now }
        requires limit { length piece.now ≤ 65536 }
        ensures ready { OnOk result (is_ready self.new) }
        ensures took { OnOk result ((from : Self) (bytes : List ℕ) → took from bytes self.old →
            took from (bytes ++ piece.now) self.new) }
        ensures ended { IfErr result (λ end. (from : Self) (bytes : List ℕ) →
            took from bytes self.old → ended from (bytes ++ piece.now) end self.new) };
}

/// Reads a source to its end and gives each piece to `taker`. Notes the bytes that were read.
///
/// The result is why the source was read no further: `Eof` if it ended, `Fault` if a read failed,
/// and `Turns` after 2^40 reads. The error is why `taker` takes no more.
pub(crate) fn read_pieces<S: Source, T: TakesPieces>(
    reader: &mut S,
    buffer: &mut [u8],
    bytes: &mut ReadFrom<S>,
    taker: &mut T,
) -> Result<ReadEnd, ReadEnd>
    requires buffer { length buffer.old ≡ 65536 }
    requires first { bytes.old ≡ [] }
    requires ready { T.is_ready taker.old }
    requires start { T.took taker.old [] taker.old }
    ensures consumed { Consumes (S.remaining reader.old) (S.remaining reader.new) bytes.new }
    ensures ready { OnOk result (T.is_ready taker.new) }
    ensures took { OnOk result (T.took taker.old bytes.new taker.new) }
    ensures source { IfOk result (λ why. SourceEndsSo why (S.remaining reader.new)
        (S.has_failed reader.old) (S.has_failed reader.new) bytes.new) }
    ensures ended { IfErr result (λ end. T.ended taker.old bytes.new end taker.new) }
    ensures unfailed { OnErr result (S.has_failed reader.new ≡ S.has_failed reader.old) }
{
    for _ in 0..TURNS {
        match reader.read(buffer) {
            None => return Ok(ReadEnd::Fault),
            Some(0) => return Ok(ReadEnd::Eof),
            Some(given) => {
                let (piece, _) = buffer.split_at(given);
                bytes.add(piece);
                taker.take(piece)?;
            }
        }
    }
    Ok(ReadEnd::Turns)
}
