ghost use Rattle.std.specs.Prelude.{◌≡◌, ℕ, ◌≤◌, ◌||◌, Bool, true, false, List, Option, None, IfSome, length, is_some, refl};
ghost use Rattle.cb_base.specs.Bytes.{SinkTakes, failure_after, is_refusal, refusal};
ghost use Rattle.cb_base.specs.declared.sink.SinkFailure.{SinkFailure};

use std::io::{ErrorKind, Write};
use thiserror::Error;

/// How many times one read or write is tried while it is interrupted (EINTR). After that it counts
/// as failed.
pub const TRIES: u64 = 1 << 40;

/// How a sink failed.
#[derive(Clone, Copy, Debug, PartialEq, Eq, Error)]
pub enum SinkFailure {
    /// A write failed.
    #[error("a write failed")]
    Io,
    /// A write of at least one byte took none.
    #[error("a write took no byte")]
    Zero,
}

/// A writer that remembers whether a write has failed.
pub trait Sink {
    /// The bytes that the sink holds, if they are known.
    ghost contents: { Self → Option (List ℕ) };

    /// Whether a write has failed.
    ghost has_failed: { Self → Bool };

    /// The first failure, if there is one.
    ghost failure: { Self → Option SinkFailure };

    /// Between the first state of a sink and the second, no write was made after a failed one.
    ghost heeds_failure: { Self → Self → Type 0 };

    /// Writes from the start of `piece` and returns how many bytes were taken, or None if the write
    /// failed. The sink has failed too if it took none of a piece that isn't empty.
    fn write(&mut self, piece: &[u8]) -> Option<usize>
        ensures taken { IfSome result (λ n. n ≤ length piece.now) }
        ensures bytes { SinkTakes (contents self.old) (contents self.new) result piece.now }
        ensures failed { has_failed self.new
            ≡ (has_failed self.old || is_refusal result piece.now) }
        ensures cause { failure self.new ≡ failure_after (failure self.old) result piece.now }
        ensures heeds { has_failed self.old ≡ false → heeds_failure self.old self.new };

    /// Whether a write has returned None, or has taken none of a piece that isn't empty.
    fn failed(&self) -> bool
        ensures { result ≡ has_failed self.now };

    /// A sink has failed exactly if it has a first failure.
    ghost agrees: { (sink : Self) → has_failed sink ≡ is_some (failure sink) };

    /// It holds if nothing was written.
    ghost heeds_none: { (a : Self) → heeds_failure a a };

    /// If it holds from a to b and from b to c, it holds from a to c.
    ghost heeds_then: { (a b c : Self) → heeds_failure a b → heeds_failure b c
        → heeds_failure a c };
}

/// A sink over any writer. A write that was interrupted is tried again, up to `TRIES` tries in all.
#[derive(Drop)]
pub struct Out<W> {
    writer: W,
    failure: Option<SinkFailure>,
}

impl<W> Out<W> {
    /// A sink over `writer` that hasn't failed.
    pub fn new(writer: W) -> Out<W>
        ensures writer { result.writer ≡ writer }
        ensures unfailed { result.failure ≡ None }
    {
        Out {
            writer,
            failure: None,
        }
    }

    /// Gives the writer back.
    pub fn into_inner(self) -> W
        ensures { result ≡ self.writer }
    {
        let Out { writer, failure: _ } = self;
        writer
    }
}

impl<W: Write> Sink for Out<W> {
    ghost use Rattle.std.proofs.Common.{ap, ◌∙◌};

    ghost contents = { λ out. W.contents out.writer };

    ghost has_failed = { λ out. is_some out.failure };

    ghost failure = { λ out. out.failure };

    // After a failure, the sink and its writer stay as they are.
    ghost heeds_failure = { λ old new. is_some old.failure ≡ true → new ≡ old };

    ghost agrees = { λ out. refl };

    ghost heeds_none = { λ out h. refl };

    ghost heeds_then = { λ a b c h k failed. k (ap (λ out. is_some out.failure) (h failed) ∙ failed)
        ∙ h failed };

    fn write(&mut self, piece: &[u8]) -> Option<usize> {
        let taken = write_again(&mut self.writer, piece);
        if self.failure.is_none() {
            self.failure = failure_of(taken, piece);
        }
        taken
    }

    fn failed(&self) -> bool {
        self.failure.is_some()
    }
}

/// The failure that a write's result means, if it means one.
fn failure_of(taken: Option<usize>, piece: &[u8]) -> Option<SinkFailure>
    ensures { result ≡ refusal taken piece.now }
{
    match taken {
        None => Some(SinkFailure::Io),
        Some(0) if !piece.is_empty() => Some(SinkFailure::Zero),
        Some(_) => None,
    }
}

/// Writes once, and again while the write is interrupted. None if a write failed, or was
/// interrupted `TRIES` times.
fn write_again<W: Write>(writer: &mut W, piece: &[u8]) -> Option<usize>
    ensures taken { IfSome result (λ n. n ≤ length piece.now) }
    ensures bytes { SinkTakes (W.contents writer.old) (W.contents writer.new) result piece.now }
{
    for _ in 0..TRIES {
        match writer.write(piece) {
            Ok(n) => return Some(n),
            Err(error) => {
                if error.kind() != ErrorKind::Interrupted {
                    return None;
                }
            }
        }
    }
    None
}
