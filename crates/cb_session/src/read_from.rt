ghost use Rattle.std.specs.Prelude.{◌≡◌, ◌++◌, []};

use crate::tape::{ReadBytes, Tape};
use std::marker::{Model, PhantomData};

/// The bytes that the reads of a source of this type gave, from its first read to its last.
/// Contracts see the bytes. It exists in proofs alone: it takes no memory.
///
/// Only `read_pieces` adds bytes to it, which knows its source by its contract alone.
#[derive(Drop)]
pub struct ReadFrom<S> {
    tape: Tape,
    source: PhantomData<S>,
}

impl<S> Model for ReadFrom<S> {
    ghost use Rattle.std.specs.Prelude.{ℕ, List};

    ghost Value = { List ℕ };

    ghost view = { λ read. read.tape.bytes };
}

impl<S> ReadFrom<S> {
    /// Nothing was read yet.
    pub fn nothing() -> ReadFrom<S>
        ensures { result ≡ [] }
    {
        ReadFrom {
            tape: Tape::new(),
            source: PhantomData,
        }
    }

    /// One more read gave these bytes.
    pub(crate) fn add(&mut self, piece: &[u8])
        ensures { self.new ≡ self.old ++ piece.now }
    {
        self.tape = self.tape.with(&ReadBytes { bytes: piece });
    }
}
