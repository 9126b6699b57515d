ghost use Rattle.std.specs.Prelude.{◌≡◌, ◌++◌, ℕ, List, []};
ghost use Rattle.std.specs.Borrow.{ftrue};

use std::marker::Model;

/// The bytes that were read of a stream. It exists in proofs alone: it takes no memory, and nothing
/// is done with it when it runs.
#[derive(Drop)]
pub(crate) struct Tape {
    pub ghost bytes: { List ℕ },
}

impl Model for Tape {
    ghost also_owns = { λ _. ftrue };
}

// A struct with `also_owns` has neither by itself. This one owns nothing.
unsafe impl Send for Tape {}

unsafe impl Sync for Tape {}

/// The bytes that one read gave.
#[derive(Clone, Copy, Drop)]
pub(crate) struct ReadBytes<'a> {
    pub bytes: &'a [u8],
}

impl Tape {
    /// Nothing was read.
    pub(crate) fn new() -> Tape
        ensures { result.bytes ≡ [] }
    {
        Tape {}
    }

    /// These were read behind the others.
    pub(crate) fn with(&self, _piece: &ReadBytes<'_>) -> Tape
        ensures { result.bytes ≡ self.now.bytes ++ _piece.now.bytes.now }
    {
        Tape {}
    }
}
