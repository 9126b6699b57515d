ghost use Rattle.std.specs.Prelude.{◌≡◌, ◌++◌, ◌∷◌, ℕ, List, []};
ghost use Rattle.std.specs.Borrow.{ftrue};

use crate::socket::SocketBytes;
use std::marker::Model;

/// The bytes of connections, in proofs alone: it takes no memory, and nothing is done with it when
/// it runs.
#[derive(Drop)]
pub(crate) struct Roll {
    pub ghost connections: { List (List ℕ) },
}

impl Model for Roll {
    ghost also_owns = { λ _. ftrue };
}

// A struct with `also_owns` has neither by itself. This one owns nothing.
unsafe impl Send for Roll {}

unsafe impl Sync for Roll {}

impl Roll {
    /// No connection.
    pub(crate) fn new() -> Roll
        ensures { result.connections ≡ [] }
    {
        Roll {}
    }

    /// One more connection gave these bytes.
    pub(crate) fn with(&self, _bytes: &SocketBytes) -> Roll
        ensures { result.connections ≡ self.now.connections ++ _bytes.now ∷ [] }
    {
        Roll {}
    }
}

/// What the sockets of a slot gave, one connection after another: of each connection the bytes of
/// its reads. It exists in proofs alone: it takes no memory. Contracts see the lists.
#[derive(Drop)]
pub struct SlotBytes {
    roll: Roll,
}

impl Model for SlotBytes {
    ghost use Rattle.std.specs.Prelude.{ℕ, List};

    ghost Value = { List (List ℕ) };

    ghost view = { λ slot. slot.roll.connections };
}

impl SlotBytes {
    /// No connection was read yet.
    pub fn nothing() -> SlotBytes
        ensures { result ≡ [] }
    {
        SlotBytes { roll: Roll::new() }
    }

    /// One more connection was read, whose socket gave these bytes.
    pub fn add(&mut self, bytes: &SocketBytes)
        ensures { self.new ≡ self.old ++ bytes.now ∷ [] }
    {
        self.roll = self.roll.with(bytes);
    }
}
