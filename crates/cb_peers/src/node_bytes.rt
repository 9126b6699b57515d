ghost use Rattle.std.specs.Prelude.{◌≡◌, ◌++◌, ◌∷◌, ℕ, List, []};
ghost use Rattle.std.specs.Borrow.{ftrue};

use crate::slot_bytes::SlotBytes;
use std::marker::Model;

/// The bytes of slots, in proofs alone: it takes no memory, and nothing is done with it when it
/// runs.
#[derive(Drop)]
pub(crate) struct Rolls {
    pub ghost slots: { List (List (List ℕ)) },
}

impl Model for Rolls {
    ghost also_owns = { λ _. ftrue };
}

// A struct with `also_owns` has neither by itself. This one owns nothing.
unsafe impl Send for Rolls {}

unsafe impl Sync for Rolls {}

impl Rolls {
    /// No slot.
    pub(crate) fn new() -> Rolls
        ensures { result.slots ≡ [] }
    {
        Rolls {}
    }

    /// One more slot gave these.
    pub(crate) fn with(&self, _slot: &SlotBytes) -> Rolls
        ensures { result.slots ≡ self.now.slots ++ _slot.now ∷ [] }
    {
        Rolls {}
    }
}

/// What the sockets of a node gave: of each slot, in their order, the bytes of its connections. It
/// exists in proofs alone: it takes no memory. Contracts see the lists.
#[derive(Drop)]
pub struct NodeBytes {
    rolls: Rolls,
}

impl Model for NodeBytes {
    ghost use Rattle.std.specs.Prelude.{ℕ, List};

    ghost Value = { List (List (List ℕ)) };

    ghost view = { λ node. node.rolls.slots };
}

impl NodeBytes {
    /// No slot was left yet.
    pub fn nothing() -> NodeBytes
        ensures { result ≡ [] }
    {
        NodeBytes {
            rolls: Rolls::new(),
        }
    }

    /// One more slot was left, whose sockets gave these bytes.
    pub fn add(&mut self, slot: &SlotBytes)
        ensures { self.new ≡ self.old ++ slot.now ∷ [] }
    {
        self.rolls = self.rolls.with(slot);
    }
}
