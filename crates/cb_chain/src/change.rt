ghost use Rattle.std.specs.Prelude.{◌≡◌};

use cb_base::Hash256;
use std::marker::Model;

/// A list of block hashes. Contracts see it as the list.
#[derive(Drop)]
pub struct Hashes {
    list: Vec<Hash256>,
}

impl Model for Hashes {
    ghost use Rattle.std.specs.Prelude.{List};
    ghost use Rattle.cb_base.specs.declared.hash.Hash256.{Hash256};

    ghost Value = { List Hash256 };

    ghost view = { λ hashes. hashes.list.items };
}

impl Hashes {
    /// Wraps a list.
    pub fn new(list: Vec<Hash256>) -> Hashes
        ensures { result ≡ list.items }
    {
        Hashes { list }
    }

    /// The hashes in order.
    pub fn as_slice(&self) -> &[Hash256]
        ensures { result.now ≡ self.now }
    {
        self.list.as_slice()
    }

    /// Gives out the list.
    pub fn into_vec(self) -> Vec<Hash256>
        ensures { result.items ≡ self }
    {
        self.list
    }
}

/// How a block changed the active chain. Both lists are empty if it didn't.
#[derive(Drop)]
pub struct Change {
    /// The disconnected blocks, from the old tip down.
    pub off: Hashes,
    /// The connected blocks, from the lowest above the fork up to the new tip.
    pub on: Hashes,
}
