//! How a node came to a block.
ghost use Rattle.std.specs.Prelude.{◌≡◌, ◌⊎◌, ◌↔◌, Any, IsTrue};
ghost use Rattle.cb_wire.specs.declared.inventory.Inventory.TheVariants as inventory;
ghost use Rattle.cb_net_node.specs.Ways.{AsksForBlock, AsksForTxs};

use cb_base::Hash256;
use cb_wire::{Inventory, Message};

/// How a node came to a block.
#[derive(Clone, Copy, Debug, PartialEq, Eq, Drop)]
pub struct Way {
    /// Whether it asked for transactions of a compact block (BIP 152, `getblocktxn`).
    pub asked: bool,
    /// Whether it asked for the whole block (`getdata`).
    pub whole: bool,
}

impl Way {
    /// It asked for nothing.
    pub const AT_ONCE: Way = Way {
        asked: false,
        whole: false,
    };

    /// Notes what a message that the node sends tells of how it comes to a block.
    pub fn note(&mut self, message: &Message, block: &Hash256)
        ensures asked { IsTrue self.new.asked ↔
            (IsTrue self.old.asked ⊎ AsksForTxs block.now message.now) }
        ensures whole { IsTrue self.new.whole ↔
            (IsTrue self.old.whole ⊎ AsksForBlock block.now message.now) }
    {
        match message {
            Message::GetBlockTxn(request) => self.asked |= request.block == *block,
            Message::GetData(entries) => self.whole |= names(entries.as_slice(), block),
            _ => {}
        }
    }
}

/// Whether one of these entries names a block, whole.
fn names(entries: &[Inventory], block: &Hash256) -> bool
    ensures { IsTrue result ↔ Any (λ entry. entry ≡ inventory.Block block.now) entries.now }
{
    entries.iter().any(|entry| match entry {
        Inventory::Block(hash) => hash == block,
        _ => false,
    })
}
