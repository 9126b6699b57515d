//! What a node does for a line of a script or of an operator.
ghost use Rattle.std.specs.Prelude.{◌≡◌, IfOk, length};
ghost use Rattle.cb_control.specs.declared.order.Deed.TheVariants as deeds;
ghost use Rattle.cb_control.specs.Answering.{CanTell};
ghost use Rattle.cb_driver.specs.Deeds.{TellsSlot};

use cb_base::Shared;
use cb_block::{Block, sound};
use cb_control::{Deed, Host, Reply, Tip};
use cb_hall::Local;
use cb_node::{Node, NodeFault};
use std::alloc::Global;

/// Has a node do what a line says. `mark` tells the blocks that it mines from those of other nodes.
/// If `prompt` is set, a tick of each connection is due behind a transaction that the node took, so
/// its peers are told at once. Of a block they are told as the node's settings say.
///
/// Returns the answer if it was done, else why it wasn't; nothing was done then, but `Deed::Mine`
/// keeps the blocks before the one that was refused.
pub fn perform<R: Host>(
    alloc: Global,
    node: &Node<R>,
    deed: Deed,
    mark: u8,
    prompt: bool,
) -> Result<Reply, NodeFault>
    ensures told { IfOk result (λ reply. CanTell deed reply) }
    ensures slot { TellsSlot (length node.now.used) deed result }
{
    match deed {
        Deed::Tx(tx) => {
            let txid = tx.txid(alloc)?;
            node.give(Local::Tx(tx))?;
            if prompt {
                node.tick();
            }
            Ok(Reply::Tx(txid))
        }
        Deed::Submit(block) => submit(alloc, node, block),
        Deed::Mine(count) => mine(node, count, mark),
        Deed::Kick(slot) => {
            node.kick(slot)?;
            Ok(Reply::Kicked(slot))
        }
        Deed::Checkpoint => {
            node.checkpoint()?;
            Ok(Reply::Checkpoint)
        }
    }
}

/// Gives a node a block, whose transactions must be those of its header.
fn submit<R: Host>(alloc: Global, node: &Node<R>, block: Shared<Block>) -> Result<Reply, NodeFault>
    ensures { IfOk result (λ reply. CanTell (deeds.Submit block) reply) }
{
    let hash = block.header.hash();
    match sound(alloc, block) {
        Ok(block) => node.give(Local::Block(block))?,
        Err((block, fault)) => {
            drop(block);
            return Err(NodeFault::from(fault));
        }
    }
    Ok(Reply::Submitted(hash))
}

/// Mines so many blocks, one on the other, and gives the node each. Stops at the first that is
/// refused.
fn mine<R: Host>(node: &Node<R>, count: u16, mark: u8) -> Result<Reply, NodeFault>
    ensures { IfOk result (λ reply. CanTell (deeds.Mine count) reply) }
{
    for _ in 0..count {
        node.give(Local::Block(node.mine(mark)?))?;
    }
    Ok(Reply::Mined(count, tip_of(node)))
}

/// The tip of a node's best chain.
pub fn tip_of<R: Host>(node: &Node<R>) -> Tip {
    let look = node.look();
    Tip {
        height: look.height,
        hash: look.tip,
    }
}
