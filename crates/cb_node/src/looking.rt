//! What whoever runs a node for days needs beside its other calls: what the hall has of a block and
//! of the mempool, and what a node takes over from the one before.
ghost use Rattle.std.specs.Prelude.{◌≡◌, IfErr, IfOk, IsOkUnless};
ghost use Rattle.cb_base.specs.declared.fault.Fault.TheVariants as faults;
ghost use Rattle.cb_pool.specs.Listing.{since_of};
ghost use Rattle.cb_node.specs.declared.fault.NodeFault.TheVariants.{Memory};

use crate::fault::NodeFault;
use crate::node::Node;
use cb_base::{Fault, Hash256};
use cb_hall::{Answer, Hall, Local};
use cb_pool::Pool;
use cb_state::{BlockLook, Relay, block_look};
use std::marker::{Copy, Send};
use std::sync::Wait;
use std::thread::Threads;

impl<R: Threads + Wait + Copy + Send + Drop + 'static> Node<R> {
    /// What the chain has of the block with this hash; `None` if its header isn't known.
    pub fn block(&self, hash: &Hash256) -> Option<BlockLook> {
        let hall = self.service.hall.lock(&self.service.rt);
        block_look(state_of(&*hall).chain(), hash)
    }

    /// The txids of the mempool, in the order in which they came. Fails only with
    /// `NodeFault::Memory`.
    pub fn pool(&self) -> Result<Vec<Hash256>, NodeFault>
        ensures { IfErr result (λ fault. fault ≡ Memory) }
    {
        let hall = self.service.hall.lock(&self.service.rt);
        Ok(txids_of(state_of(&*hall).pool())?)
    }

    /// Gives the node a transaction, a block or a header from its own user, as `submit` does. Fails
    /// also with what the hall refuses it for.
    pub fn give(&self, local: Local) -> Result<(), NodeFault> {
        let answer = self.submit(local)?;
        match refusal(&answer) {
            Some(fault) => Err(NodeFault::from(fault)),
            None => Ok(()),
        }
    }

    /// Gives the node the blocks of another hall's best chain above the fork with its own, and then
    /// the transactions of that hall's mempool. What the node refuses is left out. Fails only with
    /// `NodeFault::Memory` and with `Fault::JournalFull` of the node's hall.
    pub fn take_over(&self, from: &Hall) -> Result<(), NodeFault> {
        let state = state_of(from);
        let chain = state.chain();
        for header in chain.path(&self.look().tip)? {
            if let Some(block) = chain.block(&header.hash()) {
                self.submit(Local::Block(block.copy()?))?;
            }
        }
        let pool = state.pool();
        for place in 0..pool.len() {
            if let Some(candidate) = pool.at(place) {
                self.submit(Local::Tx(candidate.tx().clone()?))?;
            }
        }
        Ok(())
    }
}

/// The chain, the mempool and the announcers of a hall.
pub(crate) fn state_of(hall: &Hall) -> &Relay
    ensures { result.now ≡ hall.now.latest.relay }
{
    hall.record().latest().state()
}

/// The txids of a mempool, in the order in which they came. Fails only with `Fault::Memory`.
fn txids_of(pool: &Pool) -> Result<Vec<Hash256>, Fault>
    ensures exact { IfOk result (λ txids. txids.items ≡ since_of pool.now.list 0) }
    ensures memory { IsOkUnless result faults.Memory }
{
    pool.since(0)
}

/// Why the hall refused a transaction, a block or a header; `None` if it took it.
fn refusal(answer: &Answer) -> Option<Fault> {
    match answer {
        Answer::TxTaken(refused) => *refused,
        Answer::Taken(taken) => taken.refused,
        Answer::Heads(heads) => heads.refused,
        _ => None,
    }
}
