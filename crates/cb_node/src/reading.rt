//! What a client reads of a node's chain and mempool. Each call holds the hall's lock for a short
//! time, however long the chain is.
ghost use Rattle.std.specs.Prelude.{◌≡◌, IfErr};
ghost use Rattle.cb_node.specs.declared.fault.NodeFault.TheVariants.{Memory};

use crate::fault::NodeFault;
use crate::looking::state_of;
use crate::node::Node;
use cb_base::{Fault, Hash256, Shared};
use cb_block::{Header, OutPoint, SoundBlock, Tx};
use cb_state::{
    HeaderLook, OutputLook, header_look, headers_from, is_marked, output_look, pooled, value_below,
};
use std::marker::{Copy, Send};
use std::sync::Wait;
use std::thread::Threads;

impl<R: Threads + Wait + Copy + Send + Drop + 'static> Node<R> {
    /// The hash of the best chain's header at a height; `None` above the tip.
    pub fn hash_at(&self, height: u32) -> Option<Hash256> {
        let hall = self.service.hall.lock(&self.service.rt);
        state_of(&*hall).chain().at(height as usize)
    }

    /// The header with this hash and where it stands; `None` if it isn't known.
    pub fn header(&self, hash: &Hash256) -> Option<HeaderLook> {
        let hall = self.service.hall.lock(&self.service.rt);
        header_look(state_of(&*hall).chain(), hash)
    }

    /// The block with this hash, shared, if it is kept and not marked bad. Fails only with
    /// `NodeFault::Memory`.
    pub fn sound_block(&self, hash: &Hash256) -> Result<Option<SoundBlock>, NodeFault>
        ensures { IfErr result (λ fault. fault ≡ Memory) }
    {
        let hall = self.service.hall.lock(&self.service.rt);
        match state_of(&*hall).chain().block(hash) {
            Some(block) => Ok(Some(block.copy()?)),
            None => Ok(None),
        }
    }

    /// Whether the block with this hash is marked bad.
    pub fn is_marked(&self, hash: &Hash256) -> bool {
        let hall = self.service.hall.lock(&self.service.rt);
        is_marked(state_of(&*hall).chain(), hash)
    }

    /// The headers that were accepted, in the order of acceptance, from a place on, which is
    /// counted from 0 without the genesis block's. At most 2,000. Fails only with
    /// `NodeFault::Memory`.
    pub fn headers_from(&self, place: u32) -> Result<Vec<Header>, NodeFault>
        ensures { IfErr result (λ fault. fault ≡ Memory) }
    {
        let alloc = self.service.alloc;
        let hall = self.service.hall.lock(&self.service.rt);
        Ok(headers_from(alloc, state_of(&*hall).chain(), place)?)
    }

    /// The mempool's transaction with this txid, shared. Fails only with `NodeFault::Memory`.
    pub fn pooled(&self, txid: &Hash256) -> Result<Option<Shared<Tx>>, NodeFault>
        ensures { IfErr result (λ fault. fault ≡ Memory) }
    {
        let hall = self.service.hall.lock(&self.service.rt);
        Ok(pooled(state_of(&*hall).pool(), txid)?)
    }

    /// An output that is unspent: of the UTXO set, or with `pool` after the mempool's transactions.
    /// Fails only with `NodeFault::Memory`.
    pub fn output(&self, point: &OutPoint, pool: bool) -> Result<Option<OutputLook>, NodeFault>
        ensures { IfErr result (λ fault. fault ≡ Memory) }
    {
        let hall = self.service.hall.lock(&self.service.rt);
        Ok(output_look(state_of(&*hall), point, pool)?)
    }

    /// What an output is worth that a transaction of the mempool may spend: that of another
    /// transaction of the mempool, or else one of the UTXO set; `None` if it is neither.
    pub fn value_below(&self, point: &OutPoint) -> Option<i64> {
        let hall = self.service.hall.lock(&self.service.rt);
        value_below(state_of(&*hall), point)
    }

    /// Why the mempool would refuse a transaction now; `None` if it would take it. Nothing changes.
    /// Fails only with `NodeFault::Memory`.
    pub fn judge(&self, tx: Shared<Tx>) -> Result<Option<Fault>, NodeFault>
        ensures { IfErr result (λ fault. fault ≡ Memory) }
    {
        let hall = self.service.hall.lock(&self.service.rt);
        Ok(state_of(&*hall).judge_tx(tx)?)
    }
}
