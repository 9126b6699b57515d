//! Entries of the mempool.
ghost use Rattle.std.specs.Prelude.{◌≡◌, IfErr, IfOk, IfSome};
ghost use Rattle.cb_rpc_call.specs.declared.fault.RpcFault.TheVariants.{Memory};

use crate::refusing::or_memory;
use cb_base::{Hash256, Seed, Shared};
use cb_block::{OutPoint, Tx, TxIn, TxOut};
use cb_control::Host;
use cb_node::Node;
use cb_rpc::EntryReport;
use cb_rpc_call::RpcFault;
use std::alloc::Global;
use std::collections::HashMap;

/// A transaction of the mempool.
#[derive(Drop)]
pub struct Member {
    pub txid: Hash256,
    pub tx: Shared<Tx>,
}

/// The transactions of the mempool, and which of them spend which outputs.
#[derive(Drop)]
pub struct Mempool {
    pub list: Vec<Member>,
    spenders: HashMap<OutPoint, Hash256, Seed>,
}

impl Mempool {
    /// The mempool of a node. Its table has this seed. Fails only with `RpcFault::Memory`.
    pub fn of<R: Host>(alloc: Global, node: &Node<R>, seed: Seed) -> Result<Mempool, RpcFault>
        ensures { IfErr result (λ fault. fault ≡ Memory) }
    {
        let list = members(alloc, node)?;
        let mut spenders = HashMap::with_hasher(alloc, seed);
        for member in list.as_slice() {
            note_inputs(&mut spenders, member.txid, member.tx.inputs.as_slice())?;
        }
        Ok(Mempool { list, spenders })
    }

    /// The transactions that spend outputs of this one, each once.
    fn spenders_of(
        &self,
        alloc: Global,
        txid: Hash256,
        outputs: u32,
    ) -> Result<Vec<Hash256>, RpcFault>
        ensures { IfErr result (λ fault. fault ≡ Memory) }
    {
        let mut found = Vec::new(alloc);
        for index in 0..outputs {
            let point = OutPoint { txid, index };
            if let Some(spender) = self.spenders.get(&point) {
                found.push(*spender)?;
            }
        }
        Ok(once_each(found))
    }

    /// What is told of a transaction; `None` if it has left the mempool. Fails only with
    /// `RpcFault::Memory`.
    pub fn entry<R: Host>(
        &self,
        alloc: Global,
        node: &Node<R>,
        txid: Hash256,
        tx: &Tx,
    ) -> Result<Option<EntryReport>, RpcFault>
        ensures same { IfOk result (λ entry. IfSome entry (λ report. report.txid ≡ txid)) }
        ensures err { IfErr result (λ fault. fault ≡ Memory) }
    {
        let Some(fee) = fee_of(node, tx) else {
            return Ok(None);
        };
        Ok(Some(EntryReport {
            txid,
            size: tx.size(),
            fee,
            depends: parents_of(alloc, node, tx)?,
            spent_by: self.spenders_of(alloc, txid, count_of(tx))?,
        }))
    }
}

/// The transactions of the mempool, in the order in which they came. Fails only with
/// `RpcFault::Memory`.
pub fn members<R: Host>(alloc: Global, node: &Node<R>) -> Result<Vec<Member>, RpcFault>
    ensures { IfErr result (λ fault. fault ≡ Memory) }
{
    let txids = or_memory(node.pool())?;
    let mut list = Vec::with_capacity(alloc, txids.len())?;
    for txid in txids.as_slice() {
        if let Some(tx) = or_memory(node.pooled(txid))? {
            list.push(Member { txid: *txid, tx })?;
        }
    }
    Ok(list)
}

/// What a transaction's inputs are worth above its outputs, in satoshis. `None` if an input spends
/// no output of the UTXO set or of the mempool.
pub fn fee_of<R: Host>(node: &Node<R>, tx: &Tx) -> Option<i64> {
    let mut worth = 0i64;
    for input in tx.inputs.as_slice() {
        worth = worth.saturating_add(node.value_below(&input.prev)?);
    }
    Some(worth.saturating_sub(worth_of(tx.outputs.as_slice())))
}

/// How many outputs a transaction has, or 2^32 - 1 if it were more.
pub fn count_of(tx: &Tx) -> u32 {
    u32::try_from(tx.outputs.as_slice().len()).unwrap_or(u32::MAX)
}

/// What outputs are worth, in satoshis.
fn worth_of(outputs: &[TxOut]) -> i64 {
    let mut worth = 0i64;
    for output in outputs {
        worth = worth.saturating_add(output.value);
    }
    worth
}

/// The transactions of the mempool whose outputs this one spends, each once.
fn parents_of<R: Host>(alloc: Global, node: &Node<R>, tx: &Tx) -> Result<Vec<Hash256>, RpcFault>
    ensures { IfErr result (λ fault. fault ≡ Memory) }
{
    let mut found = Vec::new(alloc);
    for input in tx.inputs.as_slice() {
        if or_memory(node.pooled(&input.prev.txid))?.is_some() {
            found.push(input.prev.txid)?;
        }
    }
    Ok(once_each(found))
}

/// Notes which outputs a transaction spends.
fn note_inputs(
    spenders: &mut HashMap<OutPoint, Hash256, Seed>,
    txid: Hash256,
    inputs: &[TxIn],
) -> Result<(), RpcFault>
    ensures { IfErr result (λ fault. fault ≡ Memory) }
{
    for input in inputs {
        spenders.insert(input.prev, txid)?;
    }
    Ok(())
}

/// Each of these hashes once, in order.
fn once_each(hashes: Vec<Hash256>) -> Vec<Hash256> {
    let mut hashes = hashes;
    hashes.sort_unstable();
    hashes.dedup();
    hashes
}
