//! Unspent outputs, and the blocks that made them.
ghost use Rattle.std.specs.Prelude.{◌≡◌, IfErr, IfOk};
ghost use Rattle.cb_rpc_call.specs.declared.fault.RpcFault.TheVariants.{Memory};
ghost use Rattle.cb_node_process.specs.Suiting.{IsOutput};

use crate::chain_answers::depth;
use crate::entries::count_of;
use crate::refusing::or_memory;
use cb_base::{Hash256, Shared};
use cb_block::{OutPoint, Script, Tx};
use cb_control::Host;
use cb_node::{Node, OutputLook};
use cb_rpc::{CallResult, OutputReport};
use cb_rpc_call::RpcFault;
use std::alloc::Global;

/// Where a transaction of the best chain stands.
#[derive(Drop)]
struct Made {
    tx: Shared<Tx>,
    /// Whether it is the first of its block.
    coinbase: bool,
    /// How many blocks stand from its block to the tip.
    confirmations: u32,
}

/// Whether an output of a transaction is unspent in the UTXO set: then a block has the transaction.
/// Fails only with `RpcFault::Memory`.
pub fn is_made<R: Host>(node: &Node<R>, txid: Hash256, tx: &Tx) -> Result<bool, RpcFault>
    ensures { IfErr result (λ fault. fault ≡ Memory) }
{
    for index in 0..count_of(tx) {
        let point = OutPoint { txid, index };
        if or_memory(node.output(&point, false))?.is_some() {
            return Ok(true);
        }
    }
    Ok(false)
}

/// `gettxout`: nothing if the output isn't unspent. The block that made it is looked for from the
/// tip down, since there is no index. Fails only with `RpcFault::Memory`.
pub fn tx_out<R: Host>(
    alloc: Global,
    node: &Node<R>,
    point: OutPoint,
    with_mempool: bool,
) -> Result<CallResult, RpcFault>
    ensures told { IfOk result IsOutput }
    ensures err { IfErr result (λ fault. fault ≡ Memory) }
{
    let best = node.look();
    let Some(look) = or_memory(node.output(&point, with_mempool))? else {
        return Ok(CallResult::Nothing);
    };
    let OutputLook { value, tx } = look;
    let Some(made) = maker_of(node, best.height, &point.txid, tx)? else {
        return Ok(CallResult::Nothing);
    };
    let Some(script) = script_of(alloc, &made.tx, point.index)? else {
        return Ok(CallResult::Nothing);
    };
    Ok(CallResult::Output(OutputReport {
        best: best.tip,
        confirmations: u64::from(made.confirmations),
        value,
        script,
        coinbase: made.coinbase,
    }))
}

/// Where the transaction with this txid stands: in the mempool, if that has it, or else in the best
/// chain up to a height. Fails only with `RpcFault::Memory`.
fn maker_of<R: Host>(
    node: &Node<R>,
    tip: u32,
    txid: &Hash256,
    pooled: Option<Shared<Tx>>,
) -> Result<Option<Made>, RpcFault>
    ensures { IfErr result (λ fault. fault ≡ Memory) }
{
    match pooled {
        Some(tx) => Ok(Some(Made {
            tx,
            coinbase: false,
            confirmations: 0,
        })),
        None => made_in_chain(node, tip, txid),
    }
}

/// The script of an output of a transaction, if it has that. Fails only with `RpcFault::Memory`.
fn script_of(alloc: Global, tx: &Tx, index: u32) -> Result<Option<Script>, RpcFault>
    ensures { IfErr result (λ fault. fault ≡ Memory) }
{
    match tx.outputs.as_slice().get(index as usize) {
        Some(output) => Ok(Some(output.script.copy(alloc)?)),
        None => Ok(None),
    }
}

/// The last block of the best chain up to a height that has a transaction. Fails only with
/// `RpcFault::Memory`.
fn made_in_chain<R: Host>(
    node: &Node<R>,
    tip: u32,
    txid: &Hash256,
) -> Result<Option<Made>, RpcFault>
    ensures { IfErr result (λ fault. fault ≡ Memory) }
{
    for height in (0..=tip).rev() {
        let Some(hash) = node.hash_at(height) else {
            return Ok(None);
        };
        if let Some((tx, place)) = tx_in_block(node, &hash, txid)? {
            return Ok(Some(Made {
                tx,
                coinbase: place == 0,
                confirmations: depth(tip, height),
            }));
        }
    }
    Ok(None)
}

/// A transaction of a block and its place there; `None` if the block doesn't have it or isn't kept.
/// Fails only with `RpcFault::Memory`.
pub fn tx_in_block<R: Host>(
    node: &Node<R>,
    hash: &Hash256,
    txid: &Hash256,
) -> Result<Option<(Shared<Tx>, usize)>, RpcFault>
    ensures { IfErr result (λ fault. fault ≡ Memory) }
{
    let Some(block) = or_memory(node.sound_block(hash))? else {
        return Ok(None);
    };
    let Some(place) = block.txids().iter().position(|its| *its == *txid) else {
        return Ok(None);
    };
    match block.block().txs.as_slice().get(place) {
        Some(tx) => {
            let owner: Shared<Tx> = tx.clone()?;
            Ok(Some((owner, place)))
        }
        None => Ok(None),
    }
}
