//! Answers about transactions, under the names of Bitcoin Core's src/rpc/rawtransaction.cpp.
ghost use Rattle.std.specs.Prelude.{◌≡◌, ◌⊎◌, IfErr, IfOk};
ghost use Rattle.cb_rpc_call.specs.declared.fault.RpcFault.TheVariants.{Memory, NoBlock, NoBlockData, NoTransaction};
ghost use Rattle.cb_node_process.specs.Suiting.{IsDecoded, IsTx};

use crate::chain_answers::depth;
use crate::outputs::tx_in_block;
use crate::refusing::or_memory;
use cb_base::{Hash256, Shared};
use cb_block::Tx;
use cb_control::Host;
use cb_node::Node;
use cb_rpc::{CallResult, TxPlace, TxReport};
use cb_rpc_call::RpcFault;
use std::alloc::Global;

/// `getrawtransaction`. Fails with `RpcFault::NoBlock`, with `RpcFault::NoBlockData` if the block
/// isn't kept or is marked bad, with `RpcFault::NoTransaction`, and with `RpcFault::Memory`.
pub fn raw_transaction<R: Host>(
    node: &Node<R>,
    txid: Hash256,
    verbose: bool,
    block: Option<Hash256>,
) -> Result<CallResult, RpcFault>
    ensures told { IfOk result (IsTx txid verbose block) }
    ensures err { IfErr result (λ fault. (fault ≡ NoBlock)
        ⊎ ((fault ≡ NoBlockData) ⊎ ((fault ≡ NoTransaction) ⊎ (fault ≡ Memory)))) }
{
    let (tx, place) = match block {
        Some(hash) => {
            let (tx, place) = in_block(node, &hash, &txid)?;
            (tx, Some(place))
        }
        None => (in_mempool(node, &txid)?, None),
    };
    Ok(if verbose {
        CallResult::Tx(TxReport {
            txid,
            tx,
            place,
            hex: true,
        })
    } else {
        CallResult::TxHex(tx)
    })
}

/// A transaction of the mempool.
fn in_mempool<R: Host>(node: &Node<R>, txid: &Hash256) -> Result<Shared<Tx>, RpcFault>
    ensures { IfErr result (λ fault. (fault ≡ NoTransaction) ⊎ (fault ≡ Memory)) }
{
    match or_memory(node.pooled(txid))? {
        Some(tx) => Ok(tx),
        None => Err(RpcFault::NoTransaction),
    }
}

/// A transaction of a block, and where that stands.
fn in_block<R: Host>(
    node: &Node<R>,
    hash: &Hash256,
    txid: &Hash256,
) -> Result<(Shared<Tx>, TxPlace), RpcFault>
    ensures place { IfOk result (λ found. found.1.block ≡ hash.now) }
    ensures err { IfErr result (λ fault. (fault ≡ NoBlock)
        ⊎ ((fault ≡ NoBlockData) ⊎ ((fault ≡ NoTransaction) ⊎ (fault ≡ Memory)))) }
{
    let Some(look) = node.header(hash) else {
        return Err(RpcFault::NoBlock);
    };
    if look.txs.is_none() {
        return Err(RpcFault::NoBlockData);
    }
    let Some((tx, _)) = tx_in_block(node, hash, txid)? else {
        return Err(RpcFault::NoTransaction);
    };
    let confirmations = if look.best {
        u64::from(depth(look.tip_height, look.height))
    } else {
        0
    };
    let place = TxPlace {
        block: *hash,
        active: look.best,
        confirmations,
        time: look.header.time,
    };
    Ok((tx, place))
}

/// `decoderawtransaction`. Fails only with `RpcFault::Memory`.
pub fn decode(alloc: Global, tx: Shared<Tx>) -> Result<CallResult, RpcFault>
    ensures told { IfOk result (IsDecoded tx) }
    ensures err { IfErr result (λ fault. fault ≡ Memory) }
{
    let txid = tx.txid(alloc)?;
    Ok(CallResult::Tx(TxReport {
        txid,
        tx,
        place: None,
        hex: false,
    }))
}
