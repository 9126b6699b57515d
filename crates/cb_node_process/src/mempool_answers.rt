//! Answers about the mempool, under the names of Bitcoin Core's src/rpc/mempool.cpp.
ghost use Rattle.std.specs.Prelude.{◌≡◌, ◌⊎◌, IfErr, IfOk, if◌then◌else◌};
ghost use Rattle.cb_rpc_call.specs.declared.fault.RpcFault.TheVariants.{Memory, NotInMempool};
ghost use Rattle.cb_node_process.specs.Suiting.{AreEntries, AreHashes, IsEntry, IsJudged, IsMempool, SuitsRead};
ghost use Rattle.cb_rpc_call.specs.declared.call.ReadCall.TheVariants.{RawMempool};

use crate::entries::{Mempool, fee_of, members};
use crate::outputs::is_made;
use crate::refusing::or_memory;
use cb_base::{Fault, Hash256, Seed, Shared};
use cb_block::Tx;
use cb_control::Host;
use cb_node::Node;
use cb_rpc::{CallResult, EntryReport, JudgedReport, MempoolReport};
use cb_rpc_call::RpcFault;
use std::alloc::Global;

/// `getrawmempool`. Fails only with `RpcFault::Memory`.
pub fn raw_mempool<R: Host>(
    alloc: Global,
    node: &Node<R>,
    seed: Seed,
    verbose: bool,
) -> Result<CallResult, RpcFault>
    ensures told { IfOk result (SuitsRead (RawMempool verbose)) }
    ensures err { IfErr result (λ fault. fault ≡ Memory) }
{
    Ok(if verbose {
        CallResult::Entries(entries(alloc, node, seed)?)
    } else {
        CallResult::Hashes(or_memory(node.pool())?)
    })
}

/// What is told of each transaction of the mempool.
fn entries<R: Host>(alloc: Global, node: &Node<R>, seed: Seed) -> Result<Vec<EntryReport>, RpcFault>
    ensures { IfErr result (λ fault. fault ≡ Memory) }
{
    let mempool = Mempool::of(alloc, node, seed)?;
    let mut entries = Vec::with_capacity(alloc, mempool.list.len())?;
    for member in mempool.list.as_slice() {
        if let Some(entry) = mempool.entry(alloc, node, member.txid, &member.tx)? {
            entries.push(entry)?;
        }
    }
    Ok(entries)
}

/// `getmempoolentry`. Fails only with `RpcFault::NotInMempool` and `RpcFault::Memory`.
pub fn mempool_entry<R: Host>(
    alloc: Global,
    node: &Node<R>,
    seed: Seed,
    txid: Hash256,
) -> Result<CallResult, RpcFault>
    ensures told { IfOk result (IsEntry txid) }
    ensures err { IfErr result (λ fault. (fault ≡ NotInMempool) ⊎ (fault ≡ Memory)) }
{
    let Some(tx) = or_memory(node.pooled(&txid))? else {
        return Err(RpcFault::NotInMempool);
    };
    let mempool = Mempool::of(alloc, node, seed)?;
    match mempool.entry(alloc, node, txid, &tx)? {
        Some(entry) => Ok(CallResult::Entry(entry)),
        None => Err(RpcFault::NotInMempool),
    }
}

/// `getmempoolinfo`. Fails only with `RpcFault::Memory`.
pub fn mempool_info<R: Host>(alloc: Global, node: &Node<R>) -> Result<CallResult, RpcFault>
    ensures told { IfOk result IsMempool }
    ensures err { IfErr result (λ fault. fault ≡ Memory) }
{
    let list = members(alloc, node)?;
    let mut report = MempoolReport {
        size: list.len() as u64,
        bytes: 0,
        fees: 0,
    };
    for member in list.as_slice() {
        report.bytes = report.bytes.saturating_add(member.tx.size());
        let fee = fee_of(node, &member.tx).unwrap_or(0);
        report.fees = report.fees.saturating_add(fee);
    }
    Ok(CallResult::Mempool(report))
}

/// `testmempoolaccept`. Fails only with `RpcFault::Memory`.
pub fn test_accept<R: Host>(
    alloc: Global,
    node: &Node<R>,
    tx: Shared<Tx>,
) -> Result<CallResult, RpcFault>
    ensures told { IfOk result (IsJudged tx) }
    ensures err { IfErr result (λ fault. fault ≡ Memory) }
{
    let txid = tx.txid(alloc)?;
    let verdict = verdict_of(node, txid, &tx)?;
    Ok(CallResult::Judged(JudgedReport {
        txid,
        size: tx.size(),
        verdict,
    }))
}

/// The fee of a transaction if the mempool would take it, or else why not: `Fault::Remade` for one
/// that a block has, as far as its outputs are unspent.
fn verdict_of<R: Host>(
    node: &Node<R>,
    txid: Hash256,
    tx: &Shared<Tx>,
) -> Result<Result<i64, Fault>, RpcFault>
    ensures { IfErr result (λ fault. fault ≡ Memory) }
{
    let owner: Shared<Tx> = tx.clone()?;
    match or_memory(node.judge(owner))? {
        None => Ok(fee_of(node, tx).ok_or(Fault::NoInput)),
        Some(Fault::NoInput) if is_made(node, txid, tx)? => Ok(Err(Fault::Remade)),
        Some(fault) => Ok(Err(fault)),
    }
}
