//! Answers about the chain, under the names of Bitcoin Core's src/rpc/blockchain.cpp.
ghost use Rattle.std.specs.Prelude.{◌≡◌, ◌⊎◌, ◌+◌, ◌-◌, min, IfErr, IfOk};
ghost use Rattle.cb_rpc_call.specs.declared.fault.RpcFault.TheVariants.{HeightOutOfRange, Memory, NoBlock, NoBlockData};
ghost use Rattle.cb_node_process.specs.Suiting.{AreTips, IsBlock, IsChain, IsHash, IsHeader, IsNumber};

use crate::forks::Forks;
use crate::refusing::or_memory;
use crate::survey::Survey;
use cb_base::Hash256;
use cb_control::Host;
use cb_node::{HeaderLook, Node};
use cb_rpc::{CallResult, ChainReport, HeaderReport, TipReport, TipStatus};
use cb_rpc_call::{Detail, RpcFault};
use std::alloc::Global;

/// `getblockcount`.
pub fn block_count<R: Host>(node: &Node<R>) -> CallResult
    ensures { IsNumber result }
{
    CallResult::Number(u64::from(node.look().height))
}

/// `getbestblockhash`.
pub fn best_block_hash<R: Host>(node: &Node<R>) -> CallResult
    ensures { IsHash result }
{
    CallResult::Hash(node.look().tip)
}

/// `getblockhash`. Fails only with `RpcFault::HeightOutOfRange`.
pub fn block_hash<R: Host>(node: &Node<R>, height: u32) -> Result<CallResult, RpcFault>
    ensures told { IfOk result IsHash }
    ensures err { IfErr result (λ fault. fault ≡ HeightOutOfRange) }
{
    match node.hash_at(height) {
        Some(hash) => Ok(CallResult::Hash(hash)),
        None => Err(RpcFault::HeightOutOfRange),
    }
}

/// `getblockheader`. Fails only with `RpcFault::NoBlock`.
pub fn block_header<R: Host>(
    node: &Node<R>,
    hash: Hash256,
    verbose: bool,
) -> Result<CallResult, RpcFault>
    ensures told { IfOk result (IsHeader hash verbose) }
    ensures err { IfErr result (λ fault. fault ≡ NoBlock) }
{
    let Some(look) = node.header(&hash) else {
        return Err(RpcFault::NoBlock);
    };
    Ok(if verbose {
        CallResult::Header(report_of(hash, &look))
    } else {
        CallResult::HeaderHex(look.header)
    })
}

/// `getblock`. Fails with `RpcFault::NoBlock`, with `RpcFault::NoBlockData` if the block isn't kept
/// or is marked bad, and with `RpcFault::Memory`.
pub fn block<R: Host>(node: &Node<R>, hash: Hash256, detail: Detail) -> Result<CallResult, RpcFault>
    ensures told { IfOk result (IsBlock hash detail) }
    ensures err { IfErr result
        (λ fault. (fault ≡ NoBlock) ⊎ ((fault ≡ NoBlockData) ⊎ (fault ≡ Memory))) }
{
    let Some(look) = node.header(&hash) else {
        return Err(RpcFault::NoBlock);
    };
    let Some(block) = or_memory(node.sound_block(&hash))? else {
        return Err(RpcFault::NoBlockData);
    };
    let report = report_of(hash, &look);
    Ok(match detail {
        Detail::Hex => CallResult::BlockHex(block),
        Detail::Txids => CallResult::BlockTxids(report, block),
        Detail::Txs => CallResult::BlockTxs(report, block),
    })
}

/// `getblockchaininfo`. Fails with `RpcFault::Memory`, and with `RpcFault::NoBlock` if the tip's
/// header isn't there.
pub fn chain_info<R: Host>(node: &Node<R>, survey: &mut Survey) -> Result<CallResult, RpcFault>
    ensures told { IfOk result IsChain }
    ensures err { IfErr result (λ fault. (fault ≡ NoBlock) ⊎ (fault ≡ Memory)) }
{
    survey.catch_up(node)?;
    let hash = node.look().tip;
    // The chain has the header of each tip that it had.
    let Some(look) = node.header(&hash) else {
        return Err(RpcFault::NoBlock);
    };
    Ok(CallResult::Chain(ChainReport {
        height: look.height,
        headers: survey.greatest.max(look.height),
        hash,
        header: look.header,
        median_time: look.median_time,
    }))
}

/// `getchaintips`: the best chain's tip, and each header beside the best chain on which no other
/// stands; the highest first. Fails only with `RpcFault::Memory`.
pub fn chain_tips<R: Host>(
    alloc: Global,
    node: &Node<R>,
    survey: &mut Survey,
) -> Result<CallResult, RpcFault>
    ensures told { IfOk result AreTips }
    ensures err { IfErr result (λ fault. fault ≡ Memory) }
{
    survey.catch_up(node)?;
    let mut tips = Vec::with_capacity(alloc, 1)?;
    let best = node.look();
    tips.push(TipReport {
        height: best.height,
        hash: best.tip,
        branch: 0,
        status: TipStatus::Active,
    })?;
    add_branches(alloc, node, survey, &mut tips)?;
    tips.sort_unstable_by_key(|tip| (u32::MAX - tip.height, tip.hash));
    Ok(CallResult::Tips(tips))
}

/// Appends the ends of the branches beside the best chain.
fn add_branches<R: Host>(
    alloc: Global,
    node: &Node<R>,
    survey: &Survey,
    tips: &mut Vec<TipReport>,
) -> Result<(), RpcFault>
    ensures { IfErr result (λ fault. fault ≡ Memory) }
{
    let mut forks = Forks::new(alloc, survey.seed);
    for hash in survey.ends.keys() {
        if let Some(tip) = branch_at(node, &mut forks, *hash)? {
            tips.push(tip)?;
        }
    }
    Ok(())
}

/// What is told of the branch that ends at a header; `None` if the header is on the best chain.
fn branch_at<R: Host>(
    node: &Node<R>,
    forks: &mut Forks,
    hash: Hash256,
) -> Result<Option<TipReport>, RpcFault>
    ensures { IfErr result (λ fault. fault ≡ Memory) }
{
    let Some(look) = node.header(&hash) else {
        return Ok(None);
    };
    if look.best {
        return Ok(None);
    }
    let fork = forks.fork_of(node, hash)?;
    Ok(Some(TipReport {
        height: look.height,
        hash,
        branch: look.height.saturating_sub(fork),
        status: status_of(look.txs.is_some(), node.is_marked(&hash)),
    }))
}

/// How far a header beside the best chain is, by whether its block is kept and whether it is marked
/// bad. A block is kept only on one that is, and what stands on a bad one is bad.
fn status_of(kept: bool, marked: bool) -> TipStatus {
    if marked {
        TipStatus::Invalid
    } else if kept {
        TipStatus::ValidFork
    } else {
        TipStatus::HeadersOnly
    }
}

/// A header as it is told.
fn report_of(hash: Hash256, look: &HeaderLook) -> HeaderReport
    ensures { result.hash ≡ hash }
{
    HeaderReport {
        hash,
        header: look.header,
        height: look.height,
        confirmations: confirmations(look),
        median_time: look.median_time,
        txs: look.txs.unwrap_or(0) as u64,
        next: look.next,
    }
}

/// How many blocks of the best chain stand from a header to the tip, or -1 if it isn't on that.
fn confirmations(look: &HeaderLook) -> i64 {
    if look.best {
        i64::from(depth(look.tip_height, look.height))
    } else {
        -1
    }
}

/// How many blocks stand from a height to the tip's, with both.
pub fn depth(tip: u32, height: u32) -> u32
    ensures { result ≡ min (tip - height + 1) 4294967295 }
{
    tip.saturating_sub(height).saturating_add(1)
}
