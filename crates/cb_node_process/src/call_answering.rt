//! What answers a call.
ghost use Rattle.std.specs.Prelude.{IfErr, IfOk};
ghost use Rattle.cb_node_process.specs.Suiting.{Fails, SuitsRead};

use crate::chain_answers::{
    best_block_hash, block, block_count, block_hash, block_header, chain_info, chain_tips,
};
use crate::mempool_answers::{mempool_entry, mempool_info, raw_mempool, test_accept};
use crate::outputs::tx_out;
use crate::survey::Survey;
use crate::tx_answers::{decode, raw_transaction};
use cb_control::Host;
use cb_node::Node;
use cb_rpc::CallResult;
use cb_rpc_call::{ReadCall, RpcFault};
use std::alloc::Global;

/// Answers a call that reads the chain and the mempool of a node, which `survey` must be of, or was
/// never caught up with.
pub fn answer<R: Host>(
    alloc: Global,
    node: &Node<R>,
    survey: &mut Survey,
    call: ReadCall,
) -> Result<CallResult, RpcFault>
    ensures told { IfOk result (SuitsRead call) }
    ensures err { IfErr result (Fails call) }
{
    match call {
        ReadCall::BlockCount => Ok(block_count(node)),
        ReadCall::BestBlockHash => Ok(best_block_hash(node)),
        ReadCall::BlockHash(height) => block_hash(node, height),
        ReadCall::BlockHeader(hash, verbose) => block_header(node, hash, verbose),
        ReadCall::Block(hash, detail) => block(node, hash, detail),
        ReadCall::ChainTips => chain_tips(alloc, node, survey),
        ReadCall::ChainInfo => chain_info(node, survey),
        ReadCall::RawMempool(verbose) => raw_mempool(alloc, node, survey.seed, verbose),
        ReadCall::MempoolInfo => mempool_info(alloc, node),
        ReadCall::MempoolEntry(txid) => mempool_entry(alloc, node, survey.seed, txid),
        ReadCall::RawTransaction(txid, verbose, block) => raw_transaction(
            node, txid, verbose, block,
        ),
        ReadCall::TxOut(point, with_mempool) => tx_out(alloc, node, point, with_mempool),
        ReadCall::DecodeTransaction(tx) => decode(alloc, tx),
        ReadCall::TestAccept(tx) => test_accept(alloc, node, tx),
    }
}
