//! What a process answers to a call of JSON-RPC.
ghost use Rattle.std.specs.Prelude.{◌≡◌, IfOk};
ghost use Rattle.cb_base.specs.DoubleHash.{double_hash};
ghost use Rattle.cb_block.specs.TxText.{tx_text};
ghost use Rattle.cb_rpc.specs.declared.told.CallResult.TheVariants.{Hash, Nothing};
ghost use Rattle.cb_node_process.specs.Suiting.{AreHashes, IsLevel, IsTaken, Suits};

use crate::call_answering::answer;
use crate::order_answering::{LineOutcome, obey};
use crate::outputs::is_made;
use crate::peer_calls::{
    add_node, disconnect_node, net_totals, network, peer_info, ping, set_network,
};
use crate::survey::Survey;
use cb_base::{Fault, Hash256, Shared};
use cb_block::{Block, Header, Tx};
use cb_control::{Deed, Order, Refusal, Reply, Tip};
use cb_node::{Local, NodeFault};
use cb_pipes::Pipes;
use cb_process::{Process, ProcessHost};
use cb_rpc::CallResult;
use cb_rpc_call::{Call, Method, RpcFault};
use log::{LevelFilter, Log};

/// Answers a call. What an operator can order too goes the same way as an order. A call that asks
/// for the end is answered, and who takes calls sees to the end.
pub fn answer_call<R: ProcessHost, L: Log>(
    process: &mut Process<R>,
    survey: &mut Survey,
    call: Call,
    pipes: &Pipes,
    log: &L,
) -> Result<CallResult, RpcFault>
    ensures { IfOk result (Suits call) }
{
    match call {
        Call::Read(call) => answer(process.alloc(), process.node(), survey, call),
        Call::SendTransaction(tx) => send_transaction(process, tx, log),
        Call::SubmitBlock(block) => submit_block(process, block, log),
        Call::SubmitHeader(header) => submit_header(process, header),
        Call::Generate(count) => generate(process, count, log),
        Call::NetworkInfo => Ok(network(process)),
        Call::NetTotals => Ok(net_totals(process)),
        Call::ConnectionCount => Ok(CallResult::Number(process.watched().len() as u64)),
        Call::PeerInfo => peer_info(process),
        Call::AddNode(address, aim) => add_node(process, address, aim, log),
        Call::DisconnectNode(whom) => disconnect_node(process, whom, log),
        Call::SetNetworkActive(on) => set_network(process, on, log),
        Call::Ping => Ok(ping(process)),
        Call::Uptime => Ok(CallResult::Number(process.now() / 1_000)),
        Call::Logging(level) => Ok(logging(pipes, level)),
        Call::Help(method) => Ok(CallResult::Words(help(method))),
        Call::Stop => Ok(CallResult::Words("cbrelay stopping")),
    }
}

/// Does what an order says, and returns the reply. Fails with why it is refused.
pub fn do_order<R: ProcessHost, L: Log>(
    process: &mut Process<R>,
    order: Order,
    log: &L,
) -> Result<Option<Reply>, Refusal> {
    match obey(process, order, log)? {
        LineOutcome::Reply(reply) | LineOutcome::Failed(reply) => Ok(Some(reply)),
        LineOutcome::Silence | LineOutcome::End(_) => Ok(None),
    }
}

/// Why a call is refused, by why an order is.
pub fn fault_of(refusal: Refusal) -> RpcFault {
    match refusal {
        Refusal::Unreadable => RpcFault::Unreadable,
        Refusal::Fault(Fault::Memory) | Refusal::Memory => RpcFault::Memory,
        Refusal::Fault(Fault::NoInput) => RpcFault::MissingInputs,
        Refusal::Fault(Fault::Remade) => RpcFault::InChain,
        Refusal::Fault(fault) => RpcFault::Rejected(fault),
        Refusal::NoSlot => RpcFault::NoSlot,
        Refusal::Io | Refusal::NotSettled => RpcFault::Io,
        Refusal::UnknownBlock => RpcFault::NoBlock,
        Refusal::Already => RpcFault::Already,
        Refusal::Own => RpcFault::Own,
        Refusal::NotDialled => RpcFault::NotAdded,
        Refusal::Off => RpcFault::NetworkOff,
    }
}

/// `sendrawtransaction`. A transaction that the mempool has already is no error. One whose inputs
/// are spent is `RpcFault::InChain` if a block has it, as far as its outputs are unspent.
fn send_transaction<R: ProcessHost, L: Log>(
    process: &mut Process<R>,
    tx: Shared<Tx>,
    log: &L,
) -> Result<CallResult, RpcFault>
    ensures { IfOk result (λ told. told ≡ Hash (double_hash (tx_text tx))) }
{
    let txid = tx.txid(process.alloc())?;
    let owner: Shared<Tx> = tx.clone()?;
    match do_order(process, Order::Do(Deed::Tx(owner)), log) {
        Ok(_) | Err(Refusal::Fault(Fault::Known)) => Ok(CallResult::Hash(txid)),
        Err(Refusal::Fault(Fault::NoInput)) if is_made(process.node(), txid, &tx)? => {
            Err(RpcFault::InChain)
        }
        Err(refusal) => Err(fault_of(refusal)),
    }
}

/// `submitblock`: nothing, or why the block was refused (BIP 22).
fn submit_block<R: ProcessHost, L: Log>(
    process: &mut Process<R>,
    block: Shared<Block>,
    log: &L,
) -> Result<CallResult, RpcFault>
    ensures { IfOk result IsTaken }
{
    match do_order(process, Order::Do(Deed::Submit(block)), log) {
        Ok(_) => Ok(CallResult::Nothing),
        Err(Refusal::Fault(fault)) => Ok(CallResult::Refusal(fault)),
        Err(refusal) => Err(fault_of(refusal)),
    }
}

/// `submitheader`. A header that is known already is no error.
fn submit_header<R: ProcessHost>(
    process: &mut Process<R>,
    header: Header,
) -> Result<CallResult, RpcFault>
    ensures { IfOk result (λ told. told ≡ Nothing) }
{
    match process.node().give(Local::Header(header)) {
        Ok(()) | Err(NodeFault::Hall(Fault::Known)) => Ok(CallResult::Nothing),
        Err(NodeFault::Hall(fault)) => Err(RpcFault::HeaderRejected(fault)),
        Err(NodeFault::Memory) => Err(RpcFault::Memory),
        Err(NodeFault::Io(_)) => Err(RpcFault::Io),
        Err(NodeFault::NoSlot) => Err(RpcFault::NoSlot),
    }
}

/// `generate`: the hashes of the blocks that were mined, the lowest first.
fn generate<R: ProcessHost, L: Log>(
    process: &mut Process<R>,
    count: u16,
    log: &L,
) -> Result<CallResult, RpcFault>
    ensures { IfOk result AreHashes }
{
    match do_order(process, Order::Do(Deed::Mine(count)), log) {
        Ok(Some(Reply::Mined(_, tip))) => Ok(CallResult::Hashes(last_hashes(process, count, tip)?)),
        // `obey` answers an order to mine with `Mined` alone.
        Ok(_) => Err(RpcFault::Io),
        Err(Refusal::Fault(fault)) => Err(RpcFault::MiningFailed(fault)),
        Err(refusal) => Err(fault_of(refusal)),
    }
}

/// The hashes of so many headers up to a tip, the lowest first.
fn last_hashes<R: ProcessHost>(
    process: &Process<R>,
    count: u16,
    tip: Tip,
) -> Result<Vec<Hash256>, RpcFault> {
    let mut hashes = Vec::with_capacity(process.alloc(), usize::from(count))?;
    let mut hash = tip.hash;
    for _ in 0..count {
        let Some(look) = process.node().header(&hash) else {
            break;
        };
        hashes.push(hash)?;
        hash = look.header.prev;
    }
    hashes.reverse();
    Ok(hashes)
}

/// `help`: how a method is called, or all are.
fn help(method: Option<Option<Method>>) -> &'static str {
    match method {
        None => Method::usages(),
        Some(Some(method)) => method.usage(),
        Some(None) => "help: unknown command",
    }
}

/// `logging`: which records are logged, from now on if a level is named.
fn logging(pipes: &Pipes, level: Option<LevelFilter>) -> CallResult
    ensures { IsLevel result }
{
    if let Some(level) = level {
        pipes.set_level(level);
    }
    CallResult::Level(pipes.level())
}
