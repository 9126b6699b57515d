//! What a request asks for.
ghost use Rattle.std.specs.Prelude.{◌≡◌};
ghost use Rattle.std.specs.List.{list_all};
ghost use Rattle.json.specs.Value.{members_view, value_view};
ghost use Rattle.cb_rpc_call.specs.Calls.{Reads, ReadsFitting, ReadsMethod, misfit, misfit_in, misnamed, too_many, unanswered};
ghost use Rattle.json.specs.Find.{at};
ghost use Rattle.cb_rpc_call.specs.Lacking.{lacking_in};
ghost use Rattle.cb_rpc_call.specs.Methods.{method_in, most, takes};

use crate::call::{Call, ReadCall};
use crate::fault::RpcFault;
use crate::lacking::lacking;
use crate::method::Method;
use crate::{chain_calls, control_calls, mempool_calls, peer_calls};
use json::Value;
use std::alloc::Global;

/// The call that a request asks for: an object with the member `method`, a name, and `params`, a
/// list of arguments by their places or an object with them by their names. An argument that is
/// null counts as left out, and so do `params`.
///
/// Names and arguments are those of Bitcoin Core's daemon. Hashes are 64 digits of hex, the last
/// byte first; heights and other numbers are decimal digits; addresses are `127.0.0.1:18444` or
/// `[::1]:18444`. Fails with `RpcFault::Memory` only where a transaction or a block in hex is read.
pub fn read_call(alloc: Global, request: &Value<'_>) -> Result<Call, RpcFault>
    ensures { Reads (value_view request.now) result }
{
    let Some(method) = request.get("method") else {
        return Err(RpcFault::NoMethod);
    };
    match method.as_str() {
        Some(name) => named(alloc, name, request),
        None => Err(RpcFault::MethodNotText),
    }
}

/// The call of the method with this name.
fn named(alloc: Global, name: &str, request: &Value<'_>) -> Result<Call, RpcFault>
    ensures { ReadsMethod (method_in name.now) name.now (value_view request.now) result }
{
    let Some(method) = Method::named(name) else {
        return Err(unanswered(name));
    };
    match misfit(method, request) {
        Some(fault) => Err(fault),
        None => fitting(alloc, method, request),
    }
}

/// Why a method isn't answered.
fn unanswered(name: &str) -> RpcFault
    ensures { result ≡ unanswered (lacking_in name.now) }
{
    match lacking(name) {
        Some(lacking) => RpcFault::Lacks(lacking),
        None => RpcFault::UnknownMethod,
    }
}

/// What is wrong with the arguments of a method: their number or their names.
fn misfit(method: Method, request: &Value<'_>) -> Option<RpcFault>
    ensures { result ≡ misfit method (value_view request.now) }
{
    misfit_in(method, request.get("params")?)
}

/// What is wrong with the arguments of a method, given as a list or an object.
fn misfit_in(method: Method, params: &Value<'_>) -> Option<RpcFault>
    ensures { result ≡ misfit_in method (value_view params.now) }
{
    match params {
        Value::Null => None,
        Value::Array(_) => too_many(method, params),
        Value::Object(members) => misnamed(method, members),
        _ => Some(RpcFault::ParamsNotList),
    }
}

/// What is wrong with the number of arguments in a list.
fn too_many(method: Method, params: &Value<'_>) -> Option<RpcFault>
    ensures { result ≡ too_many method (at (most method) (value_view params.now)) }
{
    match params.at(method.most()) {
        Some(_) => Some(RpcFault::Usage(method)),
        None => None,
    }
}

/// What is wrong with the names of arguments.
fn misnamed(method: Method, members: &[(&str, Value<'_>)]) -> Option<RpcFault>
    ensures { result ≡ misnamed method (members_view members.now) }
{
    if all_taken(method, members) {
        None
    } else {
        Some(RpcFault::UnknownParameter)
    }
}

/// Whether the method has a parameter with the name of each member.
fn all_taken(method: Method, members: &[(&str, Value<'_>)]) -> bool
    ensures { result ≡ list_all (λ member. takes method member.0.now) members.now }
{
    members.iter().all(|member| method.takes(member.0))
}

/// The call of a method that the arguments suit.
fn fitting(alloc: Global, method: Method, request: &Value<'_>) -> Result<Call, RpcFault>
    ensures { ReadsFitting method (value_view request.now) result }
{
    match method {
        Method::GetBlockCount => Ok(Call::Read(ReadCall::BlockCount)),
        Method::GetBestBlockHash => Ok(Call::Read(ReadCall::BestBlockHash)),
        Method::GetBlockHash => chain_calls::block_hash(request),
        Method::GetBlockHeader => chain_calls::block_header(request),
        Method::GetBlock => chain_calls::block(request),
        Method::GetChainTips => Ok(Call::Read(ReadCall::ChainTips)),
        Method::GetBlockchainInfo => Ok(Call::Read(ReadCall::ChainInfo)),
        Method::GetRawMempool => mempool_calls::raw_mempool(request),
        Method::GetMempoolInfo => Ok(Call::Read(ReadCall::MempoolInfo)),
        Method::GetMempoolEntry => mempool_calls::mempool_entry(request),
        Method::GetRawTransaction => mempool_calls::raw_transaction(request),
        Method::GetTxOut => mempool_calls::tx_out(request),
        Method::DecodeRawTransaction => mempool_calls::decode(alloc, request),
        Method::SendRawTransaction => mempool_calls::send(alloc, request),
        Method::TestMempoolAccept => mempool_calls::test_accept(alloc, request),
        Method::SubmitBlock => mempool_calls::submit_block(alloc, request),
        Method::SubmitHeader => chain_calls::submit_header(request),
        Method::Generate => chain_calls::generate(request),
        Method::GetNetworkInfo => Ok(Call::NetworkInfo),
        Method::GetNetTotals => Ok(Call::NetTotals),
        Method::GetConnectionCount => Ok(Call::ConnectionCount),
        Method::GetPeerInfo => Ok(Call::PeerInfo),
        Method::AddNode => peer_calls::add_node(request),
        Method::DisconnectNode => peer_calls::disconnect_node(request),
        Method::SetNetworkActive => peer_calls::set_network_active(request),
        Method::Ping => Ok(Call::Ping),
        Method::Uptime => Ok(Call::Uptime),
        Method::Logging => control_calls::logging(request),
        Method::Help => control_calls::help(request),
        Method::Stop => Ok(Call::Stop),
    }
}
