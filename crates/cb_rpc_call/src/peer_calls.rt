//! Calls about peers.
ghost use Rattle.std.specs.Prelude.{◌≡◌, codes};
ghost use Rattle.std.specs.Result.{result_map_both};
ghost use Rattle.json.specs.Find.{as_str};
ghost use Rattle.json.specs.Value.{value_view};
ghost use Rattle.cb_rpc_call.specs.Arguments.{argument, text_of};
ghost use Rattle.cb_rpc_call.specs.PeerCalls.{IsAddressed, ReadsAddNode, ReadsAddress, ReadsDisconnectNode, ReadsNamed, added, aim_of, id_beside, id_call, set_network_active_call, unnamed_call};
ghost use Rattle.cb_rpc_call.specs.declared.call.Call.TheVariants as calls;
ghost use Rattle.cb_rpc_call.specs.declared.call.Whom.TheVariants as whoms;

use crate::arguments::{argument, number_of, switch_of};
use crate::call::{Aim, Call, Whom};
use crate::fault::RpcFault;
use crate::method::Method;
use json::Value;
use std::net::SocketAddr;

/// `addnode`.
pub(crate) fn add_node(request: &Value<'_>) -> Result<Call, RpcFault>
    ensures { ReadsAddNode (value_view request.now) result }
{
    match added(request) {
        Ok((text, aim)) => add_node_at(text, aim),
        Err(fault) => Err(fault),
    }
}

/// The call with the address that a text writes.
fn add_node_at(text: &str, aim: Aim) -> Result<Call, RpcFault>
    ensures { IsAddressed (λ address. calls.AddNode address aim) text.now result }
{
    match text.parse::<SocketAddr>() {
        Ok(address) => Ok(Call::AddNode(address, aim)),
        Err(_) => Err(RpcFault::BadAddress),
    }
}

/// What `addnode` is told: the text of the address, and what is done with it.
fn added<'a>(request: &Value<'a>) -> Result<(&'a str, Aim), RpcFault>
    ensures { result_map_both (λ told. (told.0.now, told.1)) (λ fault. fault) result
        ≡ added (value_view request.now) }
{
    let (Some(node), command) = (
        argument(request, 0, "node"),
        argument(request, 1, "command"),
    ) else {
        return Err(RpcFault::Usage(Method::AddNode));
    };
    let Some(text) = node.as_str() else {
        return Err(RpcFault::WrongType);
    };
    let Some(command) = command else {
        return Err(RpcFault::Usage(Method::AddNode));
    };
    Ok((text, aim_of(command)?))
}

/// What is done with the address.
fn aim_of(value: &Value<'_>) -> Result<Aim, RpcFault>
    ensures { result ≡ aim_of (value_view value.now) }
{
    match value.as_str().ok_or(RpcFault::WrongType)? {
        "add" => Ok(Aim::Add),
        "remove" => Ok(Aim::Remove),
        "onetry" => Ok(Aim::Once),
        _ => Err(RpcFault::BadWord),
    }
}

/// `disconnectnode`.
pub(crate) fn disconnect_node(request: &Value<'_>) -> Result<Call, RpcFault>
    ensures { ReadsDisconnectNode (value_view request.now) result }
{
    match argument(request, 0, "address") {
        Some(address) => disconnect_named(address, request),
        None => disconnect_unnamed(request),
    }
}

/// The call with an address, or with an id beside an empty one.
fn disconnect_named(address: &Value<'_>, request: &Value<'_>) -> Result<Call, RpcFault>
    ensures { ReadsNamed (value_view address.now)
        (argument 1 (codes "nodeid") (value_view request.now)) result }
{
    match argument(request, 1, "nodeid") {
        Some(id) => disconnect_beside(address, id),
        None => disconnect_at(address),
    }
}

/// The call with an id alone.
fn disconnect_unnamed(request: &Value<'_>) -> Result<Call, RpcFault>
    ensures { result ≡ unnamed_call (argument 1 (codes "nodeid") (value_view request.now)) }
{
    match argument(request, 1, "nodeid") {
        Some(id) => disconnect_id(id),
        None => Err(RpcFault::Usage(Method::DisconnectNode)),
    }
}

/// The call with an address.
fn disconnect_at(value: &Value<'_>) -> Result<Call, RpcFault>
    ensures { ReadsAddress (text_of (value_view value.now)) result }
{
    match value.as_str() {
        Some(text) => disconnect_address(text),
        None => Err(RpcFault::WrongType),
    }
}

/// The call with the address that a text writes.
fn disconnect_address(text: &str) -> Result<Call, RpcFault>
    ensures { IsAddressed (λ address. calls.DisconnectNode (whoms.Address address))
        text.now result }
{
    match text.parse::<SocketAddr>() {
        Ok(address) => Ok(Call::DisconnectNode(Whom::Address(address))),
        Err(_) => Err(RpcFault::BadAddress),
    }
}

/// The call with an id.
fn disconnect_id(value: &Value<'_>) -> Result<Call, RpcFault>
    ensures { result ≡ id_call (value_view value.now) }
{
    Ok(Call::DisconnectNode(Whom::Id(number_of(value)?)))
}

/// The call with an id beside an address, which has to be an empty text.
fn disconnect_beside(address: &Value<'_>, id: &Value<'_>) -> Result<Call, RpcFault>
    ensures { result ≡ id_beside (as_str (value_view address.now)) (value_view id.now) }
{
    match address.as_str() {
        Some("") => disconnect_id(id),
        _ => Err(RpcFault::Usage(Method::DisconnectNode)),
    }
}

/// `setnetworkactive`.
pub(crate) fn set_network_active(request: &Value<'_>) -> Result<Call, RpcFault>
    ensures { result ≡ set_network_active_call (value_view request.now) }
{
    let Some(state) = argument(request, 0, "state") else {
        return Err(RpcFault::Usage(Method::SetNetworkActive));
    };
    Ok(Call::SetNetworkActive(switch_of(state)?))
}
