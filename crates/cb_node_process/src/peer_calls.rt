//! Answers about peers, under the names of Bitcoin Core's src/rpc/net.cpp.
ghost use Rattle.std.specs.Prelude.{◌≡◌, IfOk};
ghost use Rattle.cb_rpc.specs.declared.told.CallResult.TheVariants.{Nothing, Switch};
ghost use Rattle.cb_node_process.specs.Suiting.{AreTotals, ArePeers, IsNetwork};

use crate::calling::{do_order, fault_of};
use cb_control::{Deed, Order, Refusal};
use cb_pipes::unix_millis;
use cb_process::{Process, ProcessHost, Watched};
use cb_rpc::{CallResult, NetworkReport, TotalsReport, slot_of_id};
use cb_rpc_call::{Aim, RpcFault, Whom};
use log::Log;
use std::net::SocketAddr;

/// How many bytes stand before the payload of a message.
const HEAD_BYTES: u64 = 24;

/// `getnetworkinfo`.
pub fn network<R: ProcessHost>(process: &Process<R>) -> CallResult
    ensures { IsNetwork result }
{
    let all = process.watched().len() as u64;
    let inbound = inbound_of(process.watched());
    CallResult::Network(NetworkReport {
        active: !process.is_off(),
        inbound,
        outbound: all.saturating_sub(inbound),
    })
}

/// How many of these connections peers made.
fn inbound_of(list: &[Watched]) -> u64 {
    let mut count = 0u64;
    for watched in list {
        if watched.inbound {
            count = count.saturating_add(1);
        }
    }
    count
}

/// `getnettotals`.
pub fn net_totals<R: ProcessHost>(process: &Process<R>) -> CallResult
    ensures { AreTotals result }
{
    let moved = process.moved_in_all();
    let heads = moved.messages.saturating_mul(HEAD_BYTES);
    CallResult::Totals(TotalsReport {
        received: moved.payload.saturating_add(heads),
        sent: moved.written,
        millis: unix_millis(process.rt()),
    })
}

/// `getpeerinfo`. Fails only with `RpcFault::Memory`.
pub fn peer_info<R: ProcessHost>(process: &Process<R>) -> Result<CallResult, RpcFault>
    ensures { IfOk result ArePeers }
{
    Ok(CallResult::Peers(process.peer_reports()?))
}

/// `addnode`. Unlike an operator's `connect`, nobody waits for the dial.
pub fn add_node<R: ProcessHost, L: Log>(
    process: &mut Process<R>,
    address: SocketAddr,
    aim: Aim,
    log: &L,
) -> Result<CallResult, RpcFault>
    ensures { IfOk result (λ told. told ≡ Nothing) }
{
    let done = match aim {
        Aim::Add => process.add(address),
        Aim::Once => process.try_once(address),
        Aim::Remove => return remove_node(process, address, log),
    };
    match done {
        Ok(()) => Ok(CallResult::Nothing),
        Err(refusal) => Err(fault_of(refusal)),
    }
}

/// `addnode .. remove`.
fn remove_node<R: ProcessHost, L: Log>(
    process: &mut Process<R>,
    address: SocketAddr,
    log: &L,
) -> Result<CallResult, RpcFault>
    ensures { IfOk result (λ told. told ≡ Nothing) }
{
    match do_order(process, Order::Disconnect(address), log) {
        Ok(_) => Ok(CallResult::Nothing),
        Err(refusal) => Err(fault_of(refusal)),
    }
}

/// `disconnectnode`. Fails with `RpcFault::NotConnected` if no such connection lasts.
pub fn disconnect_node<R: ProcessHost, L: Log>(
    process: &mut Process<R>,
    whom: Whom,
    log: &L,
) -> Result<CallResult, RpcFault>
    ensures { IfOk result (λ told. told ≡ Nothing) }
{
    let Some(slot) = slot_of(process.watched(), whom) else {
        return Err(RpcFault::NotConnected);
    };
    match do_order(process, Order::Do(Deed::Kick(slot)), log) {
        Ok(_) => Ok(CallResult::Nothing),
        Err(Refusal::NoSlot) => Err(RpcFault::NotConnected),
        Err(refusal) => Err(fault_of(refusal)),
    }
}

/// The slot of a connection.
fn slot_of(list: &[Watched], whom: Whom) -> Option<u16> {
    for watched in list {
        if is_whom(watched, whom) {
            return Some(watched.slot);
        }
    }
    None
}

/// Whether a connection is the one that is meant. One whose session is over isn't.
fn is_whom(watched: &Watched, whom: Whom) -> bool {
    if watched.ended().is_some() {
        return false;
    }
    match whom {
        Whom::Address(address) => watched.address == address,
        Whom::Id(id) => slot_of_id(id) == (watched.slot, watched.link.generation),
    }
}

/// `setnetworkactive`.
pub fn set_network<R: ProcessHost, L: Log>(
    process: &mut Process<R>,
    on: bool,
    log: &L,
) -> Result<CallResult, RpcFault>
    ensures { IfOk result (λ told. told ≡ Switch on) }
{
    match do_order(process, Order::Network(on), log) {
        Ok(_) => Ok(CallResult::Switch(on)),
        Err(refusal) => Err(fault_of(refusal)),
    }
}

/// `ping`.
pub fn ping<R: ProcessHost>(process: &mut Process<R>) -> CallResult
    ensures { result ≡ Nothing }
{
    process.ping_all();
    CallResult::Nothing
}
