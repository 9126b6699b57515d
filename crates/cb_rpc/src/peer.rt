//! The connections that last.
ghost use Rattle.std.specs.Prelude.{◌≡◌, ◌^◌, ◌<◌, ℕ, codes, IfOk, string_bytes};
ghost use Rattle.std.specs.List.{flat_map};
ghost use Rattle.cb_rpc_call.specs.Fields.{list_tokens, signed_field};
ghost use Rattle.cb_rpc.specs.Peers.{address_fields, peer_tokens, agent_of, bytes_read, greeting_fields, height_of, moment_or_zero, network_name, peer_id, ping_field, slot_of_id, time_fields, traffic_fields, version_of, way_fields, way_name};
ghost use Rattle.cb_rpc_call.specs.Writing.{Adds};

use crate::agent::agent_text;
use cb_control::{Greeting, Moved, PeerReport};
use cb_rpc_call::{ListItem, put_millis, put_number, put_signed, put_switch, put_text};
use json::Writer;
use std::alloc::{AllocError, Global};
use std::net::SocketAddr;

/// The number of a connection among those of `getpeerinfo`: its generation times 1,024, and its
/// slot. It wraps at 2^64.
pub fn peer_id(slot: u16, generation: u64) -> u64
    ensures { result ≡ peer_id slot generation }
{
    generation.wrapping_mul(1_024).wrapping_add(u64::from(slot))
}

/// The slot and the generation of a connection with this number.
pub fn slot_of_id(id: u64) -> (u16, u64)
    ensures { result ≡ slot_of_id id }
{
    ((id % 1_024) as u16, id / 1_024)
}

/// Each number of a slot below 1,024 leads back to slot and generation, up to generation 2^54, and
/// each number is that of what it leads to. The function does nothing: its contract is a theorem.
pub fn ids_are_undone()
    ensures back { (slot generation : ℕ) → slot < 1024 → generation < 2 ^ 54 →
        slot_of_id (peer_id slot generation) ≡ (slot, generation) }
    ensures forth { (id : ℕ) → id < 2 ^ 64 →
        peer_id (slot_of_id id).0 (slot_of_id id).1 ≡ id }
{}

/// Writes the connections that last as a list.
#[tactic(auto, unfolding(cb_rpc_call::specs::Fields::list_tokens))]
pub fn put_peers(alloc: Global, writer: &mut Writer, peers: &[PeerReport]) -> Result<(), AllocError>
    ensures { Adds result writer.old writer.new (list_tokens peer_tokens peers.now) }
{
    writer.begin_array()?;
    put_each(alloc, writer, peers)?;
    writer.end_array()
}

/// Writes connections, with no brackets.
fn put_each(alloc: Global, writer: &mut Writer, peers: &[PeerReport]) -> Result<(), AllocError>
    ensures { Adds result writer.old writer.new (flat_map peer_tokens peers.now) }
{
    for peer in peers {
        put_peer(alloc, writer, peer)?;
    }
    Ok(())
}

/// Writes a connection as an object.
#[tactic(auto, unfolding(crate::specs::Peers::peer_tokens))]
fn put_peer(alloc: Global, writer: &mut Writer, peer: &PeerReport) -> Result<(), AllocError>
    ensures { Adds result writer.old writer.new (peer_tokens peer.now) }
{
    writer.begin_object()?;
    put_address(alloc, writer, peer)?;
    put_traffic(writer, peer)?;
    put_times(alloc, writer, peer)?;
    put_greeting(alloc, writer, peer)?;
    put_way(writer, peer)?;
    writer.end_object()
}

/// Writes which connection it is, and where the peer is.
#[tactic(auto, unfolding(crate::specs::Peers::address_fields))]
fn put_address(alloc: Global, writer: &mut Writer, peer: &PeerReport) -> Result<(), AllocError>
    ensures { Adds result writer.old writer.new (address_fields peer.now) }
{
    let address = peer.address;
    let text = format!(in alloc; "{address}")?;
    put_number(writer, "id", peer_id(peer.slot, peer.generation))?;
    put_text(writer, "addr", text.as_str())?;
    put_text(writer, "network", network_name(&address))
}

/// The name of an address's network.
fn network_name(address: &SocketAddr) -> &'static str
    ensures { result.now ≡ network_name address.now }
{
    match address {
        SocketAddr::V4(_) => "ipv4",
        SocketAddr::V6(_) => "ipv6",
    }
}

/// Writes what a connection moved.
#[tactic(auto, unfolding(crate::specs::Peers::traffic_fields))]
fn put_traffic(writer: &mut Writer, peer: &PeerReport) -> Result<(), AllocError>
    ensures { Adds result writer.old writer.new (traffic_fields peer.now) }
{
    put_signed(writer, "lastrecv", moment_or_zero(peer.last))?;
    put_number(writer, "bytessent", peer.moved.written)?;
    put_number(writer, "bytesrecv", bytes_read(&peer.moved))
}

/// A moment, or 0 if there is none.
fn moment_or_zero(moment: Option<i64>) -> i64
    ensures { result ≡ moment_or_zero moment }
{
    match moment {
        Some(moment) => moment,
        None => 0,
    }
}

/// How many bytes came, or 2^64 - 1 if it were more: each message has 24 before its payload.
fn bytes_read(moved: &Moved) -> u64
    ensures { result ≡ bytes_read moved.now }
{
    let headers = moved.messages.saturating_mul(24);
    moved.payload.saturating_add(headers)
}

/// Writes when a connection was made, and how long its latest `pong` took.
#[tactic(auto, unfolding(crate::specs::Peers::time_fields))]
fn put_times(alloc: Global, writer: &mut Writer, peer: &PeerReport) -> Result<(), AllocError>
    ensures { Adds result writer.old writer.new (time_fields peer.now) }
{
    put_signed(writer, "conntime", peer.since)?;
    put_number(writer, "timeoffset", 0)?;
    put_ping(alloc, writer, peer.pong)
}

/// Writes how many seconds the latest `pong` took, if one came.
fn put_ping(alloc: Global, writer: &mut Writer, pong: Option<u64>) -> Result<(), AllocError>
    ensures { Adds result writer.old writer.new (ping_field pong) }
{
    match pong {
        Some(millis) => put_millis(alloc, writer, "pingtime", millis),
        None => Ok(()),
    }
}

/// Writes what the peer's `version` told of it.
#[tactic(auto, unfolding(crate::specs::Peers::greeting_fields))]
fn put_greeting(alloc: Global, writer: &mut Writer, peer: &PeerReport) -> Result<(), AllocError>
    ensures { Adds result writer.old writer.new (greeting_fields peer.now) }
{
    let agent = agent_of(alloc, &peer.greeting)?;
    put_signed(writer, "version", i64::from(version_of(&peer.greeting)))?;
    put_text(writer, "subver", agent.as_str())?;
    Ok(())
}

/// Writes which way the connection was made, and the height that the peer told.
#[tactic(auto, unfolding(crate::specs::Peers::way_fields))]
fn put_way(writer: &mut Writer, peer: &PeerReport) -> Result<(), AllocError>
    ensures { Adds result writer.old writer.new (way_fields peer.now) }
{
    put_switch(writer, "inbound", peer.inbound)?;
    put_height(writer, &peer.greeting)?;
    put_text(writer, "connection_type", way_name(peer.inbound))?;
    Ok(())
}

/// Writes the height that a peer told.
fn put_height(writer: &mut Writer, greeting: &Option<Greeting>) -> Result<(), AllocError>
    ensures { Adds result writer.old writer.new
        (signed_field (codes "startingheight") (height_of greeting.now)) }
{
    put_signed(writer, "startingheight", i64::from(height_of(greeting)))
}

/// A peer's protocol version, 0 before it is known.
fn version_of(greeting: &Option<Greeting>) -> i32
    ensures { result ≡ version_of greeting.now }
{
    match greeting {
        Some(greeting) => greeting.version,
        None => 0,
    }
}

/// What is told of a peer's agent.
fn agent_of(alloc: Global, greeting: &Option<Greeting>) -> Result<String, AllocError>
    ensures { IfOk result (λ text. string_bytes text ≡ agent_of greeting.now) }
{
    match greeting {
        Some(greeting) => agent_text(alloc, greeting.agent.as_slice()),
        None => Ok(String::new(alloc)),
    }
}

/// The height that a peer told, -1 before it is known.
fn height_of(greeting: &Option<Greeting>) -> i32
    ensures { result ≡ height_of greeting.now }
{
    match greeting {
        Some(greeting) => greeting.height,
        None => -1,
    }
}

/// The name of the way in which a connection was made.
fn way_name(inbound: bool) -> &'static str
    ensures { result.now ≡ way_name inbound }
{
    if inbound { "inbound" } else { "manual" }
}
