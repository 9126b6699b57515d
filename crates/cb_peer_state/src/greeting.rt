ghost use Rattle.std.specs.Prelude.{◌≡◌, IfOk, IsOk, IsOkUnless, []};
ghost use Rattle.cb_base.specs.declared.fault.Fault.TheVariants.{Memory};
ghost use Rattle.cb_peer_state.specs.Greeting.{our_version, wish, wishes};

use crate::outgoing::Outgoing;
use cb_base::Fault;
use cb_wire::{Agent, CompactRelay, Message, NetAddress, Version};
use std::alloc::Global;

/// The protocol version that this node speaks.
const PROTOCOL_VERSION: i32 = 70_014;

/// The first protocol versions that know `sendheaders` (BIP 130) and compact blocks (BIP 152).
const SENDHEADERS_VERSION: i32 = 70_012;

const COMPACT_VERSION: i32 = 70_014;

/// The empty address: this node tells none.
const NO_ADDRESS: NetAddress = NetAddress {
    services: 0,
    ip: [0; 16],
    port: 0,
};

/// Returns this node's `version` message (Bitcoin's protocol). `nonce` lets the node recognise its
/// own message, `time` is in seconds since the start of 1970, and `height` is the best chain's.
///
/// Fails only with `Fault::Memory`.
pub fn our_version(alloc: Global, nonce: u64, time: i64, height: i32) -> Result<Outgoing, Fault>
    ensures message { IfOk result (λ message. message ≡ our_version nonce time height) }
    ensures memory { IsOkUnless result Memory }
{
    let agent = Vec::from_slice(alloc, b"/cbrelay:1/")?;
    Ok(Outgoing::new(Message::Version(Version {
        version: PROTOCOL_VERSION,
        services: 1,
        time,
        receiver: NO_ADDRESS,
        sender: NO_ADDRESS,
        nonce,
        agent: Agent::from_few(agent),
        height,
        relay: true,
    })))
}

/// Returns the message that says how this node wishes to hear of new blocks (`sendcmpct`, BIP 152):
/// by compact blocks of version 1. They come unasked if `high` (high-bandwidth mode), or else only
/// on request. No memory is allocated.
pub fn wish(high: bool) -> Outgoing
    ensures { result ≡ wish high }
{
    Outgoing::new(Message::SendCmpct(CompactRelay {
        high_bandwidth: high,
        version: 1,
    }))
}

/// Returns the messages that are sent once the handshake is done, as far as the peer's protocol
/// version knows them:
/// - `sendheaders`, from version 70012 on: announce blocks by headers (BIP 130);
/// - `sendcmpct`, from version 70014 on: send compact blocks of version 1, but only on request
///   (BIP 152, low-bandwidth mode).
///
/// Fails only with `Fault::Memory`, and never if there are no such messages.
pub fn wishes(alloc: Global, version: i32) -> Result<Vec<Outgoing>, Fault>
    ensures messages { IfOk result (λ messages. messages.items ≡ wishes version) }
    ensures memory { IsOkUnless result Memory }
    ensures unpaid { wishes version ≡ [] → IsOk result }
{
    let mut messages = Vec::new(alloc);
    if version >= SENDHEADERS_VERSION {
        messages.push(Outgoing::new(Message::SendHeaders))?;
    }
    if version >= COMPACT_VERSION {
        messages.push(wish(false))?;
    }
    Ok(messages)
}
