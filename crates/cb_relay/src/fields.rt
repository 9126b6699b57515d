//! Reading messages without lists into their fields. Nothing is allocated.
ghost use Rattle.std.specs.Prelude.{◌≡◌, ◌≤◌, ℕ, Bool, List, length, IfOk, MatchResult, Ok, Err, Result};
ghost use Rattle.std.specs.Int.{w64};
ghost use Rattle.cb_base.specs.Reading.{number_at};
ghost use Rattle.cb_base.specs.declared.fault.Fault.{Fault};
ghost use Rattle.cb_wire.specs.Requests.{compact_relay_at};
ghost use Rattle.cb_wire.specs.Version.{version_at};
ghost use Rattle.cb_wire.specs.declared.version.Version.{Version};
ghost use Rattle.cb_relay.specs.Fields.{fields_of, shape_of_address};
ghost use Rattle.cb_relay.specs.WholeMessages.{all_of};

use crate::message_shapes::{CbAddress, CbVersionFields};
use crate::shapes::CbSpan;
use crate::whole::whole;
use cb_base::{Cursor, Fault};
use cb_block::compact_size;
use cb_wire::{BorrowedVersion, CompactRelay, NetAddress, borrow_version, read_compact_relay};

/// Reads the nonce of a `ping` or a `pong` (BIP 31). Fails with `Truncated` below 8 bytes, and with
/// `Trailing` above.
pub fn nonce_read(payload: &[u8]) -> Result<u64, Fault>
    ensures { result ≡ all_of (number_at w64 payload.now) }
{
    let mut cursor = Cursor::new(payload);
    whole(cursor.u64()?, &cursor)
}

/// Reads a `sendcmpct` (BIP 152). Fails with `BadBool` if the flag is neither 0 nor 1, with
/// `Truncated` if bytes are missing, and with `Trailing` if some are left.
pub fn sendcmpct_read(payload: &[u8]) -> Result<CompactRelay, Fault>
    ensures { result ≡ all_of (compact_relay_at payload.now) }
{
    let mut cursor = Cursor::new(payload);
    whole(read_compact_relay(&mut cursor)?, &cursor)
}

fn address_shape(address: NetAddress) -> CbAddress
    ensures { result ≡ shape_of_address address }
{
    let ip = address.ip;
    CbAddress {
        services: address.services,
        ip,
        port: address.port,
    }
}

/// The fields as C has them.
fn shape_of(told: &BorrowedVersion) -> CbVersionFields
    requires { length told.now.agent.now ≤ 256 }
    ensures { result
        ≡ fields_of
        (record {
          version = told.now.version;
          services = told.now.services;
          time = told.now.time;
          receiver = told.now.receiver;
          sender = told.now.sender;
          nonce = told.now.nonce;
          agent = told.now.agent.now;
          height = told.now.height;
          relay = told.now.relay;
        }) }
{
    let len = told.agent.len();
    CbVersionFields {
        version: told.version,
        relay: if told.relay { 1 } else { 0 },
        services: told.services,
        time: told.time,
        receiver: address_shape(told.receiver),
        sender: address_shape(told.sender),
        nonce: told.nonce,
        agent: CbSpan {
            offset: 80 + compact_size(len as u64) as usize,
            len,
        },
        height: told.height,
    }
}

/// Reads the payload of a `version`, with the relay byte of BIP 37. Bytes behind that are ignored.
///
/// Fails with `Truncated` if bytes are missing, with `NotShortest` if the user agent's length isn't
/// in its shortest form, and with `TooMany` if that is above 256.
pub fn version_read(payload: &[u8]) -> Result<CbVersionFields, Fault>
    ensures { MatchResult result
        (λ fields. (version : Version) × (version_at payload.now ≡ Ok version)
        × (fields ≡ fields_of version))
        (λ fault. version_at payload.now ≡ Err fault) }
{
    match borrow_version(payload) {
        Ok(told) => Ok(shape_of(&told)),
        Err(fault) => Err(fault),
    }
}
