ghost use Rattle.std.specs.Prelude.{◌≡◌, ℕ, ◌+◌, ◌≤◌, List, length, take, drop, IfOk, IsOkUnless, IfSome};
ghost use Rattle.std.specs.Prelude.{◌==◌, position};
ghost use Rattle.std.specs.List.{list_all};
ghost use Rattle.std.specs.Option.{option_map};
ghost use Rattle.std.specs.Str.{bytes_eq};
ghost use Rattle.cb_base.specs.declared.fault.Fault.TheVariants.{Memory};
ghost use Rattle.cb_base.specs.DoubleHash.{double_hash};
ghost use Rattle.cb_wire.specs.Command.{IsCommand, command_in, is_command, is_command_byte, known_command, name_length};
ghost use Rattle.cb_wire.specs.Grammar.{payload_at};
ghost use Rattle.cb_wire.specs.Envelope.{IsFrontOf, checksum, front_at, item_at, item_under, outcome, told_length};

use crate::bounded::BoundedMessage;
use crate::command::{Command, UnknownName};
use crate::item::Item;
use crate::message::{Message, read_payload};
use crate::payload::Payload;
use cb_base::{Fault, Hash256};
use std::alloc::Global;
use std::str::from_utf8;

/// The magic bytes of regtest, as they are sent.
pub const MAGIC: [u8; 4] = [0xfa, 0xbf, 0xb5, 0xda];

/// The length of an envelope's header, in bytes.
pub const HEADER_LEN: usize = 24;

/// The length of the command field in the header, in bytes.
pub const COMMAND_LEN: usize = 12;

/// The most bytes that a payload may have, as in Bitcoin Core (MAX_PROTOCOL_MESSAGE_LENGTH).
pub const PAYLOAD_LIMIT: usize = 4_000_000;

/// What is at the front of a stream.
#[derive(Clone, Copy, PartialEq, Eq)]
pub enum Front {
    /// Too few bytes for a whole envelope.
    Partial,
    /// A header with a wrong magic (`BadMagic`) or a length above the limit (`Oversize`).
    Broken(Fault),
    /// A whole envelope, whose payload has this many bytes.
    Whole(usize),
}

/// What is at the front of a stream.
#[tactic(auto, unfolding(crate::specs::Envelope::front_at))]
pub fn front_of(bytes: &[u8]) -> Front
    ensures front { result ≡ front_at bytes.now }
    ensures whole { IsFrontOf bytes.now result }
{
    if bytes.len() < HEADER_LEN {
        return Front::Partial;
    }
    let (magic, _) = bytes.split_at(4);
    if magic != MAGIC.as_slice() {
        return Front::Broken(Fault::BadMagic);
    }
    let length = length_told(bytes) as usize;
    if length > PAYLOAD_LIMIT {
        return Front::Broken(Fault::Oversize);
    }
    if bytes.len() < HEADER_LEN + length {
        return Front::Partial;
    }
    Front::Whole(length)
}

/// The payload length in an envelope's header.
fn length_told(bytes: &[u8]) -> u32
    requires { 24 ≤ length bytes.now }
    ensures { result ≡ told_length bytes.now }
{
    u32::from_le_bytes([bytes[16], bytes[17], bytes[18], bytes[19]])
}

/// The payload of the envelope at the front, which has `size` bytes.
pub fn payload_of(bytes: &[u8], size: usize) -> &[u8]
    requires { 24 + size ≤ length bytes.now }
    ensures { result.now ≡ take size (drop 24 bytes.now) }
{
    let (_, rest) = bytes.split_at(HEADER_LEN);
    let (payload, _) = rest.split_at(size);
    payload
}

/// The item of the envelope at the front, whose payload has `size` bytes and this double hash.
/// Faults within the payload are part of the item.
///
/// Fails only with `Fault::Memory`.
#[tactic(auto, unfolding(crate::specs::Envelope::item_at))]
pub fn item_of(alloc: Global, bytes: &[u8], size: usize, hash: &Hash256) -> Result<Item, Fault>
    requires there { 24 + size ≤ length bytes.now }
    requires limit { size ≤ 4000000 }
    requires hash { hash.now ≡ double_hash (take size (drop 24 bytes.now)) }
    ensures item { IfOk result (λ item. item ≡ item_at size bytes.now) }
    ensures memory { IsOkUnless result Memory }
{
    let (header, _) = bytes.split_at(HEADER_LEN);
    let payload = payload_of(bytes, size);
    if !has_checksum(header, hash) {
        return Ok(Item::Damaged);
    }
    match command_of(header) {
        Some(name) => item_named(alloc, name, payload),
        None => Ok(Item::Damaged),
    }
}

/// Whether the last 4 bytes of the header are the checksum of the payload with this double hash.
#[tactic(auto, unfolding(crate::specs::Envelope::checksum))]
pub fn has_checksum(header: &[u8], hash: &Hash256) -> bool
    requires { length header.now ≡ 24 }
    ensures { (payload : List ℕ) → hash.now ≡ double_hash payload →
        result ≡ bytes_eq (drop 20 header.now) (checksum payload) }
{
    let (_, told) = header.split_at(20);
    let (computed, _) = hash.0.split_at(4);
    told == computed
}

/// The command in an envelope's header, if it has the form of one.
pub fn command_of(header: &[u8]) -> Option<&str>
    requires { length header.now ≡ 24 }
    ensures command { option_map (λ name. name.now) result
        ≡ command_in (take 12 (drop 4 header.now)) }
    ensures form { IfSome result (λ name. IsCommand name.now) }
{
    let (_, tail) = header.split_at(4);
    let (field, _) = tail.split_at(12);
    command_within(field)
}

/// The command in the header's field of 12 bytes: the bytes before the first zero, if only zeros
/// follow.
#[tactic(auto, unfolding(crate::specs::Command::command_in))]
fn command_within(field: &[u8]) -> Option<&str>
    ensures command { option_map (λ name. name.now) result ≡ command_in field.now }
    ensures form { IfSome result (λ name. IsCommand name.now) }
{
    let (name, zeros) = field.split_at(name_length(field));
    if is_command(name) && are_zeros(zeros) {
        from_utf8(name).ok()
    } else {
        None
    }
}

/// The number of bytes before the first zero.
fn name_length(field: &[u8]) -> usize
    ensures length { result ≡ name_length field.now }
    ensures within { result ≤ length field.now }
{
    match first_zero(field) {
        Some(place) => place,
        None => field.len(),
    }
}

fn first_zero(field: &[u8]) -> Option<usize>
    ensures { result ≡ position (λ byte. byte == 0) field.now }
{
    field.iter().position(|byte| *byte == 0)
}

fn are_zeros(bytes: &[u8]) -> bool
    ensures { result ≡ list_all (λ byte. byte == 0) bytes.now }
{
    bytes.iter().all(|byte| *byte == 0)
}

/// Whether a name has the form of a command: 1 to 12 bytes from the space to the tilde.
pub fn is_command(name: &[u8]) -> bool
    ensures { result ≡ is_command name.now }
{
    1 <= name.len() && name.len() <= 12 && are_command_bytes(name)
}

fn are_command_bytes(name: &[u8]) -> bool
    ensures { result ≡ list_all is_command_byte name.now }
{
    name.iter().all(|byte| is_command_byte(*byte))
}

fn is_command_byte(byte: u8) -> bool
    ensures { result ≡ is_command_byte byte }
{
    0x20 <= byte && byte <= 0x7e
}

/// The item of a payload and its command's name. Fails only with `Fault::Memory`.
fn item_named(alloc: Global, name: &str, payload: &[u8]) -> Result<Item, Fault>
    requires form { IsCommand name.now }
    requires limit { length payload.now ≤ 4000000 }
    ensures item { IfOk result
        (λ item. item ≡ item_under (known_command name.now) name.now payload.now) }
    ensures memory { IsOkUnless result Memory }
{
    match Command::named(name) {
        Some(command) => item_of_known(alloc, command, payload),
        None => {
            let name = UnknownName::new(alloc, name)?;
            let payload = Payload::new(Vec::from_slice(alloc, payload)?);
            Ok(Item::Good(BoundedMessage::new(Message::Unknown(name, payload))))
        }
    }
}

/// The item of a known command's payload. Fails only with `Fault::Memory`.
fn item_of_known(alloc: Global, command: Command, payload: &[u8]) -> Result<Item, Fault>
    requires { length payload.now ≤ 4000000 }
    ensures item { IfOk result (λ item. item ≡ outcome command (payload_at command payload.now)) }
    ensures memory { IsOkUnless result Memory }
{
    match read_payload(alloc, command, payload) {
        Ok(message) => Ok(Item::Good(BoundedMessage::new(message))),
        Err(Fault::Memory) => Err(Fault::Memory),
        Err(fault) => Ok(Item::Bad(command, fault)),
    }
}
