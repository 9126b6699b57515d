//! The envelope at the front of a stream.
ghost use Rattle.std.specs.Prelude.{◌≡◌, ◌+◌, ◌≤◌, length, IfOk, IsOkUnless, Err};
ghost use Rattle.cb_base.specs.declared.fault.Fault.TheVariants.{Memory};
ghost use Rattle.cb_relay.specs.Envelopes.{EnvelopeTakesMemory, IsPaidFor, cut_at};
ghost use Rattle.cb_relay.specs.Messages.{PayloadTakesMemory, wrong_payload, wrong_with};
ghost use Rattle.cb_wire.specs.Command.{IsCommand};
ghost use Rattle.cb_wire.specs.Envelope.{item_at};

use crate::message::{NoMessage, read_under};
use cb_base::{Fault, dsha};
use cb_wire::{Front, HEADER_LEN, command_of, front_of, has_checksum, payload_of};
use std::alloc::Global;

/// What is at the front of a stream.
#[derive(Clone, Copy, PartialEq, Eq)]
pub enum CutEnvelope {
    /// Too few bytes for a whole envelope.
    Partial,
    /// A wrong magic (`BadMagic`), or a payload above 4,000,000 bytes (`Oversize`). It ends the
    /// stream.
    Broken(Fault),
    /// A whole envelope: the length of its payload, behind 24 bytes, and what is wrong with it, if
    /// anything.
    Whole(usize, Option<NoMessage>),
}

/// What is wrong with a payload under a name, if anything. Fails only with `Fault::Memory`.
fn wrong_payload(alloc: Global, name: &str, payload: &[u8]) -> Result<Option<NoMessage>, Fault>
    requires { IsCommand name.now }
    ensures told { IfOk result (λ wrong. wrong ≡ wrong_payload name.now payload.now) }
    ensures memory { IsOkUnless result Memory }
    ensures paid { result ≡ Err Memory → PayloadTakesMemory name.now payload.now }
{
    match read_under(alloc, name, payload) {
        Ok(()) => Ok(None),
        Err(fault) if fault == Fault::Memory => Err(fault),
        Err(fault) => Ok(Some(NoMessage::Bad(fault))),
    }
}

/// What is wrong with the envelope at the front, whose payload has `size` bytes. Fails only with
/// `Fault::Memory`.
#[tactic(auto, unfolding(cb_wire::specs::Envelope::item_at))]
fn wrong_envelope(alloc: Global, bytes: &[u8], size: usize) -> Result<Option<NoMessage>, Fault>
    requires { 24 + size ≤ length bytes.now }
    ensures told { IfOk result (λ wrong. wrong ≡ wrong_with (item_at size bytes.now)) }
    ensures memory { IsOkUnless result Memory }
    ensures paid { result ≡ Err Memory → IsPaidFor size bytes.now }
{
    let (header, _) = bytes.split_at(HEADER_LEN);
    let payload = payload_of(bytes, size);
    let hash = dsha(payload);
    if !has_checksum(header, &hash) {
        return Ok(Some(NoMessage::Damaged));
    }
    match command_of(header) {
        Some(name) => wrong_payload(alloc, name, payload),
        None => Ok(Some(NoMessage::Damaged)),
    }
}

/// Looks at the envelope at the front of a stream. If it is whole, the next one begins behind its
/// payload, whatever is wrong with it.
///
/// Fails only with `Fault::Memory`, and only if the envelope is whole, has a known command, and
/// reading its payload takes memory.
pub fn envelope_at(alloc: Global, bytes: &[u8]) -> Result<CutEnvelope, Fault>
    ensures cut { IfOk result (λ cut. cut ≡ cut_at bytes.now) }
    ensures memory { IsOkUnless result Memory }
    ensures paid { result ≡ Err Memory → EnvelopeTakesMemory bytes.now }
{
    match front_of(bytes) {
        Front::Partial => Ok(CutEnvelope::Partial),
        Front::Broken(fault) => Ok(CutEnvelope::Broken(fault)),
        Front::Whole(size) => match wrong_envelope(alloc, bytes, size) {
            Ok(wrong) => Ok(CutEnvelope::Whole(size, wrong)),
            Err(fault) => Err(fault),
        },
    }
}
