ghost use Rattle.std.specs.Prelude.{◌≡◌, ◌⊎◌, IfErr, IfOk, None};
ghost use Rattle.cb_base.specs.declared.fault.Fault.TheVariants.{Memory};
ghost use Rattle.cb_c.specs.Answers.{IsCut, IsWrong, verdict_of, wrong_status};
ghost use Rattle.cb_c.specs.Giving.{IsGiven};
ghost use Rattle.cb_relay.specs.Envelopes.{EnvelopeTakesMemory, cut_at};
ghost use Rattle.cb_relay.specs.Messages.{MessageTakesMemory, wrong_message};
ghost use Rattle.cb_relay.specs.declared.message.NoMessage.{NoMessage};
ghost use Rattle.cb_wire.specs.Envelope.{envelope_text};

use crate::giving::give;
use crate::status::status;
use cb_base::Fault;
use cb_relay::{CutEnvelope, NoMessage, envelope_at, message_check, message_write};
use std::alloc::Global;

/// The status of bytes that begin no whole envelope yet.
const PARTIAL: u32 = 65_537;

/// The status of a wrong checksum, or of a command in another form.
const DAMAGED: u32 = 65_538;

/// The status of what is wrong with a message.
fn wrong_status(why: NoMessage) -> u32
    ensures { result ≡ wrong_status why }
{
    match why {
        NoMessage::Damaged => DAMAGED,
        NoMessage::Bad(fault) => status(fault),
    }
}

/// What is told of an envelope.
fn verdict(wrong: Option<NoMessage>) -> u32
    ensures { result ≡ verdict_of wrong }
{
    match wrong {
        Some(why) => wrong_status(why),
        None => 0,
    }
}

/// What is at the front of a stream.
fn cut(alloc: Global, bytes: &[u8]) -> Result<CutEnvelope, Fault>
    ensures fine { IfOk result (λ cut. cut_at bytes.now ≡ cut) }
    ensures refused { IfErr result (λ fault. (fault ≡ Memory) × EnvelopeTakesMemory bytes.now) }
{
    envelope_at(alloc, bytes)
}

/// Looks at the envelope at the front of a stream.
#[unsafe(no_mangle)]
pub extern "C" fn cbrelay_envelope_at(
    alloc: Global,
    bytes: &[u8],
    payload_len: &mut usize,
    told: &mut u32,
) -> u32
    ensures { IsCut bytes.now payload_len.old payload_len.new told.old told.new result }
{
    match cut(alloc, bytes) {
        Ok(CutEnvelope::Partial) => PARTIAL,
        Ok(CutEnvelope::Broken(fault)) => status(fault),
        Ok(CutEnvelope::Whole(size, wrong)) => {
            *payload_len = size;
            *told = verdict(wrong);
            0
        }
        Err(fault) => status(fault),
    }
}

/// Why the payload isn't one of this command, if it isn't.
fn checked(alloc: Global, command: &[u8], payload: &[u8]) -> Result<(), NoMessage>
    ensures fine { IfOk result (λ _. wrong_message command.now payload.now ≡ None) }
    ensures refused { IfErr result
        (IsWrong command.now payload.now (MessageTakesMemory command.now payload.now)) }
{
    message_check(alloc, command, payload)
}

/// Whether the payload is one of this command.
#[unsafe(no_mangle)]
pub extern "C" fn cbrelay_message_check(alloc: Global, command: &[u8], payload: &[u8]) -> u32
    ensures { ((result ≡ 0) × (wrong_message command.now payload.now ≡ None))
        ⊎ ((why : NoMessage) × (result ≡ wrong_status why)
        × IsWrong command.now payload.now (MessageTakesMemory command.now payload.now) why) }
{
    match checked(alloc, command, payload) {
        Ok(()) => 0,
        Err(why) => wrong_status(why),
    }
}

/// The envelope of a command and a payload.
fn written(alloc: Global, command: &[u8], payload: &[u8]) -> Result<Vec<u8>, NoMessage>
    ensures fine { IfOk result
        (λ envelope. (wrong_message command.now payload.now ≡ None)
        × (envelope.items ≡ envelope_text command.now payload.now)) }
    ensures refused { IfErr result
        (IsWrong command.now payload.now (MessageTakesMemory command.now payload.now
        ⊎ (wrong_message command.now payload.now ≡ None))) }
{
    message_write(alloc, command, payload)
}

/// Writes the envelope of a command and a payload.
#[unsafe(no_mangle)]
pub extern "C" fn cbrelay_message_write(
    alloc: Global,
    command: &[u8],
    payload: &[u8],
    out: &mut [u8],
    len: &mut usize,
) -> u32
    ensures { ((wrong_message command.now payload.now ≡ None)
        × IsGiven (envelope_text command.now payload.now) out.old out.new len.new result)
        ⊎ ((why : NoMessage) × (result ≡ wrong_status why)
        × IsWrong command.now payload.now (MessageTakesMemory command.now payload.now
        ⊎ (wrong_message command.now payload.now ≡ None)) why
        × (out.new ≡ out.old) × (len.new ≡ len.old)) }
{
    match written(alloc, command, payload) {
        Ok(envelope) => give(envelope.as_slice(), out, len),
        Err(why) => wrong_status(why),
    }
}
