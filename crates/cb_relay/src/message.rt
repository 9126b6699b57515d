//! Checking a message, and writing its envelope.
ghost use Rattle.std.specs.Prelude.{◌≡◌, ◌⊎◌, ◌≤◌, ◌++◌, false, length, Option, Some, None, Ok, Err, IfErr, IfOk, IsOkUnless, MatchOption, MatchResult, OnErr, OnOk};
ghost use Rattle.cb_base.specs.declared.fault.Fault.{Fault};
ghost use Rattle.cb_base.specs.declared.fault.Fault.TheVariants.{Memory};
ghost use Rattle.cb_relay.specs.Messages.{IsToldUnpaid, MessageTakesMemory, PayloadTakesMemory, wrong_message, wrong_payload};
ghost use Rattle.cb_relay.specs.declared.message.NoMessage.{NoMessage};
ghost use Rattle.cb_relay.specs.declared.message.NoMessage.TheVariants.{Bad};
ghost use Rattle.cb_wire.specs.Command.{IsCommand, is_command, known_command};
ghost use Rattle.cb_wire.specs.Envelope.{envelope_text};
ghost use Rattle.cb_wire.specs.Grammar.{IsPaid, IsUnpaid, payload_at};
ghost use Rattle.cb_wire.specs.declared.command.Command.{Command};

use cb_base::Fault;
use cb_wire::{Command, PAYLOAD_LIMIT, decode, put_envelope};
use std::alloc::Global;
use std::str::from_utf8;

/// Why bytes are no message.
#[derive(Clone, Copy, PartialEq, Eq)]
pub enum NoMessage {
    /// The checksum is wrong, or the command isn't in the form of one: 1 to 12 bytes from the space
    /// to the tilde.
    Damaged,
    /// The fault of the payload, or of reading it.
    Bad(Fault),
}

/// The name as text, if it has the form of a command.
fn command_named(name: &[u8]) -> Option<&str>
    ensures { MatchOption result (is_command name.now ≡ false)
        (λ text. (text.now ≡ name.now) × IsCommand name.now) }
{
    let Ok(text) = from_utf8(name) else {
        return None;
    };
    if Command::is_name(text) {
        Some(text)
    } else {
        None
    }
}

/// Whether the payload of this known command can be read.
fn read_known(alloc: Global, name: &str, command: Command, payload: &[u8]) -> Result<(), Fault>
    requires form { IsCommand name.now }
    requires known { known_command name.now ≡ Some command }
    ensures exact { MatchResult result (λ _. wrong_payload name.now payload.now ≡ None)
        (λ fault. (fault ≡ Memory) ⊎ (wrong_payload name.now payload.now ≡ Some (Bad fault))) }
    ensures unpaid { (fault : Fault) → IsUnpaid (Some command) payload.now fault →
        result ≡ Err fault }
    ensures paid { result ≡ Err Memory → IsPaid (Some command) payload.now }
{
    match decode(alloc, name, payload) {
        Ok(_message) => Ok(()),
        Err(fault) => Err(fault),
    }
}

/// Whether the payload under this name can be read. That of an unknown command isn't looked at.
pub(crate) fn read_under(alloc: Global, name: &str, payload: &[u8]) -> Result<(), Fault>
    requires { IsCommand name.now }
    ensures exact { MatchResult result (λ _. wrong_payload name.now payload.now ≡ None)
        (λ fault. (fault ≡ Memory) ⊎ (wrong_payload name.now payload.now ≡ Some (Bad fault))) }
    ensures unpaid { (command : Command) (fault : Fault) → known_command name.now ≡ Some command →
        IsUnpaid (Some command) payload.now fault → result ≡ Err fault }
    ensures paid { result ≡ Err Memory → PayloadTakesMemory name.now payload.now }
{
    match Command::named(name) {
        Some(command) => read_known(alloc, name, command, payload),
        None => Ok(()),
    }
}

/// The name as text, if it and the payload can be a message's.
fn checked<'a>(alloc: Global, name: &'a [u8], payload: &[u8]) -> Result<&'a str, NoMessage>
    ensures exact { MatchResult result
        (λ text. (text.now ≡ name.now) × IsCommand name.now × (length payload.now ≤ 4000000)
        × (wrong_message name.now payload.now ≡ None))
        (λ why. (why ≡ Bad Memory) ⊎ (wrong_message name.now payload.now ≡ Some why)) }
    ensures unpaid { (fault : Fault) → IsToldUnpaid name.now payload.now fault →
        result ≡ Err (Bad fault) }
    ensures paid { result ≡ Err (Bad Memory) → MessageTakesMemory name.now payload.now }
{
    let Some(text) = command_named(name) else {
        return Err(NoMessage::Damaged);
    };
    if payload.len() > PAYLOAD_LIMIT {
        return Err(NoMessage::Bad(Fault::Oversize));
    }
    match read_under(alloc, text, payload) {
        Ok(()) => Ok(text),
        Err(fault) => Err(NoMessage::Bad(fault)),
    }
}

/// Whether a payload is one of this command. Any is, if the command is unknown.
///
/// Fails with `NoMessage::Damaged` if the name hasn't the form of a command, with `Oversize` if the
/// payload has more than 4,000,000 bytes, then with the fault of the first field from the left that
/// can't be read: `Truncated`, `NotShortest`, `TooMany`, `Empty`, `BadBool`, and last `Trailing`,
/// which a `version` never has. `Memory` is possible only where reading allocates: for a list that
/// isn't empty, a user agent, transactions, a block.
pub fn message_check(alloc: Global, name: &[u8], payload: &[u8]) -> Result<(), NoMessage>
    ensures exact { MatchResult result (λ _. wrong_message name.now payload.now ≡ None)
        (λ why. (why ≡ Bad Memory) ⊎ (wrong_message name.now payload.now ≡ Some why)) }
    // In messages with lists or transactions, nothing is allocated before the first count has been
    // read. In the other known commands, any fault comes before an allocation.
    ensures unpaid { (fault : Fault) → IsToldUnpaid name.now payload.now fault →
        result ≡ Err (Bad fault) }
    ensures paid { result ≡ Err (Bad Memory) → MessageTakesMemory name.now payload.now }
{
    match checked(alloc, name, payload) {
        Ok(_text) => Ok(()),
        Err(why) => Err(why),
    }
}

/// The envelope: magic, the command padded with zeros to 12 bytes, the length, the checksum, and
/// the payload. Fails only with `Fault::Memory`.
fn envelope_of(alloc: Global, name: &str, payload: &[u8]) -> Result<Vec<u8>, Fault>
    requires name { IsCommand name.now }
    requires limit { length payload.now ≤ 4000000 }
    ensures text { IfOk result (λ bytes. bytes.items ≡ envelope_text name.now payload.now) }
    ensures memory { IsOkUnless result Memory }
{
    let mut buffer = Vec::new(alloc);
    put_envelope(&mut buffer, name, payload)?;
    Ok(buffer)
}

/// The same, with the reason why there is none.
fn written(alloc: Global, name: &str, payload: &[u8]) -> Result<Vec<u8>, NoMessage>
    requires name { IsCommand name.now }
    requires limit { length payload.now ≤ 4000000 }
    ensures text { IfOk result (λ bytes. bytes.items ≡ envelope_text name.now payload.now) }
    ensures memory { IfErr result (λ why. why ≡ Bad Memory) }
{
    match envelope_of(alloc, name, payload) {
        Ok(envelope) => Ok(envelope),
        Err(fault) => Err(NoMessage::Bad(fault)),
    }
}

/// Writes the envelope of a command and a payload: 24 bytes, then the payload as it is given.
///
/// Fails as `message_check` does. `Memory` is then also possible for a message that can be read,
/// since the envelope is allocated.
pub fn message_write(alloc: Global, name: &[u8], payload: &[u8]) -> Result<Vec<u8>, NoMessage>
    ensures exact { MatchResult result
        (λ envelope. (envelope.items ≡ envelope_text name.now payload.now) × IsCommand name.now
        × (wrong_message name.now payload.now ≡ None))
        (λ why. (why ≡ Bad Memory) ⊎ (wrong_message name.now payload.now ≡ Some why)) }
    ensures unpaid { (fault : Fault) → IsToldUnpaid name.now payload.now fault →
        result ≡ Err (Bad fault) }
    ensures paid { result ≡ Err (Bad Memory) → MessageTakesMemory name.now payload.now
        ⊎ (wrong_message name.now payload.now ≡ None) }
{
    match checked(alloc, name, payload) {
        Ok(text) => written(alloc, text, payload),
        Err(why) => Err(why),
    }
}
