ghost use Rattle.std.specs.Prelude.{◌≡◌, ◌⊎◌, ◌≤◌, [], ◌∷◌, ◌++◌, length, Ok, Err, Some, None, IfOk, OnOk, OnErr, IsOkUnless};
ghost use Rattle.cb_base.specs.declared.fault.Fault.{Fault};
ghost use Rattle.cb_base.specs.declared.fault.Fault.TheVariants.{Memory};
ghost use Rattle.cb_wire.specs.Command.{IsCommand, known_command};
ghost use Rattle.cb_wire.specs.declared.message.Message.{Message};
ghost use Rattle.cb_wire.specs.declared.item.Item.TheVariants.{Good};
ghost use Rattle.cb_wire.specs.Grammar.{message_at, Spells, IsMessage, IsPaid, IsUnpaid, IsWithinLimits};
ghost use Rattle.cb_wire.specs.RoundTrip.{Gives};
ghost use Rattle.cb_wire.specs.Envelope.{envelope_text, text};
ghost use Rattle.cb_wire.specs.Stream.{Stream};

use crate::command::{Command, UnknownName};
use crate::envelope::{COMMAND_LEN, HEADER_LEN, MAGIC};
use crate::message::{Message, put_payload, read_payload};
use crate::payload::Payload;
use cb_base::{Fault, dsha};
use std::alloc::Global;

/// Reads the payload of a message. The payload of an unknown command is copied as it is.
///
/// `command` has the form of a command: 1 to 12 bytes from the space to the tilde.
///
/// Fails with `Fault::Memory`, or with the fault of the first field from the left that can't be
/// read. `NotShortest`: a count or a length isn't in its shortest form. `TooMany`: a count is above
/// its limit. `Truncated`: bytes are missing, or the items of a count don't fit in the remaining
/// bytes. `Empty`: a compact block has no transactions. `BadBool`: a flag is neither 0 nor 1, or
/// the transaction count of a header in `headers` isn't 0. `Trailing`, which is checked last: bytes
/// are left over. A `version` never fails with `Trailing`.
pub fn decode(alloc: Global, command: &str, payload: &[u8]) -> Result<Message, Fault>
    requires { IsCommand command.now }
    // The payload spells the message that is returned.
    ensures found { IfOk result (Spells command.now payload.now) }
    // Each number of the message is in the range of its field, and each hash has 32 bytes.
    ensures kept { IfOk result IsMessage }
    // A payload that spells a message is read as that message, unless an allocation fails.
    ensures only { (message : Message) → IsMessage message →
        Spells command.now payload.now message → (result ≡ Ok message) ⊎ (result ≡ Err Memory) }
    // The fault is the one of the definition.
    ensures exact { Gives (message_at command.now payload.now) result }
    // In messages with lists or transactions, no memory is allocated before the first count has
    // been read. In the other known commands, any fault comes before an allocation.
    ensures unpaid { (fault : Fault) → IsUnpaid (known_command command.now) payload.now fault →
        result ≡ Err fault }
    // Only these allocate: lists that aren't empty, transactions and blocks, a version with a user
    // agent, and unknown commands.
    ensures paid { result ≡ Err Memory → IsPaid (known_command command.now) payload.now }
{
    message_under(alloc, command, payload)
}

/// Reads the payload of a known command, or copies that of an unknown one.
fn message_under(alloc: Global, name: &str, payload: &[u8]) -> Result<Message, Fault>
    requires { IsCommand name.now }
    ensures exact { Gives (message_at name.now payload.now) result }
    ensures unpaid { (fault : Fault) → IsUnpaid (known_command name.now) payload.now fault →
        result ≡ Err fault }
    ensures paid { result ≡ Err Memory → IsPaid (known_command name.now) payload.now }
{
    match Command::named(name) {
        Some(command) => read_payload(alloc, command, payload),
        None => {
            let name = UnknownName::new(alloc, name)?;
            let bytes = Vec::from_slice(alloc, payload)?;
            Ok(Message::Unknown(name, Payload::new(bytes)))
        }
    }
}

/// Writes the envelope of a message: header and payload. Each message is written in exactly one
/// way. It must be within the limit (`Message::is_within_limits`).
///
/// Fails only with `Fault::Memory`.
pub fn encode(alloc: Global, message: &Message) -> Result<Vec<u8>, Fault>
    requires { IsWithinLimits message.now }
    ensures text { IfOk result (λ bytes. bytes.items ≡ text message.now) }
    ensures memory { IsOkUnless result Memory }
    // Each number is in the range of its field, and each hash has 32 bytes.
    ensures kept { IfOk result (λ _. IsMessage message.now) }
    // Read as a stream, the bytes give exactly this message and nothing is left over. So no other
    // message has the same bytes.
    ensures again { IfOk result (λ bytes. Stream bytes.items (Good message.now ∷ []) [] None) }
{
    let mut bytes = Vec::new(alloc);
    encode_into(alloc, &mut bytes, message)?;
    Ok(bytes)
}

/// Appends the envelope of a message to a buffer. The message must be within the limit
/// (`Message::is_within_limits`).
///
/// Fails only with `Fault::Memory`; the buffer is then unchanged.
pub fn encode_into(alloc: Global, buffer: &mut Vec<u8>, message: &Message) -> Result<(), Fault>
    requires { IsWithinLimits message.now }
    ensures text { OnOk result (buffer.new.items ≡ buffer.old.items ++ text message.now) }
    ensures err { OnErr result (buffer.new.items ≡ buffer.old.items) }
    ensures memory { IsOkUnless result Memory }
    // Each number is in the range of its field, and each hash has 32 bytes.
    ensures kept { OnOk result (IsMessage message.now) }
{
    let mut payload = Vec::new(alloc);
    put_payload(&mut payload, message)?;
    put_envelope(buffer, message.name(), payload.as_slice())
}

/// Appends an envelope to the buffer: magic, the command padded with zeros to 12 bytes, the length,
/// the checksum, and the payload. It grows the buffer once. Fails only with `Fault::Memory`; the
/// buffer is then unchanged.
pub fn put_envelope(buffer: &mut Vec<u8>, name: &str, payload: &[u8]) -> Result<(), Fault>
    requires name { IsCommand name.now }
    requires limit { length payload.now ≤ 4000000 }
    ensures text { OnOk result
        (buffer.new.items ≡ buffer.old.items ++ envelope_text name.now payload.now) }
    ensures err { OnErr result (buffer.new.items ≡ buffer.old.items) }
    ensures memory { IsOkUnless result Memory }
{
    let hash = dsha(payload);
    let (checksum, _) = hash.0.split_at(4);
    let zeros = [0u8; COMMAND_LEN];
    let (padding, _) = zeros.split_at(COMMAND_LEN - name.len());
    // The buffer has room for the whole envelope now, so nothing below can fail.
    buffer.reserve(HEADER_LEN + payload.len())?;
    buffer.extend_from_slice(MAGIC.as_slice())?;
    buffer.extend_from_slice(name.as_bytes())?;
    buffer.extend_from_slice(padding)?;
    buffer.extend_from_slice((payload.len() as u32).to_le_bytes().as_slice())?;
    buffer.extend_from_slice(checksum)?;
    buffer.extend_from_slice(payload)?;
    Ok(())
}
