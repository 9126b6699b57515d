//! What texts of hex write.
ghost use Rattle.std.specs.Prelude.{◌≡◌, IfOk, IsOkUnless, Result};
ghost use Rattle.std.specs.Result.{result_ok};
ghost use Rattle.cb_base.specs.declared.fault.Fault.{Fault};
ghost use Rattle.cb_base.specs.declared.fault.Fault.TheVariants.{Memory};
ghost use Rattle.cb_wire.specs.RoundTrip.{Gives};
ghost use Rattle.cb_wire.specs.Command.{IsCommand};
ghost use Rattle.cb_wire.specs.declared.message.Message.{Message};
ghost use Rattle.cb_control.specs.Written.{block_in, hash_in, message_in, tx_in};

use cb_base::{Fault, Hash256, Shared};
use cb_block::{Block, Tx};
use cb_wire::{Message, decode};
use hex::FromHexError;
use std::alloc::Global;

/// The hash that 64 digits of hex write, its last byte first; `None` if the text is another one.
pub fn read_hash(text: &str) -> Option<Hash256>
    ensures { result ≡ hash_in text.now }
{
    let mut bytes = [0u8; 32];
    match hex::decode_to_slice(text.as_bytes(), &mut bytes) {
        Ok(()) => {
            bytes.reverse();
            Some(Hash256(bytes))
        }
        Err(_) => None,
    }
}

/// The transaction that hex writes; `None` if the text is another one. Fails only with
/// `Fault::Memory`.
pub fn read_tx(alloc: Global, text: &str) -> Result<Option<Shared<Tx>>, Fault>
    ensures exact { IfOk result (λ read. read ≡ tx_in text.now) }
    ensures memory { IsOkUnless result Memory }
{
    match message(alloc, "tx", text)? {
        Some(Message::Tx(tx)) => Ok(Some(tx)),
        _ => Ok(None),
    }
}

/// The block that hex writes; `None` if the text is another one. Whether its transactions are those
/// of its header isn't checked here. Fails only with `Fault::Memory`.
pub fn read_block(alloc: Global, text: &str) -> Result<Option<Shared<Block>>, Fault>
    ensures exact { IfOk result (λ read. read ≡ block_in text.now) }
    ensures memory { IsOkUnless result Memory }
{
    match message(alloc, "block", text)? {
        Some(Message::Block(block)) => Ok(Some(block)),
        _ => Ok(None),
    }
}

/// The message with this name whose payload hex writes; `None` if it can't be read so. Fails only
/// with `Fault::Memory`.
fn message(alloc: Global, name: &str, text: &str) -> Result<Option<Message>, Fault>
    requires { IsCommand name.now }
    ensures exact { IfOk result (λ read. read ≡ message_in name.now text.now) }
    ensures memory { IsOkUnless result Memory }
{
    match hex::decode(alloc, text.as_bytes()) {
        Ok(payload) => readable(decode(alloc, name, payload.as_slice())),
        Err(FromHexError::OutOfMemory) => Err(Fault::Memory),
        Err(_) => Ok(None),
    }
}

/// The message that was read, if it could be. Fails only with `Fault::Memory`.
fn readable(read: Result<Message, Fault>) -> Result<Option<Message>, Fault>
    ensures exact { (wanted : Result Message Fault) → Gives wanted read →
        IfOk result (λ got. got ≡ result_ok wanted) }
    ensures memory { IsOkUnless result Memory }
{
    match read {
        Ok(message) => Ok(Some(message)),
        Err(fault) if fault == Fault::Memory => Err(Fault::Memory),
        Err(_) => Ok(None),
    }
}
