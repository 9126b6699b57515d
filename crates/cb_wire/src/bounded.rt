ghost use Rattle.std.specs.Prelude.{◌≡◌, length, IfOk, IsOk, IsOkUnless};
ghost use Rattle.cb_base.specs.declared.fault.Fault.TheVariants.{Memory};

use crate::message::Message;
use cb_base::Fault;
use std::alloc::Global;
use std::marker::Model;

/// A message whose payload has at most 4,000,000 bytes. For the prover its value is the message.
#[derive(Drop)]
pub struct BoundedMessage {
    message: Message,
}

impl Model for BoundedMessage {
    ghost use Rattle.cb_wire.specs.declared.message.Message.{Message};

    ghost Value = { Message };

    ghost view = { λ bounded. bounded.message };

    ghost use Rattle.cb_wire.specs.Grammar.{IsWithinLimits};

    ghost invariant = { λ bounded. IsWithinLimits bounded.message };
}

impl BoundedMessage {
    ghost use Rattle.std.specs.Prelude.{◌≤◌};
    ghost use Rattle.cb_wire.specs.Grammar.{HoldsNothing, IsWithinLimits, payload_text};

    /// Takes a message that is within the limit (`Message::is_within_limits`).
    pub fn new(message: Message) -> BoundedMessage
        requires { IsWithinLimits message }
        ensures { result ≡ message }
    {
        BoundedMessage { message }
    }

    /// The message.
    pub fn message(&self) -> &Message
        ensures message { result.now ≡ self.now }
        ensures limits { IsWithinLimits self.now }
    {
        &self.message
    }

    /// The length of the payload in bytes, at most 4,000,000.
    pub fn payload_len(&self) -> u64
        ensures payload { result ≡ length (payload_text self.now) }
        ensures limit { result ≤ 4000000 }
    {
        self.message.payload_len()
    }

    /// Gives the message out.
    pub fn into_message(self) -> Message
        ensures message { result ≡ self }
        ensures limits { IsWithinLimits self }
    {
        self.message
    }

    /// An equal message. Fails only with `Fault::Memory`; a message that owns no memory can't fail.
    pub fn copy(&self, alloc: Global) -> Result<BoundedMessage, Fault>
        ensures equal { IfOk result (λ copy. copy ≡ self.now) }
        ensures memory { IsOkUnless result Memory }
        ensures unpaid { HoldsNothing self.now → IsOk result }
    {
        Ok(BoundedMessage {
            message: self.message.copy(alloc)?,
        })
    }
}
