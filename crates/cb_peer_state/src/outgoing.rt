ghost use Rattle.std.specs.Prelude.{◌≡◌, ◌++◌, true, None, IfOk, IfSome, IsOkUnless, OnErr, OnOk};
ghost use Rattle.cb_base.specs.declared.fault.Fault.TheVariants.{Memory};
ghost use Rattle.cb_block.specs.Blocks.{MeetsBlockRules};
ghost use Rattle.cb_compact.specs.Shortening.{shortened_of};
ghost use Rattle.cb_wire.specs.Envelope.{text};
ghost use Rattle.cb_wire.specs.Grammar.{IsWithinLimits};
ghost use Rattle.cb_wire.specs.declared.message.Message.TheVariants.{CmpctBlock};
ghost use Rattle.cb_peer_state.specs.Outgoing.{IsCompactBlock, IsOwn, IsSmall};

use cb_base::Fault;
use cb_block::SoundBlock;
use cb_compact::shortened;
use cb_wire::{BoundedMessage, Message, encode_into};
use std::alloc::Global;
use std::marker::Model;

/// How many bytes an owner of a shared transaction takes.
const OWNER: u64 = 8;

/// How many bytes the payload of a small message has at most.
const SMALL: u64 = 1_000;

/// A message that goes out: one that stands there, or a compact block that is made when its turn
/// comes. Its payload has at most 4,000,000 bytes. For the prover its value is the message.
#[derive(Drop)]
pub struct Outgoing {
    content: Content,
}

/// What an outgoing message is kept as.
#[derive(Drop)]
enum Content {
    /// The message.
    Made(BoundedMessage),
    /// The `cmpctblock` of a block (BIP 152), which isn't made yet.
    Short(ShortForm),
}

/// A `cmpctblock` that isn't made yet.
#[derive(Drop)]
struct ShortForm {
    /// The block, which meets the rules of a block.
    block: SoundBlock,
    /// The nonce of the short ids.
    nonce: u64,
}

impl Model for Outgoing {
    ghost use Rattle.cb_wire.specs.declared.message.Message.{Message};
    ghost use Rattle.cb_peer_state.specs.Outgoing.{MeetsRules, message_of};

    ghost Value = { Message };

    ghost view = { λ outgoing. message_of outgoing.content };

    ghost invariant = { λ outgoing. MeetsRules outgoing.content };
}

impl Outgoing {
    /// A message that is within the limit (`Message::is_within_limits`).
    pub fn new(message: Message) -> Outgoing
        requires { IsWithinLimits message }
        ensures { result ≡ message }
    {
        Outgoing {
            content: Content::Made(BoundedMessage::new(message)),
        }
    }

    /// The `cmpctblock` of a block (BIP 152): its first transaction whole, and short ids of all
    /// others under the nonce. It is made when it is spelled.
    pub fn short(block: SoundBlock, nonce: u64) -> Outgoing
        requires { MeetsBlockRules block }
        ensures { result ≡ CmpctBlock (shortened_of block nonce) }
    {
        Outgoing {
            content: Content::Short(ShortForm { block, nonce }),
        }
    }

    /// The message, unless it is a compact block that isn't made yet.
    pub fn made(&self) -> Option<&Message>
        ensures made { IfSome result (λ message. message.now ≡ self.now) }
        ensures short { result ≡ None → IsCompactBlock self.now }
    {
        match &self.content {
            Content::Made(message) => Some(message.message()),
            Content::Short(_) => None,
        }
    }

    /// The message. A compact block is made first. Fails only with `Fault::Memory`.
    pub fn make(self, alloc: Global) -> Result<BoundedMessage, Fault>
        ensures message { IfOk result (λ message. message ≡ self) }
        ensures memory { IsOkUnless result Memory }
    {
        match self.content {
            Content::Made(message) => Ok(message),
            Content::Short(form) => form.make(alloc),
        }
    }

    /// Appends the message's envelope to a buffer. A compact block is made first.
    ///
    /// Fails only with `Fault::Memory`; the buffer is then unchanged.
    pub fn spell(&self, alloc: Global, buffer: &mut Vec<u8>) -> Result<(), Fault>
        ensures text { OnOk result (buffer.new.items ≡ buffer.old.items ++ text self.now) }
        ensures err { OnErr result (buffer.new.items ≡ buffer.old.items) }
        ensures memory { IsOkUnless result Memory }
    {
        match &self.content {
            Content::Made(message) => encode_into(alloc, buffer, message.message()),
            Content::Short(form) => form.spell(alloc, buffer),
        }
    }

    /// How many bytes the message keeps for itself: none of a transaction or a block, which are
    /// shared, nor of a compact block that isn't made; an owner for each transaction of a
    /// `blocktxn`; the payload's bytes of all others.
    pub fn own_bytes(&self) -> u64
        ensures { IsOwn self.now result }
    {
        match &self.content {
            Content::Made(message) => own_bytes(message),
            Content::Short(_) => 0,
        }
    }

    /// Whether its payload is known to have 1,000 bytes at most. It looks into no block, and into
    /// no list of transactions.
    pub fn is_small(&self) -> bool
        ensures { result ≡ true → IsSmall self.now }
    {
        match &self.content {
            Content::Made(message) => is_small(message),
            Content::Short(_) => false,
        }
    }
}

impl ShortForm {
    /// The message. Fails only with `Fault::Memory`.
    fn make(&self, alloc: Global) -> Result<BoundedMessage, Fault>
        requires { MeetsBlockRules self.now.block }
        ensures message { IfOk result
            (λ message. message ≡ CmpctBlock (shortened_of self.now.block self.now.nonce)) }
        ensures memory { IsOkUnless result Memory }
    {
        let form = shortened(alloc, &self.block, self.nonce)?;
        Ok(BoundedMessage::new(Message::CmpctBlock(form)))
    }

    /// Appends the message's envelope to a buffer. Fails only with `Fault::Memory`; the buffer is
    /// then unchanged.
    fn spell(&self, alloc: Global, buffer: &mut Vec<u8>) -> Result<(), Fault>
        requires { MeetsBlockRules self.now.block }
        ensures text { OnOk result (buffer.new.items ≡ buffer.old.items
            ++ text (CmpctBlock (shortened_of self.now.block self.now.nonce))) }
        ensures err { OnErr result (buffer.new.items ≡ buffer.old.items) }
        ensures memory { IsOkUnless result Memory }
    {
        let message = self.make(alloc)?;
        encode_into(alloc, buffer, message.message())
    }
}

/// How many bytes a message keeps for itself.
fn own_bytes(message: &BoundedMessage) -> u64
    ensures { IsOwn message.now result }
{
    match message.message() {
        Message::Tx(_) | Message::Block(_) => 0,
        Message::BlockTxn(txs) => (txs.txs.as_slice().len() as u64) * OWNER,
        _ => message.payload_len(),
    }
}

/// Whether a message is known to be small.
fn is_small(message: &BoundedMessage) -> bool
    ensures { result ≡ true → IsSmall message.now }
{
    match message.message() {
        Message::Block(_) | Message::BlockTxn(_) | Message::CmpctBlock(_) => false,
        _ => message.payload_len() <= SMALL,
    }
}
