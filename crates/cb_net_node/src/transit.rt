ghost use Rattle.std.specs.Prelude.{◌≡◌, ◌↔◌, ◌<◌, ◌+◌, ◌++◌, ◌∷◌, [], length, None, IfSome, IsOkUnless, IsSome, OnOk, option_to_list};
ghost use Rattle.std.specs.List.{slice_index_or};
ghost use Rattle.cb_base.specs.declared.fault.Fault.TheVariants.{Memory};
ghost use Rattle.cb_wire.specs.Grammar.{payload_text};

use cb_base::Fault;
use cb_peer_state::Outgoing;
use cb_wire::BoundedMessage;
use std::alloc::Global;
use std::collections::VecDeque;
use std::marker::Model;

/// How many bytes of an envelope stand before the payload.
const HEADER: u64 = 24;

/// How many bytes a message takes on the wire: its payload's and the 24 of its header.
pub fn wire_size(message: &BoundedMessage) -> u64
    ensures { result ≡ length (payload_text message.now) + 24 }
{
    message.payload_len() + HEADER
}

/// Messages that are on their way, in the order in which they were sent. Contracts see the list.
pub struct Transit {
    messages: VecDeque<BoundedMessage, Global>,
}

impl Model for Transit {
    ghost use Rattle.std.specs.Prelude.{List};
    ghost use Rattle.cb_wire.specs.declared.message.Message.{Message};

    ghost Value = { List Message };

    ghost view = { λ transit. transit.messages.items };
}

impl Drop for Transit {
    fn drop(self) {
        let Transit { messages: _ } = self;
    }
}

impl Transit {
    /// Nothing is on its way. Allocates nothing.
    pub fn new(alloc: Global) -> Transit
        ensures { result ≡ [] }
    {
        Transit {
            messages: VecDeque::new(alloc),
        }
    }

    /// How many messages are on their way.
    pub fn len(&self) -> usize
        ensures { result ≡ length self.now }
    {
        self.messages.len()
    }

    /// The message at a place, counted from the one that arrives next.
    pub fn get(&self, place: usize) -> Option<&BoundedMessage>
        ensures within { IsSome result ↔ (place < length self.now) }
        ensures message { IfSome result
            (λ message. message.now ≡ slice_index_or self.now place message.now) }
    {
        self.messages.get(place)
    }

    /// Sends messages behind those that are on their way. Compact blocks are made now.
    ///
    /// Fails only with `Fault::Memory`. Some of them may then be on their way.
    pub fn send(&mut self, alloc: Global, messages: Vec<Outgoing>) -> Result<(), Fault>
        ensures ok { OnOk result (self.new ≡ self.old ++ messages.items) }
        ensures memory { IsOkUnless result Memory }
    {
        for message in messages {
            self.put(message.make(alloc)?)?;
        }
        Ok(())
    }

    /// Sends one message behind those that are on their way.
    ///
    /// Fails only with `Fault::Memory`. It is lost then.
    pub fn put(&mut self, message: BoundedMessage) -> Result<(), Fault>
        ensures ok { OnOk result (self.new ≡ self.old ++ message ∷ []) }
        ensures memory { IsOkUnless result Memory }
    {
        self.messages.push_back(message)?;
        Ok(())
    }

    /// Takes the message that arrives next off, if there is one.
    pub fn next(&mut self) -> Option<BoundedMessage>
        ensures first { self.old ≡ option_to_list result ++ self.new }
        ensures none { result ≡ None → self.old ≡ [] }
    {
        self.messages.pop_front()
    }

    /// What is on its way is lost.
    pub fn clear(&mut self)
        ensures { self.new ≡ [] }
    {
        self.messages.clear();
    }
}
