//! Reads a peer's stream and gives its items to the session.
ghost use Rattle.std.specs.Prelude.{◌≡◌, ◌++◌, true, false, List, [], ℕ, None, length};
ghost use Rattle.cb_base.specs.declared.read_end.ReadEnd.TheVariants as ends;
ghost use Rattle.cb_wire.specs.declared.item.Item.{Item};
ghost use Rattle.cb_wire.specs.Stream.{Stream};
ghost use Rattle.cb_peer_state.specs.declared.event.Event.{Event};
ghost use Rattle.cb_peer_state.specs.State.{is_closed};
ghost use Rattle.cb_trace.specs.Trace.{IsOpen};
ghost use Rattle.cb_session.specs.Conversation.{Origin, SameReferences, Settled, WritesOn, at};
ghost use Rattle.cb_session.specs.Serving.{HasHeard, Pieced, Serves, Took, said};

use crate::conversation::Conversation;
use crate::read_from::ReadFrom;
use crate::reading::{TakesPieces, read_pieces};
use cb_base::{ReadEnd, Source};
use cb_peer::Event;
use cb_peer_state::MessageSink;
use cb_trace::Oracle;
use cb_wire::{Assembler, Fed, Item};
use std::alloc::Global;

/// What gives the items of a peer's stream to the session. The assembler keeps the incomplete
/// message at the end.
#[derive(Drop)]
pub(crate) struct Hearing<'a, 'c, W, H> {
    pub alloc: Global,
    pub assembler: &'a mut Assembler,
    pub conversation: Conversation<'c, W, H>,
}

impl<'a, 'c, W: MessageSink, H: Oracle> Hearing<'a, 'c, W, H> {
    /// Reads the peer's stream to its end, or to the end of the session, and then gives the session
    /// the stream's end. Returns why reading ended.
    pub fn hear_all<R: Source>(&mut self, reader: &mut R, buffer: &mut [u8]) -> ReadEnd
        requires new { self.old.assembler.now ≡ record { rest = []; fault = None } }
        requires buffer { length buffer.old ≡ 65536 }
        ensures ends { SameReferences self.old.conversation self.new.conversation }
        ensures heeds { WritesOn self.old.conversation.trace.now
            (W.has_failed self.old.conversation.writer.now) →
            W.heeds_failure self.old.conversation.writer.now self.new.conversation.writer.now
            × WritesOn self.new.conversation.trace.now
            (W.has_failed self.new.conversation.writer.now) }
        ensures serves { (from : Origin _) →
            Settled H.told H.refused from (at W.contents W.has_failed self.old.conversation)
            [] false →
            Serves H.told H.refused from (R.remaining reader.old) (R.remaining reader.new)
            (R.has_failed reader.new) (at W.contents W.has_failed self.new.conversation) result }
    {
        if self.conversation.state().is_closed() {
            return ReadEnd::Stopped;
        }
        let mut bytes = ReadFrom::nothing();
        match read_pieces(reader, buffer, &mut bytes, self) {
            Ok(why) => {
                self.conversation.give(self.alloc, Event::ReaderEnd);
                why
            }
            Err(end) => end,
        }
    }
}

impl<'a, 'c, W: MessageSink, H: Oracle> TakesPieces for Hearing<'a, 'c, W, H> {
    ghost is_ready = { λ now. IsOpen now.conversation.trace.now };

    ghost took = { λ from bytes now.
        HasHeard W.contents W.has_failed W.heeds_failure H.told H.refused from.conversation
        now.conversation bytes now.assembler.now };

    ghost ended = { λ from bytes end now. (end ≡ ends.Stopped)
        × (is_closed now.conversation.trace.now.session.state ≡ true)
        × HasHeard W.contents W.has_failed W.heeds_failure H.told H.refused from.conversation
        now.conversation bytes now.assembler.now };

    /// Gives the session the items that are complete now.
    fn take(&mut self, piece: &[u8]) -> Result<(), ReadEnd> {
        hear_piece(self.alloc, self.assembler, &mut self.conversation, piece);
        if self.conversation.state().is_closed() {
            return Err(ReadEnd::Stopped);
        }
        Ok(())
    }
}

/// Takes a piece of the stream. Gives the session the items that are complete now, and then the
/// stream's fault, if it has one. The session ends if memory runs out.
fn hear_piece<'a, W: MessageSink, H: Oracle>(
    alloc: Global,
    assembler: &mut Assembler,
    conversation: &mut Conversation<'a, W, H>,
    piece: &[u8],
)
    requires going { IsOpen conversation.old.trace.now }
    ensures ends { SameReferences conversation.old conversation.new }
    ensures heeds { WritesOn conversation.old.trace.now (W.has_failed conversation.old.writer.now) →
        W.heeds_failure conversation.old.writer.now conversation.new.writer.now
        × WritesOn conversation.new.trace.now (W.has_failed conversation.new.writer.now) }
    ensures pieced { (from : Origin _) (bytes : List ℕ) (items : List Item) →
        Stream bytes items assembler.old.rest assembler.old.fault →
        Settled H.told H.refused from (at W.contents W.has_failed conversation.old)
        (said items) false →
        Pieced H.told H.refused from (at W.contents W.has_failed conversation.new)
        (bytes ++ piece.now) assembler.new }
{
    match assembler.feed(piece) {
        Ok(Fed { items, fault }) => {
            give_all(alloc, conversation, items);
            match fault {
                None => {}
                Some(why) => {
                    if conversation.state().is_closed() {
                        return;
                    }
                    conversation.give(alloc, Event::Broken(why));
                }
            }
        }
        Err(_) => conversation.lose(Event::NoMemory),
    }
}

/// Gives the session the items in order, until all are given or it is over.
fn give_all<'a, W: MessageSink, H: Oracle>(
    alloc: Global,
    conversation: &mut Conversation<'a, W, H>,
    items: Vec<Item>,
)
    ensures ends { SameReferences conversation.old conversation.new }
    ensures heeds { WritesOn conversation.old.trace.now (W.has_failed conversation.old.writer.now) →
        W.heeds_failure conversation.old.writer.now conversation.new.writer.now
        × WritesOn conversation.new.trace.now (W.has_failed conversation.new.writer.now) }
    ensures took { (from : Origin _) (inputs : List Event) →
        Settled H.told H.refused from (at W.contents W.has_failed conversation.old) inputs false →
        Took H.told H.refused from (at W.contents W.has_failed conversation.new)
        inputs items.items }
{
    for item in items {
        if conversation.state().is_closed() {
            return;
        }
        conversation.give_item(alloc, item);
    }
}
