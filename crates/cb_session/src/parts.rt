//! One event of a conversation over its parts, for an owner that keeps the parts and makes a
//! conversation for each event.
ghost use Rattle.std.specs.Prelude.{◌≡◌, ◌≤◌, ◌⊎◌, ◌++◌, true, false, List, [], ℕ};
ghost use Rattle.cb_wire.specs.Stream.{texts};
ghost use Rattle.cb_peer_state.specs.declared.event.Event.{Event};
ghost use Rattle.cb_peer_state.specs.Event.{begins, ends_at_once, kind_of};
ghost use Rattle.cb_peer_state.specs.State.{is_closed};
ghost use Rattle.cb_trace.specs.Kept.{StillKeeps};
ghost use Rattle.cb_trace.specs.Trace.{IsOpen};
ghost use Rattle.cb_session.specs.Conversation.{Origin, Stands, WritesOn, input_in, progress, with_event};

use crate::conversation::Conversation;
use cb_hall::Badge;
use cb_peer::Event;
use cb_peer_state::{MessageSink, Outgoing};
use cb_trace::{Oracle, Trace};
use std::alloc::Global;

/// What an event of a conversation left and did.
#[derive(Drop)]
pub struct Begun {
    /// The messages that are still held back.
    pub unsent: Vec<Outgoing>,
    /// The number of messages written with the event: what was held back, and what the session
    /// sent. The messages of a step that wasn't written whole aren't counted. `u64::MAX` if that is
    /// more.
    pub messages: u64,
}

/// The same as `Conversation::begin`, over the parts of a conversation. `written` is the number of
/// bytes written, as far as the sink tells.
///
/// The number of messages is told for statistics: no clause speaks of it here, and tests look at
/// it. A clause of `Conversation::send` counts each write.
pub fn begin_by<W: MessageSink, H: Oracle>(
    alloc: Global,
    trace: &mut Trace,
    writer: &mut W,
    hall: &mut H,
    badge: &mut Badge,
    written: &mut u64,
    held_back: Vec<Outgoing>,
    event: Event,
) -> Begun
    requires going { IsOpen trace.old }
    requires room { 2 ≤ trace.old.room }
    requires begins { begins (kind_of event) ≡ true }
    ensures keeps { StillKeeps trace.old trace.new }
    ensures heeds { WritesOn trace.old (W.has_failed writer.old) →
        W.heeds_failure writer.old writer.new × WritesOn trace.new (W.has_failed writer.new) }
    ensures ended { ends_at_once event ≡ true → is_closed trace.new.session.state ≡ true }
    ensures stands { (from : Origin _) (inputs : List Event) →
        Stands H.told H.refused from
        (progress trace.old hall.old badge.old (W.contents writer.old) (W.has_failed writer.old)
        written.old) inputs (texts held_back.items) false →
        Stands H.told H.refused (with_event from event)
        (progress trace.new hall.new badge.new (W.contents writer.new) (W.has_failed writer.new)
        written.new) (inputs ++ input_in event) (texts result.unsent.items) false }
    // Nothing is held back while the session isn't over.
    ensures none { IsOpen trace.new → result.unsent.items ≡ [] }
    ensures back { (result.unsent.items ≡ held_back.items) ⊎ (result.unsent.items ≡ []) }
{
    let mut conversation = Conversation::new(trace, writer, hall, badge, *written);
    let unsent = conversation.begin(alloc, event, held_back);
    *written = conversation.written();
    Begun {
        unsent,
        messages: conversation.messages(),
    }
}

/// Ends the session with `NoMemory`, because something from the peer couldn't be kept. Writes
/// nothing and asks nothing.
pub fn lose_by<W: MessageSink, H: Oracle>(
    trace: &mut Trace,
    writer: &mut W,
    hall: &mut H,
    badge: &mut Badge,
    written: u64,
)
    requires going { IsOpen trace.old }
    ensures keeps { StillKeeps trace.old trace.new }
    ensures hall { hall.new ≡ hall.old }
    ensures badge { badge.new ≡ badge.old }
    ensures sink { writer.new ≡ writer.old }
    ensures closed { is_closed trace.new.session.state ≡ true }
    ensures stands { (from : Origin _) (inputs : List Event) (held_back : List ℕ) →
        Stands H.told H.refused from
        (progress trace.old hall.old badge.old (W.contents writer.old) (W.has_failed writer.old)
        written) inputs held_back false →
        Stands H.told H.refused from
        (progress trace.new hall.old badge.old (W.contents writer.old) (W.has_failed writer.old)
        written) inputs held_back true }
{
    let mut conversation = Conversation::new(trace, writer, hall, badge, written);
    conversation.lose(Event::NoMemory);
}
