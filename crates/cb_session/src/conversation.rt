//! Handles a connection's events one at a time: gives them to the session, writes what the session
//! sends, and asks the hall what the session asks.
ghost use Rattle.std.specs.Prelude.{◌≡◌, ◌≢◌, ◌⊎◌, ◌<◌, ◌≤◌, ◌++◌, true, false, Bool, List, ℕ, [], length, Option, Some, None, IfSome, if◌then◌else◌};
ghost use Rattle.cb_wire.specs.Stream.{texts};
ghost use Rattle.cb_wire.specs.declared.item.Item.{Item};
ghost use Rattle.cb_peer_state.specs.Writing.{IsOfSink};
ghost use Rattle.cb_peer_state.specs.declared.event.Event.{Event};
ghost use Rattle.cb_peer_state.specs.declared.event.Event.TheVariants as events;
ghost use Rattle.cb_peer_state.specs.Event.{begins, ends_at_once, is_input, is_no_memory, is_write_fault, kind_of, loses};
ghost use Rattle.cb_peer_state.specs.State.{is_closed};
ghost use Rattle.cb_trace.specs.Kept.{StillKeeps};
ghost use Rattle.cb_trace.specs.Trace.{IsOpen};
ghost use Rattle.cb_session.specs.Conversation.{Accounts, AnswerOf, Gave, GaveItem, IsLoss, IsPending, MayAsk, Origin, SameReferences, Sent, Settled, Stands, Underway, WritesOn, at, input_in, left_of, number_after, open_question, progress, with_event};

use cb_base::{Fault, Shared};
use cb_hall::{Badge, Question};
use cb_peer::{Event, State};
use cb_peer_state::{MessageSink, Outgoing, WriteFault, write_out};
use cb_trace::{Oracle, Trace};
use cb_wire::Item;
use std::alloc::Global;

/// One connection's conversation: the trace (the session and the log of its events), the sink for
/// its messages, the hall and the badge under which it is asked, the number of bytes written, and
/// the number of messages written.
///
/// The hall is what Bitcoin Core keeps in ChainstateManager and CTxMemPool. The badge is the
/// connection's permit to ask it.
#[derive(Drop)]
pub struct Conversation<'a, W, H> {
    trace: &'a mut Trace,
    writer: &'a mut W,
    hall: &'a mut H,
    badge: &'a mut Badge,
    written: u64,
    messages: u64,
}

impl<'a, W: MessageSink, H: Oracle> Conversation<'a, W, H> {
    /// A conversation over these, with `written` bytes already written. Messages are counted from
    /// 0.
    pub fn new(
        trace: &'a mut Trace,
        writer: &'a mut W,
        hall: &'a mut H,
        badge: &'a mut Badge,
        written: u64,
    ) -> Conversation<'a, W, H>
        ensures ends { (result.trace.ghost_name ≡ trace.entry.ghost_name)
            × (result.writer.ghost_name ≡ writer.entry.ghost_name)
            × (result.hall.ghost_name ≡ hall.entry.ghost_name)
            × (result.badge.ghost_name ≡ badge.entry.ghost_name) }
        ensures trace { result.trace.now ≡ trace.old }
        ensures writer { result.writer.now ≡ writer.old }
        ensures hall { result.hall.now ≡ hall.old }
        ensures badge { result.badge.now ≡ badge.old }
        ensures written { result.written ≡ written }
        ensures messages { result.messages ≡ 0 }
    {
        Conversation {
            trace,
            writer,
            hall,
            badge,
            written,
            messages: 0,
        }
    }

    /// How far the session is.
    pub fn state(&self) -> State
        ensures { result ≡ self.now.trace.now.session.state }
    {
        self.trace.state()
    }

    /// The number of bytes written, as far as the sink tells; `u64::MAX` if that is more.
    pub fn written(&self) -> u64
        ensures { result ≡ self.now.written }
    {
        self.written
    }

    /// The number of messages written since the conversation was made; `u64::MAX` if that is more.
    /// The messages of a step that wasn't written whole aren't counted.
    pub fn messages(&self) -> u64
        ensures { result ≡ self.now.messages }
    {
        self.messages
    }

    /// Gives the session an item, and handles all the questions that it leads to. The session ends
    /// if memory runs out.
    pub fn give_item(&mut self, alloc: Global, item: Item)
        requires going { IsOpen self.old.trace.now }
        ensures ends { SameReferences self.old self.new }
        ensures keeps { StillKeeps self.old.trace.now self.new.trace.now }
        ensures heeds { WritesOn self.old.trace.now (W.has_failed self.old.writer.now) →
            W.heeds_failure self.old.writer.now self.new.writer.now
            × WritesOn self.new.trace.now (W.has_failed self.new.writer.now) }
        ensures gave { (from : Origin _) (inputs : List Event) →
            Settled H.told H.refused from (at W.contents W.has_failed self.old) inputs false →
            GaveItem H.told H.refused from (at W.contents W.has_failed self.new) inputs item }
    {
        let Some(shared) = share(alloc, item) else {
            self.lose(Event::NoMemory);
            return;
        };
        self.give(alloc, Event::Said(shared));
    }

    /// Gives the session input from the peer: an item, a fault of the stream, or its end. Writes
    /// what the session sends and asks the hall what it asks, until no question is open.
    #[inline(always)]
    pub fn give(&mut self, alloc: Global, event: Event)
        requires going { IsOpen self.old.trace.now }
        requires input { is_input (kind_of event) ≡ true }
        ensures ends { SameReferences self.old self.new }
        ensures keeps { StillKeeps self.old.trace.now self.new.trace.now }
        ensures heeds { WritesOn self.old.trace.now (W.has_failed self.old.writer.now) →
            W.heeds_failure self.old.writer.now self.new.writer.now
            × WritesOn self.new.trace.now (W.has_failed self.new.writer.now) }
        ensures ended { ends_at_once event ≡ true →
            is_closed self.new.trace.now.session.state ≡ true }
        ensures gave { (from : Origin _) (inputs : List Event) →
            Settled H.told H.refused from (at W.contents W.has_failed self.old) inputs false →
            Gave H.told H.refused from (at W.contents W.has_failed self.new) inputs event }
    {
        if !self.trace.ready() {
            return;
        }
        let _none = self.begin(alloc, event, Vec::new(alloc));
    }

    /// Gives the session an event that begins something new: input from the peer, or a tick. The
    /// trace has room, so the event is always logged. Then writes what was held back of the
    /// messages that opened the session, writes what the session sends, and asks the hall what it
    /// asks, until no question is open.
    ///
    /// Returns the messages that are still held back: all of them if the event closes the session,
    /// since nothing is written then, and otherwise none.
    pub fn begin(&mut self, alloc: Global, event: Event, held_back: Vec<Outgoing>) -> Vec<Outgoing>
        requires going { IsOpen self.old.trace.now }
        requires room { 2 ≤ self.old.trace.now.room }
        requires begins { begins (kind_of event) ≡ true }
        ensures ends { SameReferences self.old self.new }
        ensures keeps { StillKeeps self.old.trace.now self.new.trace.now }
        ensures heeds { WritesOn self.old.trace.now (W.has_failed self.old.writer.now) →
            W.heeds_failure self.old.writer.now self.new.writer.now
            × WritesOn self.new.trace.now (W.has_failed self.new.writer.now) }
        ensures ended { ends_at_once event ≡ true →
            is_closed self.new.trace.now.session.state ≡ true }
        ensures stands { (from : Origin _) (inputs : List Event) →
            Stands H.told H.refused from (at W.contents W.has_failed self.old) inputs
            (texts held_back.items) false →
            Stands H.told H.refused (with_event from event)
            (at W.contents W.has_failed self.new) (inputs ++ input_in event)
            (texts result.items) false }
        // Nothing is held back while the session isn't over.
        ensures none { IsOpen self.new.trace.now → result.items ≡ [] }
        ensures back { (result.items ≡ held_back.items) ⊎ (result.items ≡ []) }
    {
        let (sent, question) = self.trace.step(event);
        if self.state().is_closed() {
            return held_back;
        }
        self.follow_up(alloc, held_back, sent, question);
        Vec::new(alloc)
    }

    /// Writes what was held back, writes the messages of a step, and asks the hall the open
    /// question, until none is open. Stops if a write fails or memory runs out.
    fn follow_up(
        &mut self,
        alloc: Global,
        held_back: Vec<Outgoing>,
        sent: Vec<Outgoing>,
        question: Option<Question>,
    )
        requires going { IsOpen self.old.trace.now }
        requires stands { MayAsk self.old.trace.now question }
        ensures ends { SameReferences self.old self.new }
        ensures keeps { StillKeeps self.old.trace.now self.new.trace.now }
        ensures heeds { WritesOn self.old.trace.now (W.has_failed self.old.writer.now) →
            W.heeds_failure self.old.writer.now self.new.writer.now
            × WritesOn self.new.trace.now (W.has_failed self.new.writer.now) }
        ensures settled { (from : Origin _) (inputs : List Event) →
            IsPending self.old.trace.now question →
            (W.has_failed self.old.writer.now ≡ true → from.failed ≡ true) →
            Underway H.told H.refused from (at W.contents W.has_failed self.old) inputs
            (texts held_back.items ++ texts sent.items) false →
            Settled H.told H.refused from (at W.contents W.has_failed self.new) inputs false }
    {
        self.send(alloc, held_back);
        if self.state().is_closed() {
            return;
        }
        self.send(alloc, sent);
        self.converse(alloc, question);
    }

    /// Asks the hall the open question, if there is one, and writes what the session sends to the
    /// answer. Goes on with the session's next question until none is open.
    pub fn converse(&mut self, alloc: Global, question: Option<Question>)
        requires stands { MayAsk self.old.trace.now question }
        ensures ends { SameReferences self.old self.new }
        ensures keeps { StillKeeps self.old.trace.now self.new.trace.now }
        ensures heeds { WritesOn self.old.trace.now (W.has_failed self.old.writer.now) →
            W.heeds_failure self.old.writer.now self.new.writer.now
            × WritesOn self.new.trace.now (W.has_failed self.new.writer.now) }
        ensures stays { is_closed self.old.trace.now.session.state ≡ true →
            is_closed self.new.trace.now.session.state ≡ true }
        ensures settled { (from : Origin _) (inputs : List Event) →
            IsPending self.old.trace.now question →
            Sent H.told H.refused from (at W.contents W.has_failed self.old) inputs [] false →
            Settled H.told H.refused from (at W.contents W.has_failed self.new) inputs false }
    {
        let mut next = question;
        while let Some(question) = next {
            if self.trace.state().is_closed() {
                return;
            }
            let (messages, asked) = self.ask(alloc, question);
            self.send(alloc, messages);
            next = asked;
        }
    }

    /// Asks the hall the open question and gives the session the answer. Returns the messages to
    /// send and the next question. Room for the answer in the trace is made before the hall is
    /// asked. No message is unwritten while the hall is asked.
    fn ask(&mut self, alloc: Global, question: Question) -> (Vec<Outgoing>, Option<Question>)
        requires stands { open_question self.old.trace.now ≡ Some question }
        ensures ends { SameReferences self.old self.new }
        ensures keeps { StillKeeps self.old.trace.now self.new.trace.now }
        ensures sink { self.new.writer.now ≡ self.old.writer.now }
        ensures written { self.new.written ≡ self.old.written }
        ensures accounts { (from : Origin _) (inputs : List Event) (held : Option (List ℕ))
            (failed : Bool) (written : ℕ) → Accounts H.told H.refused from
            (progress self.old.trace.now self.old.hall.now self.old.badge.now held failed written)
            inputs [] false false → Underway H.told H.refused from
            (progress self.new.trace.now self.new.hall.now self.new.badge.now held failed written)
            inputs (texts result.0.items) false }
        ensures asks { IsPending self.new.trace.now result.1 }
        ensures fewer { left_of self.new.trace.now < left_of self.old.trace.now }
        ensures silent { is_closed self.new.trace.now.session.state ≡ true → result.0.items ≡ [] }
    {
        if !self.trace.ready() {
            return (Vec::new(alloc), None);
        }
        let event = ask_hall(self.hall, self.badge, question);
        self.trace.step(event)
    }

    /// Writes the messages of a step, one after another, and counts them then. If a write fails or
    /// memory runs out, the trace logs that and the session ends, and none of them is counted.
    pub fn send(&mut self, alloc: Global, messages: Vec<Outgoing>)
        requires silent { is_closed self.old.trace.now.session.state ≡ true → messages.items ≡ [] }
        ensures ends { SameReferences self.old self.new }
        ensures keeps { StillKeeps self.old.trace.now self.new.trace.now }
        // Once a write has failed, there is no other write.
        ensures heeds { WritesOn self.old.trace.now (W.has_failed self.old.writer.now) →
            W.heeds_failure self.old.writer.now self.new.writer.now
            × WritesOn self.new.trace.now (W.has_failed self.new.writer.now) }
        ensures hall { self.new.hall.now ≡ self.old.hall.now }
        ensures badge { self.new.badge.now ≡ self.old.badge.now }
        // Other bytes may follow (`following`). They are then still to be written (`later`), unless
        // the trace logged a loss.
        ensures accounts { (from : Origin _) (inputs : List Event) (following later : List ℕ)
            (hall : _) (badge : _) →
            Underway H.told H.refused from
            (progress self.old.trace.now hall badge (W.contents self.old.writer.now)
            (W.has_failed self.old.writer.now) self.old.written) inputs
            (texts messages.items ++ following) false →
            (self.new.trace.now ≡ self.old.trace.now → later ≡ following) →
            (W.has_failed self.old.writer.now ≡ true → from.failed ≡ true) →
            Sent H.told H.refused from
            (progress self.new.trace.now hall badge (W.contents self.new.writer.now)
            (W.has_failed self.new.writer.now) self.new.written) inputs later false }
        ensures kept { IsOpen self.new.trace.now → self.new.trace.now ≡ self.old.trace.now }
        // The messages are counted, unless the session is over.
        ensures counted { IsOpen self.new.trace.now →
            self.new.messages ≡ number_after self.old.messages (length messages.items) }
        ensures stays { is_closed self.old.trace.now.session.state ≡ true →
            is_closed self.new.trace.now.session.state ≡ true }
    {
        let count = messages.len() as u64;
        match write_out(alloc, self.writer, messages) {
            Ok(taken) => {
                self.written = self.written.saturating_add(taken);
                self.messages = self.messages.saturating_add(count);
            }
            Err(end) => {
                self.written = self.written.saturating_add(end.written);
                self.lose(lost_by(end.fault));
            }
        }
    }

    /// Ends the session with an event that may leave messages unwritten: no memory, or a failed
    /// write.
    pub fn lose(&mut self, event: Event)
        requires going { IsOpen self.old.trace.now }
        requires loss { IsLoss event }
        ensures ends { SameReferences self.old self.new }
        ensures keeps { StillKeeps self.old.trace.now self.new.trace.now }
        ensures hall { self.new.hall.now ≡ self.old.hall.now }
        ensures badge { self.new.badge.now ≡ self.old.badge.now }
        ensures sink { self.new.writer.now ≡ self.old.writer.now }
        ensures written { self.new.written ≡ self.old.written }
        // The caller shows the cause: a write failed, bytes are missing because memory ran out, or
        // (`unkept`) something from the peer couldn't be kept.
        ensures accounts { (from : Origin _) (inputs : List Event) (missing : List ℕ)
            (lost unkept : Bool) (hall : _) (badge : _) (held : Option (List ℕ)) (failed : Bool)
            (written : ℕ) →
            (is_write_fault (kind_of event) ≡ true → failed ≡ true) →
            (is_no_memory (kind_of event) ≡ true → (missing ≢ []) ⊎ (unkept ≡ true)) →
            Accounts H.told H.refused from
            (progress self.old.trace.now hall badge held failed written) inputs missing lost false →
            Accounts H.told H.refused from
            (progress self.new.trace.now hall badge held failed written)
            inputs missing true unkept }
        // What is held back stays so.
        ensures stands { (from : Origin _) (inputs : List Event) (held_back : List ℕ) →
            is_write_fault (kind_of event) ≡ false →
            Stands H.told H.refused from (at W.contents W.has_failed self.old) inputs
            held_back false →
            Stands H.told H.refused from (at W.contents W.has_failed self.new) inputs
            held_back true }
        ensures closed { is_closed self.new.trace.now.session.state ≡ true }
    {
        if !self.trace.ready() {
            return;
        }
        let _silent = self.trace.step(event);
    }
}

/// The item in shared ownership, or `None` if memory runs out.
fn share(alloc: Global, item: Item) -> Option<Shared<Item>>
    ensures { IfSome result (λ shared. shared ≡ item) }
{
    Shared::new(alloc, item).ok()
}

/// Asks the hall a session's question. Returns the outcome as an event: the answer, `HallFull` or
/// `NoMemory`.
fn ask_hall<H: Oracle>(hall: &mut H, badge: &mut Badge, question: Question) -> Event
    ensures { AnswerOf H.told H.refused hall.old badge.old hall.new badge.new question result }
{
    match hall.ask(badge, question) {
        Ok(answer) => Event::Told(answer),
        Err(fault) if fault == Fault::JournalFull => Event::HallFull,
        Err(_) => Event::NoMemory,
    }
}

/// The event for a write that ended early.
fn lost_by(fault: WriteFault) -> Event
    ensures loss { IsLoss result }
    ensures sink { is_write_fault (kind_of result) ≡ true → IsOfSink fault }
    ensures told { IsOfSink fault → is_write_fault (kind_of result) ≡ true }
    ensures lack { is_no_memory (kind_of result) ≡ true → fault ≡ WriteFault.Memory }
{
    match fault {
        WriteFault::Io | WriteFault::Zero => Event::WriteFault,
        WriteFault::Memory => Event::NoMemory,
    }
}
