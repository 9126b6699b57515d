ghost use Rattle.std.specs.Prelude.{◌≡◌, ◌++◌, ◌∷◌, true, false, List, ℕ, [], IfOk, IfErr, if◌then◌else◌};
ghost use Rattle.cb_base.specs.declared.fault.Fault.TheVariants.{Memory};
ghost use Rattle.cb_crew.specs.declared.work.Given.{Given};
ghost use Rattle.cb_crew.specs.declared.work.Given.TheVariants as given;
ghost use Rattle.cb_crew.specs.Work.{IsEnd, IsFresh};
ghost use Rattle.cb_session.specs.declared.input.Input.{Input};
ghost use Rattle.cb_session.specs.declared.input.Input.TheVariants as inputs;
ghost use Rattle.cb_peer_state.specs.declared.event.Event.{Event};
ghost use Rattle.cb_peer_state.specs.Event.{begins, ends_at_once, is_beat, kind_of};
ghost use Rattle.cb_peer_state.specs.State.{is_closed};
ghost use Rattle.cb_trace.specs.Kept.{KeepsHistory, StillKeeps};
ghost use Rattle.cb_trace.specs.Trace.{weight_of};
ghost use Rattle.cb_work.specs.declared.flags.Beats.{Beats};
ghost use Rattle.cb_work.specs.PeerWork.{GaveBeats, HoldsNothing, IsAtTime, IsPrimed, IsSamePeer, Serves, ServesNext, ServesOn, WasGiven, WasTicked, is_over, label_of};

use crate::carried::{Carried, Rebuilding, greeting_of};
use crate::due::ToldTip;
use crate::flags::{Beats, Flags};
use crate::outlet::Outlet;
use crate::traffic::StepTraffic;
use cb_base::Fault;
use cb_crew::{Given, Work};
use cb_hall::Badge;
use cb_peer::{Event, Settings};
use cb_peer_state::{MessageSink, Outgoing};
use cb_session::{Input, begin_by, lose_by};
use cb_state::Connection;
use cb_trace::{Oracle, Trace};
use std::alloc::Global;
use std::marker::Model;
use std::mem;
use std::sync::Wait;

/// The work of one connection: the trace of its session, the badge under which it asks the hall,
/// its slot's sink, and its flags. The hall is what Bitcoin Core keeps in ChainstateManager and
/// CTxMemPool; the badge is the connection's permit to ask it.
///
/// A work is made before its connection is. The messages that its session opens with are held back
/// until the first tick that is due or the first item, and go out before its first question. Its
/// `version` tells the time at which the connection is made, if the flags tell that by then.
pub struct PeerWork<S: MessageSink + Drop, H: Oracle + Drop, F: Flags> {
    alloc: Global,
    trace: Trace,
    badge: Badge,
    outlet: Outlet<S>,
    hall: H,
    flags: F,
    written: u64,
    unsent: Vec<Outgoing>,
    /// How many messages were written that the flags weren't told of yet.
    untold: u64,
    rebuilding: Rebuilding,
}

impl<S: MessageSink + Drop, H: Oracle + Drop, F: Flags> Model for PeerWork<S, H, F> {
    ghost use Rattle.cb_work.specs.PeerWork.{IsPeerWork, WorkState, work_state};

    ghost Value = { WorkState S H F };

    ghost view = { λ work. work_state work.trace work.badge work.outlet.slot work.outlet.sink
        work.hall work.flags work.written work.unsent.items };

    ghost invariant = { λ work. IsPeerWork H.told H.refused S.contents S.has_failed F.is_stopped
        (work_state work.trace work.badge work.outlet.slot work.outlet.sink work.hall work.flags
        work.written work.unsent.items) };
}

impl<S: MessageSink + Drop, H: Oracle + Drop, F: Flags + Drop> Drop for PeerWork<S, H, F> {
    fn drop(self) {
        let PeerWork {
            alloc: _,
            trace: _,
            badge: _,
            outlet: _,
            hall: _,
            flags: _,
            written: _,
            unsent: _,
            untold: _,
            rebuilding: _,
        } = self;
    }
}

/// A work that couldn't be made. What it was to be made of comes back.
#[derive(Drop)]
pub struct NotStarted<S: Drop, H: Drop, F: Drop> {
    /// The badge.
    pub badge: Badge,
    /// The slot's sink.
    pub outlet: Outlet<S>,
    /// The hall.
    pub hall: H,
    /// The flags.
    pub flags: F,
    /// `Fault::Memory`.
    pub cause: Fault,
}

impl<S: MessageSink + Drop, H: Oracle + Drop, F: Flags> PeerWork<S, H, F> {
    /// The work of a connection that isn't made yet. Nothing was asked under its badge. The sink is
    /// its peer's slot's, and holds nothing.
    ///
    /// Fails only with `Fault::Memory`, and gives all back.
    pub fn new(
        alloc: Global,
        settings: Settings,
        badge: Badge,
        outlet: Outlet<S>,
        hall: H,
        flags: F,
    ) -> Result<PeerWork<S, H, F>, NotStarted<S, H, F>>
        requires badge { (badge.count ≡ 0) × (badge.full ≡ false) }
        requires slot { outlet.slot ≡ badge.connection.peer }
        requires empty { HoldsNothing (S.contents outlet.sink) }
        requires unfailed { S.has_failed outlet.sink ≡ false }
        requires looks { F.looks flags [] }
        ensures fresh { IfOk result
            (λ work. IsFresh (WasGiven H.told H.refused S.contents S.has_failed)
            (WasTicked H.told H.refused S.contents S.has_failed F.looks) is_over
            (λ work. KeepsHistory work.trace) work) }
        ensures settings { IfOk result (λ work. work.trace.settings ≡ settings) }
        ensures badge { IfOk result (λ work. work.badge ≡ badge) }
        ensures outlet { IfOk result
            (λ work. (work.slot ≡ outlet.slot) × (work.sink ≡ outlet.sink)) }
        ensures hall { IfOk result (λ work. work.hall ≡ hall) }
        ensures back { IfErr result
            (λ parts. (parts.badge ≡ badge) × (parts.outlet ≡ outlet) × (parts.hall ≡ hall)
            × (parts.flags ≡ flags)) }
        ensures memory { IfErr result (λ parts. parts.cause ≡ Memory) }
    {
        match Trace::with_seed(alloc, settings, hall.seed()) {
            Ok((trace, unsent)) => Ok(PeerWork {
                alloc,
                trace,
                badge,
                outlet,
                hall,
                flags,
                written: 0,
                unsent,
                untold: 0,
                rebuilding: Rebuilding::nothing(),
            }),
            Err(cause) => Err(NotStarted {
                badge,
                outlet,
                hall,
                flags,
                cause,
            }),
        }
    }

    /// The trace of the session.
    pub fn trace(&self) -> &Trace
        ensures { result.now ≡ self.now.trace }
    {
        &self.trace
    }

    /// The connection that is served.
    pub fn connection(&self) -> Connection
        ensures { result ≡ self.now.badge.connection }
    {
        self.badge.connection()
    }

    /// The badge under which the session asks.
    pub fn badge(&self) -> &Badge
        ensures { result.now ≡ self.now.badge }
    {
        &self.badge
    }

    /// The slot's number.
    pub fn slot(&self) -> u16
        ensures { result ≡ self.now.slot }
    {
        self.outlet.slot()
    }

    /// What the session's messages are written into.
    pub fn sink(&self) -> &S
        ensures { result.now ≡ self.now.sink }
    {
        self.outlet.sink()
    }

    /// The flags.
    pub fn flags(&self) -> &F
        ensures { result.now ≡ self.now.flags }
    {
        &self.flags
    }

    /// The number of bytes written, as far as the sink tells; `u64::MAX` if that is more.
    pub fn written(&self) -> u64
        ensures { result ≡ self.now.written }
    {
        self.written
    }

    /// A fact for the prover: what the work was given, and what it made of that (`Serves`). Its
    /// sink is its peer's slot's. If its session is over, the stop flag is set. Its session was
    /// given as many answers as its badge counts.
    pub fn served(&self)
        ensures serves { (items : List (Given Input)) × (beats : List Event)
            × Serves H.told H.refused S.contents S.has_failed self.now items beats }
        ensures slot { self.now.slot ≡ self.now.badge.connection.peer }
        ensures stopped { is_over self.now ≡ true → F.is_stopped self.now.flags ≡ true }
        ensures counted { self.now.trace.total.told ≡ self.now.badge.count }
    {
        // No effect when it runs: it tells the prover what the type keeps.
        let _ = &self.trace;
    }

    /// Makes room for the next event. If that fails, the session is over, and the result is false.
    fn make_room(&mut self) -> bool
        requires going { is_over self.old ≡ false }
        ensures ready { result ≡ true → IsPrimed self.new }
        ensures closed { result ≡ false → is_over self.new ≡ true }
        ensures same { IsSamePeer F.looks self.old self.new }
        ensures keeps { StillKeeps self.old.trace self.new.trace }
        ensures serves { ServesOn H.told H.refused S.contents S.has_failed self.old self.new }
    {
        let ready = self.trace.ready();
        stop_if_over(&self.trace, &mut self.flags);
        ready
    }

    /// Makes ready for the next event. If that fails, the session is over, and the result is false.
    fn prepare(&mut self) -> bool
        requires going { is_over self.old ≡ false }
        ensures ready { result ≡ true → IsPrimed self.new }
        ensures closed { result ≡ false → is_over self.new ≡ true }
        ensures same { IsSamePeer F.looks self.old self.new }
        ensures keeps { StillKeeps self.old.trace self.new.trace }
        ensures serves { ServesOn H.told H.refused S.contents S.has_failed self.old self.new }
    {
        self.begin_anew();
        self.make_room()
    }

    /// Before its first event, begins the session anew with the time at which the connection was
    /// made, if its `version` tells another. Want of memory leaves it as it is.
    fn begin_anew(&mut self)
        requires going { is_over self.old ≡ false }
        ensures going { is_over self.new ≡ false }
        ensures settings { IsAtTime self.old.trace.settings self.new.trace.settings }
        ensures same { IsSamePeer F.looks self.old self.new }
        ensures keeps { StillKeeps self.old.trace self.new.trace }
        ensures serves { ServesOn H.told H.refused S.contents S.has_failed self.old self.new }
    {
        if self.trace.total().entries != 0 {
            return;
        }
        let Some(time) = self.flags.made_at() else {
            return;
        };
        let mut settings = self.trace.settings();
        if time == settings.time {
            return;
        }
        settings.time = time;
        if let Ok((trace, unsent)) = Trace::with_seed(self.alloc, settings, self.hall.seed()) {
            drop(mem::replace(&mut self.trace, trace));
            drop(mem::replace(&mut self.unsent, unsent));
        }
    }

    /// Gives the session an event that begins something new: input from the peer, a tick, or a
    /// probe. Writes what is held back and what the session sends, and asks the hall what it asks,
    /// until no question is open.
    fn begin(&mut self, event: Event)
        requires primed { IsPrimed self.old }
        requires begins { begins (kind_of event) ≡ true }
        ensures ended { ends_at_once event ≡ true → is_over self.new ≡ true }
        ensures same { IsSamePeer F.looks self.old self.new }
        ensures keeps { StillKeeps self.old.trace self.new.trace }
        ensures serves { ServesNext H.told H.refused S.contents S.has_failed self.old event
            self.new }
    {
        let unsent = mem::replace(&mut self.unsent, Vec::new(self.alloc));
        let begun = begin_by(
            self.alloc,
            &mut self.trace,
            &mut self.outlet.sink,
            &mut self.hall,
            &mut self.badge,
            &mut self.written,
            unsent,
            event,
        );
        self.unsent = begun.unsent;
        self.untold = self.untold.saturating_add(begun.messages);
        stop_if_over(&self.trace, &mut self.flags);
    }

    /// Ends the session: memory ran out for what the peer sent.
    fn lose(&mut self)
        requires going { is_over self.old ≡ false }
        ensures ended { is_over self.new ≡ true }
        ensures same { IsSamePeer F.looks self.old self.new }
        ensures keeps { StillKeeps self.old.trace self.new.trace }
        ensures serves { (items : List (Given Input)) (beats : List Event) →
            Serves H.told H.refused S.contents S.has_failed self.old items beats →
            Serves H.told H.refused S.contents S.has_failed self.new
            (items ++ given.Item inputs.NoMemory ∷ []) beats }
    {
        lose_by(
            &mut self.trace,
            &mut self.outlet.sink,
            &mut self.hall,
            &mut self.badge,
            self.written,
        );
        stop_if_over(&self.trace, &mut self.flags);
    }

    /// Gives the session the next item, or the end.
    fn give(&mut self, item: Given<Input>)
        requires primed { IsPrimed self.old }
        ensures ended { IsEnd item → is_over self.new ≡ true }
        ensures same { IsSamePeer F.looks self.old self.new }
        ensures keeps { StillKeeps self.old.trace self.new.trace }
        ensures serves { (items : List (Given Input)) (beats : List Event) →
            Serves H.told H.refused S.contents S.has_failed self.old items beats →
            Serves H.told H.refused S.contents S.has_failed self.new (items ++ item ∷ []) beats }
    {
        match item {
            Given::Item(Input::Said(item)) => self.begin(Event::Said(item)),
            Given::Item(Input::Broken(fault)) => self.begin(Event::Broken(fault)),
            Given::Item(Input::NoMemory) => self.lose(),
            Given::End => self.begin(Event::ReaderEnd),
        }
    }

    /// Lets the entries of the trace go, so it is its checkpoint alone.
    fn shed(&mut self)
        requires over { is_over self.old ≡ true }
        ensures weight { weight_of self.new.trace ≡ 0 }
        ensures over { is_over self.new ≡ true }
        ensures same { IsSamePeer F.looks self.old self.new }
        ensures serves { ServesOn H.told H.refused S.contents S.has_failed self.old self.new }
    {
        self.trace.shed(0);
    }

    /// Keeps the peer's first `version`, if this is one.
    fn note(&mut self, given: &Given<Input>)
        ensures primed { IsPrimed self.old → IsPrimed self.new }
        ensures over { is_over self.new ≡ is_over self.old }
        ensures same { IsSamePeer F.looks self.old self.new }
        ensures keeps { StillKeeps self.old.trace self.new.trace }
        ensures serves { ServesOn H.told H.refused S.contents S.has_failed self.old self.new }
    {
        let Some(item) = greeting_of(given) else {
            return;
        };
        self.flags.keep_greeting(item);
    }

    /// Which timer events are due. After the call none is, until its flag is set again.
    fn look(&mut self) -> Beats
        ensures over { is_over self.new ≡ is_over self.old }
        ensures connection { self.new.badge.connection ≡ self.old.badge.connection }
        ensures looked { (answers : List Beats) → F.looks self.old.flags answers →
            F.looks self.new.flags (answers ++ result ∷ []) }
        ensures keeps { StillKeeps self.old.trace self.new.trace }
        ensures serves { ServesOn H.told H.refused S.contents S.has_failed self.old self.new }
    {
        self.flags.take_beats()
    }

    /// Gives the session a timer event that is due, if there is a place for it. One that isn't due
    /// is passed over, and so is any once the session is over.
    fn beat(&mut self, due: bool, event: Event)
        requires beat { is_beat (kind_of event) ≡ true }
        ensures gave { GaveBeats H.told H.refused S.contents S.has_failed self.old
            (if due then event ∷ [] else []) self.new }
        ensures same { IsSamePeer F.looks self.old self.new }
        ensures keeps { StillKeeps self.old.trace self.new.trace }
    {
        if !due {
            return;
        }
        if self.closed() {
            return;
        }
        if !self.prepare() {
            return;
        }
        let written = self.written;
        self.begin(event);
        self.count(Carried::nothing(), written);
    }

    /// Counts what a step moved, which began with so many bytes written.
    fn count(&mut self, carried: Carried, written: u64)
        ensures over { is_over self.new ≡ is_over self.old }
        ensures same { IsSamePeer F.looks self.old self.new }
        ensures keeps { StillKeeps self.old.trace self.new.trace }
        ensures serves { ServesOn H.told H.refused S.contents S.has_failed self.old self.new }
    {
        let block = self.rebuilding.brought(&carried, self.trace.entries());
        self.flags.count_traffic(&StepTraffic {
            messages: carried.messages,
            payload: carried.payload,
            written: self.written.saturating_sub(written),
            sent: mem::replace(&mut self.untold, 0),
            pongs: carried.pongs,
            flight: self.trace.in_flight() as u64,
            fetching: self.trace.is_fetching(),
            seeks: self.trace.seeks(),
            told: ToldTip::by(&self.trace),
            block,
            state: self.trace.state(),
        });
    }
}

impl<S: MessageSink + Drop, H: Oracle + Drop, F: Flags> Work for PeerWork<S, H, F> {
    type Item = Input;

    ghost given = { λ work items. WasGiven H.told H.refused S.contents S.has_failed work items };

    ghost ticked = { λ work at. WasTicked H.told H.refused S.contents S.has_failed F.looks work
        at };

    ghost primed = { λ work. IsPrimed work };

    ghost is_closed = { λ work. is_over work };

    ghost is_whole = { λ work. KeepsHistory work.trace };

    ghost weight = { λ work. weight_of work.trace };

    ghost label = { λ work. label_of work.badge.connection };

    fn whose(&self) -> u64 {
        let connection = self.badge.connection();
        let peer = u64::from(connection.peer);
        connection
            .generation
            .wrapping_mul(65_536)
            .wrapping_add(peer)
    }

    fn closed(&self) -> bool {
        self.trace.state().is_closed()
    }

    fn ready(&mut self) -> bool {
        self.prepare()
    }

    fn step<R: Wait>(&mut self, _rt: &R, item: Given<Input>)
        requires open { is_over self.old ≡ false }
        requires primed { IsPrimed self.old }
        ensures given { (items : List (Given Input)) →
            WasGiven H.told H.refused S.contents S.has_failed self.old items →
            WasGiven H.told H.refused S.contents S.has_failed self.new (items ++ item ∷ []) }
        ensures end { IsEnd item → is_over self.new ≡ true }
        ensures whole { StillKeeps self.old.trace self.new.trace }
        ensures label { label_of self.new.badge.connection ≡ label_of self.old.badge.connection }
        ensures ticked { (at : List ℕ) →
            WasTicked H.told H.refused S.contents S.has_failed F.looks self.old at →
            WasTicked H.told H.refused S.contents S.has_failed F.looks self.new at }
    {
        let carried = Carried::of(&item, &self.trace);
        self.note(&item);
        let written = self.written;
        self.give(item);
        self.count(carried, written);
    }

    fn tick<R: Wait>(&mut self, _rt: &R) {
        let due = self.look();
        self.beat(due.tick, Event::Tick);
        self.beat(due.probe, Event::Probe);
    }

    fn weighs(&self) -> u64 {
        self.trace.weight()
    }

    fn let_go(&mut self) {
        self.shed()
    }
}

/// Sets the stop flag if the session is over. Before that it tells why.
fn stop_if_over<F: Flags>(trace: &Trace, flags: &mut F)
    ensures stopped { is_closed trace.now.session.state ≡ true → F.is_stopped flags.new ≡ true }
    ensures looked { (answers : List Beats) → F.looks flags.old answers →
        F.looks flags.new answers }
{
    let state = trace.state();
    if state.is_closed() {
        flags.count_traffic(&StepTraffic::nothing(state));
        flags.stop();
    }
}
