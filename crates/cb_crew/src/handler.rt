ghost use Rattle.std.specs.Prelude.{◌≡◌, ◌≢◌, ◌+◌, ◌^◌, ◌≤◌, ◌↔◌, [], vec_capacity, IfOk};
ghost use Rattle.cb_crew.specs.declared.handler.TurnOutcome.TheVariants.{Spent};
ghost use Rattle.cb_crew.specs.Crew.{IsHandlerOf};
ghost use Rattle.cb_crew.specs.Ring.{IsHandOf, running};
ghost use Rattle.cb_crew.specs.Desk.{TickedOnce};
ghost use Rattle.cb_crew.specs.Turn.{Begins, Brings, Counts, GivesTicked, Hears, IsClaimed, IsNoteOf, Serves, Ticks, Turned, TurnsDesk};

use crate::crew::Crew;
use crate::desk::Desk;
use crate::note::Note;
use crate::ring::Hand;
use crate::work::{Fresh, Work};
use std::marker::Model;
use std::sync::Wait;

/// How many turns a handler makes at most.
const MOST_TURNS: u64 = 1 << 40;

/// What a turn did.
#[derive(Clone, Copy, Debug, PartialEq, Eq)]
pub enum TurnOutcome {
    /// Marks were taken from the inbox of this peer, at least one. The numbers are how many items
    /// and end marks were given to works, and how many marks were passed over: open marks, and what
    /// came to a closed work.
    Served(u16, u32, u32),
    /// The inbox of this peer was empty, and its work is open.
    Idle(u16),
    /// The inbox of this peer was empty, and its work is closed.
    Shut(u16),
    /// The ring was empty: handlers held all desks.
    NoDesk,
    /// The handler has made all its turns, 2^40 of them.
    Spent,
}

/// A thread's share of a crew: it claims desks and gives them back. Contracts see its hand, the
/// number of its turns, and for how many desks its list has room. The list of the crew's first
/// handler is kept for `Crew::finish`.
pub struct Handler<W: Work> {
    hand: Hand<Desk<W>>,
    turns: u64,
    desks: Vec<Desk<W>>,
}

impl<W: Work> Model for Handler<W> {
    ghost use Rattle.std.specs.Prelude.{◌≡◌, ◌≤◌, ◌^◌, [], vec_capacity, IfOk};
    ghost use Rattle.cb_crew.specs.Desk.{DeskState};
    ghost use Rattle.cb_crew.specs.Turn.{HandlerState};

    ghost Value = { HandlerState (DeskState W W.Item) };

    ghost view = { λ a. record { hand = a.hand; turns = a.turns; room = vec_capacity a.desks } };

    ghost invariant = { λ a. (a.turns ≤ 2 ^ 40) × (a.desks.items ≡ []) };
}

impl<W: Work> Drop for Handler<W> {
    fn drop(self) {
        let Handler {
            hand: _,
            turns: _,
            desks: _,
        } = self;
    }
}

impl<W: Work> Handler<W> {
    /// A handler with this hand and this empty list, which made no turn yet.
    pub(crate) fn new(hand: Hand<Desk<W>>, desks: Vec<Desk<W>>) -> Handler<W>
        requires { desks.items ≡ [] }
        ensures { result ≡ record { hand = hand; turns = 0; room = vec_capacity desks } }
    {
        Handler {
            hand,
            turns: 0,
            desks,
        }
    }

    /// The handler's hand and its list.
    pub(crate) fn into_parts(self) -> (Hand<Desk<W>>, Vec<Desk<W>>)
        ensures hand { result.0 ≡ self.hand }
        ensures desks { (result.1.items ≡ []) × (vec_capacity result.1 ≡ self.room) }
    {
        let Handler {
            hand,
            turns: _,
            desks,
        } = self;
        (hand, desks)
    }

    /// How many turns the handler made.
    pub fn turns(&self) -> u64
        ensures { result ≡ self.now.turns }
    {
        self.turns
    }

    /// Makes one turn. Claims the desk at the front of the ring, and ticks its work if that is
    /// open. Takes up to `budget` marks from its inbox, 1 to 64, and gives them to works or passes
    /// them over. Then gives the desk back.
    ///
    /// Returns what was done. After 2^40 turns it returns `TurnOutcome::Spent` and changes nothing.
    pub fn turn<R: Wait>(&mut self, rt: &R, crew: &Crew<W>, budget: u32) -> TurnOutcome
        requires crew { IsHandlerOf crew.now self.old }
        requires budget { (1 ≤ budget) × (budget ≤ 64) }
        ensures turned { Turned self.old.hand self.new.hand budget result }
        ensures spent { (result ≡ Spent) ↔ (self.old.turns ≡ 2 ^ 40) }
        ensures turns { result ≢ Spent → self.new.turns ≡ self.old.turns + 1 }
        ensures stays { result ≡ Spent → self.new ≡ self.old }
        ensures same { IsHandlerOf crew.now self.new × (self.new.room ≡ self.old.room) }
        ensures ticks { Ticks W.label W.given W.ticked W.is_closed self.old.hand self.new.hand
            result }
        ensures counts { Counts W.label W.given W.is_closed self.old.hand self.new.hand result }
    {
        match self.begin(rt, crew) {
            Ok(desk) => self.complete(rt, crew, desk, budget),
            Err(turn) => turn,
        }
    }

    /// Makes one turn, as `turn` does, and brings a note of a peer's reader. If the claimed desk is
    /// this peer's, its seat learns the note before it is served. `TurnOutcome::Idle` or
    /// `TurnOutcome::Shut` then tells that everything in the note was taken. If it is another
    /// peer's desk, or there is none, the note comes back.
    pub fn turn_told<R: Wait>(
        &mut self,
        rt: &R,
        crew: &Crew<W>,
        budget: u32,
        peer: u16,
        note: Note<W::Item, Fresh<W>>,
    ) -> (TurnOutcome, Option<Note<W::Item, Fresh<W>>>)
        requires crew { IsHandlerOf crew.now self.old }
        requires budget { (1 ≤ budget) × (budget ≤ 64) }
        requires note { IsNoteOf self.old.hand.names peer note }
        ensures turned { Turned self.old.hand self.new.hand budget result.0 }
        ensures spent { (result.0 ≡ Spent) ↔ (self.old.turns ≡ 2 ^ 40) }
        ensures turns { result.0 ≢ Spent → self.new.turns ≡ self.old.turns + 1 }
        ensures stays { result.0 ≡ Spent → self.new ≡ self.old }
        ensures same { IsHandlerOf crew.now self.new × (self.new.room ≡ self.old.room) }
        ensures brings { Brings self.new.hand result.0 peer note result.1 }
        ensures ticks { Ticks W.label W.given W.ticked W.is_closed self.old.hand self.new.hand
            result.0 }
        ensures counts { Counts W.label W.given W.is_closed self.old.hand self.new.hand result.0 }
    {
        match self.begin(rt, crew) {
            Ok(mut desk) => {
                let back = hear(&mut desk, peer, note);
                (self.complete(rt, crew, desk, budget), back)
            }
            Err(turn) => (turn, Some(note)),
        }
    }

    /// Claims the desk at the front of the ring for a turn. Without a desk, returns how the turn
    /// ends.
    fn begin<R: Wait>(&mut self, rt: &R, crew: &Crew<W>) -> Result<Desk<W>, TurnOutcome>
        requires { IsHandlerOf crew.now self.old }
        ensures begins { Begins W.label W.is_closed self.old self.new result }
        ensures hand { IfOk result
            (λ _. IsHandOf crew.now.ring self.new.hand × (self.new.hand.stage ≡ running)) }
        ensures room { self.new.room ≡ self.old.room }
    {
        if self.turns == MOST_TURNS {
            return Err(TurnOutcome::Spent);
        }
        self.turns += 1;
        crew.ring
            .claim(rt, &mut self.hand)
            .ok_or(TurnOutcome::NoDesk)
    }

    /// Serves a desk that the hand holds, and gives it back. Returns what was done.
    fn complete<R: Wait>(
        &mut self,
        rt: &R,
        crew: &Crew<W>,
        mut desk: Desk<W>,
        budget: u32,
    ) -> TurnOutcome
        requires hand { IsHandOf crew.now.ring self.old.hand × (self.old.hand.stage ≡ running) }
        requires desk { IsClaimed W.label self.old.hand desk }
        requires budget { (1 ≤ budget) × (budget ≤ 64) }
        ensures serves { Serves W.label W.given W.is_closed self.old.hand self.new.hand desk budget
            result }
        ensures ticks { GivesTicked W.label W.given W.ticked W.is_closed self.old.hand self.new.hand
            desk }
        ensures same { (self.new.turns ≡ self.old.turns) × (self.new.room ≡ self.old.room) }
    {
        let turn = serve_desk(rt, &mut desk, budget);
        crew.ring.give(rt, &mut self.hand, desk);
        turn
    }
}

/// Tells a desk the note of its peer's reader. The note of another peer's reader comes back.
fn hear<W: Work>(
    desk: &mut Desk<W>,
    peer: u16,
    note: Note<W::Item, Fresh<W>>,
) -> Option<Note<W::Item, Fresh<W>>>
    requires { desk.old.inbox.peer ≡ peer → note.inbox ≡ desk.old.inbox.name }
    ensures { Hears desk.old desk.new peer note result }
{
    if desk.peer() != peer {
        return Some(note);
    }
    desk.learn(note);
    None
}

/// Serves a desk. Returns what was done.
fn serve_desk<W: Work, R: Wait>(rt: &R, desk: &mut Desk<W>, budget: u32) -> TurnOutcome
    requires { (1 ≤ budget) × (budget ≤ 64) }
    ensures turns { TurnsDesk W.label W.given W.is_closed desk.old desk.new budget result }
    ensures ticks { TickedOnce W.given W.ticked W.is_closed desk.old desk.new }
{
    let peer = desk.peer();
    let count = desk.serve(rt, budget);
    if count.worked + count.passed > 0 {
        TurnOutcome::Served(peer, count.worked, count.passed)
    } else if desk.work().closed() {
        TurnOutcome::Shut(peer)
    } else {
        TurnOutcome::Idle(peer)
    }
}
