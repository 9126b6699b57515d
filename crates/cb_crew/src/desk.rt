ghost use Rattle.std.specs.Prelude.{◌≡◌, ◌≤◌, true, false, List, [], ◌∷◌, ◌++◌, vec_capacity};
ghost use Rattle.std.specs.List.{sum_by};
ghost use Rattle.cb_crew.specs.Seat.{opening_seat};
ghost use Rattle.cb_crew.specs.declared.desk.Step.TheVariants.{Worked, Passed};
ghost use Rattle.cb_crew.specs.declared.work.Given.{Given};
ghost use Rattle.cb_crew.specs.Work.{IsEnd, IsTicked, IsUnticked};
ghost use Rattle.cb_crew.specs.Desk.{IsDesk, IsSameLine, IsServed, HasServedAll, KeepsWorks, NotTicked, PastAfter, Stepped, TickedOnce, desk_note, desk_state, desk_told, first_label};

use crate::inbox::Inbox;
use crate::note::Note;
use crate::past::PastWorks;
use crate::queued::Queued;
use crate::ring_rule::Travels;
use crate::taker::TakerSeat;
use crate::work::{Fresh, Given, Work};
use cb_base::Shared;
use std::marker::Model;
use std::mem;
use std::sync::Wait;

/// What one step did with the mark at the front of an inbox.
#[derive(Drop)]
enum Step {
    /// The mark was given to the work.
    Worked,
    /// The mark was passed over: it is an open mark, or the work is closed.
    Passed,
    /// The inbox was empty.
    Empty,
}

/// How many marks of an inbox were given to works, and how many were passed over.
#[derive(Clone, Copy, Debug, PartialEq, Eq)]
pub struct Count {
    /// Items and end marks that were given to a work.
    pub worked: u32,
    /// Open marks, and items and end marks that came to a closed work.
    pub passed: u32,
}

/// A peer's desk: the session of one peer, which waits its turn in the ring or is held by one
/// handler. It has the taker's seat of the peer's inbox, the work that serves the latest
/// connection, and the works of earlier connections.
///
/// Each connection has its own work. The first work keeps its label. Each later work has the label
/// of the work that its open mark brought. A work was given a prefix of what was taken of its
/// connection, in order and each once. An open work was given all of that. The works of earlier
/// connections are closed, and keep at most 1,000,000 bytes together: the oldest let go first, so
/// the latest are kept whole as far as these bytes go.
pub struct Desk<W: Work> {
    inbox: Shared<Inbox<W::Item, Fresh<W>>>,
    seat: TakerSeat<W::Item, Fresh<W>>,
    work: W,
    past: PastWorks<W>,
}

impl<W: Work> Model for Desk<W> {
    ghost use Rattle.std.specs.Prelude.{◌≡◌, ◌≤◌};
    ghost use Rattle.cb_crew.specs.Desk.{DeskState, IsDesk, KeepsWorks, desk_state};

    ghost Value = { DeskState W W.Item };

    ghost view = { λ a. desk_state a.inbox a.seat a.work a.past.works };

    ghost invariant = { λ a. IsDesk W.label W.given W.is_closed
        (desk_state a.inbox a.seat a.work a.past.works)
        × (a.seat.inbox ≡ a.inbox.name) × (255 ≤ a.past.capacity)
        × KeepsWorks W.label W.given W.ticked W.is_closed W.is_whole W.weight
        (desk_state a.inbox a.seat a.work a.past.works) };
}

impl<W: Work> Drop for Desk<W> {
    fn drop(self) {
        let Desk {
            inbox: _,
            seat: _,
            work: _,
            past: _,
        } = self;
    }
}

impl<W: Work> Travels for Desk<W> {
    ghost use Rattle.cb_crew.specs.Turn.{shown_desk};

    ghost shown = { λ desk. shown_desk W.label W.is_closed desk };
}

impl<W: Work> Desk<W> {
    /// The desk of an inbox from which nothing was taken, with the work of the first connection.
    /// `past` must be empty and have room for 255 works of past connections.
    pub fn new(
        inbox: Shared<Inbox<W::Item, Fresh<W>>>,
        seat: TakerSeat<W::Item, Fresh<W>>,
        work: Fresh<W>,
        past: Vec<W>,
    ) -> Desk<W>
        requires seat { seat ≡ opening_seat inbox.name }
        requires past { (past.items ≡ []) × (255 ≤ vec_capacity past) }
        ensures { result ≡ desk_state inbox seat work [] }
    {
        Desk {
            inbox,
            seat,
            work: work.into_work(),
            past: PastWorks::new(past),
        }
    }

    /// The peer that the desk serves.
    pub fn peer(&self) -> u16
        ensures { result ≡ self.now.inbox.peer }
    {
        self.inbox.peer()
    }

    /// The peer's inbox.
    pub fn inbox(&self) -> &Inbox<W::Item, Fresh<W>>
        ensures { result.now ≡ self.now.inbox }
    {
        &self.inbox
    }

    /// The work of the latest connection.
    pub fn work(&self) -> &W
        ensures { result.now ≡ self.now.work }
    {
        &self.work
    }

    /// The works of earlier connections, in order. All are closed, and they keep at most 1,000,000
    /// bytes together.
    pub fn past(&self) -> &[W]
        ensures past { result.now ≡ self.now.past }
        ensures bounded { sum_by W.weight self.now.past ≤ 1000000 }
    {
        self.past.works()
    }

    /// A fact for the prover: what the works of this desk were given of what was taken from its
    /// inbox (`IsDesk`), and what they keep (`KeepsWorks`).
    pub fn served(&self)
        ensures given { IsDesk W.label W.given W.is_closed self.now }
        ensures kept { KeepsWorks W.label W.given W.ticked W.is_closed W.is_whole W.weight
            self.now }
    {
        // No effect when it runs: it tells the prover what the type keeps.
        let _ = &self.seat;
    }

    /// The work of the latest connection, then the works of earlier connections.
    pub fn into_works(self) -> (W, Vec<W>)
        ensures { (result.0 ≡ self.work) × (result.1.items ≡ self.past) }
    {
        let Desk {
            inbox: _,
            seat: _,
            work,
            past,
        } = self;
        (work, past.into_works())
    }

    /// Learns from a note of the reader how much was queued.
    pub fn learn(&mut self, note: Note<W::Item, Fresh<W>>)
        requires { note.inbox ≡ self.old.inbox.name }
        ensures { self.new ≡ desk_told self.old note }
    {
        self.seat.learn(&self.inbox, note);
    }

    /// Ticks the work if it is open. Then takes up to `budget` marks, and gives them to works or
    /// passes them over. It takes fewer only if a work closed on what it was given last, or the
    /// inbox was empty at some moment.
    ///
    /// Returns how many marks were given and how many passed over.
    pub fn serve<R: Wait>(&mut self, rt: &R, budget: u32) -> Count
        requires { budget ≤ 64 }
        ensures served { IsServed W.given W.is_closed self.old self.new budget result.worked
            result.passed }
        ensures ticks { TickedOnce W.given W.ticked W.is_closed self.old self.new }
        ensures past { PastAfter W.label W.given W.ticked W.is_closed W.weight self.old self.new }
        ensures label { first_label W.label self.new ≡ first_label W.label self.old }
    {
        self.tick(rt);
        let mut count = Count {
            worked: 0,
            passed: 0,
        };
        for _ in 0..budget {
            match self.advance(rt) {
                Step::Worked => {
                    count.worked += 1;
                    if self.work.closed() {
                        return count;
                    }
                }
                Step::Passed => count.passed += 1,
                Step::Empty => return count,
            }
        }
        count
    }

    /// Takes marks until the inbox was empty at some moment, and gives them to works or passes them
    /// over.
    pub fn serve_all<R: Wait>(&mut self, rt: &R)
        ensures served { HasServedAll self.old self.new }
        ensures ticks { NotTicked W.ticked self.old self.new }
        ensures past { PastAfter W.label W.given W.ticked W.is_closed W.weight self.old self.new }
        ensures label { first_label W.label self.new ≡ first_label W.label self.old }
    {
        for _ in rt.forever() {
            if let Step::Empty = self.advance(rt) {
                return;
            }
        }
        unreachable!()
    }

    /// A note of what this desk's seat knows, which includes all that was taken.
    pub fn note(&mut self) -> Note<W::Item, Fresh<W>>
        ensures { (result ≡ desk_note self.old) × (self.new ≡ self.old) }
    {
        self.seat.note(&self.inbox)
    }

    /// Ticks the work if it is open.
    fn tick<R: Wait>(&mut self, rt: &R)
        ensures line { IsSameLine self.old self.new }
        ensures past { self.new.past ≡ self.old.past }
        ensures label { W.label self.new.work ≡ W.label self.old.work }
        ensures closed { W.is_closed self.old.work ≡ true → self.new.work ≡ self.old.work }
        ensures ticked { IsTicked W.given W.ticked W.is_closed self.old.work self.new.work }
        ensures whole { W.is_whole self.old.work → W.is_whole self.new.work }
        ensures given { (items : List (Given W.Item)) → W.given self.old.work items →
            W.given self.new.work items }
    {
        if !self.work.closed() {
            self.work.tick(rt);
        }
    }

    /// Takes the mark at the front of the inbox and gives it to the work if that is open. An open
    /// mark brings the work of the next connection, and the work is past.
    fn advance<R: Wait>(&mut self, rt: &R) -> Step
        ensures stepped { Stepped W.given W.is_closed self.old self.new result }
        ensures ticks { NotTicked W.ticked self.old self.new }
        ensures past { PastAfter W.label W.given W.ticked W.is_closed W.weight self.old self.new }
        ensures label { first_label W.label self.new ≡ first_label W.label self.old }
    {
        let ready = make_ready(&mut self.work);
        match self.seat.take(rt, &self.inbox) {
            None => Step::Empty,
            Some(Queued::Item(item)) => give(rt, &mut self.work, ready, Given::Item(item)),
            Some(Queued::End) => give(rt, &mut self.work, ready, Given::End),
            Some(Queued::Open(next)) => {
                // No effect when it runs: it tells the prover what the type keeps.
                self.seat.reached();
                let past = mem::replace(&mut self.work, next.into_work());
                self.past.push(past);
                Step::Passed
            }
        }
    }
}

/// Makes room in an open work for its next step. Returns whether the work is open now.
fn make_ready<W: Work>(work: &mut W) -> bool
    ensures ready { result ≡ true →
        (W.is_closed work.old ≡ false) × (W.is_closed work.new ≡ false) × W.primed work.new }
    ensures closed { result ≡ false → W.is_closed work.new ≡ true }
    ensures live { W.is_closed work.new ≡ false → W.is_closed work.old ≡ false }
    ensures still { W.is_closed work.old ≡ true → work.new ≡ work.old }
    ensures given { (items : List (Given W.Item)) → W.given work.old items →
        W.given work.new items }
    ensures label { W.label work.new ≡ W.label work.old }
    ensures ticked { IsUnticked W.ticked work.old work.new }
    ensures whole { W.is_whole work.old → W.is_whole work.new }
{
    !work.closed() && work.ready()
}

/// Gives an item, or the end, to a work that is ready. A closed work is passed over.
fn give<W: Work, R: Wait>(rt: &R, work: &mut W, ready: bool, item: Given<W::Item>) -> Step
    requires { ready ≡ true → (W.is_closed work.old ≡ false) × W.primed work.old }
    ensures worked { ready ≡ true →
        (result ≡ Worked)
        × ((items : List (Given W.Item)) → W.given work.old items →
        W.given work.new (items ++ item ∷ [])) × (IsEnd item → W.is_closed work.new ≡ true) }
    ensures passed { ready ≡ false → (result ≡ Passed) × (work.new ≡ work.old) }
    ensures label { W.label work.new ≡ W.label work.old }
    ensures ticked { IsUnticked W.ticked work.old work.new }
    ensures whole { W.is_whole work.old → W.is_whole work.new }
{
    if !ready {
        return Step::Passed;
    }
    work.step(rt, item);
    Step::Worked
}
