ghost use Rattle.std.specs.Prelude.{◌≡◌, true, false, IfSome, IfNone};
ghost use Rattle.cb_crew.specs.Laws.{IsBeginning};
ghost use Rattle.cb_crew.specs.Queued.{IsFresh};
ghost use Rattle.cb_crew.specs.Rule.{IsOfALine};
ghost use Rattle.cb_crew.specs.Seat.{IsFirst, opening_seat, taken_more, told_of_queued};

use crate::inbox::Inbox;
use crate::note::Note;
use crate::queued::{Opening, Queued};
use crate::rule::{Halves, Learns, LinePass, Sights, Takes};
use std::marker::Model;
use std::mem;
use std::sync::Wait;

/// The one seat that takes from an inbox. Contracts see all that was taken, and a prefix of what
/// was queued, as far as notes told it.
#[derive(Drop)]
pub struct TakerSeat<M: Drop, O: Opening + Drop> {
    pass: LinePass<M, O>,
}

impl<M: Drop, O: Opening + Drop> Model for TakerSeat<M, O> {
    ghost use Rattle.std.specs.Prelude.{true, false};
    ghost use Rattle.cb_crew.specs.declared.queued.Queued.{Queued};
    ghost use Rattle.cb_crew.specs.Seat.{SeatState, seat_state, IsSeat};

    ghost Value = { SeatState (Queued M O) };

    ghost view = { λ a. seat_state a.pass };

    ghost invariant = { λ a. IsSeat false true a.pass };
}

impl<M: Drop, O: Opening + Drop> TakerSeat<M, O> {
    /// The taker's seat of a new inbox, from which nothing was taken.
    pub(crate) fn first(pass: LinePass<M, O>) -> TakerSeat<M, O>
        requires { IsFirst false true pass }
        ensures { result ≡ opening_seat pass.table_id }
    {
        TakerSeat { pass }
    }

    /// Takes the mark at the front. What an open mark brings is fresh.
    ///
    /// Returns `None` only if the inbox was empty at some moment of the call: all that this seat
    /// was told was queued has been taken. The seat is then unchanged.
    pub fn take<R: Wait>(&mut self, rt: &R, inbox: &Inbox<M, O>) -> Option<Queued<M, O>>
        requires { self.old.inbox ≡ inbox.now.name }
        ensures some { IfSome result
            (λ mark. (self.new ≡ taken_more self.old mark) × IsFresh O.fresh mark) }
        ensures none { IfNone result
            ((self.new ≡ self.old) × IsBeginning self.old.queued self.old.taken) }
    {
        inbox.line.pop_as::<Takes, R>(rt, &mut self.pass)
    }

    /// A note of what this seat knows, which includes all that it took.
    pub fn note(&mut self, inbox: &Inbox<M, O>) -> Note<M, O>
        requires { self.old.inbox ≡ inbox.now.name }
        ensures { (result ≡ self.old) × (self.new ≡ self.old) }
    {
        let taking = inbox.line.another::<Halves>(&mut self.pass);
        Note {
            pass: mem::replace(&mut self.pass, taking),
        }
    }

    /// Learns from another seat's note how much was queued.
    pub fn learn(&mut self, inbox: &Inbox<M, O>, note: Note<M, O>)
        requires { (self.old.inbox ≡ inbox.now.name) × (note.inbox ≡ inbox.now.name) }
        ensures { self.new ≡ told_of_queued self.old note }
    {
        inbox.line.absorb::<Learns>(&mut self.pass, note.pass);
        // No effect when it runs: it tells the prover what the type keeps.
        inbox.line.learn_as::<Sights>(&mut self.pass);
    }

    /// A fact for the prover: acts of the crew's core lead to a line with this seat's lists, so
    /// every law of the core holds for it.
    pub fn reached(&self)
        ensures { IsOfALine false true self.now.queued self.now.taken }
    {
        // No effect when it runs: it tells the prover what the type keeps.
        let _ = &self.pass;
    }
}
