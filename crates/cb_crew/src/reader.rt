ghost use Rattle.std.specs.Prelude.{◌≡◌, ◌↔◌, ◌⊎◌, ◌<◌, ◌≤◌, ◌^◌, true, false, length, IfOk, IfErr, OnOk};
ghost use Rattle.cb_base.specs.declared.fault.Fault.TheVariants as faults;
ghost use Rattle.cb_crew.specs.Line.{connections};
ghost use Rattle.cb_crew.specs.declared.queued.Queued.TheVariants.{Item, End, Open};
ghost use Rattle.cb_crew.specs.Queued.{IsFresh, has_ended, is_open};
ghost use Rattle.cb_crew.specs.Rule.{IsOfALine};
ghost use Rattle.cb_crew.specs.Seat.{IsFirst, IsFullBy, MayQueue, opening_seat, queued_more, told_of_taken};

use crate::inbox::Inbox;
use crate::note::Note;
use crate::queued::{Opening, Queued};
use crate::rule::{Halves, Learns, LinePass, Queues, Sights};
use cb_base::Fault;
use std::marker::Model;
use std::sync::Wait;

/// How many connections a peer may have, one after another.
const MOST_CONNECTIONS: u16 = 256;

/// The right to queue, with counts of what was queued. Contracts see all that was queued, and a
/// prefix of what was taken, as far as notes told it.
#[derive(Drop)]
struct Queueing<M: Drop, O: Opening + Drop> {
    pass: LinePass<M, O>,
    count: u64,
    connections: u16,
}

impl<M: Drop, O: Opening + Drop> Model for Queueing<M, O> {
    ghost use Rattle.cb_crew.specs.declared.queued.Queued.{Queued};
    ghost use Rattle.cb_crew.specs.Seat.{SeatState, seat_state, Counts};

    ghost Value = { SeatState (Queued M O) };

    ghost view = { λ a. seat_state a.pass };

    ghost invariant = { λ a. Counts a.pass a.count a.connections };
}

impl<M: Drop, O: Opening + Drop> Queueing<M, O> {
    /// Queues an item or a mark that may come next. Gives it back only if the inbox was full at
    /// some moment of the call.
    fn queue<R: Wait>(
        &mut self,
        rt: &R,
        inbox: &Inbox<M, O>,
        mark: Queued<M, O>,
    ) -> Result<(), Queued<M, O>>
        requires inbox { self.old.inbox ≡ inbox.now.name }
        requires follows { MayQueue self.old.queued mark }
        requires fresh { IsFresh O.fresh mark }
        requires count { length self.old.queued < 2 ^ 48 }
        ensures ok { OnOk result (self.new ≡ queued_more self.old mark) }
        ensures full { IfErr result
            (λ back. (back ≡ mark) × (self.new ≡ self.old) × IsFullBy self.old inbox.now.capacity) }
    {
        let opens = mark.is_open();
        inbox.line.push_as::<Queues, R>(rt, &mut self.pass, mark)?;
        self.count += 1;
        self.connections += u16::from(opens);
        Ok(())
    }

    /// A note of what this seat knows, which includes all that it queued.
    fn note(&mut self, inbox: &Inbox<M, O>) -> Note<M, O>
        requires { self.old.inbox ≡ inbox.now.name }
        ensures { (result ≡ self.old) × (self.new ≡ self.old) }
    {
        Note {
            pass: inbox.line.another::<Halves>(&mut self.pass),
        }
    }

    /// Learns from another seat's note how much was taken.
    fn learn(&mut self, inbox: &Inbox<M, O>, note: Note<M, O>)
        requires { (self.old.inbox ≡ inbox.now.name) × (note.inbox ≡ inbox.now.name) }
        ensures { self.new ≡ told_of_taken self.old note }
    {
        inbox.line.absorb::<Learns>(&mut self.pass, note.pass);
        // No effect when it runs: it tells the prover what the type keeps.
        inbox.line.learn_as::<Sights>(&mut self.pass);
    }

    /// A fact for the prover: acts of the crew's core lead to a line with these lists.
    fn reached(&self)
        ensures { IsOfALine true false self.now.queued self.now.taken }
    {
        // No effect when it runs: it tells the prover what the type keeps.
        let _ = &self.pass;
    }
}

/// The one seat that queues in an inbox, while a connection lasts. Contracts see all that was
/// queued, and a prefix of what was taken, as far as notes told it.
#[derive(Drop)]
pub struct ReaderSeat<M: Drop, O: Opening + Drop> {
    queueing: Queueing<M, O>,
}

impl<M: Drop, O: Opening + Drop> Model for ReaderSeat<M, O> {
    ghost use Rattle.std.specs.Prelude.{◌≡◌, false};
    ghost use Rattle.cb_crew.specs.declared.queued.Queued.{Queued};
    ghost use Rattle.cb_crew.specs.Queued.{has_ended};
    ghost use Rattle.cb_crew.specs.Seat.{SeatState};

    ghost Value = { SeatState (Queued M O) };

    ghost view = { λ a. a.queueing };

    ghost invariant = { λ a. has_ended a.queueing.queued ≡ false };
}

/// The reader's seat after an end mark. Nothing can be queued until the next connection opens.
#[derive(Drop)]
pub struct EndedSeat<M: Drop, O: Opening + Drop> {
    queueing: Queueing<M, O>,
}

impl<M: Drop, O: Opening + Drop> Model for EndedSeat<M, O> {
    ghost use Rattle.std.specs.Prelude.{◌≡◌, true};
    ghost use Rattle.cb_crew.specs.declared.queued.Queued.{Queued};
    ghost use Rattle.cb_crew.specs.Queued.{has_ended};
    ghost use Rattle.cb_crew.specs.Seat.{SeatState};

    ghost Value = { SeatState (Queued M O) };

    ghost view = { λ a. a.queueing };

    ghost invariant = { λ a. has_ended a.queueing.queued ≡ true };
}

/// An item that wasn't queued because the inbox was full (F27).
#[derive(Debug, Drop, PartialEq, Eq)]
pub struct Full<M> {
    /// The item.
    pub item: M,
}

/// A connection that wasn't opened. The seat and the opening come back.
#[derive(Drop)]
pub struct NotOpened<M: Drop, O: Opening + Drop> {
    /// The seat, unchanged.
    pub seat: EndedSeat<M, O>,
    /// What was to serve the connection.
    pub opening: O,
    /// `Fault::NoMore` if the peer had 256 connections already, else `Fault::Full`.
    pub cause: Fault,
}

impl<M: Drop, O: Opening + Drop> ReaderSeat<M, O> {
    /// The reader's seat of a new inbox, in which nothing was queued.
    pub(crate) fn first(pass: LinePass<M, O>) -> ReaderSeat<M, O>
        requires { IsFirst true false pass }
        ensures { result ≡ opening_seat pass.table_id }
    {
        ReaderSeat {
            queueing: Queueing {
                pass,
                count: 0,
                connections: 1,
            },
        }
    }

    /// Queues an item at the back. It allocates nothing.
    ///
    /// Fails only if the inbox was full at some moment of the call: a full capacity of the queued
    /// marks isn't known to this seat as taken. The item then comes back and the seat is unchanged.
    pub fn put<R: Wait>(&mut self, rt: &R, inbox: &Inbox<M, O>, item: M) -> Result<(), Full<M>>
        requires inbox { self.old.inbox ≡ inbox.now.name }
        requires count { length self.old.queued < 2 ^ 48 }
        ensures ok { OnOk result (self.new ≡ queued_more self.old (Item item)) }
        ensures full { IfErr result
            (λ full. (full.item ≡ item) × (self.new ≡ self.old)
            × IsFullBy self.old inbox.now.capacity) }
    {
        match self.queueing.queue(rt, inbox, Queued::Item(item)) {
            Ok(()) => Ok(()),
            Err(Queued::Item(item)) => Err(Full { item }),
            Err(_) => unreachable!(),
        }
    }

    /// Queues the end mark: the connection ends. It allocates nothing.
    ///
    /// Fails only if the inbox was full at some moment of the call. The seat then comes back
    /// unchanged.
    pub fn end<R: Wait>(
        self,
        rt: &R,
        inbox: &Inbox<M, O>,
    ) -> Result<EndedSeat<M, O>, ReaderSeat<M, O>>
        requires inbox { self.inbox ≡ inbox.now.name }
        requires count { length self.queued < 2 ^ 48 }
        ensures ok { IfOk result (λ seat. seat ≡ queued_more self End) }
        ensures full { IfErr result (λ seat. (seat ≡ self) × IsFullBy self inbox.now.capacity) }
    {
        let mut queueing = self.queueing;
        match queueing.queue(rt, inbox, Queued::End) {
            Ok(()) => Ok(EndedSeat { queueing }),
            Err(_) => Err(ReaderSeat { queueing }),
        }
    }

    /// How many items and marks were queued, over all connections.
    pub fn count(&self) -> u64
        ensures { result ≡ length self.now.queued }
    {
        self.queueing.count
    }

    /// A note of what this seat knows, which includes all that it queued.
    pub fn note(&mut self, inbox: &Inbox<M, O>) -> Note<M, O>
        requires { self.old.inbox ≡ inbox.now.name }
        ensures { (result ≡ self.old) × (self.new ≡ self.old) }
    {
        self.queueing.note(inbox)
    }

    /// Learns from another seat's note how much was taken.
    pub fn learn(&mut self, inbox: &Inbox<M, O>, note: Note<M, O>)
        requires { (self.old.inbox ≡ inbox.now.name) × (note.inbox ≡ inbox.now.name) }
        ensures { self.new ≡ told_of_taken self.old note }
    {
        self.queueing.learn(inbox, note);
    }

    /// A fact for the prover: acts of the crew's core lead to a line with this seat's lists, so
    /// every law of the core holds for it. The last mark isn't an end mark.
    pub fn reached(&self)
        ensures line { IsOfALine true false self.now.queued self.now.taken }
        ensures live { has_ended self.now.queued ≡ false }
    {
        // No effect when it runs: it tells the prover what the type keeps.
        self.queueing.reached();
    }
}

impl<M: Drop, O: Opening + Drop> EndedSeat<M, O> {
    /// Queues an open mark with what serves the next connection: that connection begins. It
    /// allocates nothing.
    ///
    /// Fails with `Fault::NoMore` if the peer had 256 connections already. Fails with `Fault::Full`
    /// only if the inbox was full at some moment of the call. The seat, unchanged, and the opening
    /// then come back.
    pub fn open<R: Wait>(
        self,
        rt: &R,
        inbox: &Inbox<M, O>,
        opening: O,
    ) -> Result<ReaderSeat<M, O>, NotOpened<M, O>>
        requires inbox { self.inbox ≡ inbox.now.name }
        requires fresh { O.fresh opening }
        requires count { length self.queued < 2 ^ 48 }
        ensures ok { IfOk result
            (λ seat. (seat ≡ queued_more self (Open opening))
            × (connections is_open self.queued < 256)) }
        ensures back { IfErr result
            (λ refused. (refused.seat ≡ self) × (refused.opening ≡ opening)) }
        ensures no_more { IfErr result
            (λ refused. (refused.cause ≡ faults.NoMore) ↔ (256 ≤ connections is_open self.queued)) }
        ensures full { IfErr result
            (λ refused. (refused.cause ≡ faults.NoMore)
            ⊎ ((refused.cause ≡ faults.Full) × IsFullBy self inbox.now.capacity)) }
    {
        let mut queueing = self.queueing;
        if queueing.connections >= MOST_CONNECTIONS {
            let seat = EndedSeat { queueing };
            return Err(NotOpened {
                seat,
                opening,
                cause: Fault::NoMore,
            });
        }
        match queueing.queue(rt, inbox, Queued::Open(opening)) {
            Ok(()) => Ok(ReaderSeat { queueing }),
            Err(Queued::Open(opening)) => Err(NotOpened {
                seat: EndedSeat { queueing },
                opening,
                cause: Fault::Full,
            }),
            Err(_) => unreachable!(),
        }
    }

    /// A note of what this seat knows, which includes all that was queued.
    pub fn note(&mut self, inbox: &Inbox<M, O>) -> Note<M, O>
        requires { self.old.inbox ≡ inbox.now.name }
        ensures { (result ≡ self.old) × (self.new ≡ self.old) }
    {
        self.queueing.note(inbox)
    }

    /// Learns from another seat's note how much was taken.
    pub fn learn(&mut self, inbox: &Inbox<M, O>, note: Note<M, O>)
        requires { (self.old.inbox ≡ inbox.now.name) × (note.inbox ≡ inbox.now.name) }
        ensures { self.new ≡ told_of_taken self.old note }
    {
        self.queueing.learn(inbox, note);
    }

    /// A fact for the prover: acts of the crew's core lead to a line with this seat's lists, so
    /// every law of the core holds for it. The last mark is an end mark.
    pub fn reached(&self)
        ensures line { IsOfALine true false self.now.queued self.now.taken }
        ensures ended { has_ended self.now.queued ≡ true }
    {
        // No effect when it runs: it tells the prover what the type keeps.
        self.queueing.reached();
    }
}
