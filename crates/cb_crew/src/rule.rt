//! The rule that an inbox's queue keeps: what waits, what was queued and what was taken form a line
//! to which acts of the crew's core lead. Nothing in this file exists at run time but the queue.
ghost use Rattle.std.specs.Prelude.{◌≡◌, ◌+◌, ◌≤◌, ◌++◌, ◌∷◌, length};
ghost use Rattle.cb_crew.specs.Laws.{IsBeginning};
ghost use Rattle.cb_crew.specs.Queued.{IsFresh};
ghost use Rattle.cb_crew.specs.Rule.{IsInbox, IsOfALine, first_view, without_taking, without_reading, informed, spent_view, queued_view, taken_view};

use crate::queued::{Opening, Queued};
use crossbeam_queue::protocol::{Join, Lesson, Outcome, Protocol, Split};
use crossbeam_queue::{Pass, RuledArrayQueue};
use std::collections::LinkedList;

/// What a seat knows. It is for the prover only: no value of it is ever made.
pub struct SeatView<M, O> {
    /// The seat may queue. Its first list is then all that was queued, else a prefix of it.
    pub reads: bool,
    /// The seat may take. Its second list is then all that was taken, else a prefix of it.
    pub takes: bool,
    pub queued: LinkedList<Queued<M, O>>,
    pub taken: LinkedList<Queued<M, O>>,
}

/// The queue behind an inbox.
pub type InboxQueue<M, O> = RuledArrayQueue<Queued<M, O>, SeatView<M, O>, InOrder>;

/// What one seat of the queue knows. It has no bytes.
pub type LinePass<M, O> = Pass<Queued<M, O>, SeatView<M, O>>;

/// The rule of the queue: see `IsInbox` in specs/Rule.antt.
pub struct InOrder;

impl<M, O: Opening> Protocol<Queued<M, O>, SeatView<M, O>> for InOrder {
    ghost holds = { IsInbox O.fresh };

    ghost first = { first_view };
}

/// A push by the reader adds the mark to its first list. If the queue is full, a full capacity of
/// the queued marks isn't known to the reader as taken.
pub struct Queues;

impl<M, O> Outcome<Queued<M, O>, SeatView<M, O>> for Queues {
    ghost then = { λ v mark w. w ≡ queued_view v mark };
}

impl<M, O> Lesson<Queued<M, O>, SeatView<M, O>> for Queues {
    ghost fact = { λ v items. length v.taken + length items ≤ length v.queued };
}

/// A pop by the taker adds the mark to its second list. If the queue is empty, all that the taker
/// was told was queued has been taken.
pub struct Takes;

impl<M, O: Opening> Outcome<Queued<M, O>, SeatView<M, O>> for Takes {
    ghost then = { λ v mark w. (w ≡ taken_view v mark) × IsFresh O.fresh mark
        × IsOfALine w.reads w.takes w.queued w.taken };
}

impl<M, O> Lesson<Queued<M, O>, SeatView<M, O>> for Takes {
    ghost fact = { λ v items. IsBeginning v.queued (v.taken ++ items) };
}

/// A seat is split in two. The first keeps the right to queue, the second gets the right to take.
/// Both know what the seat knew.
pub struct Halves;

impl<M, O> Split<SeatView<M, O>> for Halves {
    ghost left = { without_taking };

    ghost right = { without_reading };
}

/// A seat learns what another one knows. The other one is then spent.
pub struct Learns;

impl<M, O> Join<SeatView<M, O>> for Learns {
    ghost both = { informed };

    ghost spent = { spent_view };
}

/// What a seat knows is part of one line to which acts lead.
pub struct Sights;

impl<M, O> Lesson<Queued<M, O>, SeatView<M, O>> for Sights {
    ghost fact = { λ v items. IsOfALine v.reads v.takes v.queued v.taken };
}
