//! The rule that a crew's ring keeps: each desk waits in the ring or one hand holds it. While the
//! crew runs, the desks move by acts of the crew's core. All of it is for the prover; only the
//! queue exists at run time.
ghost use Rattle.std.specs.Prelude.{◌≡◌, ℕ, ◌+◌, ◌<◌, length, map};
ghost use Rattle.std.specs.List.{sum_by, range_with_len};
ghost use Rattle.atomic_table.specs.Seated.{TableId};
ghost use Rattle.cb_crew.specs.Ring.{IsOfCrew, HoldsInTurn, peers_of};
ghost use Rattle.cb_crew.specs.RingRule.{IsRingOf, first_view, idle_view, grown_view, running_view, hiring_view, hired_view, joined_view, made_view, claimed_view, given_view, kept_view};
ghost use Rattle.cb_crew.specs.Hand.{state_of};

use crossbeam_queue::protocol::{Join, Lesson, Outcome, Protocol, Split};
use crossbeam_queue::{Pass, RuledArrayQueue};
use std::marker::{Model, PhantomData};

/// What travels through a ring: a desk.
pub trait Travels {
    ghost use Rattle.cb_crew.specs.Ring.{Shown};

    /// What the ring's rule sees of it.
    ghost shown: { Self → Shown Self };
}

/// What a hand knows. It is for the prover only: no value of it is ever made.
pub struct Knowledge<D> {
    of: PhantomData<D>,
}

impl<D> Model for Knowledge<D> {
    ghost use Rattle.cb_crew.specs.RingRule.{HandView, idle_view};

    ghost Value = { HandView D };

    ghost view = { λ _. idle_view };
}

/// The queue behind a ring.
pub type RingQueue<D> = RuledArrayQueue<D, Knowledge<D>, InTurn>;

/// What one hand of the queue knows. It has no bytes.
pub type HandPass<D> = Pass<D, Knowledge<D>>;

/// The rule of the queue: see `IsRing` in specs/RingRule.antt.
pub struct InTurn;

impl<D: Travels> Protocol<D, Knowledge<D>> for InTurn {
    ghost holds = { IsRingOf D.shown };

    ghost first = { first_view };
}

/// The one hand of a new crew stands for one more handler.
pub struct Grows;

impl<D: Travels> Split<Knowledge<D>> for Grows {
    ghost left = { grown_view };

    ghost right = { λ v. idle_view };
}

/// All desks are in the ring, and the crew runs from now on.
pub struct Starts;

impl<D: Travels> Split<Knowledge<D>> for Starts {
    ghost left = { running_view };

    ghost right = { λ v. idle_view };
}

/// A new hand takes over one of the hand's handlers.
pub struct Hires;

impl<D: Travels> Split<Knowledge<D>> for Hires {
    ghost left = { hiring_view };

    ghost right = { hired_view };
}

/// A hand takes over all handlers of another hand.
pub struct Joins;

impl<D: Travels> Join<Knowledge<D>> for Joins {
    ghost both = { joined_view };

    ghost spent = { idle_view };
}

/// A push of a new desk. The ring has as many desks as the crew has names.
pub struct Makes;

impl<D: Travels> Outcome<D, Knowledge<D>> for Makes {
    ghost then = { λ v desk w. w ≡ made_view v (D.shown desk) };
}

impl<D: Travels> Lesson<D, Knowledge<D>> for Makes {
    ghost fact = { λ v desks. length desks ≡ length v.crew.names };
}

/// A pop by a hand that is going to serve the desk. If the ring is empty, there are fewer desks
/// than handlers.
pub struct Claims;

impl<D: Travels> Outcome<D, Knowledge<D>> for Claims {
    ghost then = { λ v desk w. (w ≡ claimed_view v (D.shown desk))
        × IsOfCrew v.crew.names (D.shown desk) };
}

impl<D: Travels> Lesson<D, Knowledge<D>> for Claims {
    ghost fact = { λ v desks. length v.crew.names < length desks + v.crew.handlers };
}

/// A push of the desk that the hand holds. The ring has room for it.
pub struct Gives;

impl<D: Travels> Outcome<D, Knowledge<D>> for Gives {
    ghost then = { λ v desk w. w ≡ given_view v (D.shown desk) };
}

impl<D: Travels> Lesson<D, Knowledge<D>> for Gives {
    ghost fact = { λ v desks. length desks < length v.crew.names };
}

/// A pop by the last hand. The desks that wait and those that it holds are all desks.
pub struct Keeps;

impl<D: Travels> Outcome<D, Knowledge<D>> for Keeps {
    ghost then = { λ v desk w. (w ≡ kept_view v (D.shown desk))
        × IsOfCrew v.crew.names (D.shown desk) × (length v.held < length v.crew.names) };
}

impl<D: Travels> Lesson<D, Knowledge<D>> for Keeps {
    ghost fact = { λ v desks. (weight : ℕ → ℕ)
        → sum_by weight (peers_of (map D.shown desks)) + sum_by weight (peers_of v.held)
        ≡ sum_by weight (range_with_len 0 (length v.crew.names)) };
}

/// The hand holds what some handler holds in a state to which acts of the crew's core lead.
pub struct Places;

impl<D: Travels> Lesson<D, Knowledge<D>> for Places {
    ghost fact = { λ v desks. (ring : TableId) → HoldsInTurn (state_of ring v) };
}
