ghost use Rattle.std.specs.Prelude.{◌≡◌};

use crate::queued::{Opening, Queued};
use crate::rule::LinePass;
use std::marker::Model;

/// What a seat tells another seat of the same inbox: which marks were queued and taken, as far as
/// it knows. It exists for the prover only: it has no bytes, and no right to queue or to take.
#[derive(Drop)]
pub struct Note<M: Drop, O: Opening + Drop> {
    pub(crate) pass: LinePass<M, O>,
}

impl<M: Drop, O: Opening + Drop> Model for Note<M, O> {
    ghost use Rattle.std.specs.Prelude.{false};
    ghost use Rattle.cb_crew.specs.declared.queued.Queued.{Queued};
    ghost use Rattle.cb_crew.specs.Seat.{SeatState, seat_state, IsSeat};

    ghost Value = { SeatState (Queued M O) };

    ghost view = { λ a. seat_state a.pass };

    ghost invariant = { λ a. IsSeat false false a.pass };
}
