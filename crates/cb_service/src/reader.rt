ghost use Rattle.std.specs.Prelude.{◌≡◌, ◌<◌, ◌^◌, length};
ghost use Rattle.cb_crew.specs.Crew.{inbox_of};
ghost use Rattle.cb_service.specs.Service.{queued_by};

use crate::side::CountedSide;
use crate::signals::Signals;
use cb_crew::{Inbox, Opening, ReaderSeat};
use std::sync::Wait;

/// What a reader's thread keeps of what it read, over items `M` and what an open mark brings, `O`.
/// It may be for proofs alone.
pub trait Account<M: Drop, O: Opening + Drop>: Drop {
    ghost use Rattle.std.specs.Prelude.{List};
    ghost use Rattle.cb_crew.specs.declared.queued.Queued.{Queued};

    /// It tells how what lay queued before, the first list, came to the second by what was read.
    ghost tells: { Self → List (Queued M O) → List (Queued M O) → Type 0 };
}

/// The account of a reader that tells nothing of what it queues.
#[derive(Drop)]
pub struct Untold;

impl<M: Drop, O: Opening + Drop> Account<M, O> for Untold {
    ghost tells = { λ account before after. Unit {0} };
}

/// What a reader's thread does, over items `M` and what an open mark brings, `O`: for a crew of
/// works `W` these are `W::Item` and `Fresh<W>`. An impl is for every `O`. Its account is a `K`.
pub trait Reader<M: Drop, O: Opening + Drop, K: Account<M, O>>: Drop {
    ghost use Rattle.std.specs.Prelude.{IfSome};
    ghost use Rattle.cb_crew.specs.Crew.{inbox_of};
    ghost use Rattle.cb_service.specs.Service.{HoldsSeat, queued_by};

    /// Takes the seat, which is there and of this inbox, and queues items until nothing more comes.
    /// Then leaves its side of the inbox, and its account. While the inbox is full it waits
    /// (`Signals::wait_for_room`). It returns early once the signals tell it to stop.
    fn read<R: Wait>(
        self,
        rt: &R,
        inbox: &Inbox<M, O>,
        seat: &mut Option<ReaderSeat<M, O>>,
        signals: &Signals,
    ) -> (CountedSide<M, O>, K)
        requires seat { HoldsSeat inbox.now.name seat.old }
        ensures inbox { inbox_of result.0 ≡ inbox.now.name }
        ensures account { IfSome seat.old
            (λ first. K.tells result.1 first.queued (queued_by result.0)) };
}

/// Lets a reader read from this seat on.
pub(crate) fn read_from<M: Drop, O: Opening + Drop, K: Account<M, O>, D: Reader<M, O, K>, R: Wait>(
    rt: &R,
    reader: D,
    inbox: &Inbox<M, O>,
    seat: ReaderSeat<M, O>,
    signals: &Signals,
) -> (CountedSide<M, O>, K)
    requires inbox { seat.inbox ≡ inbox.now.name }
    requires place { length seat.queued < 2 ^ 48 }
    ensures inbox { inbox_of result.0 ≡ inbox.now.name }
    ensures account { K.tells result.1 seat.queued (queued_by result.0) }
{
    let mut held = Some(seat);
    reader.read(rt, inbox, &mut held, signals)
}
