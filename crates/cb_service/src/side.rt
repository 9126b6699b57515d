ghost use Rattle.std.specs.Prelude.{◌≡◌, ◌<◌, ◌^◌, length};
ghost use Rattle.cb_crew.specs.declared.reader_side.ReaderSide.TheVariants.{Ended, Live};
ghost use Rattle.cb_crew.specs.Crew.{HasPlace};
ghost use Rattle.cb_service.specs.Service.{queued_by};

use cb_crew::{EndedSeat, Opening, ReaderSeat, ReaderSide};
use std::marker::Model;

/// A reader's side of its peer's inbox, which knows how many marks it queued. Contracts see the
/// side itself.
pub struct CountedSide<M: Drop, O: Opening + Drop> {
    side: ReaderSide<M, O>,
    count: u64,
}

impl<M: Drop, O: Opening + Drop> Model for CountedSide<M, O> {
    ghost use Rattle.std.specs.Prelude.{◌≡◌, ◌<◌, ◌^◌, length};
    ghost use Rattle.cb_crew.specs.declared.reader_side.ReaderSide.{ReaderSide};
    ghost use Rattle.cb_service.specs.Service.{queued_by};

    ghost Value = { ReaderSide M O };

    ghost view = { λ s. s.side };

    ghost invariant = { λ s. (s.count ≡ length (queued_by s.side)) × (s.count < 2 ^ 48) };
}

impl<M: Drop, O: Opening + Drop> Drop for CountedSide<M, O> {
    fn drop(self) {
        let CountedSide { side: _, count: _ } = self;
    }
}

impl<M: Drop, O: Opening + Drop> CountedSide<M, O> {
    /// The side of a connection that lasts.
    pub fn live(seat: ReaderSeat<M, O>) -> CountedSide<M, O>
        requires { length seat.queued < 2 ^ 48 }
        ensures { result ≡ Live seat }
    {
        let count = seat.count();
        CountedSide {
            side: ReaderSide::Live(seat),
            count,
        }
    }

    /// The side after an end mark, with which so many marks were queued.
    pub fn ended(seat: EndedSeat<M, O>, count: u64) -> CountedSide<M, O>
        requires { (count ≡ length seat.queued) × (count < 2 ^ 48) }
        ensures { result ≡ Ended seat }
    {
        CountedSide {
            side: ReaderSide::Ended(seat),
            count,
        }
    }

    /// How many marks were queued, over all connections.
    pub fn count(&self) -> u64
        ensures value { result ≡ length (queued_by self.now) }
        ensures few { result < 2 ^ 48 }
    {
        self.count
    }

    /// The side itself.
    pub fn into_side(self) -> ReaderSide<M, O>
        ensures side { result ≡ self }
        ensures place { HasPlace result }
        ensures few { length (queued_by result) < 2 ^ 48 }
    {
        let CountedSide { side, count: _ } = self;
        side
    }
}
