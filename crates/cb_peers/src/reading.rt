ghost use Rattle.std.specs.Prelude.{◌≡◌, ◌<◌, ◌^◌, length};
ghost use Rattle.cb_crew.specs.Crew.{inbox_of};
ghost use Rattle.cb_service.specs.Service.{queued_by};
ghost use Rattle.cb_peers.specs.Reading.{HasRead};

use crate::backlogs::Backlogs;
use crate::inbox_seat::InboxSeat;
use crate::outbox::Outbox;
use crate::stopping::ConnectionStop;
use cb_crew::{Inbox, Opening, ReaderSeat, ReaderSide};
use cb_service::{CountedSide, Signals, end};
use cb_session::{Input, ReadEnd, ReadFrom, Seat, Source, Stop, WasRead, read_loop};
use cb_work::ConnectionStatus;
use std::alloc::Global;
use std::sync::Wait;

/// How a reader left a connection, whose source is an `S`.
#[derive(Drop)]
pub struct Left<O: Opening + Drop, S> {
    /// The side of the inbox.
    pub side: CountedSide<Input, O>,
    /// Why reading ended.
    pub why: ReadEnd,
    /// What the source gave, for proofs alone.
    pub bytes: ReadFrom<S>,
}

/// Reads a connection, and queues what its stream spells in the peer's inbox. Reading ends at the
/// stream's end or fault, or once it is stopped. Then the connection is ended.
///
/// The side that comes back is live only if all threads are told to return, or if it queued 2^40
/// marks.
///
/// It may wait, for bytes and for room.
pub fn read_connection<R: Wait, S: Source, P: Stop, O: Opening + Drop>(
    rt: &R,
    alloc: Global,
    source: &mut S,
    stop: &mut P,
    status: &ConnectionStatus,
    outbox: &Outbox,
    inbox: &Inbox<Input, O>,
    seat: ReaderSeat<Input, O>,
    signals: &Signals,
    backlogs: &Backlogs,
) -> Left<O, S>
    requires inbox { seat.inbox ≡ inbox.now.name }
    requires place { length seat.queued < 2 ^ 48 }
    ensures inbox { inbox_of result.side ≡ inbox.now.name }
    ensures reads { HasRead (S.remaining source.old) (S.remaining source.new)
        (S.has_failed source.old) (S.has_failed source.new) (P.has_stopped stop.old)
        (P.has_stopped stop.new) result.bytes result.why seat.queued (queued_by result.side) }
{
    let mut seat = InboxSeat::new(inbox, seat, status, outbox, signals, backlogs);
    let WasRead { why, bytes } = read_loop(rt, alloc, source, &mut seat, stop);
    let count = seat.count();
    match seat.into_side() {
        ReaderSide::Ended(ended) => {
            // No effect when it runs: it tells the prover that the last mark is an end mark.
            ended.reached();
            Left {
                side: CountedSide::ended(ended, count),
                why,
                bytes,
            }
        }
        ReaderSide::Live(seat) => Left {
            side: end(rt, inbox, CountedSide::live(seat), signals),
            why,
            bytes,
        },
    }
}
