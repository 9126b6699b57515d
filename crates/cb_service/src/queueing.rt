ghost use Rattle.std.specs.Prelude.{◌≡◌, ◌<◌, ◌^◌, length, IfOk, IfErr, OnOk, MatchBool};
ghost use Rattle.cb_crew.specs.declared.queued.Queued.TheVariants.{Item, End, Open};
ghost use Rattle.cb_crew.specs.Seat.{IsFullBy, queued_more};
ghost use Rattle.cb_crew.specs.Crew.{inbox_of};
ghost use Rattle.cb_service.specs.Service.{EndsOrStays, HasEnded, ended_of};

use crate::side::CountedSide;
use crate::signals::Signals;
use cb_base::Fault;
use cb_crew::{EndedSeat, Full, Inbox, Opening, ReaderSeat, ReaderSide};
use std::sync::Wait;

/// With this many marks queued, `put`, `end` and `open` queue no more. An inbox takes fewer than
/// 2^48 marks over all connections.
pub const MOST_QUEUED: u64 = 1 << 40;

/// Queues an item if the inbox has room, and wakes a handler that sleeps. It doesn't wait for room.
///
/// Fails only if the inbox was full at some moment of the call. The item then comes back and the
/// seat is unchanged.
pub fn offer<M: Drop, O: Opening + Drop, R: Wait>(
    rt: &R,
    inbox: &Inbox<M, O>,
    seat: &mut ReaderSeat<M, O>,
    signals: &Signals,
    item: M,
) -> Result<(), Full<M>>
    requires inbox { seat.old.inbox ≡ inbox.now.name }
    requires count { length seat.old.queued < 2 ^ 48 }
    ensures ok { OnOk result (seat.new ≡ queued_more seat.old (Item item)) }
    ensures full { IfErr result
        (λ full. (full.item ≡ item) × (seat.new ≡ seat.old)
        × IsFullBy seat.old inbox.now.capacity) }
{
    seat.put(rt, inbox, item)?;
    signals.ring();
    Ok(())
}

/// Ends the connection if the inbox has room, and wakes a handler that sleeps. It doesn't wait for
/// room.
///
/// Fails only if the inbox was full at some moment of the call. The seat then comes back unchanged.
pub fn offer_end<M: Drop, O: Opening + Drop, R: Wait>(
    rt: &R,
    inbox: &Inbox<M, O>,
    seat: ReaderSeat<M, O>,
    signals: &Signals,
) -> Result<EndedSeat<M, O>, ReaderSeat<M, O>>
    requires inbox { seat.inbox ≡ inbox.now.name }
    requires count { length seat.queued < 2 ^ 48 }
    ensures ok { IfOk result (λ ended. ended ≡ queued_more seat End) }
    ensures full { IfErr result (λ back. (back ≡ seat) × IsFullBy seat inbox.now.capacity) }
{
    let ended = seat.end(rt, inbox)?;
    signals.ring();
    Ok(ended)
}

/// Queues an item, and waits while the inbox is full. Returns false if the threads are told to
/// return, or if the seat has queued 2^40 marks. The seat is then unchanged, and the item is
/// dropped.
pub fn put<M: Drop, O: Opening + Drop, R: Wait>(
    rt: &R,
    inbox: &Inbox<M, O>,
    seat: &mut ReaderSeat<M, O>,
    signals: &Signals,
    item: M,
) -> bool
    requires inbox { seat.old.inbox ≡ inbox.now.name }
    ensures { MatchBool result
        ((seat.new ≡ queued_more seat.old (Item item)) × (length seat.old.queued < 2 ^ 40))
        (seat.new ≡ seat.old) }
{
    if seat.count() >= MOST_QUEUED {
        return false;
    }
    let mut item = item;
    for _ in rt.forever() {
        match offer(rt, inbox, seat, signals, item) {
            Ok(()) => return true,
            Err(full) => item = full.item,
        }
        if signals.is_stopped() {
            return false;
        }
        signals.wait_for_room(rt, inbox.peer());
    }
    unreachable!()
}

/// Ends the connection, and waits while the inbox is full. The side is unchanged if the connection
/// was ended already, if the threads are told to return, or if the side has queued 2^40 marks.
pub fn end<M: Drop, O: Opening + Drop, R: Wait>(
    rt: &R,
    inbox: &Inbox<M, O>,
    side: CountedSide<M, O>,
    signals: &Signals,
) -> CountedSide<M, O>
    requires inbox { inbox_of side ≡ inbox.now.name }
    ensures end { HasEnded side result }
    ensures inbox { inbox_of result ≡ inbox.now.name }
{
    let queued = side.count();
    if queued >= MOST_QUEUED {
        return side;
    }
    let mut seat = match side.into_side() {
        ReaderSide::Live(seat) => seat,
        ReaderSide::Ended(ended) => return CountedSide::ended(ended, queued),
    };
    for _ in rt.forever() {
        match offer_end(rt, inbox, seat, signals) {
            Ok(ended) => return CountedSide::ended(ended, queued + 1),
            Err(back) => seat = back,
        }
        if signals.is_stopped() {
            return CountedSide::live(seat);
        }
        signals.wait_for_room(rt, inbox.peer());
    }
    unreachable!()
}

/// A connection that wasn't opened.
#[derive(Drop)]
pub struct Unopened<M: Drop, O: Opening + Drop> {
    /// The side: unchanged, or after the end of its connection.
    pub side: CountedSide<M, O>,
    /// What was to serve the connection.
    pub opening: O,
    /// `Fault::NoMore` if no further one can be opened, else `Fault::Full`.
    pub cause: Fault,
}

/// Opens the next connection if the inbox has room, and wakes a handler that sleeps. The one before
/// is ended first, if it lasts. It doesn't wait for room.
///
/// Fails with `Fault::NoMore` if the peer has had 256 connections or the side has queued 2^40
/// marks, and with `Fault::Full` if the inbox was full at some moment of the call. The connection
/// before may be ended then.
pub fn offer_open<M: Drop, O: Opening + Drop, R: Wait>(
    rt: &R,
    inbox: &Inbox<M, O>,
    side: CountedSide<M, O>,
    signals: &Signals,
    opening: O,
) -> Result<ReaderSeat<M, O>, Unopened<M, O>>
    requires inbox { inbox_of side ≡ inbox.now.name }
    requires fresh { O.fresh opening }
    ensures opened { IfOk result (λ seat. seat ≡ queued_more (ended_of side) (Open opening)) }
    ensures place { IfOk result
        (λ seat. (seat.inbox ≡ inbox.now.name) × (length seat.queued < 2 ^ 48)) }
    ensures side { IfErr result (λ refused. EndsOrStays side refused.side
        × (inbox_of refused.side ≡ inbox.now.name)) }
    ensures back { IfErr result (λ refused. refused.opening ≡ opening) }
{
    let count = side.count();
    if count >= MOST_QUEUED {
        return Err(Unopened {
            side,
            opening,
            cause: Fault::NoMore,
        });
    }
    let (ended, count) = match side.into_side() {
        ReaderSide::Ended(ended) => (ended, count),
        ReaderSide::Live(seat) => match offer_end(rt, inbox, seat, signals) {
            Ok(ended) => (ended, count + 1),
            Err(seat) => {
                return Err(Unopened {
                    side: CountedSide::live(seat),
                    opening,
                    cause: Fault::Full,
                });
            }
        },
    };
    match ended.open(rt, inbox, opening) {
        Ok(seat) => {
            signals.ring();
            Ok(seat)
        }
        Err(refused) => Err(Unopened {
            side: CountedSide::ended(refused.seat, count),
            opening: refused.opening,
            cause: refused.cause,
        }),
    }
}

/// Opens the next connection, and waits while the inbox is full. The one before is ended first, if
/// it lasts.
///
/// Fails if the peer has had 256 connections, if the side has queued 2^40 marks, or if the threads
/// are told to return. The side then comes back, and `opening` is dropped. The connection before
/// may be ended then.
pub fn open<M: Drop, O: Opening + Drop, R: Wait>(
    rt: &R,
    inbox: &Inbox<M, O>,
    side: CountedSide<M, O>,
    signals: &Signals,
    opening: O,
) -> Result<ReaderSeat<M, O>, CountedSide<M, O>>
    requires inbox { inbox_of side ≡ inbox.now.name }
    requires fresh { O.fresh opening }
    ensures opened { IfOk result (λ seat. seat ≡ queued_more (ended_of side) (Open opening)) }
    ensures place { IfOk result
        (λ seat. (seat.inbox ≡ inbox.now.name) × (length seat.queued < 2 ^ 48)) }
    ensures side { IfErr result
        (λ back. EndsOrStays side back × (inbox_of back ≡ inbox.now.name)) }
{
    let mut side = side;
    let mut opening = opening;
    for _ in rt.forever() {
        match offer_open(rt, inbox, side, signals, opening) {
            Ok(seat) => return Ok(seat),
            Err(refused) => {
                side = refused.side;
                opening = refused.opening;
                if refused.cause == Fault::NoMore {
                    return Err(side);
                }
            }
        }
        if signals.is_stopped() {
            return Err(side);
        }
        signals.wait_for_room(rt, inbox.peer());
    }
    unreachable!()
}
