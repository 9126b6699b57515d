ghost use Rattle.std.specs.Prelude.{◌≡◌, ◌<◌, ◌-◌, ◌^◌, false, [], ◌∷◌, OnOk, IfErr};
ghost use Rattle.cb_session.specs.Input.{said};
ghost use Rattle.cb_session.specs.Putting.{Closes, HaltsSo, PutAll, PutSome, seat_now};

use crate::input::Input;
use crate::seat::Seat;
use crate::stop::Stop;
use cb_base::{ReadEnd, Shared};
use cb_wire::Item;
use std::sync::Wait;

/// A seat that counts so many puts and ends takes no more.
const MOST_PUTS: u64 = (1 << 48) - 1;

/// Whether something may be put now. The error tells why not: the reader is to stop, or the seat
/// counts 2^48 - 1 puts.
pub(crate) fn may_put<T: Seat, P: Stop>(seat: &T, stop: &mut P) -> Result<(), ReadEnd>
    ensures place { OnOk result (T.counted seat.now < 2 ^ 48 - 1) }
    ensures going { OnOk result (P.has_stopped stop.new ≡ false) }
    ensures halted { IfErr result (λ end. HaltsSo end
        (seat_now T.queued T.has_ended T.counted P.has_stopped seat.now stop.new)) }
{
    if stop.stopped() {
        return Err(ReadEnd::Stopped);
    }
    if seat.count() >= MOST_PUTS {
        return Err(ReadEnd::Turns);
    }
    Ok(())
}

/// Puts an input, and tries again each time the seat gives it back. The error tells why nothing
/// more can be put.
fn put<R: Wait, T: Seat, P: Stop>(
    rt: &R,
    seat: &mut T,
    stop: &mut P,
    input: Input,
) -> Result<(), ReadEnd>
    requires live { T.has_ended seat.old ≡ false }
    ensures put { OnOk result (PutAll
        (seat_now T.queued T.has_ended T.counted P.has_stopped seat.old stop.old)
        (seat_now T.queued T.has_ended T.counted P.has_stopped seat.new stop.new)
        (input ∷ [])) }
    ensures going { OnOk result (P.has_stopped stop.new ≡ false) }
    ensures halted { IfErr result (λ end. PutSome
        (seat_now T.queued T.has_ended T.counted P.has_stopped seat.old stop.old)
        (seat_now T.queued T.has_ended T.counted P.has_stopped seat.new stop.new)
        (input ∷ []) end) }
    ensures seat { T.same_seat seat.old seat.new }
{
    let mut input = input;
    for _ in rt.forever() {
        may_put(seat, stop)?;
        match seat.put(rt, input) {
            Ok(()) => return Ok(()),
            Err(back) => input = back,
        }
    }
    unreachable!()
}

/// Puts items, one after another. The error tells why no more can be put.
pub(crate) fn put_items<R: Wait, T: Seat, P: Stop>(
    rt: &R,
    seat: &mut T,
    stop: &mut P,
    items: Vec<Shared<Item>>,
) -> Result<(), ReadEnd>
    requires live { T.has_ended seat.old ≡ false }
    ensures put { OnOk result (PutAll
        (seat_now T.queued T.has_ended T.counted P.has_stopped seat.old stop.old)
        (seat_now T.queued T.has_ended T.counted P.has_stopped seat.new stop.new)
        (said items.items)) }
    ensures halted { IfErr result (λ end. PutSome
        (seat_now T.queued T.has_ended T.counted P.has_stopped seat.old stop.old)
        (seat_now T.queued T.has_ended T.counted P.has_stopped seat.new stop.new)
        (said items.items) end) }
    ensures seat { T.same_seat seat.old seat.new }
{
    for item in items {
        put(rt, seat, stop, Input::Said(item))?;
    }
    Ok(())
}

/// Ends the connection, and tries again each time the seat has no room. Returns `why`, or why the
/// connection can't be ended.
pub(crate) fn end<R: Wait, T: Seat, P: Stop>(
    rt: &R,
    seat: &mut T,
    stop: &mut P,
    why: ReadEnd,
) -> ReadEnd
    requires live { T.has_ended seat.old ≡ false }
    ensures closed { Closes
        (seat_now T.queued T.has_ended T.counted P.has_stopped seat.old stop.old)
        (seat_now T.queued T.has_ended T.counted P.has_stopped seat.new stop.new)
        [] why result }
    ensures seat { T.same_seat seat.old seat.new }
{
    for _ in rt.forever() {
        if let Err(halt) = may_put(seat, stop) {
            return halt;
        }
        if seat.end(rt) {
            return why;
        }
    }
    unreachable!()
}

/// Puts the last input and ends the connection. Returns `ReadEnd::Fault`, or why that can't be
/// done.
pub(crate) fn put_last<R: Wait, T: Seat, P: Stop>(
    rt: &R,
    seat: &mut T,
    stop: &mut P,
    input: Input,
) -> ReadEnd
    requires live { T.has_ended seat.old ≡ false }
    ensures closed { Closes
        (seat_now T.queued T.has_ended T.counted P.has_stopped seat.old stop.old)
        (seat_now T.queued T.has_ended T.counted P.has_stopped seat.new stop.new)
        (input ∷ []) ReadEnd.Fault result }
    ensures seat { T.same_seat seat.old seat.new }
{
    match put(rt, seat, stop, input) {
        Ok(()) => end(rt, seat, stop, ReadEnd::Fault),
        Err(halt) => halt,
    }
}
