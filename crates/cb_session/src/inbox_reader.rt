ghost use Rattle.std.specs.Prelude.{◌≡◌, ◌++◌, ℕ, false, List, [], None, length, IfOk};
ghost use Rattle.cb_wire.specs.declared.item.Item.{Item};
ghost use Rattle.cb_wire.specs.Stream.{Stream};
ghost use Rattle.cb_session.specs.Putting.{seat_now};
ghost use Rattle.cb_session.specs.Reading.{EndedBehind, HasPut, Reads};

use crate::input::Input;
use crate::putting::{end, may_put, put_items, put_last};
use crate::read_from::ReadFrom;
use crate::reading::{READ_SIZE, TakesPieces, read_pieces};
use crate::seat::Seat;
use crate::stop::Stop;
use cb_base::{Fault, ReadEnd, Shared, Source};
use cb_wire::{Assembler, Fed, Item};
use std::alloc::Global;
use std::sync::Wait;

/// Why reading ended, and what was read.
#[derive(Drop)]
pub struct WasRead<S> {
    /// Why it ended.
    pub why: ReadEnd,
    /// What the source gave.
    pub bytes: ReadFrom<S>,
}

/// Reads a peer's stream and puts its items into the peer's inbox, until the stream ends or the
/// reader is stopped. Returns why it ended, and, for proofs alone, the bytes that were read.
///
/// - `Eof`: the source ended. All items were put, and the connection was ended.
/// - `Fault`: a read failed, the stream has a fault, or memory ran out. All items before that were
///   put, then `Broken` or `NoMemory` in the two latter cases, and the connection was ended. If
///   memory ran out for a piece of the stream, nothing of that piece was put.
/// - `Turns`: 2^40 reads were made, or the seat counts 2^48 - 1 puts. The connection isn't ended.
/// - `Stopped`: the stop answered true. The connection isn't ended.
///
/// It may wait, for bytes and for room.
pub fn read_loop<R: Wait, S: Source, T: Seat, P: Stop>(
    rt: &R,
    alloc: Global,
    reader: &mut S,
    seat: &mut T,
    stop: &mut P,
) -> WasRead<S>
    requires live { T.has_ended seat.old ≡ false }
    ensures reads { Reads (S.remaining reader.old) (S.remaining reader.new)
        (S.has_failed reader.old) (S.has_failed reader.new)
        (seat_now T.queued T.has_ended T.counted P.has_stopped seat.old stop.old)
        (seat_now T.queued T.has_ended T.counted P.has_stopped seat.new stop.new)
        result.bytes result.why }
    ensures seat { T.same_seat seat.old seat.new }
{
    let mut bytes = ReadFrom::nothing();
    match vec![in alloc; 0u8; READ_SIZE] {
        Ok(mut buffer) => {
            let mut assembler = Assembler::new(alloc);
            let mut inbox = InboxReader {
                rt,
                alloc,
                assembler: &mut assembler,
                seat,
                stop,
            };
            let why = inbox.read_all(reader, buffer.as_mut_slice(), &mut bytes);
            WasRead { why, bytes }
        }
        Err(_) => {
            let why = put_last(rt, seat, stop, Input::NoMemory);
            WasRead { why, bytes }
        }
    }
}

/// What puts the items of a peer's stream into the peer's inbox.
#[derive(Drop)]
struct InboxReader<'a, 'b, R, T, P> {
    rt: &'a R,
    alloc: Global,
    assembler: &'a mut Assembler,
    seat: &'a mut T,
    stop: &'b mut P,
}

impl<'a, 'b, R: Wait, T: Seat, P: Stop> InboxReader<'a, 'b, R, T, P> {
    /// Reads the peer's stream until it ends or the reader is stopped. Nothing was read before.
    /// Returns why reading ended.
    fn read_all<S: Source>(
        &mut self,
        reader: &mut S,
        buffer: &mut [u8],
        bytes: &mut ReadFrom<S>,
    ) -> ReadEnd
        requires buffer { length buffer.old ≡ 65536 }
        requires first { bytes.old ≡ [] }
        requires new { self.old.assembler.now ≡ record { rest = []; fault = None } }
        requires live { T.has_ended self.old.seat.now ≡ false }
        ensures ends { (self.new.seat.ghost_name ≡ self.old.seat.ghost_name)
            × (self.new.stop.ghost_name ≡ self.old.stop.ghost_name) }
        ensures seat { T.same_seat self.old.seat.now self.new.seat.now }
        ensures reads { Reads (S.remaining reader.old) (S.remaining reader.new)
            (S.has_failed reader.old) (S.has_failed reader.new)
            (seat_now T.queued T.has_ended T.counted P.has_stopped self.old.seat.now
            self.old.stop.now)
            (seat_now T.queued T.has_ended T.counted P.has_stopped self.new.seat.now
            self.new.stop.now)
            bytes.new result }
    {
        if let Err(halt) = may_put(self.seat, self.stop) {
            return halt;
        }
        match read_pieces(reader, buffer, bytes, self) {
            Ok(ReadEnd::Eof) => end(self.rt, self.seat, self.stop, ReadEnd::Eof),
            Ok(ReadEnd::Fault) => end(self.rt, self.seat, self.stop, ReadEnd::Fault),
            Ok(ReadEnd::Turns) => ReadEnd::Turns,
            Ok(ReadEnd::Stopped) => ReadEnd::Stopped,
            Err(end) => end,
        }
    }
}

impl<'a, 'b, R: Wait, T: Seat, P: Stop> TakesPieces for InboxReader<'a, 'b, R, T, P> {
    ghost is_ready = { λ now. (T.has_ended now.seat.now ≡ false)
        × (P.has_stopped now.stop.now ≡ false) × (now.assembler.now.fault ≡ None) };

    ghost took = { λ from bytes now. (now.seat.ghost_name ≡ from.seat.ghost_name)
        × (now.stop.ghost_name ≡ from.stop.ghost_name)
        × T.same_seat from.seat.now now.seat.now
        × HasPut bytes
        (seat_now T.queued T.has_ended T.counted P.has_stopped from.seat.now from.stop.now)
        (seat_now T.queued T.has_ended T.counted P.has_stopped now.seat.now now.stop.now)
        now.assembler.now };

    ghost ended = { λ from bytes end now. (now.seat.ghost_name ≡ from.seat.ghost_name)
        × (now.stop.ghost_name ≡ from.stop.ghost_name)
        × T.same_seat from.seat.now now.seat.now
        × EndedBehind bytes
        (seat_now T.queued T.has_ended T.counted P.has_stopped from.seat.now from.stop.now)
        (seat_now T.queued T.has_ended T.counted P.has_stopped now.seat.now now.stop.now)
        end };

    /// Puts the items that are complete now.
    fn take(&mut self, piece: &[u8]) -> Result<(), ReadEnd> {
        let Ok(heard) = hear(self.alloc, self.assembler, piece) else {
            return Err(put_last(self.rt, self.seat, self.stop, Input::NoMemory));
        };
        put_items(self.rt, self.seat, self.stop, heard.items)?;
        match heard.fault {
            None => may_put(self.seat, self.stop),
            Some(why) => Err(put_last(self.rt, self.seat, self.stop, Input::Broken(why))),
        }
    }
}

/// What a piece of the stream completes: items, and the fault that ends the stream if it has one.
#[derive(Drop)]
struct HeardPiece {
    items: Vec<Shared<Item>>,
    fault: Option<Fault>,
}

/// Feeds a piece to the assembler and shares the items that it completes. Fails only with
/// `Fault::Memory`; the items of the piece are then lost.
fn hear(alloc: Global, assembler: &mut Assembler, piece: &[u8]) -> Result<HeardPiece, Fault>
    ensures stream { IfOk result (λ heard. (bytes : List ℕ) (items : List Item) →
        Stream bytes items assembler.old.rest assembler.old.fault →
        Stream (bytes ++ piece.now) (items ++ heard.items.items)
        assembler.new.rest assembler.new.fault) }
    ensures fault { IfOk result (λ heard. heard.fault ≡ assembler.new.fault) }
{
    let Fed { items, fault } = assembler.feed(piece)?;
    let items = share(alloc, items)?;
    Ok(HeardPiece { items, fault })
}

/// Moves items to the heap, to be shared. Fails only with `Fault::Memory`.
fn share(alloc: Global, items: Vec<Item>) -> Result<Vec<Shared<Item>>, Fault>
    ensures { IfOk result (λ shared. shared.items ≡ items.items) }
{
    let mut shared = Vec::with_capacity(alloc, items.len())?;
    for item in items {
        shared.push(Shared::new(alloc, item)?)?;
    }
    Ok(shared)
}
