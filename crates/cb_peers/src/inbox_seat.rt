ghost use Rattle.std.specs.Prelude.{◌≡◌, ◌<◌, ◌-◌, ◌^◌, true, false, [], ◌∷◌, length, Some, IfErr, OnErr, OnOk};
ghost use Rattle.cb_crew.specs.declared.reader_side.ReaderSide.TheVariants.{Live};
ghost use Rattle.cb_crew.specs.Crew.{inbox_of};
ghost use Rattle.cb_service.specs.Service.{queued_by};
ghost use Rattle.cb_peers.specs.Seat.{HasTaken, before_in, is_ended, marks_of, put_in};

use crate::backlogs::Backlogs;
use crate::outbox::Outbox;
use cb_crew::{Inbox, Opening, ReaderSeat, ReaderSide};
use cb_service::{Signals, offer, offer_end};
use cb_session::{Input, Seat};
use cb_wire::{Item, Message};
use cb_work::ConnectionStatus;
use std::marker::Model;
use std::sync::Wait;

/// How many payload bytes of one peer may lie queued. Only a single input that is larger by itself
/// may be queued beyond that.
pub const MOST_BYTES: u64 = 8_000_000;

/// What a reader waits for before it queues an input.
#[derive(Clone, Copy)]
enum Lack {
    /// That handlers take what lies queued.
    Handlers,
    /// That the socket takes what waits in the outbox.
    Socket,
}

/// The reader's seat of a peer's inbox during one connection.
///
/// It puts an input only if at most `MOST_BYTES` payload bytes of the peer lie queued then, this
/// input's included, or nothing else lies queued. Until then it sleeps, as it does while the inbox
/// is full. Handlers wake it after each turn that took something from the inbox. It gives an input
/// back if the connection or all threads are told to stop.
///
/// A request is put only if nothing else of the peer lies queued and the connection's outbox isn't
/// crowded. So a peer that reads gets all that it asks for, however fast it asks.
///
/// Contracts tell what it queues and in which order. They don't tell what it waits for, nor how
/// many bytes lie queued: other threads change that.
#[derive(Drop)]
pub struct InboxSeat<'a, O: Opening + Drop> {
    inbox: &'a Inbox<Input, O>,
    signals: &'a Signals,
    status: &'a ConnectionStatus,
    outbox: &'a Outbox,
    backlogs: &'a Backlogs,
    /// The side of the inbox. It is always there between two calls.
    side: Option<ReaderSide<Input, O>>,
    /// How many marks the side queued, over all connections.
    count: u64,
    /// How many marks were queued before those of this connection.
    first: u64,
}

impl<'a, O: Opening + Drop> Model for InboxSeat<'a, O> {
    ghost use Rattle.cb_peers.specs.Seat.{IsSeatOf, SeatView};

    ghost Value = { SeatView O };

    ghost view = { λ seat.
        record { inbox = seat.inbox.now; first = seat.first; side = seat.side } };

    ghost invariant = { λ seat. IsSeatOf seat.inbox.now seat.first seat.count seat.side };
}

impl<'a, O: Opening + Drop> InboxSeat<'a, O> {
    /// The seat of a connection in which nothing was queued yet. It has this status and this
    /// outbox, and is of this inbox.
    pub fn new(
        inbox: &'a Inbox<Input, O>,
        seat: ReaderSeat<Input, O>,
        status: &'a ConnectionStatus,
        outbox: &'a Outbox,
        signals: &'a Signals,
        backlogs: &'a Backlogs,
    ) -> InboxSeat<'a, O>
        requires inbox { seat.inbox ≡ inbox.now.name }
        requires place { length seat.queued < 2 ^ 48 }
        ensures side { result.side ≡ Some (Live seat) }
        ensures inbox { result.inbox ≡ inbox.entry.now }
        ensures first { result.first ≡ length seat.queued }
        ensures nothing { put_in result ≡ [] }
        ensures before { before_in result ≡ seat.queued }
    {
        let count = seat.count();
        InboxSeat {
            inbox,
            signals,
            status,
            outbox,
            backlogs,
            side: Some(ReaderSide::Live(seat)),
            count,
            first: count,
        }
    }

    /// Gives the side back as the connection is left.
    pub fn into_side(self) -> ReaderSide<Input, O>
        ensures side { Some result ≡ self.entry.side }
        ensures inbox { inbox_of result ≡ self.entry.inbox.name }
        ensures few { length (queued_by result) < 2 ^ 48 }
    {
        self.backlogs.leave(self.inbox.peer(), self.lying());
        match self.side {
            Some(side) => side,
            None => unreachable!(),
        }
    }

    /// How many payload bytes of the peer lie queued, at most.
    fn lying(&self) -> u64 {
        let earlier = self.backlogs.earlier(self.inbox.peer(), self.first);
        self.status.queued().saturating_add(earlier)
    }

    /// What an input with so many payload bytes, which may be a request, has to wait for; `None` if
    /// it may be queued now.
    fn lack(&self, bytes: u64, is_request: bool) -> Option<Lack> {
        let lying = self.lying();
        if lying == 0 {
            return if is_request && self.outbox.is_crowded() {
                Some(Lack::Socket)
            } else {
                None
            };
        }
        if is_request || lying.saturating_add(bytes) > MOST_BYTES {
            Some(Lack::Handlers)
        } else {
            None
        }
    }

    /// Whether the connection or all threads are told to stop.
    fn is_stopped(&self) -> bool {
        self.status.is_stopped() || self.signals.is_stopped()
    }

    /// Sleeps until a handler has taken something from the inbox, or all threads are told to
    /// return.
    fn wait<R: Wait>(&self, rt: &R) {
        self.signals.wait_for_room(rt, self.inbox.peer());
    }

    /// Queues an input with so many payload bytes if the inbox has room for one more mark. Else the
    /// input comes back.
    fn try_put<R: Wait>(&mut self, rt: &R, input: Input, bytes: u64) -> Result<(), Input>
        requires live { is_ended self.old.side ≡ false }
        requires place { length (marks_of self.old.side) < 2 ^ 48 - 1 }
        ensures taken { OnOk result (HasTaken self.old self.new (input ∷ []) false) }
        ensures back { IfErr result (λ back. back ≡ input) }
        ensures same { OnErr result (self.new ≡ self.old) }
    {
        let Some(ReaderSide::Live(mut seat)) = self.side.take() else {
            unreachable!()
        };
        self.status.add_queued(bytes);
        let put = offer(rt, self.inbox, &mut seat, self.signals, input);
        self.side = Some(ReaderSide::Live(seat));
        match put {
            Ok(()) => {
                self.count += 1;
                Ok(())
            }
            Err(full) => {
                self.status.take_queued(bytes);
                Err(full.item)
            }
        }
    }

    /// Ends the connection if the inbox has room for one more mark. Returns whether it had.
    fn try_end<R: Wait>(&mut self, rt: &R) -> bool
        requires live { is_ended self.old.side ≡ false }
        requires place { length (marks_of self.old.side) < 2 ^ 48 - 1 }
        ensures taken { result ≡ true → HasTaken self.old self.new [] true }
        ensures same { result ≡ false → self.new ≡ self.old }
    {
        let Some(ReaderSide::Live(seat)) = self.side.take() else {
            unreachable!()
        };
        match offer_end(rt, self.inbox, seat, self.signals) {
            Ok(ended) => {
                self.side = Some(ReaderSide::Ended(ended));
                self.count += 1;
                true
            }
            Err(back) => {
                self.side = Some(ReaderSide::Live(back));
                false
            }
        }
    }
}

impl<'a, O: Opening + Drop> Seat for InboxSeat<'a, O> {
    ghost use Rattle.cb_peers.specs.Seat.{IsSameSeat, is_ended, marks_of, put_in, same_none, same_then};

    ghost queued = { λ seat. put_in seat };

    ghost has_ended = { λ seat. is_ended seat.side };

    ghost counted = { λ seat. length (marks_of seat.side) };

    ghost same_seat = { λ old new. IsSameSeat old new };

    fn put<R: Wait>(&mut self, rt: &R, input: Input) -> Result<(), Input> {
        let (bytes, is_request) = (input.payload_len(), is_request(&input));
        let mut input = input;
        for _ in rt.forever() {
            let lack = self.lack(bytes, is_request);
            if lack.is_none() {
                match self.try_put(rt, input, bytes) {
                    Ok(()) => return Ok(()),
                    Err(back) => input = back,
                }
            }
            if self.is_stopped() {
                return Err(input);
            }
            match lack {
                Some(Lack::Socket) => self.outbox.wait_for_room(rt),
                Some(Lack::Handlers) | None => self.wait(rt),
            }
        }
        unreachable!()
    }

    fn end<R: Wait>(&mut self, rt: &R) -> bool {
        for _ in rt.forever() {
            if self.try_end(rt) {
                return true;
            }
            if self.is_stopped() {
                return false;
            }
            self.wait(rt);
        }
        unreachable!()
    }

    fn count(&self) -> u64 {
        self.count
    }

    ghost same_none = { λ a. same_none a };

    ghost same_then = { λ a b c h k. same_then a b c h k };
}

/// Whether an input asks for what may take much room: blocks, transactions or headers.
fn is_request(input: &Input) -> bool {
    match input {
        Input::Said(item) => asks(item),
        Input::Broken(_) | Input::NoMemory => false,
    }
}

/// Whether an item does.
fn asks(item: &Item) -> bool {
    match item {
        Item::Good(message) => matches!(
            message.message(),
            Message::GetData(_) | Message::GetHeaders(_) | Message::GetBlockTxn(_)
        ),
        Item::Damaged | Item::Bad(_, _) => false,
    }
}
