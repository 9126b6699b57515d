ghost use Rattle.std.specs.Prelude.{◌≡◌, ◌⊎◌, ◌↔◌, true, false, IfErr, IfOk, OnErr, OnOk};
ghost use Rattle.cb_base.specs.declared.fault.Fault.TheVariants as faults;
ghost use Rattle.cb_crew.specs.Seat.{opening_seat};
ghost use Rattle.cb_crew.specs.Crew.{HasPlace, inbox_of};
ghost use Rattle.std.specs.declared.io.ErrorKind.TheVariants.{Other};
ghost use Rattle.cb_node.specs.declared.fault.NodeFault.TheVariants.{Io, Memory};
ghost use Rattle.cb_service.specs.Readers.{inbox_for, seat_for};
ghost use Rattle.cb_service.specs.Service.{queued_by};
ghost use Rattle.cb_peers.specs.Reading.{QueuedWhatItRead};
ghost use Rattle.cb_node.specs.Slot.{IsInboxOf, IsNew, IsRead, IsUnspent, all_read, attached, new_slot, reopened};

use crate::fault::NodeFault;
use crate::next_connection::NextConnection;
use cb_base::{Fault, Shared};
use cb_crew::{Crew, Fresh, Inbox, ReaderSeat, ReaderSide, Work};
use cb_hall::Badge;
use cb_peers::{Backlogs, Link, SlotBytes, SocketBytes, SocketReading, start_threads};
use cb_service::{
    CountedSide, NoReader, ReaderEnd, ReaderThread, Signals, Unopened, join_reader, offer_open,
};
use cb_session::Input;
use std::alloc::Global;
use std::marker::{Copy, Model, Send};
use std::mem;
use std::net::TcpStream;
use std::snapshot::Snapshot;
use std::sync::Wait;
use std::thread::Threads;

/// How many connections a slot serves at most, one after another.
const MOST_CONNECTIONS: u64 = 256;

/// What the slots of a node share.
pub struct Common<W: Work<Item = Input>> {
    /// The crew that serves the slots. Each slot is one of its peers.
    pub crew: Shared<Crew<W>>,
    /// By which the crew's threads wait for each other.
    pub signals: Shared<Signals>,
    /// What lies queued of the slots' earlier connections.
    pub backlogs: Shared<Backlogs>,
}

impl<W: Work<Item = Input>> Drop for Common<W> {
    fn drop(self) {
        let Common {
            crew: _,
            signals: _,
            backlogs: _,
        } = self;
    }
}

/// Where a slot's side of its inbox is.
#[derive(Drop)]
enum Seating<W: Work<Item = Input>> {
    /// In the slot.
    Kept(CountedSide<W::Item, Fresh<W>>),
    /// With the thread of a connection's reader.
    Lent(ReaderThread<W, SocketBytes>),
}

/// A slot: it serves one connection after another. Contracts see its inbox, whether it ever had a
/// socket, and whether its latest connection waits for one.
pub struct Slot<W: Work<Item = Input>> {
    inbox: Snapshot<Inbox<Input, Fresh<W>>>,
    number: u16,
    /// It is always there between two calls.
    seating: Option<Seating<W>>,
    /// What the sockets of its connections gave, of those that don't wait and whose reader isn't
    /// with its thread.
    read: SlotBytes,
    used: bool,
    waits: bool,
    /// The latest connection that was opened.
    latest: Shared<Link>,
    /// The badge of a connection that wasn't made ready, for another try.
    badge: Option<Badge>,
    /// A connection whose opening was refused, for another try.
    next: Option<NextConnection<W>>,
}

impl<W: Work<Item = Input>> Model for Slot<W> {
    ghost use Rattle.cb_node.specs.Slot.{IsLinkIn, IsSeatingOf, IsUnspent, SlotState};
    ghost use Rattle.std.specs.Prelude.{◌≡◌, true, false, option_map};

    ghost Value = { SlotState };

    ghost view = { λ slot.
        record { inbox = slot.inbox.value; used = slot.used; waits = slot.waits } };

    ghost invariant = { λ slot. IsSeatingOf slot.inbox.value.name slot.waits slot.read
        slot.seating
        × IsUnspent slot.number slot.badge × (slot.number ≡ slot.inbox.value.peer)
        × (slot.latest.peer ≡ slot.number)
        × IsLinkIn slot.number (option_map (λ next. next.link) slot.next)
        × (slot.used ≡ false → slot.waits ≡ true) };
}

impl<W: Work<Item = Input>> Drop for Slot<W> {
    fn drop(self) {
        let Slot {
            inbox: _,
            number: _,
            seating: _,
            read: _,
            used: _,
            waits: _,
            latest: _,
            badge: _,
            next: _,
        } = self;
    }
}

impl<W: Work<Item = Input>> Slot<W> {
    /// The slot of an inbox in which nothing was queued. It never had a socket. The crew has the
    /// work of its first connection.
    pub fn new(
        inbox: &Inbox<Input, Fresh<W>>,
        seat: ReaderSeat<Input, Fresh<W>>,
        link: Shared<Link>,
    ) -> Slot<W>
        requires seat { seat ≡ opening_seat inbox.now.name }
        requires link { link.peer ≡ inbox.now.peer }
        ensures { result ≡ new_slot inbox.entry.now }
    {
        Slot {
            inbox: Snapshot::of(inbox),
            number: inbox.peer(),
            seating: Some(Seating::Kept(CountedSide::live(seat))),
            read: SlotBytes::nothing(),
            used: false,
            waits: true,
            latest: link,
            badge: None,
            next: None,
        }
    }

    /// The slot's number, which is that of its peer.
    pub fn number(&self) -> u16
        ensures { result ≡ self.now.inbox.peer }
    {
        self.number
    }

    /// Whether the latest connection waits for its socket.
    pub fn waits(&self) -> bool
        ensures waits { result ≡ self.now.waits }
        ensures unused { self.now.used ≡ false → result ≡ true }
    {
        self.waits
    }

    /// Whether no connection stands ready to be opened.
    pub fn lacks_next(&self) -> bool {
        self.next.is_none()
    }

    /// Whether the slot never had a socket.
    pub fn is_unused(&self) -> bool
        ensures { (result ≡ true) ↔ (self.now.used ≡ false) }
    {
        !self.used
    }

    /// Whether the slot had a socket, the reader of its latest connection has returned or says that
    /// it does, and that wasn't its last connection.
    pub fn is_left(&self) -> bool {
        let is_lent = matches!(&self.seating, Some(Seating::Lent(_)));
        self.used && !self.is_spent() && (!is_lent || self.latest.is_left())
    }

    /// Makes a tick of the latest connection due, if it has a socket and its session isn't over.
    /// Returns whether that was done. Then `Signals::ring` is to be called.
    pub fn set_tick(&self) -> bool {
        if self.waits || self.latest.status.is_stopped() {
            return false;
        }
        self.latest.status.set_tick();
        true
    }

    /// As `set_tick`, and wakes a handler.
    pub fn tick(&self, signals: &Signals) {
        if self.set_tick() {
            signals.ring();
        }
    }

    /// One more owner of what the threads of the latest connection share with the node. Fails only
    /// with `Fault::Memory`.
    pub fn link(&self) -> Result<Shared<Link>, Fault>
        ensures own { IfOk result (λ link. link.peer ≡ self.now.inbox.peer) }
        ensures memory { IfErr result (λ fault. fault ≡ faults.Memory) }
    {
        Ok(self.latest.clone()?)
    }

    /// Whether the slot can take no further connection: the latest is the last of 256, and has its
    /// socket.
    pub fn is_spent(&self) -> bool
        ensures { result ≡ true → self.now.waits ≡ false }
    {
        self.latest.generation >= MOST_CONNECTIONS && !self.waits
    }

    /// Keeps the badge of a connection that wasn't made ready.
    pub fn keep_badge(&mut self, badge: Badge)
        requires { IsNew badge × (badge.connection.peer ≡ self.old.inbox.peer) }
        ensures { self.new ≡ self.old }
    {
        self.badge = Some(badge);
    }

    /// Gives the badge out that was kept.
    pub fn take_badge(&mut self) -> Option<Badge>
        ensures badge { IsUnspent self.old.inbox.peer result }
        ensures same { self.new ≡ self.old }
    {
        self.badge.take()
    }

    /// Keeps a connection of this slot that is to be opened.
    pub fn prepare(&mut self, next: NextConnection<W>)
        requires { next.link.peer ≡ self.old.inbox.peer }
        ensures { self.new ≡ self.old }
    {
        self.next = Some(next);
    }

    /// Waits for the thread of a reader that says it returns, and takes the side back.
    pub fn settle<R: Threads>(&mut self, rt: &R)
        ensures { self.new ≡ self.old }
    {
        if !self.latest.is_left() {
            return;
        }
        self.seating = match self.seating.take() {
            Some(Seating::Lent(thread)) => {
                Some(Seating::Kept(side_of(rt, thread, &mut self.read)))
            }
            kept => kept,
        };
    }

    /// Opens the connection that stands ready. Returns whether it was opened: it waits for its
    /// socket then. It isn't opened if the latest one lasts, if the inbox has no room, or if the
    /// slot has had all its connections.
    pub fn open<R: Wait>(&mut self, rt: &R, crew: &Crew<W>, signals: &Signals) -> bool
        requires slot { IsInboxOf crew.now self.old.inbox }
        requires lasts { self.old.waits ≡ false }
        ensures opened { result ≡ true → self.new ≡ reopened self.old }
        ensures refused { result ≡ false → self.new ≡ self.old }
    {
        let Some(next) = self.next.take() else {
            return false;
        };
        match self.seating.take() {
            Some(Seating::Kept(side)) => {
                let inbox = crew.inbox(self.number);
                match offer_open(rt, inbox, side, signals, next.work) {
                    Ok(seat) => {
                        self.seating = Some(Seating::Kept(CountedSide::live(seat)));
                        drop(mem::replace(&mut self.latest, next.link));
                        self.waits = true;
                        true
                    }
                    Err(Unopened { side, opening, .. }) => {
                        self.seating = Some(Seating::Kept(side));
                        self.next = Some(NextConnection {
                            work: opening,
                            link: next.link,
                        });
                        false
                    }
                }
            }
            lent => {
                self.seating = lent;
                self.next = Some(next);
                false
            }
        }
    }

    /// Gives the connection that waits its socket, and starts the threads that read and write it.
    /// If that fails, the connection still waits. Its `version` tells this time, in seconds since
    /// 1970.
    #[tactic(auto, using(crate::proofs::Seatings::read_lent, crate::proofs::Seatings::read_back))]
    pub fn attach<R: Threads + Wait + Copy + Send + Drop + 'static>(
        &mut self,
        rt: &R,
        alloc: Global,
        common: &Common<W>,
        stream: Shared<TcpStream>,
        time: i64,
    ) -> Result<(), NodeFault>
    where
        W: Send + 'static,
        requires slot { IsInboxOf common.now.crew self.old.inbox }
        requires waits { self.old.waits ≡ true }
        ensures ok { OnOk result (self.new ≡ attached self.old) }
        ensures kinds { IfErr result (λ fault. (fault ≡ Io Other) ⊎ (fault ≡ Memory)) }
        ensures err { OnErr result (self.new ≡ self.old) }
    {
        let reading = SocketReading {
            alloc,
            backlogs: common.backlogs.clone()?,
            link: self.latest.clone()?,
            stream: stream.clone()?,
        };
        let (crew, signals) = (common.crew.clone()?, common.signals.clone()?);
        let Some(Seating::Kept(side)) = self.seating.take() else {
            unreachable!()
        };
        let ReaderSide::Live(seat) = side.into_side() else {
            unreachable!()
        };
        self.latest.status.set_made(time);
        self.latest.socket.fill(rt, stream);
        match start_threads(rt, &self.latest, crew, signals, self.number, seat, reading) {
            Ok(thread) => {
                self.seating = Some(Seating::Lent(thread));
                self.used = true;
                self.waits = false;
                Ok(())
            }
            Err(NoReader { seat, cause }) => {
                self.latest.socket.close(rt);
                self.seating = Some(Seating::Kept(CountedSide::live(seat)));
                Err(NodeFault::from(cause))
            }
        }
    }

    /// The slot's side of its inbox, and what its sockets gave. Waits for the reader's thread if
    /// there is one.
    pub fn into_side<R: Threads>(self, rt: &R) -> (ReaderSide<Input, Fresh<W>>, SlotBytes)
        ensures inbox { inbox_of result.0 ≡ self.inbox.name }
        ensures place { HasPlace result.0 }
        ensures read { QueuedWhatItRead result.1 result.0 }
    {
        let Slot {
            inbox: _,
            number: _,
            seating,
            read,
            used: _,
            waits,
            latest: _,
            badge: _,
            next: _,
        } = self;
        let mut read = read;
        match seating {
            Some(Seating::Kept(side)) => {
                end_reads(waits, &mut read);
                (side.into_side(), read)
            }
            Some(Seating::Lent(thread)) => {
                let side = side_of(rt, thread, &mut read);
                (side.into_side(), read)
            }
            None => unreachable!(),
        }
    }
}

/// Of a connection that waits for its socket nothing was read.
fn end_reads(waits: bool, read: &mut SlotBytes)
    ensures { read.new ≡ all_read waits read.old }
{
    if waits {
        read.add(&SocketBytes::nothing());
    }
}

/// Waits until the reader's thread of a connection returns, and returns the reader's side. What the
/// connection's socket gave comes behind what the sockets of earlier ones did.
fn side_of<W: Work<Item = Input>, R: Threads>(
    rt: &R,
    thread: ReaderThread<W, SocketBytes>,
    read: &mut SlotBytes,
) -> CountedSide<Input, Fresh<W>>
    requires { IsRead true read.old (seat_for thread).queued }
    ensures inbox { inbox_of result ≡ (inbox_for thread).name }
    ensures read { IsRead false read.new (queued_by result) }
{
    let ReaderEnd { side, account } = join_reader(rt, thread);
    match account {
        Some(bytes) => read.add(&bytes),
        None => read.add(&SocketBytes::nothing()),
    }
    side
}
