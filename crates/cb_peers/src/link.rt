ghost use Rattle.std.specs.Prelude.{◌≡◌, None, IfOk, IsOkUnless};
ghost use Rattle.cb_base.specs.declared.fault.Fault.TheVariants.{Memory};

use crate::backlogs::Backlogs;
use crate::outbox::{Outbox, WriterEnd};
use crate::socket::Socket;
use crate::telling::ToldConnections;
use cb_base::{Fault, Shared, Sink, SinkFailure};
use cb_crew::TurnOutcome;
use cb_peer_state::{MessageSink, Outgoing, QueueFault, Receipt, Room, WriteEnd, WriteFault};
use cb_service::{AfterTurn, Signals};
use cb_work::ConnectionStatus;
use std::alloc::Global;
use std::net::TcpStream;
use std::sync::atomic::{AtomicBool, Ordering};
use std::sync::{Mutex, Wait};
use std::time::Duration;

/// At a node's end, for how many times we wait at most until what waits went out, and for how many
/// milliseconds each time.
const LAST_WAITS: u32 = 100;

const LAST_MILLISECONDS: u64 = 300;

/// What the threads of a connection share with the node.
pub struct Link {
    /// The number of the connection's slot.
    pub peer: u16,
    /// The generation of the connection among those of its slot; the first is 1.
    pub generation: u64,
    /// The connection's flags and totals.
    pub status: Shared<ConnectionStatus>,
    /// The connection's socket.
    pub socket: Socket,
    /// What its session sent and the socket hasn't taken yet.
    pub outbox: Outbox,
    /// Whether the connection's reader has said that it returns.
    left: AtomicBool,
}

impl Drop for Link {
    fn drop(self) {
        let Link {
            peer: _,
            generation: _,
            status: _,
            socket: _,
            outbox: _,
            left: _,
        } = self;
    }
}

impl Link {
    /// The link of a connection that isn't made yet. Its outbox shares the node's room. Fails only
    /// with `Fault::Memory`.
    fn new(
        alloc: Global,
        peer: u16,
        generation: u64,
        room: &Shared<Mutex<Room>>,
    ) -> Result<Shared<Link>, Fault>
        ensures made { IfOk result
            (λ link. (link.peer ≡ peer) × (link.generation ≡ generation)) }
        ensures memory { IsOkUnless result Memory }
    {
        let status = Shared::new(alloc, ConnectionStatus::new())?;
        let link = Link {
            peer,
            generation,
            status,
            socket: Socket::new(),
            outbox: Outbox::new(alloc, room.clone()?)?,
            left: AtomicBool::new(false),
        };
        Ok(Shared::new(alloc, link)?)
    }

    /// The reader says that it returns.
    pub fn leave(&self) {
        self.left.store(true, Ordering::SeqCst);
    }

    /// Whether the reader has said that it returns.
    pub fn is_left(&self) -> bool {
        self.left.load(Ordering::SeqCst)
    }

    /// Closes the connection if its session is over: it is read no more, and what its session sent
    /// still goes out. Returns whether nothing of it is left to be done.
    pub fn close_if_over<R: Wait>(&self, rt: &R) -> bool {
        if !self.status.is_stopped() {
            return false;
        }
        self.socket.stop_reading(rt);
        self.outbox.close(rt);
        self.outbox.is_done()
    }

    /// Writes to the connection's socket what comes into the outbox, until the connection is over
    /// and what waits went out, or the socket takes nothing more. Then it shuts the socket, which
    /// ends the session. The thread has to return then.
    pub fn write_out<R: Wait>(&self, rt: &R, stream: &TcpStream) {
        let end = self
            .outbox
            .write_to(rt, stream, &mut &*stream, &self.status);
        match end {
            WriterEnd::Still => self.status.set_still(),
            WriterEnd::Memory => self.status.set_starved(),
            WriterEnd::Closed | WriterEnd::Failed => {}
        }
        self.socket.close(rt);
        self.outbox.finish(rt);
    }
}

/// Where a connection's session sends its messages: the connection's outbox, once its socket is
/// there. A message is taken or refused as a whole. It is refused before the socket is there, after
/// the connection was closed, after the socket took nothing for too long, if the outbox or those of
/// the node are full, and ever after such a failure.
pub struct OutboxSink<R: Drop> {
    /// By which it waits for the outbox's lock.
    rt: R,
    /// The connection.
    link: Shared<Link>,
    failure: Option<SinkFailure>,
}

impl<R: Drop> Drop for OutboxSink<R> {
    fn drop(self) {
        let OutboxSink {
            rt: _,
            link: _,
            failure: _,
        } = self;
    }
}

impl<R: Drop> OutboxSink<R> {
    /// The sink of a connection. It hasn't failed.
    pub fn new(rt: R, link: Shared<Link>) -> OutboxSink<R>
        ensures unfailed { result.failure ≡ None }
        ensures link { result.link ≡ link }
    {
        OutboxSink {
            rt,
            link,
            failure: None,
        }
    }
}

impl<R: Drop> Sink for OutboxSink<R> {
    ghost use Rattle.std.specs.Prelude.{◌≡◌, true, is_some, None, refl};
    ghost use Rattle.std.proofs.Common.{ap, ◌∙◌};

    // What goes out is known to nobody.
    ghost contents = { λ sink. None };

    ghost has_failed = { λ sink. is_some sink.failure };

    ghost failure = { λ sink. sink.failure };

    // After a failure, the sink stays as it is.
    ghost heeds_failure = { λ old new. is_some old.failure ≡ true → new ≡ old };

    ghost agrees = { λ sink. refl };

    ghost heeds_none = { λ sink h. refl };

    ghost heeds_then = { λ a b c h k failed. k
        (ap (λ sink. is_some sink.failure) (h failed) ∙ failed)
        ∙ h failed };

    // It takes messages alone.
    fn write(&mut self, _piece: &[u8]) -> Option<usize> {
        if self.failure.is_none() {
            self.failure = Some(SinkFailure::Io);
        }
        None
    }

    fn failed(&self) -> bool {
        self.failure.is_some()
    }
}

impl<R: Wait + Drop> MessageSink for OutboxSink<R> {
    fn put(&mut self, _alloc: Global, message: Outgoing) -> Result<Receipt, WriteEnd> {
        if self.failure.is_some() {
            drop(message);
            return Err(WriteEnd {
                written: 0,
                fault: WriteFault::Io,
            });
        }
        match self.link.outbox.push(&self.rt, message) {
            Ok(taken) => Ok(taken),
            Err(QueueFault::Memory) => Err(WriteEnd {
                written: 0,
                fault: WriteFault::Memory,
            }),
            Err(_) => {
                self.failure = Some(SinkFailure::Io);
                Err(WriteEnd {
                    written: 0,
                    fault: WriteFault::Io,
                })
            }
        }
    }
}

/// What a turn left of the tip.
#[derive(Clone, Copy)]
pub struct TipNews {
    /// The tip that a session brought, as `tip_word` has it, if no block is in flight or wanted; 0
    /// if it brought none.
    pub brought: u64,
    /// Whether a tick is due of a connection whose peer was told its first tip: another session may
    /// have brought a tip meanwhile, and a peer that was told none is passed over then.
    pub first: bool,
}

impl TipNews {
    /// It left nothing.
    fn nothing() -> TipNews {
        TipNews {
            brought: 0,
            first: false,
        }
    }
}

/// The connections of each slot that aren't over, and the room of all outboxes.
pub struct Links {
    alloc: Global,
    slots: Vec<Mutex<Vec<Shared<Link>>>>,
    room: Shared<Mutex<Room>>,
}

impl Drop for Links {
    fn drop(self) {
        let Links {
            alloc: _,
            slots: _,
            room: _,
        } = self;
    }
}

impl Links {
    /// No connections of so many slots. Fails only with `Fault::Memory`.
    pub fn new(alloc: Global, slots: u16) -> Result<Links, Fault>
        ensures memory { IsOkUnless result Memory }
    {
        let mut all = Vec::with_capacity(alloc, usize::from(slots))?;
        for _ in 0..slots {
            all.push(Mutex::new(Vec::new(alloc)))?;
        }
        Ok(Links {
            alloc,
            slots: all,
            room: Shared::new(alloc, Mutex::new(Room::new()))?,
        })
    }

    /// The link of a connection that isn't made yet, in no slot's list. Fails only with
    /// `Fault::Memory`.
    pub fn link(&self, alloc: Global, peer: u16, generation: u64) -> Result<Shared<Link>, Fault>
        ensures made { IfOk result
            (λ link. (link.peer ≡ peer) × (link.generation ≡ generation)) }
        ensures memory { IsOkUnless result Memory }
    {
        Link::new(alloc, peer, generation, &self.room)
    }

    /// Adds a connection of this slot. Fails only with `Fault::Memory`.
    pub fn add<R: Wait>(&self, rt: &R, slot: u16, link: Shared<Link>) -> Result<(), Fault>
        ensures memory { IsOkUnless result Memory }
    {
        if let Some(links) = self.slots.get(usize::from(slot)) {
            let mut links = links.lock(rt);
            links.push(link)?;
        }
        Ok(())
    }

    /// Closes each connection of this slot whose session is over, and no other: it is read no more,
    /// and what its session sent still goes out. Where `prompt` is set, takes before what a turn
    /// left of the tip.
    pub fn close_ended<R: Wait>(&self, rt: &R, slot: u16, prompt: bool) -> TipNews {
        let Some(links) = self.slots.get(usize::from(slot)) else {
            return TipNews::nothing();
        };
        let mut links = links.lock(rt);
        let news = if prompt {
            take_news(links.as_slice())
        } else {
            TipNews::nothing()
        };
        links.retain(|link| !link.close_if_over(rt));
        news
    }

    /// Has the peers told at once that lack this tip: a tick of each is due, those first that want
    /// compact blocks unasked, and handlers are woken. A flag that is set stays set. Where memory
    /// runs out they are told by the clock's tick.
    ///
    /// No clause can say which flags were set, since other threads take them.
    pub fn tell_tip<R: Wait>(&self, rt: &R, signals: &Signals, tip: u64) {
        if let Ok(roll) = self.roll(rt) {
            let _ = roll.tick(signals, tip);
        }
    }

    /// All connections. Fails only with `Fault::Memory`.
    fn roll<R: Wait>(&self, rt: &R) -> Result<ToldConnections, Fault>
        ensures memory { IsOkUnless result Memory }
    {
        let mut roll = ToldConnections::new(self.alloc);
        for links in self.slots.as_slice() {
            add_all(&mut roll, links.lock(rt).as_slice())?;
        }
        Ok(roll)
    }

    /// Shuts the sockets of all connections for reading.
    pub fn stop_reading<R: Wait>(&self, rt: &R) {
        for links in self.slots.as_slice() {
            stop_reading_all(rt, links.lock(rt).as_slice());
        }
    }

    /// Closes all connections, and waits until what their sessions sent went out, at most for half
    /// a minute for all of them.
    pub fn close_all<R: Wait>(&self, rt: &R) {
        for links in self.slots.as_slice() {
            close_all(rt, links.lock(rt).as_slice());
        }
        let mut times = LAST_WAITS;
        for links in self.slots.as_slice() {
            times = wait_for_all(rt, links.lock(rt).as_slice(), times);
        }
    }
}

/// Adds these connections to others. Fails only with `Fault::Memory`.
fn add_all(roll: &mut ToldConnections, links: &[Shared<Link>]) -> Result<(), Fault>
    ensures memory { IsOkUnless result Memory }
{
    for link in links {
        roll.add(&link.status)?;
    }
    Ok(())
}

/// Takes what these connections left of the tip. A tick of each is due whose peer was told its
/// first tip.
fn take_news(links: &[Shared<Link>]) -> TipNews {
    let mut news = TipNews::nothing();
    for link in links {
        if link.status.take_first() && link.status.add_tick() {
            news.first = true;
        }
        let brought = link.status.take_brought();
        if brought != 0 {
            news.brought = brought;
        }
    }
    news
}

/// Shuts the sockets of these connections for reading.
fn stop_reading_all<R: Wait>(rt: &R, links: &[Shared<Link>]) {
    for link in links {
        link.socket.stop_reading(rt);
    }
}

/// Closes the outboxes of these connections.
fn close_all<R: Wait>(rt: &R, links: &[Shared<Link>]) {
    for link in links {
        link.outbox.close(rt);
    }
}

/// Waits until what the sessions of these connections sent went out, for so many times at most, and
/// closes their sockets. Returns how many times are left.
fn wait_for_all<R: Wait>(rt: &R, links: &[Shared<Link>], times: u32) -> u32 {
    let mut left = times;
    for link in links {
        left = link
            .outbox
            .wait_for(rt, left, Duration::from_millis(LAST_MILLISECONDS));
        link.socket.close(rt);
        link.outbox.wait(rt);
    }
    left
}

/// After each turn of a handler: counts what it took, has the other peers told of a tip that the
/// slot's session brought, and closes the slot's connections whose sessions are over. So a reader
/// that waits for bytes of such a connection wakes.
#[derive(Clone, Drop)]
pub struct CloseEnded {
    /// Where it is counted what was taken.
    pub backlogs: Shared<Backlogs>,
    /// The connections.
    pub links: Shared<Links>,
    /// By which handlers are woken.
    pub signals: Shared<Signals>,
    /// Whether peers are told of a new tip at once.
    pub prompt: bool,
}

impl CloseEnded {
    /// Has told at once what a turn left of the tip.
    fn tell<R: Wait>(&self, rt: &R, news: TipNews) {
        if news.first {
            self.signals.ring();
        }
        if news.brought != 0 {
            self.links.tell_tip(rt, &self.signals, news.brought);
        }
    }
}

impl AfterTurn for CloseEnded {
    fn after_turn<R: Wait>(&self, rt: &R, turn: TurnOutcome) {
        self.backlogs.count(turn);
        match turn {
            TurnOutcome::Served(slot, _, _) | TurnOutcome::Idle(slot) | TurnOutcome::Shut(slot) => {
                let news = self.links.close_ended(rt, slot, self.prompt);
                self.tell(rt, news);
            }
            TurnOutcome::NoDesk | TurnOutcome::Spent => {}
        }
    }
}
