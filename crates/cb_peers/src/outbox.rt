//! The outbox of a connection: the messages that its session sent and its socket hasn't taken yet,
//! and how a thread spells and writes them. So a peer that reads slowly, or not at all, holds no
//! handler up, and no more than one message is spelled for it at a time, or a few small ones.
ghost use Rattle.std.specs.Prelude.{◌≡◌, ◌≢◌, ◌↔◌, ◌+◌, ◌<◌, ◌≤◌, ℕ, List, [], length, take, vec_capacity, IfOk, IsErr, IsOk, IsOkUnless, OnErr, OnOk};
ghost use Rattle.cb_base.specs.declared.fault.Fault.TheVariants.{Memory};
ghost use Rattle.cb_peers.specs.declared.outbox.NextWrite.TheVariants.{Messages};
ghost use Rattle.std.specs.Io.KnownBytes.{Appends, WriteAppends};
ghost use Rattle.cb_wire.specs.Stream.{texts};
ghost use Rattle.cb_wire.specs.declared.message.Message.{Message};

use cb_base::{Fault, Shared};
use cb_peer_state::{
    MESSAGE, MOST_TOGETHER, MessageQueue, Outgoing, QueueFault, Receipt, Room, Waiting,
};
use cb_service::Sleeper;
use cb_work::ConnectionStatus;
use std::alloc::Global;
use std::io::{ErrorKind, Write};
use std::net::OpenStream;
use std::sync::atomic::{AtomicBool, AtomicU64, Ordering};
use std::sync::{Mutex, Wait};
use std::time::Duration;

/// So many writes in a row that took nothing are as long as a socket may be still. Each of them
/// waits for so small a part of that time.
const STILL_WRITES: u32 = 30;

/// How many milliseconds a socket may be still that has no write timeout.
const STILL_MILLISECONDS: u64 = 30_000;

/// More bytes wait in a crowded outbox.
const MOST_BEFORE_A_REQUEST: u64 = 1_000_000;

/// How many milliseconds a reader sleeps at most before a crowded outbox.
const LOOK_MILLISECONDS: u64 = 100;

/// No message needs more room: none keeps more bytes for itself than its payload has, which are
/// 4,000,000 at most.
const MOST_NEEDED: u64 = 4_000_200;

/// Why a thread writes no more to a socket.
#[derive(Clone, Copy, Debug, PartialEq, Eq)]
pub enum WriterEnd {
    /// The outbox was closed, and what waited was written, or the socket took no more of it.
    Closed,
    /// The socket took nothing for as long as it may be still.
    Still,
    /// A write failed.
    Failed,
    /// Memory ran out for a message that was to be spelled.
    Memory,
}

/// What waits to be written to a connection's socket. One thread writes it.
///
/// Nothing is taken before the outbox is opened, nor after it was closed, after a message that had
/// no room, and after a failed write.
pub struct Outbox {
    alloc: Global,
    queue: Mutex<MessageQueue>,
    /// How many bytes the queue holds. It is written under the queue's lock.
    held: AtomicU64,
    /// The room of all outboxes of the node. Whoever holds the queue's lock may take this one.
    room: Shared<Mutex<Room>>,
    /// Whether a thread was started that writes.
    started: AtomicBool,
    /// Where the thread that writes waits for messages.
    writer: Sleeper,
    /// 1 once the thread that writes is about to return.
    done: AtomicU64,
}

impl Drop for Outbox {
    fn drop(self) {
        let Outbox {
            alloc: _,
            queue: _,
            held: _,
            room: _,
            started: _,
            writer: _,
            done: _,
        } = self;
    }
}

/// What a thread that writes is to do next.
enum NextWrite {
    /// It writes the messages that were taken.
    Messages,
    /// It waits for what comes.
    Rest,
    /// It writes no more.
    End,
}

impl Outbox {
    /// An outbox that isn't open yet. Fails only with `Fault::Memory`.
    pub fn new(alloc: Global, room: Shared<Mutex<Room>>) -> Result<Outbox, Fault>
        ensures { IsOkUnless result Memory }
    {
        Ok(Outbox {
            alloc,
            queue: Mutex::new(MessageQueue::new(alloc)),
            held: AtomicU64::new(0),
            room,
            started: AtomicBool::new(false),
            writer: Sleeper::new(alloc)?,
            done: AtomicU64::new(0),
        })
    }

    /// Takes messages from now on. A thread has to be started that writes them, and no other one
    /// may be writing.
    pub fn open<R: Wait>(&self, rt: &R) {
        self.done.store(0, Ordering::SeqCst);
        self.started.store(true, Ordering::SeqCst);
        self.queue.lock(rt).open();
    }

    /// No thread could be started: it is as if it had never been opened.
    pub fn cancel<R: Wait>(&self, rt: &R) {
        self.clear(rt);
        self.started.store(false, Ordering::SeqCst);
    }

    /// Takes no further messages. What waits is still written, while the socket takes it.
    pub fn close<R: Wait>(&self, rt: &R) {
        self.queue.lock(rt).close();
        self.writer.wake();
    }

    /// Whether no thread writes any more.
    pub fn is_done(&self) -> bool {
        !self.started.load(Ordering::SeqCst) || self.done.load(Ordering::SeqCst) > 0
    }

    /// Waits until no thread writes any more. It must be closed.
    pub fn wait<R: Wait>(&self, rt: &R) {
        for _ in rt.forever() {
            if self.is_done() {
                return;
            }
            self.done.park(rt, 0);
        }
    }

    /// Waits until no thread writes any more, for so many times so long at most. Returns how many
    /// times are left. It must be closed.
    pub fn wait_for<R: Wait>(&self, rt: &R, times: u32, time: Duration) -> u32
        ensures { result ≤ times }
    {
        for waited in 0..times {
            if self.is_done() {
                return times - waited;
            }
            self.done.park_timeout(rt, 0, time);
        }
        0
    }

    /// Whether so much waits that no further request of the peer is queued.
    pub fn is_crowded(&self) -> bool {
        self.held.load(Ordering::SeqCst) > MOST_BEFORE_A_REQUEST
    }

    /// Sleeps while the outbox is crowded, for a moment at most.
    pub fn wait_for_room<R: Wait>(&self, rt: &R) {
        let held = self.held.load(Ordering::SeqCst);
        if held > MOST_BEFORE_A_REQUEST {
            let moment = Duration::from_millis(LOOK_MILLISECONDS);
            self.held
                .park_timeout(rt, (held & 0xffff_ffff) as u32, moment);
        }
    }

    /// Notes how many bytes the queue holds now, and wakes a reader once it is crowded no more.
    fn note_held(&self, held: u64) {
        let before = self.held.swap(held, Ordering::SeqCst);
        if before > MOST_BEFORE_A_REQUEST && held <= MOST_BEFORE_A_REQUEST {
            self.held.wake_all();
        }
    }

    /// Takes a message. Fails if the outbox isn't open, if the message has no room in it or in the
    /// node's outboxes, or if memory runs out.
    pub fn push<R: Wait>(&self, rt: &R, message: Outgoing) -> Result<Receipt, QueueFault>
        ensures { IfOk result (λ taken. (taken.message ≡ message) × (taken.written ≡ 0)) }
    {
        let own = message.own_bytes();
        let put = self.put(rt, Waiting { message, own });
        self.writer.wake();
        put
    }

    /// Puts a message into the queue, and takes its room.
    fn put<R: Wait>(&self, rt: &R, one: Waiting) -> Result<Receipt, QueueFault>
        ensures { IfOk result (λ taken. (taken.message ≡ one.message) × (taken.written ≡ 0)) }
    {
        let needed = one.own.saturating_add(MESSAGE);
        let mut queue = self.queue.lock(rt);
        if !self.take_room(rt, queue.held(), needed) {
            queue.close();
            drop(one);
            return Err(QueueFault::Full);
        }
        let put = queue.put(one);
        self.note_held(queue.held());
        if put.is_err() {
            self.room.lock(rt).give(needed);
        }
        put
    }

    /// Takes room for so many bytes more in an outbox that holds so many. Returns whether there is
    /// so much.
    fn take_room<R: Wait>(&self, rt: &R, held: u64, more: u64) -> bool
        requires { held ≤ 28000000 }
    {
        more <= MOST_NEEDED && self.room.lock(rt).take(held, more)
    }

    /// Drops what waits, and gives its room back. Takes no further messages.
    fn clear<R: Wait>(&self, rt: &R) {
        let mut queue = self.queue.lock(rt);
        let held = queue.held();
        queue.clear();
        self.note_held(0);
        self.room.lock(rt).give(held);
    }

    /// Writes what comes to a stream by its writer, until the outbox was closed and nothing waits,
    /// or the stream takes nothing more. The stream's write timeout is how long it may be still.
    /// What is written is a beginning of the text of the messages that were taken, and is counted.
    /// Afterwards the outbox is closed.
    pub fn write_to<R: Wait, S: OpenStream, W: Write>(
        &self,
        rt: &R,
        stream: &S,
        writer: &mut W,
        status: &ConnectionStatus,
    ) -> WriterEnd
        ensures { (messages : List Message) × (taken : ℕ)
            × Appends (W.contents writer.old) (W.contents writer.new)
            (take taken (texts messages)) }
    {
        let mut pace = WritePace::new(stream);
        let Ok(mut batch) = Vec::with_capacity(self.alloc, MOST_TOGETHER) else {
            self.close(rt);
            return WriterEnd::Memory;
        };
        for _ in rt.forever() {
            let end = match self.due(rt, &mut batch) {
                NextWrite::Messages => {
                    match self.write_batch(rt, &mut batch, writer, &mut pace, status) {
                        Ok(()) => continue,
                        Err(end) => end,
                    }
                }
                NextWrite::Rest => {
                    self.writer.sleep(rt);
                    continue;
                }
                NextWrite::End => WriterEnd::Closed,
            };
            self.close(rt);
            return end;
        }
        unreachable!()
    }

    /// The thread that writes is about to return. What waits is dropped.
    pub fn finish<R: Wait>(&self, rt: &R) {
        self.clear(rt);
        self.done.store(1, Ordering::SeqCst);
        self.done.wake_all();
    }

    /// What is due. The messages that are written next are taken off, into an empty list, and their
    /// room is given back.
    fn due<R: Wait>(&self, rt: &R, batch: &mut Vec<Outgoing>) -> NextWrite
        requires empty { batch.old.items ≡ [] }
        requires room { 64 ≤ vec_capacity batch.old }
        ensures room { 64 ≤ vec_capacity batch.new }
        ensures none { result ≢ Messages → batch.new.items ≡ [] }
    {
        let mut queue = self.queue.lock(rt);
        let held = queue.held();
        queue.take_together(batch);
        if batch.is_empty() {
            return if queue.is_open() {
                NextWrite::Rest
            } else {
                NextWrite::End
            };
        }
        let left = queue.held();
        self.note_held(left);
        let freed = held.saturating_sub(left);
        self.room.lock(rt).give(freed);
        NextWrite::Messages
    }

    /// Spells the messages of a list, which is empty afterwards, and writes them. Otherwise a
    /// beginning of their text was written.
    fn write_batch<R: Wait, W: Write>(
        &self,
        rt: &R,
        batch: &mut Vec<Outgoing>,
        writer: &mut W,
        pace: &mut WritePace,
        status: &ConnectionStatus,
    ) -> Result<(), WriterEnd>
        requires { 64 ≤ vec_capacity batch.old }
        ensures whole { OnOk result
            (Appends (W.contents writer.old) (W.contents writer.new) (texts batch.old.items)) }
        ensures part { OnErr result ((taken : ℕ)
            × Appends (W.contents writer.old) (W.contents writer.new)
            (take taken (texts batch.old.items))) }
        ensures empty { batch.new.items ≡ [] }
        ensures room { 64 ≤ vec_capacity batch.new }
    {
        let spelled = spell_all(self.alloc, batch.as_slice());
        batch.clear();
        self.write_piece(rt, writer, spelled?.as_slice(), pace, status)
    }

    /// Writes all of a piece, in as many writes as it needs. Otherwise a beginning of it was
    /// written.
    fn write_piece<R: Wait, W: Write>(
        &self,
        rt: &R,
        writer: &mut W,
        piece: &[u8],
        pace: &mut WritePace,
        status: &ConnectionStatus,
    ) -> Result<(), WriterEnd>
        ensures whole { OnOk result
            (Appends (W.contents writer.old) (W.contents writer.new) piece.now) }
        ensures part { OnErr result ((taken : ℕ)
            × Appends (W.contents writer.old) (W.contents writer.new) (take taken piece.now)) }
    {
        let mut rest = piece;
        for _ in rt.forever() {
            if rest.is_empty() {
                return Ok(());
            }
            let taken = write_once(writer, rest)?;
            status.add_written(taken as u64);
            let is_open = self.queue.lock(rt).is_open();
            pace.note(taken, is_open)?;
            rest = &rest[taken..];
        }
        unreachable!()
    }
}

/// What a thread that writes remembers of its writes.
#[derive(Drop)]
struct WritePace {
    /// How many writes in a row took nothing.
    still: u32,
}

impl WritePace {
    /// No write was made to this stream yet. Each waits for a part of the stream's write timeout.
    fn new<S: OpenStream>(stream: &S) -> WritePace
        ensures { result.still ≡ 0 }
    {
        let whole = match stream.write_timeout() {
            Ok(Some(timeout)) => timeout,
            Ok(None) | Err(_) => Duration::from_millis(STILL_MILLISECONDS),
        };
        let _ = stream.set_write_timeout(whole.checked_div(STILL_WRITES));
        WritePace { still: 0 }
    }

    /// A write took so many bytes. Fails if as many in a row took nothing as may be.
    fn note(&mut self, taken: usize, is_open: bool) -> Result<(), WriterEnd>
        ensures moved { 0 < taken → (self.new.still ≡ 0) × IsOk result }
        ensures still { taken ≡ 0 → (IsErr result ↔ (30 ≤ self.old.still + 1)) }
        ensures counted { taken ≡ 0 → IsOk result → self.new.still ≡ self.old.still + 1 }
    {
        if taken > 0 {
            self.still = 0;
            return Ok(());
        }
        self.still = self.still.saturating_add(1);
        if self.still < STILL_WRITES {
            Ok(())
        } else if is_open {
            Err(WriterEnd::Still)
        } else {
            Err(WriterEnd::Closed)
        }
    }
}

/// Writes from the start of a piece that isn't empty. Returns how many bytes were taken: none if
/// the writer waited in vain. Fails if a write fails.
fn write_once<W: Write>(writer: &mut W, piece: &[u8]) -> Result<usize, WriterEnd>
    ensures most { IfOk result (λ taken. taken ≤ length piece.now) }
    ensures bytes { WriteAppends (W.contents writer.old) (W.contents writer.new) result piece.now }
{
    match writer.write(piece) {
        Ok(0) => Err(WriterEnd::Failed),
        Ok(taken) => Ok(taken),
        Err(error) => match error.kind() {
            ErrorKind::WouldBlock | ErrorKind::Interrupted => Ok(0),
            _ => Err(WriterEnd::Failed),
        },
    }
}

/// The text of messages, one after another.
fn spell_all(alloc: Global, messages: &[Outgoing]) -> Result<Vec<u8>, WriterEnd>
    ensures { IfOk result (λ spelled. spelled.items ≡ texts messages.now) }
{
    let mut spelled = Vec::new(alloc);
    for message in messages {
        if message.spell(alloc, &mut spelled).is_err() {
            return Err(WriterEnd::Memory);
        }
    }
    Ok(spelled)
}
