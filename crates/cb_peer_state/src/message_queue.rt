//! What a connection's session sent and its socket hasn't taken yet.
ghost use Rattle.std.specs.Prelude.{◌≡◌, ◌↔◌, ◌∷◌, ◌⊎◌, ◌≤◌, true, false, [], None, All, IfOk, IfSome, Err, length, vec_capacity};
ghost use Rattle.cb_peer_state.specs.declared.message_queue.QueueFault.TheVariants.{Closed, Full, Memory};
ghost use Rattle.cb_peer_state.specs.MessageQueue.{HasRoomFor, WereTaken, closed_queue, held_by, idle_queue, opened_queue, with_message};
ghost use Rattle.cb_peer_state.specs.Outgoing.{IsSmall};

use crate::outgoing::Outgoing;
use crate::receipt::Receipt;
use std::alloc::{AllocError, Global};
use std::collections::VecDeque;
use std::marker::Model;

/// How many messages wait at most.
const MOST_MESSAGES: usize = 100_000;

/// How many bytes the messages that wait keep for themselves at most.
const MOST_OWN: u64 = 8_000_000;

/// How many bytes a message takes that waits, beside what it keeps for itself.
pub const MESSAGE: u64 = 200;

/// How many messages are taken off together at most.
pub const MOST_TOGETHER: usize = 64;

/// Why a message wasn't taken.
#[derive(Clone, Copy, Debug, PartialEq, Eq)]
pub enum QueueFault {
    /// The queue takes no messages.
    Closed,
    /// It has no room.
    Full,
    /// Memory ran out.
    Memory,
}

impl From<AllocError> for QueueFault {
    ghost use Rattle.cb_peer_state.specs.declared.message_queue.QueueFault.TheVariants.{Memory};

    ghost from_gives = { λ _ fault. fault ≡ Memory };

    fn from(_error: AllocError) -> QueueFault {
        QueueFault::Memory
    }
}

/// A message that waits.
#[derive(Drop)]
pub struct Waiting {
    /// The message.
    pub message: Outgoing,
    /// How many bytes it keeps for itself (`Outgoing::own_bytes`).
    pub own: u64,
}

/// Messages that wait to be written, in order. Contracts see them, and whether further ones are
/// taken.
#[derive(Drop)]
pub struct MessageQueue {
    alloc: Global,
    waiting: VecDeque<Waiting, Global>,
    /// How many bytes the messages keep for themselves.
    own: u64,
    takes: bool,
}

impl Model for MessageQueue {
    ghost use Rattle.std.specs.Prelude.{◌≡◌, ◌≤◌, length};
    ghost use Rattle.cb_peer_state.specs.MessageQueue.{QueueState, own_of};

    ghost Value = { QueueState };

    ghost view = { λ queue. record { waiting = queue.waiting.items; takes = queue.takes } };

    ghost invariant = { λ queue. (queue.own ≡ own_of queue.waiting.items) × (queue.own ≤ 8000000)
        × (length queue.waiting.items ≤ 100000) };
}

impl MessageQueue {
    /// A queue in which nothing waits. It takes nothing before it is opened.
    pub fn new(alloc: Global) -> MessageQueue
        ensures { result ≡ idle_queue }
    {
        MessageQueue {
            alloc,
            waiting: VecDeque::new(alloc),
            own: 0,
            takes: false,
        }
    }

    /// Takes messages from now on.
    pub fn open(&mut self)
        ensures { self.new ≡ opened_queue self.old }
    {
        self.takes = true;
    }

    /// Takes no further messages. Those that wait still do.
    pub fn close(&mut self)
        ensures { self.new ≡ closed_queue self.old }
    {
        self.takes = false;
    }

    /// Whether it takes messages.
    pub fn is_open(&self) -> bool
        ensures { result ≡ self.now.takes }
    {
        self.takes
    }

    /// How many bytes it holds: `MESSAGE` for each message that waits, and what these keep for
    /// themselves.
    pub fn held(&self) -> u64
        ensures held { result ≡ held_by self.now }
        ensures most { result ≤ 28000000 }
    {
        self.waiting.len() as u64 * MESSAGE + self.own
    }

    /// Drops what waits, and takes no further messages.
    pub fn clear(&mut self)
        ensures { self.new ≡ idle_queue }
    {
        self.waiting = VecDeque::new(self.alloc);
        self.own = 0;
        self.close();
    }

    /// Puts a message behind those that wait. A message that has no room is dropped, and no further
    /// ones are taken. If memory runs out, it is dropped, and nothing changes.
    pub fn put(&mut self, one: Waiting) -> Result<Receipt, QueueFault>
        ensures ok { IfOk result (λ taken. (self.new ≡ with_message self.old one)
            × (taken.message ≡ one.message) × (taken.written ≡ 0)) }
        ensures full { (result ≡ Err Full)
            ↔ ((self.old.takes ≡ true) × (¬ HasRoomFor self.old one.own)) }
        ensures refused { result ≡ Err Full → self.new ≡ closed_queue self.old }
        ensures closed { (result ≡ Err Closed) ↔ (self.old.takes ≡ false) }
        ensures kept { result ≡ Err Closed → self.new ≡ self.old }
        ensures starved { result ≡ Err Memory → self.new ≡ self.old }
    {
        if !self.takes {
            return Err(QueueFault::Closed);
        }
        if self.waiting.len() >= MOST_MESSAGES || one.own > MOST_OWN - self.own {
            self.close();
            return Err(QueueFault::Full);
        }
        self.waiting.reserve(1)?;
        let taken = Receipt::new(&one.message, 0);
        self.own += one.own;
        self.waiting.push_back_reserved(one);
        Ok(taken)
    }

    /// Takes the first message off; `None` if none waits.
    fn take(&mut self) -> Option<Waiting>
        ensures first { IfSome result (λ one. self.old.waiting ≡ one ∷ self.new.waiting) }
        ensures none { result ≡ None → (self.old.waiting ≡ []) × (self.new.waiting ≡ []) }
        ensures takes { self.new.takes ≡ self.old.takes }
    {
        let one = self.waiting.pop_front()?;
        self.own -= one.own;
        Some(one)
    }

    /// Takes messages off in their order, into an empty list that has room for `MOST_TOGETHER`: the
    /// first that waits, and if it is small, the small ones behind it (`Outgoing::is_small`).
    pub fn take_together(&mut self, batch: &mut Vec<Outgoing>)
        requires empty { batch.old.items ≡ [] }
        requires room { 64 ≤ vec_capacity batch.old }
        ensures taken { WereTaken self.old.waiting batch.new.items self.new.waiting }
        ensures some { batch.new.items ≡ [] → self.old.waiting ≡ [] }
        ensures small { (length batch.new.items ≤ 1) ⊎ All IsSmall batch.new.items }
        ensures few { length batch.new.items ≤ 64 }
        ensures room { 64 ≤ vec_capacity batch.new }
        ensures takes { self.new.takes ≡ self.old.takes }
    {
        let Some(first) = self.take() else {
            return;
        };
        let is_small = first.message.is_small();
        batch.push_reserved(first.message);
        while is_small && batch.len() < MOST_TOGETHER {
            let Some(next) = self.take_if_small() else {
                return;
            };
            batch.push_reserved(next.message);
        }
    }

    /// Takes the first message off if it is small.
    fn take_if_small(&mut self) -> Option<Waiting>
        ensures first { IfSome result (λ one. (self.old.waiting ≡ one ∷ self.new.waiting)
            × IsSmall one.message) }
        ensures none { result ≡ None → self.new ≡ self.old }
        ensures takes { self.new.takes ≡ self.old.takes }
    {
        if self.waiting.front()?.message.is_small() {
            self.take()
        } else {
            None
        }
    }
}
