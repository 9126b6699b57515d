use crate::traffic::{BlockPath, Brought};
use cb_base::{Hash256, Shared};
use cb_crew::Given;
use cb_hall::Answer;
use cb_peer::Event;
use cb_session::Input;
use cb_state::Taken;
use cb_trace::{Trace, TraceEntry};
use cb_wire::{Item, Message};

/// What an item carries that leads to a block.
#[derive(Clone, Copy)]
enum BlockContent {
    /// A `block` with this hash.
    Block(Hash256),
    /// A `cmpctblock` of the block with this hash.
    CompactBlock(Hash256),
    /// A `blocktxn` of the block with this hash.
    Transactions(Hash256),
    /// Nothing of a block.
    Other,
}

impl BlockContent {
    /// The hash of the block.
    fn hash(&self) -> Option<&Hash256> {
        match self {
            BlockContent::Block(hash)
            | BlockContent::CompactBlock(hash)
            | BlockContent::Transactions(hash) => Some(hash),
            BlockContent::Other => None,
        }
    }
}

/// What is counted of an item. It is noted before the item is given to the session.
#[derive(Clone, Copy)]
pub(crate) struct Carried {
    /// The number of messages: 0 or 1.
    pub messages: u64,
    /// The number of payload bytes.
    pub payload: u64,
    /// The number of messages that are a `pong`: 0 or 1.
    pub pongs: u64,
    content: BlockContent,
    /// Whether that block is in flight.
    in_flight: bool,
}

impl Carried {
    /// What is counted of the next input of a work with this trace.
    pub fn of(given: &Given<Input>, trace: &Trace) -> Carried {
        match given {
            Given::Item(input) => Carried::of_input(input, trace),
            Given::End => Carried::nothing(),
        }
    }

    /// What is counted of an item of the peer's.
    fn of_input(input: &Input, trace: &Trace) -> Carried {
        let content = content_of(input);
        Carried {
            messages: u64::from(matches!(input, Input::Said(_))),
            payload: input.payload_len(),
            pongs: u64::from(is_pong(input)),
            content,
            in_flight: match content.hash() {
                Some(hash) => trace.is_in_flight(hash),
                None => false,
            },
        }
    }

    /// What is counted where no item came.
    pub fn nothing() -> Carried {
        Carried {
            messages: 0,
            payload: 0,
            pongs: 0,
            content: BlockContent::Other,
            in_flight: false,
        }
    }
}

/// The message of an input, if it has one that was read.
fn message_of(input: &Input) -> Option<&Message> {
    let Input::Said(item) = input else {
        return None;
    };
    let item: &Item = item;
    let Item::Good(message) = item else {
        return None;
    };
    Some(message.message())
}

/// Whether an input is a `pong`.
fn is_pong(input: &Input) -> bool {
    matches!(message_of(input), Some(Message::Pong(_)))
}

/// The item of a work's next input, if that is a `version`.
pub(crate) fn greeting_of(given: &Given<Input>) -> Option<&Shared<Item>> {
    let Given::Item(input) = given else {
        return None;
    };
    let Some(Message::Version(_)) = message_of(input) else {
        return None;
    };
    match input {
        Input::Said(item) => Some(item),
        Input::Broken(_) | Input::NoMemory => None,
    }
}

/// What an input carries that leads to a block.
fn content_of(input: &Input) -> BlockContent {
    let Some(message) = message_of(input) else {
        return BlockContent::Other;
    };
    match message {
        Message::Block(block) => BlockContent::Block(block.header.hash()),
        Message::CmpctBlock(compact) => BlockContent::CompactBlock(compact.header.hash()),
        Message::BlockTxn(txs) => BlockContent::Transactions(txs.block),
        _ => BlockContent::Other,
    }
}

/// Which block is awaited after its `cmpctblock`: the latest one that the session couldn't hand to
/// the hall at once.
#[derive(Clone, Copy)]
pub(crate) struct Rebuilding {
    block: Option<Hash256>,
    /// The number of payload bytes of its `cmpctblock`.
    payload: u64,
}

impl Rebuilding {
    /// No block is awaited.
    pub fn nothing() -> Rebuilding {
        Rebuilding {
            block: None,
            payload: 0,
        }
    }

    /// The block that the peer gave by this item, if it did. `entries` are the trace's entries
    /// after its step.
    pub fn brought(&mut self, carried: &Carried, entries: &[TraceEntry]) -> Option<Brought> {
        let before = self.before(carried);
        let taken = taken(entries);
        let path = self.path(carried, taken.is_some());
        let payload = before.saturating_add(carried.payload);
        Brought::of(path?, payload, carried.in_flight, taken?.refused)
    }

    /// The payload bytes that came before this item of the block that it may bring; `u64::MAX` if
    /// another `cmpctblock` came since its own.
    fn before(&self, carried: &Carried) -> u64 {
        match carried.content {
            BlockContent::Transactions(hash) if self.block == Some(hash) => self.payload,
            BlockContent::Transactions(_) => u64::MAX,
            BlockContent::Block(_) | BlockContent::CompactBlock(_) | BlockContent::Other => 0,
        }
    }

    /// How a block came, if the step of this item handed one to the hall, as `taken` tells.
    fn path(&mut self, carried: &Carried, taken: bool) -> Option<BlockPath> {
        match carried.content {
            BlockContent::Block(hash) => {
                let awaited = self.ends(hash);
                let path = if awaited {
                    BlockPath::Fallback
                } else {
                    BlockPath::Full
                };
                taken.then_some(path)
            }
            BlockContent::CompactBlock(hash) => {
                self.block = if taken { None } else { Some(hash) };
                self.payload = carried.payload;
                taken.then_some(BlockPath::Compact)
            }
            BlockContent::Transactions(hash) => {
                if taken {
                    self.ends(hash);
                }
                taken.then_some(BlockPath::Completed)
            }
            BlockContent::Other => None,
        }
    }

    /// Whether this block was awaited. It is no more.
    fn ends(&mut self, hash: Hash256) -> bool {
        let awaited = self.block == Some(hash);
        if awaited {
            self.block = None;
        }
        awaited
    }
}

/// What the hall answered to the block that it was handed since the trace's last input, if it was.
fn taken(entries: &[TraceEntry]) -> Option<&Taken> {
    for entry in entries.iter().rev() {
        match &entry.event {
            Event::Told(Answer::Taken(taken)) => return Some(taken),
            Event::Told(_) | Event::NoMemory | Event::HallFull | Event::WriteFault => {}
            Event::Said(_) | Event::Broken(_) | Event::Tick | Event::Probe | Event::ReaderEnd =>
                return None,
        }
    }
    None
}
