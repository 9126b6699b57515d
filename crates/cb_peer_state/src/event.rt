ghost use Rattle.std.specs.Prelude.{◌≡◌, ◌≤◌, ◌^◌, ◌-◌, ◌*◌, min};
ghost use Rattle.cb_peer_state.specs.Event.{answer_entries, excerpt_entries, held_by, payload_of};

use cb_base::{Fault, Shared};
use cb_hall::Answer;
use cb_pool::MOST_TXS;
use cb_state::Excerpt;
use cb_wire::Item;

/// How many bytes an entry of an answer's list counts for.
const ENTRY_WEIGHT: u64 = 40;

/// An event of one connection: what a session is given. Answers come from the hall, which is what
/// Bitcoin Core keeps in ChainstateManager and CTxMemPool.
#[derive(Drop)]
pub enum Event {
    /// An item of the peer's stream: a message, or one that couldn't be read. The session shares it
    /// until the item's questions are answered.
    Said(Shared<Item>),
    /// The peer's stream has a framing fault, such as wrong network magic (`BadMagic`).
    Broken(Fault),
    /// A timer event: it is time to look for news.
    Tick,
    /// A timer event: the peer has been silent. Once the handshake is complete it is sent a `ping`
    /// (BIP 31).
    Probe,
    /// The hall's answer to the open question.
    Told(Answer),
    /// The peer's stream ended, or isn't read any further.
    ReaderEnd,
    /// Memory ran out.
    NoMemory,
    /// The hall grants no more questions.
    HallFull,
    /// A write failed.
    WriteFault,
}

impl Event {
    ghost use Rattle.cb_peer_state.specs.Event.{is_input, is_told, kind_of};

    /// Whether it comes from the peer: an item, a fault of the stream, or the stream's end.
    pub fn is_input(&self) -> bool
        ensures { result ≡ is_input (kind_of self.now) }
    {
        match self {
            Event::Said(_) | Event::Broken(_) | Event::ReaderEnd => true,
            Event::Tick
            | Event::Probe
            | Event::Told(_)
            | Event::NoMemory
            | Event::HallFull
            | Event::WriteFault => false,
        }
    }

    /// Whether it is an answer of the hall.
    pub fn is_answer(&self) -> bool
        ensures { result ≡ is_told (kind_of self.now) }
    {
        match self {
            Event::Told(_) => true,
            Event::Said(_)
            | Event::Broken(_)
            | Event::Tick
            | Event::Probe
            | Event::ReaderEnd
            | Event::NoMemory
            | Event::HallFull
            | Event::WriteFault => false,
        }
    }

    /// How many bytes this event counts for in a trace, the log of one connection's events: 64,
    /// plus the payload bytes of its item, or plus 40 for each entry of its answer's lists.
    /// `u64::MAX` if that is more.
    pub fn held(&self) -> u64
        ensures { result ≡ min (held_by self.now) (2 ^ 64 - 1) }
    {
        match self {
            Event::Said(item) => 64 + payload_of(item),
            Event::Told(answer) => list_weight(entries_of(answer)).saturating_add(64),
            Event::Broken(_)
            | Event::Tick
            | Event::Probe
            | Event::ReaderEnd
            | Event::NoMemory
            | Event::HallFull
            | Event::WriteFault => 64,
        }
    }
}

/// The number of payload bytes of an item.
fn payload_of(item: &Item) -> u64
    ensures payload { result ≡ payload_of item.now }
    ensures limit { result ≤ 4000000 }
{
    match item {
        Item::Good(message) => message.payload_len(),
        Item::Damaged | Item::Bad(_, _) => 0,
    }
}

/// The number of entries in an answer's lists; `u64::MAX` if that is more.
fn entries_of(answer: &Answer) -> u64
    ensures { result ≡ min (answer_entries answer.now) (2 ^ 64 - 1) }
{
    match answer {
        Answer::Go | Answer::Kicked | Answer::TxTaken(_) => 0,
        Answer::Heads(heads) => {
            (heads.lack.as_slice().len() as u64).saturating_add(
                heads.locator.as_slice().len() as u64,
            )
        }
        Answer::Locator(locator) => locator.as_slice().len() as u64,
        Answer::Need(need) => {
            need.entries.as_slice().len() as u64 + need.locator.as_slice().len() as u64
        }
        Answer::Taken(taken) => taken.locator.as_slice().len() as u64,
        Answer::Served(pieces) => pieces.as_slice().len() as u64,
        Answer::Following(headers) => headers.as_slice().len() as u64,
        Answer::News(news) => news.path.as_slice().len() as u64
            + news.txids.as_slice().len() as u64,
        Answer::Pairs(_) => MOST_TXS as u64,
        Answer::Excerpt(excerpt) => places_of(excerpt),
    }
}

/// The number of transactions in the answer to `getblocktxn`.
fn places_of(excerpt: &Excerpt) -> u64
    ensures { result ≡ min (excerpt_entries excerpt.now) (2 ^ 64 - 1) }
{
    match excerpt {
        Excerpt::Part(part) => part.txs().as_slice().len() as u64,
        Excerpt::Absent | Excerpt::Refused(_) | Excerpt::Whole(_) => 0,
    }
}

/// How many bytes this number of list entries counts for; `u64::MAX` if that is more.
fn list_weight(count: u64) -> u64
    ensures { result ≡ min (40 * count) (2 ^ 64 - 1) }
{
    ENTRY_WEIGHT.saturating_mul(count)
}
