ghost use Rattle.std.specs.Prelude.{◌≡◌, ◌^◌, ◌-◌, ◌*◌, min};
ghost use Rattle.cb_hall.specs.Weight.{question_weight, request_weight};

use cb_base::{Hash256, Shared};
use cb_block::{Header, SoundBlock, Tx};
use cb_compact::ShortIds;
use cb_wire::{Differences, Entries, HeaderList, Locator};

/// The bytes that each entry of a list counts for in a journal.
const ENTRY_WEIGHT: u64 = 40;

/// A block from a peer.
#[derive(Drop)]
pub struct GivenBlock {
    /// The block.
    pub block: SoundBlock,
    /// Whether the peer knows compact blocks (BIP 152, `sendcmpct`).
    pub capable: bool,
}

/// What is needed to look for the transactions of a compact block (BIP 152).
#[derive(Drop)]
pub struct Sought {
    /// The block's header. With the nonce it makes the key of the short ids.
    pub header: Header,
    /// The nonce chosen by the compact block's sender.
    pub nonce: u64,
    /// The short ids. The answer shares them.
    pub ids: Shared<ShortIds>,
}

/// A peer's request for data.
#[derive(Drop)]
pub enum Request {
    /// Transactions and blocks (Bitcoin's protocol, `getdata`).
    Items(Entries),
    /// The headers of the best chain after a block locator, up to a stop hash (Bitcoin's protocol,
    /// `getheaders`).
    After(Locator, Hash256),
    /// The transactions of the block with this hash at the places with these differences (BIP 152,
    /// `getblocktxn`).
    Places(Hash256, Differences),
}

/// What a peer was told before, and what it wants to be told.
#[derive(Clone, Copy)]
pub struct ToldBefore {
    /// The tip that the peer was told last, if any.
    pub tip: Option<Hash256>,
    /// The arrival number of the first mempool transaction that the peer wasn't told.
    pub from: u64,
    /// Whether the tip's block is asked for.
    pub whole: bool,
}

/// What a session asks the hall.
#[derive(Drop)]
pub enum Question {
    /// May the next item or tick (timer event) be processed?
    Admit,
    /// The peer sent headers: which of their blocks are lacking?
    Headers(HeaderList),
    /// What is the chain's block locator?
    Locator,
    /// The peer announced transactions and blocks: which are wanted?
    Want(Entries),
    /// The peer sent a transaction.
    GiveTx(Shared<Tx>),
    /// The peer sent a block.
    GiveBlock(GivenBlock),
    /// The peer requests data.
    Serve(Request),
    /// What is new since the peer was told last?
    News(ToldBefore),
    /// The peer sent a compact block: which transactions of the mempool may be in it?
    Match(Shared<Sought>),
}

/// The bytes that a list of this length counts for.
fn list_weight(count: usize) -> u64
    ensures { result ≡ min (40 * count) (2 ^ 64 - 1) }
{
    ENTRY_WEIGHT.saturating_mul(count as u64)
}

impl Question {
    /// The bytes that the question's content counts for in a journal: those of a serialised
    /// transaction or block, or 40 for each entry of a list, capped at 2^64 - 1.
    pub fn weight(&self) -> u64
        ensures { result ≡ min (question_weight self.now) (2 ^ 64 - 1) }
    {
        match self {
            Question::Headers(headers) => list_weight(headers.as_slice().len()),
            Question::Want(entries) => list_weight(entries.as_slice().len()),
            Question::Serve(request) => request.weight(),
            Question::GiveTx(tx) => tx.size(),
            Question::GiveBlock(given) => given.block.block().size(),
            Question::Match(sought) => list_weight(sought.ids.as_slice().len()),
            Question::Admit | Question::Locator | Question::News(_) => 0,
        }
    }
}

impl Request {
    /// The bytes that the request's list counts for.
    fn weight(&self) -> u64
        ensures { result ≡ min (request_weight self.now) (2 ^ 64 - 1) }
    {
        match self {
            Request::Items(entries) => list_weight(entries.as_slice().len()),
            Request::After(locator, _) => list_weight(locator.as_slice().len()),
            Request::Places(_, differences) => list_weight(differences.as_slice().len()),
        }
    }
}
