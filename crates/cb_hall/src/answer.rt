use cb_base::Fault;
use cb_compact::Pairs;
use cb_state::{Excerpt, Heads, Need, News, Pieces, Taken};
use cb_wire::{HeaderList, Locator};

/// The hall's answer to a session's question. Each of its lists, transactions and blocks fits in a
/// message. `Pairs` is the exception: it is for the session itself.
#[derive(Drop)]
pub enum Answer {
    /// The next item or tick may be processed.
    Go,
    /// The connection was kicked. Each of its questions gets this answer from then on.
    Kicked,
    /// The outcome of the headers.
    Heads(Heads),
    /// The chain's block locator.
    Locator(Locator),
    /// Which inventory entries are wanted.
    Need(Need),
    /// Why the transaction was refused; `None` if it came into the mempool.
    TxTaken(Option<Fault>),
    /// The outcome of the block.
    Taken(Taken),
    /// The transactions and blocks that were asked for, as far as they are there.
    Served(Pieces),
    /// The headers of the best chain after a locator.
    Following(HeaderList),
    /// The news: what changed since it was last asked.
    News(News),
    /// The mempool's transactions that may be in a compact block. `Pairs::list` finds them later,
    /// when nobody waits for the hall.
    Pairs(Pairs),
    /// The transactions at places of a block, or the block.
    Excerpt(Excerpt),
}
