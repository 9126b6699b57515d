ghost use Rattle.std.specs.Prelude.{◌≡◌, ◌^◌, ◌-◌, min};
ghost use Rattle.cb_hall.specs.Weight.{entry_weight, local_weight};

use crate::question::Question;
use cb_base::Shared;
use cb_block::{Header, SoundBlock, Tx};
use cb_state::Connection;

/// The bytes that each entry of a journal counts for, beside its content.
const WEIGHT: u64 = 64;

/// The bytes of a header.
const HEADER_WEIGHT: u64 = 80;

/// A transaction, a block or a header from the node's own user.
#[derive(Drop)]
pub enum Local {
    /// A transaction.
    Tx(Shared<Tx>),
    /// A block.
    Block(SoundBlock),
    /// A header, whose block may come later.
    Header(Header),
}

impl Local {
    /// The bytes it counts for: those of its serialisation, capped at 2^64 - 1.
    fn weight(&self) -> u64
        ensures { result ≡ min (local_weight self.now) (2 ^ 64 - 1) }
    {
        match self {
            Local::Tx(tx) => tx.size(),
            Local::Block(block) => block.block().size(),
            Local::Header(_) => HEADER_WEIGHT,
        }
    }
}

/// One call that the hall granted, as the journal logs it.
#[derive(Drop)]
pub enum Entry {
    /// A connection asked a question.
    Asked(Connection, Question),
    /// A connection was kicked.
    Kick(Connection),
    /// A peer's next connection was opened.
    Opened(Connection),
    /// The node's own user submitted a transaction, a block or a header.
    Submitted(Local),
}

impl Entry {
    /// The bytes that the entry counts for in a journal: 64 and those of its content, capped at
    /// 2^64 - 1.
    pub fn weight(&self) -> u64
        ensures { result ≡ min (entry_weight self.now) (2 ^ 64 - 1) }
    {
        match self {
            Entry::Asked(_, question) => question.weight().saturating_add(WEIGHT),
            Entry::Submitted(local) => local.weight().saturating_add(WEIGHT),
            Entry::Kick(_) | Entry::Opened(_) => WEIGHT,
        }
    }
}
