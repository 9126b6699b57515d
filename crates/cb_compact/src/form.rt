use cb_base::Shared;
use cb_block::{Header, Tx};

/// A prefilled transaction of a compact block: the transaction itself, with its index in the block
/// (place), from 0.
#[derive(Drop)]
pub struct Prefilled {
    pub place: u64,
    pub tx: Shared<Tx>,
}

/// A compact block (BIP 152, version 1): the header, some prefilled transactions, and the short ids
/// of all others, in order.
#[derive(Drop)]
pub struct Compact {
    pub header: Header,
    /// It goes into the key of the short ids, so that they differ from those of another sender.
    pub nonce: u64,
    pub ids: Vec<u64>,
    pub prefilled: Vec<Prefilled>,
}
