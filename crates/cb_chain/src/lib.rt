//! The chain: the tree of headers and blocks, the best chain in it, and the UTXO set of that chain
//! (here: the ledger, see `cb_ledger`). Bitcoin Core keeps these in `BlockManager` and
//! `Chainstate`. The first block is the genesis block.
#![tactic(auto)]

mod accepting;
mod block_index;
mod branch;
mod chain;
mod change;
mod chunk;
mod following;
mod headers;
mod index_list;
mod laws;
mod reorganising;
mod side_branch;
mod tree;

pub use accepting::MOST_HEIGHT;
pub use chain::Chain;
pub use change::{Change, Hashes};
pub use following::MOST_HEADERS;
pub use headers::Accepted;
pub use laws::{
    active_is_linked, has_history, kept_meet_rules, kept_once, ledger_is_folded,
    marked_for_a_reason, marked_is_never_spent, none_higher, one_tree,
};
