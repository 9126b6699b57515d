//! Transactions, block headers, blocks and Merkle trees. A sound block is one whose transactions
//! are the only ones that fit its header.
//!
//! The text of a transaction, a header or a block is its serialisation, without the witnesses of
//! BIP 141. Each is read, written and held against the rules that it must meet by itself.
#![tactic(auto)]

mod block;
mod block_rules;
mod coded;
mod coding;
mod counting;
mod decision;
mod genesis_tx;
mod header;
mod laws;
mod listed_header;
mod lists;
mod merkle;
mod script;
mod size;
mod soundness;
mod tx;
mod tx_copying;
mod tx_reading;
mod tx_rules;
mod tx_writing;

pub use block::{Block, Txs};
pub use block_rules::check_block;
pub use coded::Coded;
pub use coding::{read_block, write_block};
pub use counting::read_count;
pub use decision::{sound_is_decided, sound_of};
pub use header::{
    BITS, Header, check_hashed_header, check_header, hash_with_work, hashes_of_four, read_header,
};
pub use laws::{
    beginning_of_block_is_truncated, beginning_of_header_is_truncated, one_block_text, one_root,
    one_sound_list,
};
pub use lists::{items_of, items_size, put_items, read_items};
pub use merkle::{mutated, root};
pub use script::Script;
pub use size::compact_size;
pub use soundness::{SoundBlock, genesis, sound, sound_by};
pub use tx::{Inputs, OutPoint, Outputs, Tx, TxIn, TxOut};
pub use tx_reading::{read_hash, read_tx};
pub use tx_rules::check_tx;
pub use tx_writing::{beginning_of_tx_is_truncated, one_text, write_tx};
