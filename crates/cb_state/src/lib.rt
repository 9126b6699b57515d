//! The state that a node's peers share: the chain, the mempool (called the pool), and the
//! announcers (the connections that are asked to announce new blocks as compact blocks, BIP 152). A
//! call that fails leaves all of it unchanged.
//!
//! It is read as well: a block and a header and where they stand, headers in the order of
//! acceptance, transactions that wait, and outputs that are unspent.
#![tactic(auto)]

mod accepting;
mod announcers;
mod blocks;
mod bounded;
mod connection;
mod entry_seed;
mod headers;
mod judging;
mod laws;
mod locator;
mod matching;
mod mining;
mod news;
mod outputs;
mod serving;
mod serving_places;
mod state;
mod wanting;

pub use accepting::{Heads, Taken};
pub use blocks::{BlockLook, block_look, is_marked};
pub use bounded::BoundedBlock;
pub use connection::Connection;
pub use headers::{HeaderLook, header_look, headers_from};
pub use laws::{first_block_meets_rules, one_answer};
pub use mining::{mined_meets_rules, one_mined_block};
pub use news::{Announced, MOST_ANNOUNCED, News, Txids};
pub use outputs::{OutputLook, output_look, pooled, value_below};
pub use serving::{Piece, Pieces};
pub use serving_places::{Excerpt, Part};
pub use state::Relay;
pub use wanting::Need;
