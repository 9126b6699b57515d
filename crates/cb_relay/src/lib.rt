//! The proved parts over byte strings: hashes, headers, transactions, blocks, compact blocks (BIP
//! 152) and messages of Bitcoin's peer-to-peer protocol. What a caller gives are serialisations and
//! payloads, and so is what it gets.
//!
//! Bytes are read as a whole: what is left over is `Fault::Trailing`. A fault is that of the first
//! reading that fails, in the order that a function tells. `Fault::Memory` is told only where
//! memory was asked for.
#![tactic(auto)]

mod blocks;
mod compacting;
mod completing;
mod envelope;
mod fields;
mod hashes;
mod headers;
mod known;
mod laws;
mod lists;
mod merkle;
mod message;
mod message_laws;
mod message_shapes;
mod parts;
mod rebuilding;
mod serving;
mod shapes;
mod spans;
mod txs;
mod whole;

pub use blocks::{sound_block, valid_block, whole_block};
pub use compacting::compact_block;
pub use completing::complete_block;
pub use envelope::{CutEnvelope, envelope_at};
pub use fields::{nonce_read, sendcmpct_read, version_read};
pub use hashes::{block_hash, txid};
pub use headers::{check_work, header_fields, header_from_fields, whole_header};
pub use known::rebuild_block_known;
pub use laws::what_lies_there;
pub use lists::{
    LocatorParts, RequestParts, getblocktxn_read, getheaders_read, headers_read, inventory_read,
};
pub use merkle::{Root, hashes_of, merkle_root};
pub use message::{NoMessage, message_check, message_write};
pub use message_laws::{
    known_txids_change_nothing, what_is_rebuilt_is_the_block, what_is_written_is_a_message,
};
pub use message_shapes::{CbAddress, CbCompact, CbEntry, CbPrefilled, CbVersionFields};
pub use parts::{TxParts, block_spans, spans_from, tx_parts};
pub use rebuilding::{CompactOutcome, Kind, block_transactions_request, rebuild_block};
pub use serving::block_transactions;
pub use shapes::{CbHash, CbHeader, CbInput, CbKey, CbOutput, CbSpan, CbTx};
pub use spans::{CompactParts, TxsParts, blocktxn_read, cmpctblock_read};
pub use txs::{check_rules, whole_tx};
