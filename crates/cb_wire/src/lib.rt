//! Messages of Bitcoin's peer-to-peer protocol, their envelopes, and the stream of bytes that they
//! arrive in. An envelope is a whole message as it is sent: a header of 24 bytes and the payload.
//!
//! A payload is read from left to right. Each value is written in exactly one way: these bytes are
//! its text. A payload of several fields has a file of its own.
//!
//! To add a command, add one row to each match in two files: command.rt (its name) and message.rt
//! (its payload). The definitions have the same rows: specs/Command.antt (name) and
//! specs/Grammar.antt (payload).
#![tactic(auto)]

mod assembler;
mod block_transactions;
mod bounded;
mod codec;
mod command;
mod compact_block;
mod compact_laws;
mod envelope;
mod inventory;
mod item;
mod laws;
mod listed;
mod lists;
mod message;
mod payload;
mod payload_hashes;
mod payload_laws;
mod prefilled;
mod requests;
mod short_form;
mod short_ids;
mod tx_lists;
mod version;

pub use assembler::{Assembler, Fed};
pub use block_transactions::{
    BlockTransactions, BlockTransactionsRequest, Differences, put_block_txs, put_txs_request,
    read_block_txs, read_txs_request,
};
pub use bounded::BoundedMessage;
pub use codec::{decode, encode, encode_into, put_envelope};
pub use command::{Command, UnknownName};
pub use compact_block::{HeaderAndShortIds, put_compact_block, read_compact_block};
pub use compact_laws::{
    beginnings_of_compact_blocks_are_truncated, compact_blocks_are_read_as_written,
};
pub use envelope::{
    Front, HEADER_LEN, PAYLOAD_LIMIT, command_of, front_of, has_checksum, item_of, payload_of,
};
pub use inventory::{Entries, HeaderList, Inventory, Locator, MOST_ENTRIES, OtherKind};
pub use item::Item;
pub use laws::{
    commands_are_names_and_zeros, good_items_are_envelopes, one_reading, readings_go_on,
    some_reading, texts_are_a_stream,
};
pub use listed::Listed;
pub use lists::{entries_size, headers_size, locator_size, read_list};
pub use message::Message;
pub use payload::Payload;
pub use payload_laws::{
    lists_are_read_as_written, requests_are_read_as_written, versions_are_read_as_spelled,
};
pub use prefilled::PrefilledTransaction;
pub use requests::{
    CompactRelay, HeadersRequest, put_compact_relay, put_request, read_compact_relay, read_request,
};
pub use short_form::{CompactTxs, MOST_BLOCK_TXS};
pub use version::{
    Agent, BorrowedVersion, NetAddress, Version, borrow_version, put_version, read_version,
};
