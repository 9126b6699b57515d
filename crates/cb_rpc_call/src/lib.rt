//! Calls of JSON-RPC under the names, parameters and error numbers of Bitcoin Core's daemon: how a
//! request is read as a call, and why one is refused.
//!
//! The members of JSON objects are written here too, in that daemon's forms: numbers, amounts,
//! hashes, bytes in hex, and lists. Each function writes one, and fails only for memory.
#![tactic(auto)]

mod amount;
mod arguments;
mod call;
mod chain_calls;
mod control_calls;
mod fault;
mod field;
mod lacking;
mod list;
mod mempool_calls;
mod method;
mod peer_calls;
mod reading;
mod status;
mod words;

pub use amount::{amounts_are_exact, put_amount, put_millis};
pub use call::{Aim, Call, Detail, ReadCall, Whom};
pub use fault::{Lacking, RpcFault};
pub use field::{
    put_bytes, put_empty, put_exact, put_hash, put_hash_text, put_hex, put_number, put_signed,
    put_switch, put_text,
};
pub use list::{ListItem, put_items, put_list, put_list_member};
pub use method::{METHODS, Method};
pub use reading::read_call;
pub use status::ResponseStatus;
pub use words::{block_words, header_words, reject_words};
