//! What all other crates build on: faults, hashes (SHA-256, SipHash), shared values, reading and
//! writing of numbers, and the sources and sinks of bytes.
//!
//! SHA-256 takes four messages that don't depend on each other at a time, one in each lane of a
//! vector, by some 2.6 times fewer instructions than one after another: the nodes of a level of a
//! Merkle tree, the transactions of a block, the headers of a message.
#![tactic(auto)]

mod blocks;
mod compact_size;
mod compression;
mod copying;
mod cursor;
mod fault;
mod hash;
mod hashing;
mod padding;
mod read_end;
mod seed;
mod shared;
mod sink;
mod sip_hash;
mod source;
mod words;
mod writing;

pub use compact_size::{one_spelling, put_compact};
pub use copying::copy_bytes;
pub use cursor::Cursor;
pub use fault::{Fault, TxRule};
pub use hash::{Hash256, dsha, sha};
pub use hashing::{dsha_64s, dsha_80s, dsha_four};
pub use read_end::ReadEnd;
pub use seed::{Keys, Seed};
pub use shared::Shared;
pub use sink::{Out, Sink, SinkFailure};
pub use sip_hash::sip24;
pub use source::{In, Source};
pub use writing::{Unwritten, write_all};
