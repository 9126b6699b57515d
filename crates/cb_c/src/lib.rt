//! The C library: each function that `include/cbrelay.h` declares. Each takes the caller's memory
//! and keeps none of it. An export tells a result of `cb_relay` as a status.
#![tactic(auto)]

mod blocks;
mod compact;
mod giving;
mod hashes;
mod headers;
mod messages;
mod naming;
mod readers;
mod status;
mod txs;
