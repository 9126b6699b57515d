//! What a node answers to an order.
use crate::refusal::Refusal;
use crate::report::{BlockReport, PeerReport, StatsReport, Tip};
use crate::verdict::Verdict;
use cb_base::Hash256;
use std::net::SocketAddr;

/// What a node answers to an order, each by one reply.
#[derive(Drop)]
pub enum Reply {
    /// Before any order: where the node listens.
    Listening(SocketAddr),
    /// To `Order::Tip`.
    Tip(Tip),
    /// To `Order::Block`.
    Block(BlockReport),
    /// To `Deed::Tx`: the transaction was taken. Its txid.
    Tx(Hash256),
    /// To `Deed::Submit`: the block was taken. Its hash.
    Submitted(Hash256),
    /// To `Deed::Mine`: so many blocks were mined, and this is the tip now.
    Mined(u16, Tip),
    /// To `Order::Pool`: the txids of the mempool.
    Pool(Vec<Hash256>),
    /// To `Order::Peers`: the connections that last.
    Peers(Vec<PeerReport>),
    /// To `Deed::Kick`: the slot whose connection is about to end.
    Kicked(u16),
    /// To `Order::Connect`: the address and the slot.
    Connected(SocketAddr, u16),
    /// To `Order::Disconnect`: the address.
    Disconnected(SocketAddr),
    /// To `Order::Network`: whether the node has connections now.
    Network(bool),
    /// To `Deed::Checkpoint`.
    Checkpoint,
    /// To `Order::Stats`.
    Stats(StatsReport),
    /// To `Order::Restart`: what the audit of the node that ended answers, and the tip of the new
    /// one.
    Restarted(Verdict, Tip),
    /// To `Order::Quit`, and at the end of input: what the audit answers.
    Audit(Verdict),
    /// To any order that was refused.
    Refused(Refusal),
}
