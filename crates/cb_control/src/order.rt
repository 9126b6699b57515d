//! What a node is asked to do.
use cb_base::{Hash256, Shared};
use cb_block::{Block, Tx};
use std::net::SocketAddr;

/// How many blocks one order mines at most.
pub const MOST_MINED: u16 = 1_000;

/// What an operator has a node do, or tell.
#[derive(Drop)]
pub enum Order {
    /// Do what scripts can ask for too.
    Do(Deed),
    /// Tell the best chain's tip.
    Tip,
    /// Tell what the chain has of a block.
    Block(Hash256),
    /// List the mempool.
    Pool,
    /// List the connections that last.
    Peers,
    /// Connect to a peer, and again whenever the connection ends.
    Connect(SocketAddr),
    /// End the connection to a peer that is dialled, and dial it no more.
    Disconnect(SocketAddr),
    /// Whether the node has connections: `false` ends all of them and lets none begin, and `true`
    /// undoes that.
    Network(bool),
    /// Tell what all connections moved.
    Stats,
    /// End the node, audit it, and start another one over the same chain and mempool.
    Restart,
    /// End the node and audit it.
    Quit,
}

/// What an operator and a script can have a node do.
#[derive(Drop)]
pub enum Deed {
    /// Take a transaction.
    Tx(Shared<Tx>),
    /// Take a block. Whether its transactions are those of its header isn't known here.
    Submit(Shared<Block>),
    /// Mine so many blocks, one after another, and take them.
    Mine(u16),
    /// End the connection of a slot.
    Kick(u16),
    /// Let the hall drop its log of calls.
    Checkpoint,
}
