//! What a node tells of its chain, its connections and itself.
ghost use Rattle.std.specs.Prelude.{◌≡◌};
ghost use Rattle.cb_control.specs.ReplyText.{phase_name};

use crate::moved::Moved;
use cb_base::Hash256;
use std::net::SocketAddr;

/// The best chain's tip.
#[derive(Clone, Copy)]
pub struct Tip {
    /// Its height; the genesis block has height 0.
    pub height: u32,
    /// Its hash.
    pub hash: Hash256,
}

/// What the chain has of a block.
#[derive(Clone, Copy)]
pub struct BlockReport {
    /// Its hash.
    pub hash: Hash256,
    /// Its height.
    pub height: u32,
    /// How many transactions it has, if it is kept and not marked bad.
    pub txs: Option<usize>,
    /// Whether it is on the best chain.
    pub best: bool,
}

/// How far a session is.
#[derive(Clone, Copy)]
pub enum Phase {
    /// No `version` has come from the peer.
    Start,
    /// The peer's `version` has come.
    Greeted,
    /// The peer's `verack` has come too: the handshake is complete.
    Ready,
    /// The session is over, and the connection about to be closed.
    Over,
}

impl Phase {
    /// Its name, such as `ready`.
    pub fn name(self) -> &'static str
        ensures { result.now ≡ phase_name self }
    {
        match self {
            Phase::Start => "start",
            Phase::Greeted => "greeted",
            Phase::Ready => "ready",
            Phase::Over => "over",
        }
    }
}

/// What a peer's `version` tells of it.
#[derive(Drop)]
pub struct Greeting {
    /// Its protocol version.
    pub version: i32,
    /// The height of its best chain.
    pub height: i32,
    /// Its user agent (BIP 14), as it sent it: any bytes.
    pub agent: Vec<u8>,
}

/// A connection that lasts.
#[derive(Drop)]
pub struct PeerReport {
    /// Its slot.
    pub slot: u16,
    /// Its generation among the slot's connections; the first is 1.
    pub generation: u64,
    /// Whether the peer connected to the node.
    pub inbound: bool,
    /// Where the peer is.
    pub address: SocketAddr,
    /// How far its session is.
    pub phase: Phase,
    /// What it moved so far.
    pub moved: Moved,
    /// When it was made, in seconds since 1970.
    pub since: i64,
    /// When its latest whole message came, in seconds since 1970, if one came.
    pub last: Option<i64>,
    /// How many milliseconds its latest `pong` took, if one came.
    pub pong: Option<u64>,
    /// What the peer's first `version` told, if one came.
    pub greeting: Option<Greeting>,
}

/// What all connections moved.
#[derive(Clone, Copy)]
pub struct StatsReport {
    /// For how many seconds the node has run.
    pub seconds: u64,
    /// How many connections last.
    pub lasting: u64,
    /// How many connections there were, with those that last.
    pub all: u64,
    /// What they moved.
    pub moved: Moved,
    /// How many connections were closed at once, since a limit stood against them.
    pub refused: u64,
}
