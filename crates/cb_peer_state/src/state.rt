ghost use Rattle.std.specs.Prelude.{◌≡◌, Some};

use cb_base::Hash256;
use std::fmt;

/// How far the handshake is, or that the session is over.
#[derive(Clone, Copy, PartialEq, Eq)]
pub enum State {
    /// No `version` has come from the peer.
    Start,
    /// The peer's `version` has come.
    Greeted,
    /// The peer's `verack` has come too: the handshake is complete.
    Ready,
    /// The session is over.
    Closed(CloseReason),
}

impl State {
    ghost use Rattle.cb_peer_state.specs.State.{is_closed, is_ready};

    /// Whether the session is over.
    pub fn is_closed(&self) -> bool
        ensures { result ≡ is_closed self.now }
    {
        match self {
            State::Closed(_) => true,
            State::Start | State::Greeted | State::Ready => false,
        }
    }

    /// Whether the handshake is complete and the session isn't over.
    pub fn is_ready(&self) -> bool
        ensures { result ≡ is_ready self.now }
    {
        match self {
            State::Ready => true,
            State::Start | State::Greeted | State::Closed(_) => false,
        }
    }
}

/// Why a session is over.
#[derive(Clone, Copy, PartialEq, Eq)]
pub enum CloseReason {
    /// The peer's stream ended, or wasn't read any further.
    Bye,
    /// The peer's stream has a framing fault, such as wrong network magic.
    BadStream,
    /// The payload of a known command couldn't be parsed, or a message made no sense.
    BadMessage,
    /// A header or a block broke a rule.
    BadBlock,
    /// A request named something impossible: a place past a block's end (`getblocktxn`).
    BadRequest,
    /// The peer's protocol version is too old.
    OldPeer,
    /// The peer is this node itself.
    SelfPeer,
    /// The node's owner kicked the connection.
    Kicked,
    /// Memory ran out.
    Memory,
    /// The trace, the log of the connection's events, has reached its limit of 2^62 entries.
    TraceFull,
    /// The hall (Bitcoin Core: ChainstateManager and CTxMemPool) grants no more questions.
    HallFull,
    /// A write failed.
    WriteFault,
}

impl CloseReason {
    ghost use Rattle.cb_peer_state.specs.State.{reason_name};

    /// The reason's name for printing, such as `BadBlock`.
    pub fn name(&self) -> &'static str
        ensures { result.now ≡ reason_name self.now }
    {
        match self {
            CloseReason::Bye => "Bye",
            CloseReason::BadStream => "BadStream",
            CloseReason::BadMessage => "BadMessage",
            CloseReason::BadBlock => "BadBlock",
            CloseReason::BadRequest => "BadRequest",
            CloseReason::OldPeer => "OldPeer",
            CloseReason::SelfPeer => "SelfPeer",
            CloseReason::Kicked => "Kicked",
            CloseReason::Memory => "Memory",
            CloseReason::TraceFull => "TraceFull",
            CloseReason::HallFull => "HallFull",
            CloseReason::WriteFault => "WriteFault",
        }
    }
}

impl fmt::Display for CloseReason {
    ghost use Rattle.cb_peer_state.specs.State.{reason_name};

    ghost output = { λ reason. Some (reason_name reason) };

    fn fmt<W: fmt::Write>(&self, f: &mut fmt::Formatter<W>) -> fmt::Result {
        let name = self.name();
        write!(f, "{name}")
    }
}

/// What a peer told about itself.
#[derive(Clone, Copy, PartialEq, Eq)]
pub struct Peer {
    /// Its protocol version.
    pub version: i32,
    /// Whether it wants transactions to be announced (BIP 37): what its `version` said.
    pub relays: bool,
    /// Whether it wants blocks announced by their headers (BIP 130).
    pub by_headers: bool,
    /// Whether it supports compact blocks of version 1 (BIP 152).
    pub capable: bool,
    /// Whether it wants compact blocks without asking: high-bandwidth mode (BIP 152).
    pub wants_high: bool,
}

/// What a session and its peer announced to each other.
#[derive(Clone, Copy, PartialEq, Eq)]
pub struct Marks {
    /// The last block that the peer told of by `headers`, `cmpctblock` or `block`.
    pub heard: Option<Hash256>,
    /// The tip that the peer was told last.
    pub tip: Option<Hash256>,
    /// The arrival number of the first mempool transaction that the peer wasn't told of.
    pub next: u64,
}
