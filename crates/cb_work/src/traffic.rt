ghost use Rattle.std.specs.Prelude.{◌≡◌};
ghost use Rattle.cb_work.specs.Bringing.{brought_by};

use crate::due::ToldTip;
use cb_base::Fault;
use cb_peer_state::State;

/// How a block came that was handed to the hall.
#[derive(Clone, Copy, Debug, PartialEq, Eq)]
pub enum BlockPath {
    /// As a `block`.
    Full,
    /// As a `cmpctblock` (BIP 152) from which the block could be rebuilt at once.
    Compact,
    /// As a `cmpctblock` and a `blocktxn` with the transactions that were missing.
    Completed,
    /// As a `block`, asked for in full because the block couldn't be rebuilt from its
    /// `cmpctblock`.
    Fallback,
}

/// A block that a peer gave: it was handed to the hall, and it was in flight or new to the hall.
#[derive(Clone, Copy, Debug, PartialEq, Eq)]
pub struct Brought {
    /// How it came.
    pub path: BlockPath,
    /// The number of payload bytes of the messages that brought it: of its `block`, or of its
    /// `cmpctblock` and `blocktxn`. `u64::MAX` if that of the `cmpctblock` isn't known any more.
    pub payload: u64,
}

impl Brought {
    /// What counts of a block that was handed to the hall: whether it was in flight before, and why
    /// the hall refused it, if it did. One that nobody asked for and that the hall knew or couldn't
    /// take isn't given.
    pub fn of(
        path: BlockPath,
        payload: u64,
        in_flight: bool,
        refused: Option<Fault>,
    ) -> Option<Brought>
        ensures { result ≡ brought_by path payload in_flight refused }
    {
        if in_flight || refused.is_none() {
            Some(Brought { path, payload })
        } else {
            None
        }
    }
}

/// What one step of a connection moved, and how far its session is then.
#[derive(Clone, Copy, PartialEq, Eq)]
pub struct StepTraffic {
    /// The number of messages read: 0 or 1.
    pub messages: u64,
    /// The number of payload bytes of the item, which has left the inbox.
    pub payload: u64,
    /// The number of bytes written, as far as the sink told.
    pub written: u64,
    /// The number of messages written, or taken by a sink that keeps them.
    pub sent: u64,
    /// The number of messages read that are a `pong` (BIP 31): 0 or 1.
    pub pongs: u64,
    /// How many blocks are in flight after the step.
    pub flight: u64,
    /// Whether blocks are in flight or wanted after the step.
    pub fetching: bool,
    /// Whether headers of something unknown are awaited after the step.
    pub seeks: bool,
    /// What the peer was told of the tip, as of the end of the step.
    pub told: ToldTip,
    /// The block that the peer gave by the step, if it did.
    pub block: Option<Brought>,
    /// How far the session is after the step.
    pub state: State,
}

impl StepTraffic {
    /// Nothing was moved by a session that is so far. Nothing is in flight, wanted or awaited, and
    /// its peer was told nothing.
    pub fn nothing(state: State) -> StepTraffic {
        StepTraffic {
            messages: 0,
            payload: 0,
            written: 0,
            sent: 0,
            pongs: 0,
            flight: 0,
            fetching: false,
            seeks: false,
            told: ToldTip {
                tip: 0,
                high: false,
            },
            block: None,
            state,
        }
    }
}

/// What one connection moved so far. Each number stops at no bound: it wraps at 2^64.
#[derive(Clone, Copy, Debug, PartialEq, Eq)]
pub struct Totals {
    /// Messages read.
    pub messages: u64,
    /// Payload bytes of the messages read.
    pub payload: u64,
    /// Bytes written.
    pub written: u64,
    /// Messages written.
    pub sent: u64,
    /// Blocks that came as a `block`.
    pub full: u64,
    /// Blocks that were rebuilt from a `cmpctblock` at once.
    pub compact: u64,
    /// Blocks that were rebuilt from a `cmpctblock` and a `blocktxn`.
    pub completed: u64,
    /// Blocks that came as a `block` because they couldn't be rebuilt.
    pub fallback: u64,
    /// The bytes that short ids saved: of each block that was rebuilt, the bytes of its `block`'s
    /// payload less those of the payloads that brought it; 0 where that is below 0.
    pub saved: u64,
}
