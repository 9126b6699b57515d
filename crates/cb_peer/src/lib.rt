//! The state machine of one peer's connection. It turns events into messages to send and into
//! questions for the hall. The hall is what Bitcoin Core keeps in ChainstateManager and CTxMemPool.
//!
//! The machine does no input or output and calls nobody: everything reaches it as an event.
//! `receiving` handles the peer's messages, `replying` the hall's answers.
#![tactic(auto)]

mod compact_receiving;
mod compact_replying;
mod receiving;
mod replying;
mod session;
mod stepping;

pub use cb_peer_state::{
    CloseReason, Event, Marks, Peer, Pending, SessionState, Settings, Stage, State, Subject,
};
pub use receiving::process;
pub use replying::reply;
pub use session::Session;
