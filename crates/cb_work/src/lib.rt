//! A peer's session as the work of a crew's desk: the work of one connection, which gives its
//! session what the peer sent, asks the hall behind its lock, and writes what the session sends.
//! The hall is what Bitcoin Core keeps in ChainstateManager and CTxMemPool.
#![tactic(auto)]

mod asked_hall;
mod carried;
mod connection_status;
mod due;
mod flags;
mod outlet;
mod peer_work;
mod seen;
mod shared_hall;
mod traffic;

pub use cb_crew::{Given, Work};
pub use cb_hall::{Badge, Hall};
pub use cb_peer::Settings;
pub use cb_peer_state::MessageSink;
pub use cb_session::Input;
pub use cb_trace::{Oracle, Trace};
pub use connection_status::{ConnectionStatus, PeerFlags};
pub use due::{ToldTip, due_places, each_due_stands_once};
pub use flags::{Beats, Flags};
pub use outlet::Outlet;
pub use peer_work::{NotStarted, PeerWork};
pub use seen::{Seen, ask_and_see, submit_and_see, tip_word};
pub use shared_hall::SharedHall;
pub use traffic::{BlockPath, Brought, StepTraffic, Totals};
