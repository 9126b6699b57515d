//! A node: sockets, threads and the hall that serve its peers' connections. Each connection has a
//! slot; a slot serves one connection after another. A few handler threads serve all slots, and a
//! reader thread reads each connection. Slots and the crew behind them are of any work.
//!
//! The headline of this repository is the contract of `finish`.
#![tactic(auto)]

mod choosing;
mod connecting;
mod crewing;
mod fault;
mod headline;
mod listening;
mod looking;
mod next_connection;
mod node;
mod opening;
mod peering;
mod reading;
mod serving;
mod settings;
mod slot;
mod starting;

pub use cb_audit::audit_desks as audit;
pub use cb_hall::{Answer, Hall, Local, Look};
pub use cb_peer::{CloseReason, State};
pub use cb_peers::Link;
pub use cb_session::{Input, Seat, Stop, read_loop};
pub use cb_state::{BlockLook, HeaderLook, OutputLook};
pub use cb_work::PeerWork;
pub use choosing::{has_left, lowest_unused};
pub use connecting::connect_to;
pub use crewing::{Crewed, crew_slots, shared, sides_of, start_handlers};
pub use fault::NodeFault;
pub use headline::finish;
pub use listening::Listening;
pub use next_connection::NextConnection;
pub use node::{Node, NodeEnd};
pub use opening::NodeWork;
pub use peering::IncomingConnection;
pub use settings::NodeSettings;
pub use slot::{Common, Slot};
