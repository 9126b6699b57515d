//! The parts of a network in virtual time: its nodes, each a hall with its ends of links; its
//! links, which are joined, cut and joined again; the transactions that it relays; nodes that stall
//! or lie, whose messages are made by hand; and what is counted of messages and blocks.
//!
//! A link between two nodes is their two sessions, and the messages that are on their way from one
//! to the other. Messages are handed over as values, without bytes.
#![tactic(auto)]

mod end;
mod ends;
mod exchanging;
mod forged_link;
mod forging;
mod joined;
mod lies;
mod link;
mod loose_link;
mod net_link;
mod node;
mod results;
mod side;
mod traffic;
mod transit;
mod wallet;
mod way;

pub use end::Start;
pub use exchanging::exchange;
pub use forged_link::ForgedLink;
pub use joined::Joined;
pub use lies::{LIES, Misdeed, answer, opening};
pub use link::{LinkEnd, SimulatedLink};
pub use loose_link::LooseLink;
pub use net_link::NetLink;
pub use node::SimulatedNode;
pub use results::{Arrivals, BlockResult, Ending};
pub use side::Side;
pub use traffic::{COMMANDS, NAMES, Row, Traffic};
pub use transit::{Transit, wire_size};
pub use wallet::Wallet;
pub use way::Way;
