//! A node's process between two orders: its node, the connections that last, and the addresses that
//! it dials. It accepts, dials, ticks, ends what is late, and logs; and it starts and ends.
//!
//! What peers may do is decided over times in milliseconds, in limits.rt, watch.rt, doors.rt and
//! places.rt: which silent one ends, who is let in, and who gives its place away. These read no
//! clock and end no connection.
#![tactic(auto)]

mod admitting;
mod aiming;
mod dialling;
mod dials;
mod doors;
mod guarding;
mod host;
mod limits;
mod linking;
mod orders;
mod own_address;
mod places;
mod polling;
mod process;
mod reporting;
mod several;
mod start_fault;
mod stopwatch;
mod trying;
mod watch;
mod watching;

pub use aiming::targets_of;
pub use cb_rpc_serve::StartFault;
pub use dialling::{Target, is_target};
pub use doors::{Doors, at_most_ten};
pub use host::ProcessHost;
pub use limits::Limits;
pub use orders::NodeOrders;
pub use own_address::is_own;
pub use places::{Guest, who_leaves};
pub use process::{Process, is_well};
pub use several::{count_of, note_all, quietest};
pub use stopwatch::Stopwatch;
pub use watch::{Cause, DueAction, Sight, Watch};
pub use watching::{DisconnectReason, Watched};
