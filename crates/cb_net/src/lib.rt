//! The command `net`: plays a network of nodes in virtual time, and prints what happened. Each
//! honest node is a hall with a session for each link, the very same that run in a process, and
//! messages are handed over as values. Nodes that stall or lie make their messages by hand. All
//! follows from the settings: no clock, no thread and no order of a map is in it.
#![tactic(auto)]

mod audits;
mod beginning;
mod ending;
mod faults;
mod joining;
mod laws;
mod milliseconds;
mod mining;
mod net;
mod net_end;
mod playing;
mod printing;
mod progress;
mod rows;
mod running;
mod telling;
mod traffic;
mod world;

pub use cb_net_node::{BlockResult, COMMANDS, Ending, NAMES, Row, Traffic, Way};
pub use laws::a_good_end_is_one_for_all;
pub use net::Net;
pub use playing::run_net;
pub use progress::Progress;
