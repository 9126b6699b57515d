//! Driving nodes. What the commands `run` and `node` share: what a node does for a line of either,
//! why it refuses, and the audit of a node that has ended. And the command `run`, which plays a
//! script with nodes that are joined over loopback sockets.
#![tactic(auto)]

mod auditing;
mod deeds;
mod moving;
mod nodes;
mod playing;
mod refusing;
mod report;
mod running;
mod stats;

pub use auditing::{audit_end, finish_audited};
pub use deeds::{perform, tip_of};
pub use moving::moved_of;
pub use nodes::{Nodes, RunSizes};
pub use playing::{Played, play};
pub use refusing::refusal_of;
pub use report::NodeReport;
pub use running::{RunOrders, run_nodes};
