//! A simulated network before it runs: what it is made of, drawn from a seed; a queue of what is
//! due, in the order of virtual time; and the words of the command `net`, with the network that
//! they ask for.
#![tactic(auto)]

mod bad_net;
mod draws;
mod due;
mod links;
mod net_words;
mod options;
mod plan;
mod queue;
mod roles;
mod settings;

pub use bad_net::BadNet;
pub use draws::Draws;
pub use due::{DueEvent, LinkAct, LinkEvent};
pub use links::PlannedLink;
pub use net_words::net_settings_of;
pub use options::net_line;
pub use plan::Plan;
pub use queue::Queue;
pub use roles::Role;
pub use settings::{NetSettings, Partition, Restart, SettingsFault};
