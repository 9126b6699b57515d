//! The program's command line, the outcome of each of its commands, and the command `serve`.
#![tactic(auto)]

mod commanding;
mod limit_words;
mod node_words;
mod rpc_words;
mod serve;

pub use cb_net::Progress;
pub use commanding::{
    Task, command, names_node, refuse_for_memory, refuse_foreign, refuse_unseeded, with_password,
    words_name_commands,
};
pub use node_words::BadWords;
