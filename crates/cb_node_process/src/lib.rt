//! A node as a process: it listens, dials, relays, answers an operator's lines and calls of
//! JSON-RPC, logs, and ends with an audit.
//!
//! A call that reads chain or mempool locks the hall for a short time. What is told are owners: who
//! asked makes text of them.
#![tactic(auto)]

mod call_answering;
mod calling;
mod calls;
mod chain_answers;
mod entries;
mod forks;
mod interfaces;
mod mempool_answers;
mod order_answering;
mod outputs;
mod peer_calls;
mod reading;
mod refusing;
mod running;
mod survey;
mod tx_answers;

pub use call_answering::answer;
pub use outputs::is_made;
pub use running::run_node;
pub use survey::Survey;
