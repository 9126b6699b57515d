//! What a node is asked and what it answers: orders and replies as values, and how each front reads
//! the ones and prints the others. A front is a module of its own: an operator's lines, and
//! scripts.
//!
//! What the program's commands share is here too: reading lines of input and their words, writing
//! output, exit statuses and the reasons to stop early.
#![tactic(auto)]

mod ending;
mod host;
mod lines;
mod moved;
mod operator_line;
mod operator_text;
mod order;
mod output;
mod peer_line;
mod refusal;
mod reply;
mod report;
mod script_line;
mod script_text;
mod verdict;
mod words;
mod written;

pub use ending::{Halt, Status};
pub use host::Host;
pub use lines::LineReader;
pub use moved::Moved;
pub use operator_line::read_order;
pub use operator_text::{print_reply, write_reply, yes_no};
pub use order::{Deed, MOST_MINED, Order};
pub use output::write_all;
pub use refusal::Refusal;
pub use reply::Reply;
pub use report::{BlockReport, Greeting, PeerReport, Phase, StatsReport, Tip};
pub use script_line::{ScriptOrder, read_script_order};
pub use script_text::{Tally, write_outcome};
pub use verdict::Verdict;
pub use words::{cut, number, short};
pub use written::{read_block, read_hash, read_tx};
