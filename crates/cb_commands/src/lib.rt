//! The commands that need no node: `decode`, which prints the items of a stream of P2P messages,
//! one per line, and `sim`, which runs the core of a crew, without threads, from lines of text.
#![tactic(auto)]

mod decoding;
mod printed;
mod sim;
mod simulating;

pub use decoding::{Decoding, decode};
pub use printed::{push_fault, push_items};
pub use sim::{Flow, Simulation};
pub use simulating::simulate;
