//! The ledger is the UTXO set. Blocks are connected to it and disconnected from it. An overlay
//! keeps changes apart from a ledger that stays as it is.
#![tactic(auto)]

mod base;
mod checking;
mod connecting;
mod laws;
mod ledger;
mod overlay;
mod undo;

pub use checking::sum_of;
pub use laws::{
    coinbases, few_outputs, no_value_made, one_after_the_other, spent_once, there_and_back,
};
pub use ledger::Ledger;
pub use overlay::Overlay;
pub use undo::{CoinChange, Undo};
