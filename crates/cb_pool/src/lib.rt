//! The mempool (here: the pool): transactions that wait for a block, each of which can be spent
//! after those before it. They are checked against the UTXO set (here: the ledger, see
//! `cb_ledger`).
#![tactic(auto)]

mod apart;
mod candidate;
mod checking;
mod coins;
mod laws;
mod marks;
mod members;
mod pool;
mod refolding;
mod thinning;

pub use candidate::Candidate;
pub use laws::{
    each_spends_what_is_there, each_stands_alone, none_is_spent_twice, numbers_differ, one_fold,
    stays_as_it_is, stays_behind_others,
};
pub use members::MOST_TXS;
pub use pool::Pool;
pub use refolding::Refolding;
pub use thinning::Thinning;
