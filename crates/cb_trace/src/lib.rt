//! The trace of a connection: the log of the events that its session was given. Replaying them
//! gives the session's questions and messages again.
//!
//! An oracle is what a session's questions go to. A hall is one: what Bitcoin Core keeps in
//! ChainstateManager and CTxMemPool.
#![tactic(auto)]

mod asking;
mod laws;
mod oracle;
mod trace;

pub use laws::{
    a_block_being_rebuilt_was_missing, bandwidth_wishes_alternate, blocks_are_fetched_as_told,
    each_block_given_is_the_only_sound_list, each_ping_is_answered, each_probe_is_a_ping,
    each_session_is_reached, few_questions_are_pending, headers_are_told_where_asked_for,
    no_nonce_is_used_twice, send_headers_goes_out_once, settings_stay,
};
pub use oracle::Oracle;
pub use trace::{Counts, Trace, TraceEntry};
