//! What a session of one peer keeps and is given, the definition of all that it does, and what
//! holds for every session, whatever events it is given. The hall that it asks is what Bitcoin Core
//! keeps in ChainstateManager and CTxMemPool.
//!
//! A session keeps the blocks that it downloads from its peer (`getdata`). At most 2,000 are queued
//! (here: wanted), and at most 16 more are in flight: requested, and not received yet. No block is
//! in flight twice, and none is queued twice.
//!
//! The messages that a session sends (its handshake, its requests, its answers and its
//! announcements) are made here, wait here to go out, and are written here.
#![tactic(auto)]

mod announcing;
mod compact;
mod compact_laws;
mod event;
mod fetch;
mod fetch_laws;
mod greeting;
mod inventory;
mod laws;
mod message_queue;
mod message_sink;
mod outgoing;
mod pending;
mod reaction;
mod receipt;
mod resuming_laws;
mod room;
mod serving;
mod session_state;
mod settings;
mod stage;
mod state;
mod talk_laws;
mod unknown;
mod unknown_laws;
mod writing;

pub use announcing::{announce_block, announce_tip, announce_txs};
pub use compact::CompactState;
pub use compact_laws::{
    a_compact_block_is_not_held_against_its_peer, a_fallback_asks_for_the_whole_block,
    an_honest_block_is_rebuilt, bandwidth_wishes_alternate,
    compact_blocks_are_announced_where_asked_for, each_compact_block_has_its_nonce,
    missing_transactions_are_requested, one_block_is_rebuilt_at_a_time,
};
pub use event::Event;
pub use fetch::{Fetch, MOST_IN_FLIGHT, MOST_WANTED};
pub use fetch_laws::{
    each_is_fetched_once, limits_hold, none_is_asked_for_twice, what_falls_back_is_asked_for,
    what_is_left_out_has_no_room, what_is_listed_stands_last, what_is_needed_is_fetched,
};
pub use greeting::{our_version, wish, wishes};
pub use inventory::{asking_block, asking_for, asking_headers, asking_txs};
pub use laws::{
    a_tip_is_not_told_to_its_source, few_blocks_are_fetched, headers_are_sent_where_asked_for,
    no_block_in_flight_is_asked_for, only_the_handshake_counts, questions_run_out,
    sound_blocks_are_given, what_the_hall_has_is_served,
};
pub use message_queue::{MESSAGE, MOST_TOGETHER, MessageQueue, QueueFault, Waiting};
pub use message_sink::{MessageSink, WriteEnd, WriteFault, spell_to};
pub use outgoing::Outgoing;
pub use pending::Pending;
pub use reaction::{NextQuestion, Reaction, hash_of_last, locator_of, one_message, push_some};
pub use receipt::Receipt;
pub use resuming_laws::{
    headers_are_requested_as_soon_as_nothing_is_wanted,
    headers_are_requested_from_what_is_remembered, no_missing_block_is_left_out,
    nothing_joins_the_wanted_meanwhile,
};
pub use room::Room;
pub use serving::{send_excerpt, served, shorts};
pub use session_state::SessionState;
pub use settings::Settings;
pub use stage::{Stage, Subject};
pub use state::{CloseReason, Marks, Peer, State};
pub use talk_laws::each_form_has_its_own_nonce;
pub use unknown::is_orphan;
pub use unknown_laws::{
    a_block_waits_for_its_parent, a_peer_that_said_no_is_told_no_transactions,
    headers_are_requested_once_for_what_is_unknown, what_is_requested_is_waited_for,
};
pub use writing::write_out;
