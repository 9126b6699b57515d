//! A crew: a few handlers that serve the items of many peers. Each peer's items are served in
//! order, each once; different peers are served side by side. The crew knows nothing of Bitcoin: it
//! runs any `Work`.
//!
//! A peer's inbox is a bounded queue between two threads. One reader queues in it and one taker
//! takes from it, connection after connection. A desk is what serves one peer. It waits in the
//! ring, the run queue, or one handler holds it.
//!
//! The crew's core (`System`) is a state machine without threads, whose steps are called acts. It
//! says what acts in any order do to the inboxes and the desks.
#![tactic(auto)]

mod act;
mod crew;
mod crew_laws;
mod desk;
mod finish;
mod handler;
mod inbox;
mod inbox_model;
mod new_crew;
mod note;
mod past;
mod queued;
mod reader;
mod reader_side;
mod ring;
mod ring_rule;
mod rule;
mod system;
mod taker;
mod work;

pub use act::{Act, Mark};
pub use crew::Crew;
pub use crew_laws::{
    connections_in_order, each_desk_once, inboxes_within_capacity, items_in_order, never_stuck,
    one_step_for_each_act, opens_follow_ends, queued_is_taken_then_inbox, reached_as_data,
    taken_only_grows,
};
pub use desk::{Count, Desk};
pub use handler::{Handler, TurnOutcome};
pub use inbox::Inbox;
pub use new_crew::NewCrew;
pub use note::Note;
pub use queued::{Opening, Queued};
pub use reader::{EndedSeat, Full, NotOpened, ReaderSeat};
pub use reader_side::ReaderSide;
pub use ring::{Hand, Ring};
pub use ring_rule::Travels;
pub use system::System;
pub use taker::TakerSeat;
pub use work::{Fresh, Given, Work};
