//! The audit: whether the hall's journal and the traces of its connections tell one history. The
//! hall is what Bitcoin Core keeps in ChainstateManager and CTxMemPool; the journal is the log of
//! its calls. A trace is the log of the events that one connection's session was given.
//!
//! `traces` lists the traces of a crew's desks, `audit` compares a journal with them. Questions and
//! answers are compared part by part (`Same`).
#![tactic(auto)]

mod audited;
mod auditing;
mod comparing;
mod counting;
mod covering;
mod desk_counting;
mod desks;
mod heard;
mod laws;
mod place;
mod same;
mod same_answers;
mod same_faults;
mod same_lists;
mod same_questions;
mod same_transactions;
mod turns;

pub use audited::{Audited, are_in_order};
pub use auditing::{Split, audit};
pub use covering::Compared;
pub use desks::{audit_desks, traces};
pub use laws::each_answer_has_its_question;
