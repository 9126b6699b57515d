//! The hall: the state that a node's peers share, what Bitcoin Core keeps in ChainstateManager and
//! CTxMemPool, and the journal, the log of its calls. Each connection asks the hall its questions
//! under a badge (its permit). Each answer follows from the journal, whose entries determine the
//! state (state machine replication).
#![tactic(auto)]

mod answer;
mod badge;
mod connections;
mod copying;
mod entry;
mod hall;
mod hall_laws;
mod journal;
mod journal_laws;
mod mined;
mod question;
mod replica;
mod replying;
mod summary;

pub use answer::Answer;
pub use badge::Badge;
pub use connections::{Connected, Connections, PEERS};
pub use entry::{Entry, Local};
pub use hall::Hall;
pub use hall_laws::{
    each_badge_counts_its_questions, each_question_is_counted, few_announcers, mined_is_next_tip,
    one_hall, one_replay, who_was_kicked,
};
pub use journal::{JOURNAL_ENTRIES, JOURNAL_WEIGHT, Journal};
pub use journal_laws::{one_end, one_step};
pub use question::{GivenBlock, Question, Request, Sought, ToldBefore};
pub use replica::{MOST_CALLS, Replica};
pub use summary::Look;
