ghost use Rattle.cb_audit.specs.Audit.{Audits};
ghost use Rattle.cb_audit.specs.Order.{AreInOrder};

use crate::audited::Audited;
use crate::comparing::compare;
use crate::counting::first_uneven;
use crate::covering::{Compared, covered};
use cb_hall::Hall;
use cb_state::Connection;
use std::alloc::Global;

/// Why an audit doesn't say yes.
#[derive(Clone, Copy, PartialEq, Eq)]
pub enum Split {
    /// There isn't enough memory to compare questions and answers.
    Memory,
    /// The hall granted this connection another number of questions than its trace has answers.
    Count(Connection),
    /// A question or an answer of this connection differs at this place, counted from 0 at the
    /// connection's first answer.
    Differs(Connection, u64),
}

/// Compares a hall's journal with the traces of its connections, those of the past too. The traces
/// must be in the order of their connections: by peers, and those of one peer by generations. A
/// connection without a trace was told nothing.
///
/// First the numbers are compared: how many questions the hall granted, and how many answers there
/// are, also those before the bases of hall and traces. Then each question of the journal is
/// compared with the question that its session had open, and the hall's answer to it, which is
/// found by replaying the journal, with the one that the session was told. What the hall or a trace
/// has dropped can't be compared. Returns how many answers were compared, and how many were
/// dropped.
///
/// Fails with the first of these:
/// - `Split::Count` with the first connection whose numbers differ;
/// - `Split::Differs` with the first connection whose questions or answers differ, and the first
///   place that does; or `Split::Memory`.
pub fn audit(alloc: Global, hall: &Hall, audited: &[Audited]) -> Result<Compared, Split>
    requires order { AreInOrder audited.now }
    ensures { Audits hall.now audited.now result }
{
    let journal = hall.record();
    if let Some(connection) = first_uneven(journal, audited) {
        return Err(Split::Count(connection));
    }
    match compare(alloc, journal, audited) {
        Ok(None) => Ok(covered(journal.base().connections(), audited)),
        Ok(Some(found)) => Err(Split::Differs(found.connection, found.place)),
        Err(_) => Err(Split::Memory),
    }
}
