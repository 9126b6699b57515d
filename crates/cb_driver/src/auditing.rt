//! The audit of a node that has ended.
ghost use Rattle.std.specs.Prelude.{◌≡◌};
ghost use Rattle.cb_hall.specs.Hall.{look_of};
ghost use Rattle.cb_audit.specs.Desks.{badge_count, traces_of};
ghost use Rattle.cb_driver.specs.Auditing.{CountsAll, IsAudited, TellsEnd, TellsVerdict};

use cb_audit::{Audited, Split, are_in_order, audit, traces};
use cb_control::{Host, Verdict};
use cb_crew::Desk;
use cb_hall::{Hall, Look};
use cb_node::{Node, NodeEnd, NodeWork};
use std::alloc::Global;
use std::sync::Wait;

/// Ends a node and all its threads, and audits it. Returns what is left of it, and what its audit
/// answers.
pub fn finish_audited<R: Host>(rt: &R, alloc: Global, node: Node<R>) -> (NodeEnd<R>, Verdict)
    ensures { IsAudited node.crew result.0.read result.0.desks.items result.1 }
{
    let end = node.finish();
    let verdict = audit_end(rt, alloc, &end).1;
    (end, verdict)
}

/// How a node's chain and mempool stand at its end, and whether its journal and the traces of its
/// connections tell one history. Want of memory is a verdict too.
///
/// No clause can name what lies behind the hall's lock. So nothing is done here but to open it: all
/// else is `audit_hall`'s, which can't change the hall.
pub fn audit_end<R: Wait + Drop>(rt: &R, alloc: Global, end: &NodeEnd<R>) -> (Look, Verdict)
    // Both are of one hall. Which hall lies behind the lock isn't known here.
    ensures told { TellsEnd end.now.desks.items result.0 result.1 }
{
    audit_hall(alloc, &*end.hall.lock(rt), end.desks.as_slice())
}

/// The same of a hall and of desks.
fn audit_hall<R: Wait + Drop>(
    alloc: Global,
    hall: &Hall,
    desks: &[Desk<NodeWork<R>>],
) -> (Look, Verdict)
    ensures look { result.0 ≡ look_of hall.now.latest.relay }
    ensures told { TellsVerdict hall.now (traces_of desks.now) result.1 }
    ensures counted { CountsAll (badge_count desks.now) result.1 }
{
    (hall.look(), verdict_of(alloc, hall, desks))
}

/// Whether a hall's journal and the traces of these desks tell one history.
fn verdict_of<R: Wait + Drop>(alloc: Global, hall: &Hall, desks: &[Desk<NodeWork<R>>]) -> Verdict
    ensures told { TellsVerdict hall.now (traces_of desks.now) result }
    ensures counted { CountsAll (badge_count desks.now) result }
{
    match traces(alloc, desks) {
        Ok(list) => audit_all(alloc, hall, list.as_slice()),
        Err(_) => Verdict::Memory,
    }
}

/// Whether a hall's journal and these traces tell one history.
fn audit_all(alloc: Global, hall: &Hall, audited: &[Audited]) -> Verdict
    ensures told { TellsVerdict hall.now audited.now result }
{
    if !are_in_order(audited) {
        return Verdict::OutOfOrder;
    }
    match audit(alloc, hall, audited) {
        Ok(compared) => Verdict::Yes(compared.answers, compared.dropped),
        Err(Split::Memory) => Verdict::Memory,
        Err(Split::Count(connection)) => Verdict::Count(connection.peer, connection.generation),
        Err(Split::Differs(connection, place)) => {
            Verdict::Differs(connection.peer, connection.generation, place)
        }
    }
}
