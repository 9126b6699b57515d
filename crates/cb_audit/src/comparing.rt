//! Compares the journal with all traces in one pass. The journal's entries are applied again from
//! its base, and each answer is compared and let go.
ghost use Rattle.std.specs.Prelude.{◌≡◌, ◌<◌, ◌≤◌, ◌^◌, IfOk, IsOkUnless, OnOk, length, map};
ghost use Rattle.cb_base.specs.declared.fault.Fault.TheVariants.{Memory};
ghost use Rattle.cb_state.specs.declared.connection.Connection.{Connection};
ghost use Rattle.cb_hall.specs.Connections.{Slots};
ghost use Rattle.cb_hall.specs.Replica.{IsFit};
ghost use Rattle.cb_audit.specs.Audit.{Answered};
ghost use Rattle.cb_audit.specs.Counting.{told_by};
ghost use Rattle.cb_audit.specs.Heard.{Compares, IsSplit};
ghost use Rattle.cb_audit.specs.Order.{AreInOrder, trace_of};
ghost use Rattle.cb_audit.specs.Turns.{turns_in};

use crate::audited::Audited;
use crate::heard::{Difference, Heard};
use crate::turns::{Turns, all_turns};
use cb_base::Fault;
use cb_hall::{Entry, Journal, Replica};
use std::alloc::Global;

/// Applies an entry again, and compares its answer if it is a question. Fails only with
/// `Fault::Memory`.
fn compare_one(
    alloc: Global,
    audited: &[Audited],
    turns: &[Turns],
    replica: &mut Replica,
    heard: &mut Heard,
    entry: &Entry,
) -> Result<(), Fault>
    requires order { AreInOrder audited.now }
    requires turns { turns.now ≡ map (λ one. turns_in one.trace) audited.now }
    requires long { length heard.old.places.items ≡ length audited.now }
    requires fit { IsFit replica.old.connections entry.now }
    requires few { replica.old.entries < 2 ^ 62 }
    ensures ok { OnOk result ((kept : Slots) →
        Compares kept audited.now replica.old entry.now replica.new heard.old heard.new) }
    ensures long { length heard.new.places.items ≡ length audited.now }
    ensures memory { IsOkUnless result Memory }
{
    let told = replica.apply(entry)?;
    let Entry::Asked(connection, question) = entry else {
        return Ok(());
    };
    // A question always has an answer.
    let Some(answer) = &told else {
        return Ok(());
    };
    heard.hear(alloc, audited, turns, *connection, question, answer)?;
    Ok(())
}

/// The first difference between a journal and the traces, if there is one. Fails only with
/// `Fault::Memory`.
pub(crate) fn compare(
    alloc: Global,
    journal: &Journal,
    audited: &[Audited],
) -> Result<Option<Difference>, Fault>
    requires order { AreInOrder audited.now }
    requires few { (connection : Connection) →
        told_by (trace_of audited.now connection) ≤ 2 ^ 62 }
    ensures exact { IfOk result (λ found. Answered journal.now
        (λ seen. IsSplit journal.now.base.connections audited.now seen found)) }
    ensures memory { IsOkUnless result Memory }
{
    let base = journal.base();
    // No effect when they run: they tell the prover what the types keep.
    let _ = base.entries();
    let _ = journal.latest().entries();
    let kept = base.connections();
    let turns = all_turns(alloc, audited)?;
    let mut heard = Heard::new(alloc, kept, audited)?;
    let mut replica = base.copy()?;
    for entry in journal.entries() {
        compare_one(
            alloc,
            audited,
            turns.as_slice(),
            &mut replica,
            &mut heard,
            entry,
        )?;
    }
    Ok(heard.first_difference(kept, audited, turns.as_slice()))
}
