//! The audit of a crew's desks. A desk has the works of one peer's connections, one after another,
//! and each work has the trace of its session.
ghost use Rattle.std.specs.Prelude.{◌≡◌, ◌+◌, ◌++◌, IfOk, IsOkUnless};
ghost use Rattle.std.specs.List.{sum_by};
ghost use Rattle.cb_base.specs.declared.fault.Fault.TheVariants.{Memory};
ghost use Rattle.cb_crew.specs.Headline.{works_of};
ghost use Rattle.cb_audit.specs.Audit.{Audits};
ghost use Rattle.cb_audit.specs.Desks.{badge_count, traces_of, traces_of_desk};
ghost use Rattle.cb_audit.specs.Order.{AreInOrder};

use crate::audited::Audited;
use crate::auditing::{Split, audit};
use crate::covering::Compared;
use crate::desk_counting::first_uneven_at_desks;
use cb_base::Fault;
use cb_crew::Desk;
use cb_hall::Hall;
use cb_peer_state::MessageSink;
use cb_trace::Oracle;
use cb_work::{Flags, PeerWork};
use std::alloc::Global;

/// A list of traces, with those of one more desk. Fails only with `Fault::Memory`.
#[tactic(auto, using(crate::proofs::Listing::map_first, crate::proofs::Listing::map_more, crate::proofs::Listing::map_last))]
fn with_desk<'a, S: MessageSink + Drop, H: Oracle + Drop, F: Flags>(
    list: Vec<Audited<'a>>,
    desk: &'a Desk<PeerWork<S, H, F>>,
) -> Result<Vec<Audited<'a>>, Fault>
    ensures more { IfOk result (λ more. more.items ≡ list.entry.items ++ traces_of_desk desk.now) }
    ensures memory { IsOkUnless result Memory }
{
    let mut all = list;
    for work in desk.past() {
        all.push(Audited::new(work.connection(), work.trace()))?;
    }
    let latest = desk.work();
    all.push(Audited::new(latest.connection(), latest.trace()))?;
    Ok(all)
}

/// A fact for the prover: the badges of a desk's works count the answers of their traces. No effect
/// when it runs.
#[tactic(auto, using(crate::proofs::Badges::works_none, crate::proofs::Badges::works_more, crate::proofs::Badges::works_last))]
fn badges_count_at<S: MessageSink + Drop, H: Oracle + Drop, F: Flags>(
    desk: &Desk<PeerWork<S, H, F>>,
)
    ensures { sum_by (λ one. one.trace.total.told) (traces_of_desk desk.now)
        ≡ sum_by (λ work. work.badge.count) (works_of desk.now) }
{
    for work in desk.past() {
        work.served();
    }
    desk.work().served();
}

/// The same of all desks.
#[tactic(auto, using(crate::proofs::Badges::desks_none, crate::proofs::Badges::desks_more, crate::proofs::Badges::desks_all))]
fn badges_count<S: MessageSink + Drop, H: Oracle + Drop, F: Flags>(
    desks: &[Desk<PeerWork<S, H, F>>],
)
    ensures { sum_by (λ one. one.trace.total.told) (traces_of desks.now)
        ≡ badge_count desks.now }
{
    for desk in desks {
        badges_count_at(desk);
    }
}

/// The traces of all works of the desks, each with its connection: for each desk those of the past
/// connections in order, and then that of the latest one. Fails only with `Fault::Memory`.
#[tactic(auto, using(crate::proofs::Listing::flat_more, crate::proofs::Listing::flat_all))]
pub fn traces<'a, S: MessageSink + Drop, H: Oracle + Drop, F: Flags>(
    alloc: Global,
    desks: &'a [Desk<PeerWork<S, H, F>>],
) -> Result<Vec<Audited<'a>>, Fault>
    ensures all { IfOk result (λ all. all.items ≡ traces_of desks.now) }
    // Each work's badge counts the answers of its trace.
    ensures counted { IfOk result
        (λ all. sum_by (λ one. one.trace.total.told) all.items ≡ badge_count desks.now) }
    ensures memory { IsOkUnless result Memory }
{
    let mut all = Vec::with_capacity(alloc, desks.len())?;
    for desk in desks {
        all = with_desk(all, desk)?;
    }
    badges_count(desks);
    Ok(all)
}

/// Compares a hall's journal with the traces of the desks' works, as `audit` does. The works must
/// be in the order of their connections (`are_in_order` of `traces` tells whether they are): the
/// desks by peers, and a desk's works by generations.
///
/// Fails as `audit` does, and with `Split::Memory` also if there isn't enough memory to list the
/// traces. The numbers are compared before that, without memory: where they differ, `Split::Count`
/// is told.
///
/// A yes leaves no answer out: those that were compared and those that were dropped before are
/// together all that the works' badges count.
pub fn audit_desks<S: MessageSink + Drop, H: Oracle + Drop, F: Flags>(
    alloc: Global,
    hall: &Hall,
    desks: &[Desk<PeerWork<S, H, F>>],
) -> Result<Compared, Split>
    requires order { AreInOrder (traces_of desks.now) }
    ensures audits { Audits hall.now (traces_of desks.now) result }
    ensures counted { IfOk result
        (λ compared. compared.answers + compared.dropped ≡ badge_count desks.now) }
{
    if let Some(connection) = first_uneven_at_desks(hall.record(), desks) {
        return Err(Split::Count(connection));
    }
    match traces(alloc, desks) {
        Ok(list) => audit(alloc, hall, list.as_slice()),
        Err(_) => Err(Split::Memory),
    }
}
