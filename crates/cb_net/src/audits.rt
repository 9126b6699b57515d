//! The audit of each honest node: its hall's journal is compared with the traces of all its
//! connections.
ghost use Rattle.std.specs.Prelude.{◌≡◌, ◌++◌, IfOk, IsOkUnless, option_to_list};
ghost use Rattle.cb_base.specs.declared.fault.Fault.TheVariants.{Memory};
ghost use Rattle.cb_net_node.specs.Joined.{audited_at};
ghost use Rattle.cb_net.specs.Audits.{AreVerdicts, IsSaid, IsVerdict, is_no, is_yes, joined_since, side_at, traces_among, traces_at, traces_of};

use crate::world::World;
use cb_audit::{Audited, Split, are_in_order, audit};
use cb_base::Fault;
use cb_hall::Hall;
use cb_net_node::{Joined, Side, SimulatedLink, SimulatedNode};
use std::alloc::Global;

/// What comes of a node's audit.
#[derive(Clone, Copy, Drop)]
pub enum AuditVerdict {
    /// Nothing: the node isn't honest.
    Nothing,
    /// Its hall's journal and the traces of its connections tell one history.
    Yes,
    /// They don't, or nobody can tell.
    No(Split),
}

impl AuditVerdict {
    /// Whether it is a yes.
    pub(crate) fn is_yes(&self) -> bool
        ensures { result ≡ is_yes self.now }
    {
        match self {
            AuditVerdict::Yes => true,
            AuditVerdict::Nothing | AuditVerdict::No(_) => false,
        }
    }

    /// Whether it is a no.
    pub(crate) fn is_no(&self) -> bool
        ensures { result ≡ is_no self.now }
    {
        match self {
            AuditVerdict::No(_) => true,
            AuditVerdict::Nothing | AuditVerdict::Yes => false,
        }
    }
}

impl World {
    /// The verdicts on all nodes, in order. Fails only with `Fault::Memory`.
    #[tactic(auto, using(crate::proofs::Listing::verdicts_more, crate::proofs::Listing::verdicts_all))]
    pub(crate) fn verdicts(&self) -> Result<Vec<AuditVerdict>, Fault>
        ensures all { IfOk result
            (λ all. AreVerdicts self.now.links.items self.now.nodes.items all.items) }
        ensures memory { IsOkUnless result Memory }
    {
        let mut all = Vec::new(self.alloc);
        for node in &self.nodes {
            all.push(self.judge(node)?)?;
        }
        Ok(all)
    }

    /// The verdict on a node. Fails only with `Fault::Memory`.
    #[tactic(auto, unfolding(crate::specs::Audits::IsVerdict))]
    pub(crate) fn judge(&self, node: &SimulatedNode) -> Result<AuditVerdict, Fault>
        ensures verdict { IfOk result
            (λ verdict. IsVerdict self.now.links.items node.now verdict) }
        ensures memory { IsOkUnless result Memory }
    {
        if !node.is_honest() {
            return Ok(AuditVerdict::Nothing);
        }
        let Some(hall) = &node.hall else {
            return Ok(AuditVerdict::No(Split::Memory));
        };
        let traces = traces(self.alloc, self.links.as_slice(), node)?;
        Ok(said(self.alloc, hall, traces.as_slice()))
    }
}

/// What the audit of a hall and these traces says. Traces that aren't in order count as a no.
fn said(alloc: Global, hall: &Hall, traces: &[Audited]) -> AuditVerdict
    ensures { IsSaid hall.now traces.now result }
{
    if !are_in_order(traces) {
        return AuditVerdict::No(Split::Memory);
    }
    match audit(alloc, hall, traces) {
        Ok(_) => AuditVerdict::Yes,
        Err(split) => AuditVerdict::No(split),
    }
}

/// The traces of all connections of a node's hall. Fails only with `Fault::Memory`.
#[tactic(auto, using(crate::proofs::Listing::flat_more, crate::proofs::Listing::flat_all), unfolding(crate::specs::Audits::traces_of))]
fn traces<'a>(
    alloc: Global,
    links: &'a [SimulatedLink],
    node: &SimulatedNode,
) -> Result<Vec<Audited<'a>>, Fault>
    ensures all { IfOk result (λ all. all.items ≡ traces_of links.now node.now) }
    ensures memory { IsOkUnless result Memory }
{
    let mut all = Vec::new(alloc);
    for end in &node.ends {
        all = with_end(all, links, *end)?;
    }
    Ok(all)
}

/// A list of traces, with those of a node's connections at one of its ends. Fails only with
/// `Fault::Memory`.
#[tactic(auto, unfolding(crate::specs::Audits::traces_at))]
fn with_end<'a>(
    list: Vec<Audited<'a>>,
    links: &'a [SimulatedLink],
    end: u32,
) -> Result<Vec<Audited<'a>>, Fault>
    ensures more { IfOk result
        (λ more. more.items ≡ list.entry.items ++ traces_at links.now end) }
    ensures memory { IsOkUnless result Memory }
{
    match links.get((end / 2) as usize) {
        Some(link) => with_link(list, link, side_of(end)),
        None => Ok(list),
    }
}

/// The same for a side of a link.
fn with_link<'a>(
    list: Vec<Audited<'a>>,
    link: &'a SimulatedLink,
    side: Side,
) -> Result<Vec<Audited<'a>>, Fault>
    ensures more { IfOk result (λ more. more.items
        ≡ list.entry.items ++ traces_among side (joined_since side link.now)) }
    ensures memory { IsOkUnless result Memory }
{
    let gone = link.at(side).forgotten.min(link.past.len());
    let former = with_all(list, &link.past.as_slice()[gone..], side)?;
    match link.last() {
        Some(joined) => with_one(former, joined, side),
        None => Ok(former),
    }
}

/// A list of traces, with those of a side's sessions among these. Fails only with `Fault::Memory`.
#[tactic(auto, using(crate::proofs::Listing::behind_none, crate::proofs::Listing::behind_more, crate::proofs::Listing::behind_all))]
fn with_all<'a>(
    list: Vec<Audited<'a>>,
    joined: &'a [Joined],
    side: Side,
) -> Result<Vec<Audited<'a>>, Fault>
    ensures more { IfOk result
        (λ more. more.items ≡ list.entry.items ++ traces_among side joined.now) }
    ensures memory { IsOkUnless result Memory }
{
    let mut all = list;
    for one in joined {
        all = with_one(all, one, side)?;
    }
    Ok(all)
}

/// A list of traces, with that of a side's session, if it has one. Fails only with `Fault::Memory`.
fn with_one<'a>(
    list: Vec<Audited<'a>>,
    joined: &'a Joined,
    side: Side,
) -> Result<Vec<Audited<'a>>, Fault>
    ensures more { IfOk result
        (λ more. more.items ≡ list.entry.items ++ option_to_list (audited_at joined.now side)) }
    ensures memory { IsOkUnless result Memory }
{
    let mut all = list;
    if let Some(audited) = joined.audited(side) {
        all.push(audited)?;
    }
    Ok(all)
}

/// The side of its link on which an end lies, by the end's number.
pub(crate) fn side_of(end: u32) -> Side
    ensures { result ≡ side_at end }
{
    if end.is_multiple_of(2) {
        Side::First
    } else {
        Side::Second
    }
}
