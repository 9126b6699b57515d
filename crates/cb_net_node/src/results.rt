//! What a network tells of a block, and at its end.
ghost use Rattle.std.specs.Prelude.{◌≡◌, ◌+◌, ◌↔◌, count_by, length, IsPermutation, IsSorted, IfOk, IsOkUnless, IsTrue, OnErr, OnOk};
ghost use Rattle.cb_base.specs.declared.fault.Fault.TheVariants.{Memory};
ghost use Rattle.std.specs.Ordering.{nat_cmp};
ghost use Rattle.cb_net_node.specs.Arrivals.{AreArrivals, IsWell, arrival, had_at_once, had_by_asking, had_it, had_whole, part_of, time_by, times_of};
ghost use Rattle.cb_net_node.specs.Nodes.{is_honest};

use crate::node::SimulatedNode;
use crate::traffic::Traffic;
use crate::way::Way;
use cb_audit::Split;
use cb_base::{Fault, Hash256};
use std::alloc::Global;

/// What happened while a block was relayed. Times are in microseconds since it was mined.
#[derive(Clone, Copy, Debug, PartialEq, Eq, Drop)]
pub struct BlockResult {
    /// The number of the block, from 1 on.
    pub number: u32,
    /// The node that mined it.
    pub miner: u32,
    /// How many transactions it has, with its coinbase.
    pub transactions: u64,
    /// When half of the honest nodes had it as their tip; `None` if they never did.
    pub half: Option<u64>,
    /// When nine of ten had it.
    pub most: Option<u64>,
    /// When all had it.
    pub all: Option<u64>,
    /// How many had it, with the miner.
    pub reached: u64,
    /// How many of these rebuilt it at once, the miner among them.
    pub once: u64,
    /// How many asked for some of its transactions.
    pub asked: u64,
    /// How many asked for all of it.
    pub whole: u64,
    /// What the honest nodes sent meanwhile.
    pub traffic: Traffic,
}

/// How a network ended.
#[derive(Drop)]
pub struct Ending {
    /// The height of the first node's tip.
    pub height: u32,
    /// The hash of the first node's tip.
    pub tip: Hash256,
    /// How many honest nodes have that tip.
    pub agreeing: u64,
    /// How many honest nodes there are.
    pub honest: u64,
    /// How many audits say yes.
    pub yes: u64,
    /// How many audits say no, or can't tell.
    pub no: u64,
    /// The first audit that doesn't say yes, if any: of which node, and why.
    pub refused: Option<(u32, Split)>,
    /// How many connections to nodes that stall or lie the honest ones closed.
    pub closed_on_liars: u64,
    /// How many connections to honest nodes the honest ones closed.
    pub closed_on_honest: u64,
    /// What the honest nodes sent since the network began.
    pub traffic: Traffic,
    /// Whether the bound on the number of events was reached.
    pub is_cut: bool,
}

impl Ending {
    /// Whether all ended well: the honest nodes have one tip, each audit says yes, and all that was
    /// due happened.
    pub fn is_well(&self) -> bool
        ensures { IsTrue result ↔ IsWell self.now }
    {
        self.agreeing == self.honest && self.no == 0 && !self.is_cut
    }
}

/// When the honest nodes had a block, and how they came to it.
#[derive(Drop)]
pub struct Arrivals {
    times: Vec<u64>,
    honest: u64,
    /// How many of those that had it asked for nothing.
    pub once: u64,
    /// How many asked for some of its transactions, and not for all of it.
    pub asked: u64,
    /// How many asked for all of it.
    pub whole: u64,
}

impl Arrivals {
    /// The arrivals of a block that was mined at this time. Fails only with `Fault::Memory`.
    pub fn of(alloc: Global, nodes: &[SimulatedNode], mined: u64) -> Result<Arrivals, Fault>
        ensures exact { IfOk result (λ arrivals. AreArrivals mined nodes.now arrivals) }
        // Each of those that had it came to it in one way.
        ensures ways { IfOk result (λ arrivals.
            arrivals.once + arrivals.asked + arrivals.whole ≡ length arrivals.times.items) }
        ensures memory { IsOkUnless result Memory }
    {
        let times = times_of(alloc, nodes, mined)?;
        Ok(Arrivals {
            times,
            honest: count_honest(nodes),
            once: count_at_once(nodes),
            asked: count_by_asking(nodes),
            whole: count_whole(nodes),
        })
    }

    /// How many honest nodes had the block.
    pub fn reached(&self) -> u64
        ensures { result ≡ length self.now.times.items }
    {
        self.times.len() as u64
    }

    /// When so many of a hundred honest nodes had the block; `None` if they never did.
    pub fn by(&self, percent: u64) -> Option<u64>
        ensures { result ≡ time_by (part_of self.now.honest percent) self.now.times.items }
    {
        let wanted = (u128::from(self.honest) * u128::from(percent) + 99) / 100;
        let place = usize::try_from(wanted.checked_sub(1)?).ok()?;
        self.times.as_slice().get(place).copied()
    }
}

/// How long after a time the honest nodes had the block, in order. Fails only with `Fault::Memory`.
fn times_of(alloc: Global, nodes: &[SimulatedNode], mined: u64) -> Result<Vec<u64>, Fault>
    ensures times { IfOk result (λ times. IsPermutation (times_of mined nodes.now) times.items) }
    ensures sorted { IfOk result (λ times. IsSorted nat_cmp times.items) }
    ensures memory { IsOkUnless result Memory }
{
    let mut times = unsorted_times(alloc, nodes, mined)?;
    times.as_mut_slice().sort_unstable();
    Ok(times)
}

/// The same, in the order of the nodes.
fn unsorted_times(alloc: Global, nodes: &[SimulatedNode], mined: u64) -> Result<Vec<u64>, Fault>
    ensures times { IfOk result (λ times. times.items ≡ times_of mined nodes.now) }
    ensures memory { IsOkUnless result Memory }
{
    let mut times = Vec::new(alloc);
    for node in nodes {
        if let Some(time) = arrival(node, mined) {
            times.push(time)?;
        }
    }
    Ok(times)
}

/// How long after a time the node had the block, if it is honest and had it.
fn arrival(node: &SimulatedNode, mined: u64) -> Option<u64>
    ensures { result ≡ arrival mined node.now }
{
    if !node.is_honest() {
        return None;
    }
    match node.came {
        Some(came) => Some(came.saturating_sub(mined)),
        None => None,
    }
}

/// How many of them are honest.
fn count_honest(nodes: &[SimulatedNode]) -> u64
    ensures { result ≡ count_by is_honest nodes.now }
{
    let mut count = 0usize;
    for node in nodes {
        if node.is_honest() {
            count += 1;
        }
    }
    count as u64
}

/// How many honest ones had the block, and asked for nothing.
fn count_at_once(nodes: &[SimulatedNode]) -> u64
    ensures { result ≡ count_by had_at_once nodes.now }
{
    let mut count = 0usize;
    for node in nodes {
        if had_it(node) && !node.way.asked && !node.way.whole {
            count += 1;
        }
    }
    count as u64
}

/// How many honest ones had the block, and asked for some of its transactions.
fn count_by_asking(nodes: &[SimulatedNode]) -> u64
    ensures { result ≡ count_by had_by_asking nodes.now }
{
    let mut count = 0usize;
    for node in nodes {
        if had_it(node) && node.way.asked && !node.way.whole {
            count += 1;
        }
    }
    count as u64
}

/// How many honest ones had the block, and asked for all of it.
fn count_whole(nodes: &[SimulatedNode]) -> u64
    ensures { result ≡ count_by had_whole nodes.now }
{
    let mut count = 0usize;
    for node in nodes {
        if had_it(node) && node.way.whole {
            count += 1;
        }
    }
    count as u64
}

/// Whether it is honest and had the block.
fn had_it(node: &SimulatedNode) -> bool
    ensures { result ≡ had_it node.now }
{
    node.is_honest() && node.came.is_some()
}
