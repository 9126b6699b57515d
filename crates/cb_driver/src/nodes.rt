//! The nodes of a run, with their sockets and threads.
ghost use Rattle.std.specs.Prelude.{◌≡◌, ◌↔◌, ◌≤◌, ◌<◌, length, All, Err, IfOk, OnOk, IsOkUnless, Some, vec_capacity, vec_len};
ghost use Rattle.std.specs.List.{AllZip};
ghost use Rattle.cb_node.specs.Node.{HasFinished};
ghost use Rattle.cb_control.specs.declared.ending.Halt.TheVariants.{Memory};
ghost use Rattle.cb_node.specs.declared.fault.NodeFault.TheVariants as faults;
ghost use Rattle.cb_control.specs.declared.refusal.Refusal.TheVariants as refusals;
ghost use Rattle.cb_control.specs.Outcomes.{IsOfNode};
ghost use Rattle.cb_control.specs.ScriptLine.{IsAmong};
ghost use Rattle.cb_driver.specs.Playing.{CanBecome, HasSlots};

use crate::deeds::perform;
use crate::refusing::refusal_of;
use cb_base::Seed;
use cb_control::{Halt, Host, Refusal, ScriptOrder};
use cb_node::{Node, NodeEnd, NodeFault, NodeSettings};
use std::alloc::Global;
use std::net::{IpAddr, Ipv4Addr, SocketAddr};
use std::sync::Wait;
use std::thread;
use std::time::Duration;

/// How many slots of a node serve peers that connect to it, and how many those that it connects
/// to.
const SLOTS: u16 = 32;

/// How many rounds a `wait` takes at most.
const ROUNDS: u32 = 2_000;

/// How many milliseconds a round of a `wait` pauses.
const PAUSE_MILLISECONDS: u64 = 1;

/// How many nodes and threads a run has.
#[derive(Clone, Copy, PartialEq, Eq)]
pub struct RunSizes {
    /// The number of nodes, 1 to 8.
    pub nodes: u16,
    /// The number of each node's handler threads, 1 to 16.
    pub handlers: u16,
}

/// The nodes of a run. They can't be dropped: `finish` ends them.
pub struct Nodes<R: Wait + Drop> {
    rt: R,
    alloc: Global,
    list: Vec<Node<R>>,
    /// An empty list with room for what is left of all nodes.
    ends: Vec<NodeEnd<R>>,
    ghost room: { vec_len list ≤ vec_capacity ends },
    ghost empty: { vec_len ends ≡ 0 },
    ghost slots: { All HasSlots list.items },
}

impl<R: Host> Nodes<R> {
    /// Starts the nodes. Their tables have this seed. Fails with `NodeFault::Io` if a thread can't
    /// be started, and with `NodeFault::Memory`. No node runs then.
    pub fn start(rt: R, alloc: Global, sizes: RunSizes, seed: Seed) -> Result<Nodes<R>, NodeFault>
        requires handlers { (1 ≤ sizes.handlers) × (sizes.handlers ≤ 16) }
        ensures count { IfOk result (λ nodes. vec_len nodes.list ≡ sizes.nodes) }
    {
        let count = usize::from(sizes.nodes);
        let ends = Vec::with_capacity(alloc, count)?;
        let mut list = Vec::with_capacity(alloc, count)?;
        match start_all(rt, alloc, sizes, seed, &mut list) {
            Ok(()) => Ok(Nodes {
                rt,
                alloc,
                list,
                ends,
            }),
            Err(fault) => {
                drop(finish_all(list, ends));
                Err(fault)
            }
        }
    }

    /// Ends all nodes. Returns what is left of them, in their order: of each what `Node::finish`
    /// promises.
    pub fn finish(self) -> Vec<NodeEnd<R>>
        ensures count { vec_len result ≡ vec_len self.list }
        ensures each { AllZip (λ node end. HasFinished node.crew end.read end.desks.items)
            self.list.items result.items }
    {
        let Nodes {
            rt: _,
            alloc: _,
            list,
            ends,
        } = self;
        finish_all(list, ends)
    }

    /// Does what a line says; a node's number is the mark of what it mines. Returns why it was
    /// refused, or `None` if it was done. Fails only with `Halt::Memory`.
    #[tactic(auto, using(crate::proofs::Obeying::links, crate::proofs::Obeying::obeys))]
    pub fn obey(&mut self, order: ScriptOrder) -> Result<Option<Refusal>, Halt>
        requires among { IsAmong (vec_len self.old.list) order }
        ensures count { vec_len self.new.list ≡ vec_len self.old.list }
        ensures ends { IfOk result (λ outcome. CanBecome order outcome) }
        ensures memory { IsOkUnless result Memory }
    {
        match order {
            ScriptOrder::Link(first, second) => outcome_of(link(
                self.list.as_mut_slice(),
                usize::from(first),
                usize::from(second),
            )),
            ScriptOrder::Wait => Ok(self.settle()),
            ScriptOrder::Obey(number, deed) => {
                let (node, mark) = (&self.list[usize::from(number)], (number % 256) as u8);
                outcome_of(perform(self.alloc, node, deed, mark, false))
            }
        }
    }

    /// Gives the nodes time until they have one tip.
    fn settle(&self) -> Option<Refusal>
        ensures { CanBecome ScriptOrder.Wait result }
    {
        for _ in 0..ROUNDS {
            for node in self.list.as_slice() {
                node.tick();
            }
            thread::sleep(&self.rt, Duration::from_millis(PAUSE_MILLISECONDS));
            if self.agree() {
                return None;
            }
        }
        Some(Refusal::NotSettled)
    }

    /// Whether all nodes have one tip.
    fn agree(&self) -> bool {
        let mut tip = None;
        for node in self.list.as_slice() {
            let other = node.look().tip;
            if tip.is_some() && tip != Some(other) {
                return false;
            }
            tip = Some(other);
        }
        true
    }
}

/// Connects one of the nodes to another one, or to itself, over the loopback address.
fn link<R: Host>(list: &mut [Node<R>], first: usize, second: usize) -> Result<(), NodeFault>
    requires nodes { (first < length list.old) × (second < length list.old) }
    requires slots { All HasSlots list.old }
    ensures count { length list.new ≡ length list.old }
    ensures slots { All HasSlots list.new }
{
    let address = SocketAddr::new(IpAddr::V4(Ipv4Addr::LOCALHOST), 0);
    let address = list[second].listen_at(address)?;
    list[first].connect_to(address)?;
    list[second].accept()?;
    Ok(())
}

/// Starts one node after another. The list must be empty, with room for all.
fn start_all<R: Host>(
    rt: R,
    alloc: Global,
    sizes: RunSizes,
    seed: Seed,
    list: &mut Vec<Node<R>>,
) -> Result<(), NodeFault>
    requires handlers { (1 ≤ sizes.handlers) × (sizes.handlers ≤ 16) }
    requires none { vec_len list.old ≡ 0 }
    requires room { sizes.nodes ≤ vec_capacity list.old }
    ensures count { OnOk result (vec_len list.new ≡ sizes.nodes) }
    ensures few { vec_len list.new ≤ sizes.nodes }
    ensures slots { All HasSlots list.new.items }
{
    for number in 0..sizes.nodes {
        let settings = settings_of(number, sizes.handlers);
        list.push_reserved(Node::start_with_seed(rt, alloc, settings, seed)?);
    }
    Ok(())
}

/// Ends nodes. What is left of them goes to an empty list that has room for it.
fn finish_all<R: Host>(list: Vec<Node<R>>, ends: Vec<NodeEnd<R>>) -> Vec<NodeEnd<R>>
    requires none { vec_len ends ≡ 0 }
    requires room { vec_len list ≤ vec_capacity ends }
    ensures count { vec_len result ≡ vec_len list }
    ensures each { AllZip (λ node end. HasFinished node.crew end.read end.desks.items)
        list.items result.items }
{
    let count = list.len();
    let mut all = ends;
    let mut left = list.into_iter();
    for _ in 0..count {
        match left.next() {
            Some(node) => all.push_reserved(node.finish()),
            None => unreachable!(),
        }
    }
    left.destroy_empty();
    all
}

/// With what the node with this number is started.
fn settings_of(number: u16, handlers: u16) -> NodeSettings
    ensures slots { (result.inbound ≡ 32) × (result.outbound ≡ 32) }
    ensures handlers { result.handlers ≡ handlers }
{
    NodeSettings {
        nonce: u64::from(number) + 1,
        time: 0,
        salt: 0,
        inbound: SLOTS,
        outbound: SLOTS,
        handlers,
        prompt: false,
    }
}

/// What became of a line by a node's answer. Fails only with `Halt::Memory`.
#[tactic(auto, using(crate::proofs::Obeying::of_node))]
fn outcome_of<T: Drop>(done: Result<T, NodeFault>) -> Result<Option<Refusal>, Halt>
    ensures ends { IfOk result (λ outcome. IsOfNode outcome) }
    ensures no_slot { IfOk result
        (λ outcome. (outcome ≡ Some refusals.NoSlot) ↔ (done ≡ Err faults.NoSlot)) }
    ensures memory { IsOkUnless result Memory }
{
    match done {
        Ok(_) => Ok(None),
        Err(fault) if fault == NodeFault::Memory => Err(Halt::Memory),
        Err(fault) => Ok(Some(refusal_of(fault))),
    }
}
