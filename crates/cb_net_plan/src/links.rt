//! Which nodes of a network are linked.
ghost use Rattle.std.specs.Prelude.{◌≡◌, [], IfErr, OnOk};
ghost use Rattle.cb_net_plan.specs.declared.roles.Role.TheVariants.{Honest};
ghost use Rattle.cb_base.specs.declared.fault.Fault.TheVariants.{Memory};
ghost use Rattle.cb_net_plan.specs.Draws.{after};
ghost use Rattle.cb_net_plan.specs.Links.{drawn_honest, joined, linked, linked_to, tried};
ghost use Rattle.cb_net_plan.specs.Sketching.{AreTold, outline_of};

use crate::draws::Draws;
use crate::roles::Role;
use cb_base::Fault;
use std::alloc::Global;
use std::collections::HashSet;

/// A link between two nodes.
#[derive(Clone, Copy, Debug, PartialEq, Eq)]
pub struct PlannedLink {
    /// The number of the node that opens it.
    pub first: u32,
    /// The number of the other node.
    pub second: u32,
    /// How long a message is under way, in microseconds.
    pub latency: u64,
}

/// The links that were drawn so far.
#[derive(Drop)]
pub struct Sketch {
    draws: Draws,
    low: u64,
    high: u64,
    honest: Vec<u32>,
    links: Vec<PlannedLink>,
    pairs: HashSet<(u32, u32)>,
}

impl Sketch {
    /// No links. Latencies go from `low` to `high`, in microseconds. Allocates nothing.
    pub fn new(alloc: Global, draws: Draws, low: u64, high: u64) -> Sketch
        ensures told { AreTold result }
        ensures outline { outline_of result ≡ record {
          draws = draws;
          low = low;
          high = high;
          honest = [];
          links = [];
        } }
    {
        Sketch {
            draws,
            low,
            high,
            honest: Vec::new(alloc),
            links: Vec::new(alloc),
            pairs: HashSet::new(alloc),
        }
    }

    /// Links a node to one of those before it, an honest node to an honest one.
    pub fn join(&mut self, node: u32, role: Role) -> Result<(), Fault>
        requires { AreTold self.old }
        ensures told { OnOk result (AreTold self.new) }
        ensures outline { OnOk result
            (outline_of self.new ≡ joined node role (outline_of self.old)) }
        ensures memory { IfErr result (λ fault. fault ≡ Memory) }
    {
        match role {
            Role::Honest => self.join_honest(node),
            Role::Stalls | Role::Lies => {
                let lower = self.draws.below_u32(node);
                self.link(node, lower)
            }
        }
    }

    /// The same of an honest node.
    fn join_honest(&mut self, node: u32) -> Result<(), Fault>
        requires { AreTold self.old }
        ensures told { OnOk result (AreTold self.new) }
        ensures outline { OnOk result
            (outline_of self.new ≡ joined node Honest (outline_of self.old)) }
        ensures memory { IfErr result (λ fault. fault ≡ Memory) }
    {
        let lower = self.draw_honest();
        self.link_to(node, lower)?;
        self.honest.push(node)?;
        Ok(())
    }

    /// Draws one of the honest nodes so far. `None` if there are none.
    fn draw_honest(&mut self) -> Option<u32>
        ensures node { result ≡ drawn_honest (outline_of self.old) }
        ensures after { self.new ≡ record self.old { draws = after self.old.draws } }
    {
        let place = self.draws.below(self.honest.len() as u64) as usize;
        self.honest.as_slice().get(place).copied()
    }

    /// Links a node to another one, if there is one.
    fn link_to(&mut self, node: u32, lower: Option<u32>) -> Result<(), Fault>
        requires { AreTold self.old }
        ensures told { OnOk result (AreTold self.new) }
        ensures outline { OnOk result
            (outline_of self.new ≡ linked_to node lower (outline_of self.old)) }
        ensures memory { IfErr result (λ fault. fault ≡ Memory) }
    {
        match lower {
            Some(lower) => self.link(node, lower),
            None => Ok(()),
        }
    }

    /// Links two nodes, unless they are one or are linked already.
    fn link(&mut self, first: u32, second: u32) -> Result<(), Fault>
        requires { AreTold self.old }
        ensures told { OnOk result (AreTold self.new) }
        ensures outline { OnOk result
            (outline_of self.new ≡ linked first second (outline_of self.old)) }
        ensures memory { IfErr result (λ fault. fault ≡ Memory) }
    {
        let latency = self.draws.between(self.low, self.high);
        if first == second {
            return Ok(());
        }
        let is_new = self.pairs.insert((first.min(second), first.max(second)))?;
        if !is_new {
            return Ok(());
        }
        self.links.push(PlannedLink {
            first,
            second,
            latency,
        })?;
        Ok(())
    }

    /// Draws two of the nodes and links them, if there are fewer links than are wanted.
    pub fn try_link(&mut self, nodes: u32, wanted: u64) -> Result<(), Fault>
        requires { AreTold self.old }
        ensures told { OnOk result (AreTold self.new) }
        ensures outline { OnOk result
            (outline_of self.new ≡ tried nodes wanted (outline_of self.old)) }
        ensures memory { IfErr result (λ fault. fault ≡ Memory) }
    {
        if self.links.len() as u64 >= wanted {
            return Ok(());
        }
        let first = self.draws.below_u32(nodes);
        let second = self.draws.below_u32(nodes);
        self.link(first, second)
    }

    /// The links, and the draws as they go on.
    pub fn finish(self) -> (Vec<PlannedLink>, Draws)
        ensures { (result.0.items ≡ self.links.items) × (result.1 ≡ self.draws) }
    {
        (self.links, self.draws)
    }
}
