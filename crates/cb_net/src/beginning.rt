//! How a network is made.
ghost use Rattle.std.specs.Prelude.{◌≡◌, ◌≤◌, IfErr, IfOk, IsOkUnless};
ghost use Rattle.cb_base.specs.declared.fault.Fault.TheVariants.{Memory};
ghost use Rattle.cb_net_plan.specs.Planning.{planned_roles};
ghost use Rattle.cb_net.specs.Faults.{IsNetFault};
ghost use Rattle.cb_net.specs.Moments.{Ages, Relays, roles_in};

use crate::net::Net;
use crate::world::{Closed, World};
use cb_base::{Fault, Hash256, Seed};
use cb_net_node::{LinkEnd, SimulatedLink, SimulatedNode, Traffic, Wallet};
use cb_net_plan::{Draws, NetSettings, Plan, PlannedLink, Queue, Role};
use std::alloc::Global;

/// No connection was closed.
const NONE: Closed = Closed {
    on_liars: 0,
    on_honest: 0,
};

impl Net {
    /// Makes a network of these settings: the nodes greet each other, and if blocks are to have
    /// transactions, the first node mines two blocks that make outputs to spend.
    ///
    /// Fails with `Fault::NoMore` if a node has more than 1,024 links, with `Fault::Memory`, and as
    /// a hall does.
    #[tactic(auto, using(crate::proofs::NetFaults::of_memory))]
    pub fn new(alloc: Global, settings: NetSettings) -> Result<Net, Fault>
        ensures settings { IfOk result (λ net. net.settings ≡ settings) }
        ensures roles { IfOk result
            (λ net. roles_in net.world.nodes.items ≡ planned_roles settings) }
        ensures relayed { IfOk result (λ net. net.relayed ≡ 0) }
        ensures faults { IfErr result IsNetFault }
    {
        let plan = Plan::draw(alloc, &settings)?;
        let world = World::new(alloc, &settings, plan.roles.as_slice())?;
        let mut net = Net::alone(settings, world, plan.draws);
        match net.begin(plan.links.as_slice()) {
            Ok(()) => Ok(net),
            Err(fault) => {
                // Its destructor is called by name, or the prover would go through all its parts.
                drop(net);
                Err(fault)
            }
        }
    }

    /// A network without links, in which nothing has happened yet.
    fn alone(settings: NetSettings, world: World, draws: Draws) -> Net
        ensures settings { result.settings ≡ settings }
        ensures world { result.world ≡ world }
        ensures relayed { result.relayed ≡ 0 }
    {
        Net {
            settings,
            draws,
            wallet: Wallet::new(world.alloc),
            world,
            relayed: 0,
            is_parted: false,
            total: Traffic::new(),
            left: most_events(&settings),
            yes: 0,
            no: 0,
        }
    }

    /// The nodes are linked and greet each other. If blocks are to have transactions, the first
    /// node mines two.
    fn begin(&mut self, planned: &[PlannedLink]) -> Result<(), Fault>
        ensures ages { Ages self.old self.new }
        ensures faults { IfErr result IsNetFault }
    {
        self.world.add_links(planned)?;
        self.world.begin_all()?;
        self.mend()?;
        self.run()?;
        if self.settings.transactions > 0 {
            return self.fund();
        }
        Ok(())
    }

    /// The first node mines a block, each honest node has a transaction that spends its coinbase,
    /// and the first node mines that in another block.
    fn fund(&mut self) -> Result<(), Fault>
        ensures ages { Ages self.old self.new }
        ensures faults { IfErr result IsNetFault }
    {
        let first = self.mine(0)?;
        self.run()?;
        let Some(coinbase) = first.txids().first() else {
            return Ok(());
        };
        self.fan(*coinbase)?;
        let _second = self.mine(0)?;
        self.run()
    }

    /// Each honest node has a transaction that spends a coinbase and makes outputs to spend.
    #[tactic(auto, using(crate::proofs::NetFaults::of_memory))]
    fn fan(&mut self, coinbase: Hash256) -> Result<(), Fault>
        ensures ages { Ages self.old self.new }
        ensures faults { IfErr result IsNetFault }
    {
        let count = self.settings.transactions;
        let tx = self.wallet.fan(self.world.alloc, coinbase, count)?;
        self.world.give_all(&[tx])
    }
}

impl World {
    /// Nodes of these roles, without links. Fails only with `Fault::Memory`.
    fn new(alloc: Global, settings: &NetSettings, roles: &[Role]) -> Result<World, Fault>
        ensures roles { IfOk result (λ world. roles_in world.nodes.items ≡ roles.now) }
        ensures memory { IsOkUnless result Memory }
    {
        Ok(World {
            alloc,
            rate: settings.rate,
            seed: Seed::of(&settings.seed.to_le_bytes()),
            queue: Queue::new(alloc),
            nodes: nodes_of(alloc, roles)?,
            links: Vec::new(alloc),
            block: Hash256([0; 32]),
            traffic: Traffic::new(),
            closed: NONE,
        })
    }

    /// Adds links.
    #[tactic(auto, using(crate::proofs::Steps::steps))]
    fn add_links(&mut self, planned: &[PlannedLink]) -> Result<(), Fault>
        ensures relays { Relays self.old self.new }
        ensures faults { IfErr result IsNetFault }
    {
        for link in planned {
            self.add_link(link)?;
        }
        Ok(())
    }

    /// Adds a link of two nodes, if one of them is honest.
    #[tactic(auto, using(crate::proofs::Steps::steps, crate::proofs::NetFaults::no_more_is))]
    fn add_link(&mut self, planned: &PlannedLink) -> Result<(), Fault>
        ensures relays { Relays self.old self.new }
        ensures faults { IfErr result IsNetFault }
    {
        if !self.is_honest(planned.first) && !self.is_honest(planned.second) {
            return Ok(());
        }
        let Ok(place) = u32::try_from(self.links.len()) else {
            return Err(Fault::NoMore);
        };
        let number = place.saturating_mul(2);
        let first = self.add_end(planned.first, number)?;
        let second = self.add_end(planned.second, number.saturating_add(1))?;
        self.links.push(SimulatedLink::new(
            number,
            first,
            second,
            planned.latency,
            Vec::new(self.alloc),
        ))?;
        Ok(())
    }

    /// Adds an end to a node.
    #[tactic(auto, using(crate::proofs::Steps::steps, crate::proofs::NetFaults::no_more_is))]
    fn add_end(&mut self, node: u32, number: u32) -> Result<LinkEnd, Fault>
        ensures relays { Relays self.old self.new }
        ensures faults { IfErr result IsNetFault }
    {
        let place = node as usize;
        if place >= self.nodes.len() {
            return Err(Fault::NoMore);
        }
        let owner = &mut self.nodes[place];
        let Ok(peer) = u16::try_from(owner.ends.len()) else {
            return Err(Fault::NoMore);
        };
        owner.ends.push(number)?;
        Ok(LinkEnd::new(node, peer))
    }

    /// Each honest node begins with a hall that has nothing in it.
    #[tactic(auto, using(crate::proofs::Steps::steps))]
    fn begin_all(&mut self) -> Result<(), Fault>
        ensures relays { Relays self.old self.new }
        ensures faults { IfErr result IsNetFault }
    {
        for place in 0..self.nodes.len() {
            self.begin(place)?;
        }
        Ok(())
    }
}

/// The nodes of these roles. Fails only with `Fault::Memory`.
#[tactic(auto, using(crate::proofs::Listing::roles_more, crate::proofs::Listing::roles_all))]
fn nodes_of(alloc: Global, roles: &[Role]) -> Result<Vec<SimulatedNode>, Fault>
    ensures roles { IfOk result (λ nodes. roles_in nodes.items ≡ roles.now) }
    ensures memory { IsOkUnless result Memory }
{
    let mut nodes = Vec::with_capacity(alloc, roles.len())?;
    for role in roles {
        nodes.push(SimulatedNode::new(alloc, *role))?;
    }
    Ok(nodes)
}

/// How many events may happen in a network: many more than do.
fn most_events(settings: &NetSettings) -> u64 {
    let each = u64::from(settings.transactions)
        .saturating_mul(16)
        .saturating_add(1_000);
    u64::from(settings.nodes)
        .saturating_mul(u64::from(settings.links))
        .saturating_mul(u64::from(settings.blocks).saturating_add(4))
        .saturating_mul(each)
}
