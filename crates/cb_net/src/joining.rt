//! Links are joined.
ghost use Rattle.std.specs.Prelude.{◌≡◌, ◌≤◌, IfErr};
ghost use Rattle.cb_net.specs.Faults.{IsNetFault};
ghost use Rattle.cb_net.specs.Moments.{Ages, Relays};

use crate::net::Net;
use crate::world::World;
use cb_base::Fault;
use cb_hall::Badge;
use cb_net_node::{ForgedLink, Joined, LinkEnd, NetLink, Side, Start};
use cb_peer::Settings;

impl Net {
    /// Joins the link at a place, unless it is joined. Both sessions begin.
    ///
    /// Fails with `Fault::Memory`, `Fault::NoMore` and `Fault::JournalFull`, as `Hall::open` does.
    pub(crate) fn join(&mut self, place: usize) -> Result<(), Fault>
        ensures ages { Ages self.old self.new }
        ensures faults { IfErr result IsNetFault }
    {
        let Some((first, second)) = self.world.apart(place) else {
            return Ok(());
        };
        let joined = self.joined(&first, &second)?;
        self.world.begin_link(place, joined)
    }

    /// What two nodes are joined by: two sessions if both are honest.
    fn joined(&mut self, first: &LinkEnd, second: &LinkEnd) -> Result<Joined, Fault>
        ensures ages { Ages self.old self.new }
        ensures faults { IfErr result IsNetFault }
    {
        let nonce = self.draws.next();
        if !self.world.is_honest(second.node) {
            let start = self.start(first, false)?;
            return self.forged(Side::First, start, nonce);
        }
        let start = self.start(second, true)?;
        if !self.world.is_honest(first.node) {
            return self.forged(Side::Second, start, nonce);
        }
        let one = self.start(first, false)?;
        self.both(one, start)
    }

    /// A link whose honest node is on this side.
    #[tactic(auto, using(crate::proofs::NetFaults::of_memory))]
    fn forged(&self, honest: Side, start: Start, nonce: u64) -> Result<Joined, Fault>
        ensures { IfErr result IsNetFault }
    {
        let link = ForgedLink::new(self.world.alloc, honest, start, nonce)?;
        Ok(Joined::Forged(link))
    }

    /// A link of two honest nodes.
    #[tactic(auto, using(crate::proofs::NetFaults::of_memory))]
    fn both(&self, first: Start, second: Start) -> Result<Joined, Fault>
        ensures { IfErr result IsNetFault }
    {
        let link = NetLink::new(self.world.alloc, first, second)?;
        Ok(Joined::Honest(link))
    }

    /// What the session at an end begins with.
    fn start(&mut self, end: &LinkEnd, inbound: bool) -> Result<Start, Fault>
        ensures ages { Ages self.old self.new }
        ensures faults { IfErr result IsNetFault }
    {
        let nonce = self.draws.next();
        let salt = self.draws.next();
        let (badge, height) = self.world.badge(end)?;
        let settings = Settings {
            inbound,
            nonce,
            time: 0,
            height,
            salt,
        };
        Ok(Start { badge, settings })
    }
}

impl World {
    /// The ends of the link at a place, if it isn't joined.
    fn apart(&self, place: usize) -> Option<(LinkEnd, LinkEnd)> {
        let link = self.links.as_slice().get(place)?;
        if link.is_open() {
            return None;
        }
        Some((*link.at(Side::First), *link.at(Side::Second)))
    }

    /// The badge of the next connection at an end, and the height of its node's tip.
    #[tactic(auto, using(crate::proofs::Steps::steps, crate::proofs::Alike::badged_alike, crate::proofs::NetFaults::of_open))]
    fn badge(&mut self, end: &LinkEnd) -> Result<(Badge, i32), Fault>
        ensures relays { Relays self.old self.new }
        ensures faults { IfErr result IsNetFault }
    {
        let place = end.node as usize;
        if place >= self.nodes.len() {
            return Err(Fault::NoMore);
        }
        let node = &mut self.nodes[place];
        let badge = node.badge(end.peer)?;
        Ok((badge, node.height()))
    }

    /// From now on the link at a place is joined by this. The messages that open it are sent, and
    /// its sessions have a tick.
    #[tactic(auto, using(crate::proofs::Steps::steps))]
    fn begin_link(&mut self, place: usize, joined: Joined) -> Result<(), Fault>
        ensures relays { Relays self.old self.new }
        ensures faults { IfErr result IsNetFault }
    {
        self.put_joined(place, joined)?;
        self.open_link(place)
    }

    /// From now on the link at a place is joined by this.
    #[tactic(auto, using(crate::proofs::Steps::steps, crate::proofs::NetFaults::unless_no_more))]
    fn put_joined(&mut self, place: usize, joined: Joined) -> Result<(), Fault>
        ensures relays { Relays self.old self.new }
        ensures faults { IfErr result IsNetFault }
    {
        if place >= self.links.len() {
            // Its destructor is called by name, or the prover would go through all its parts.
            drop(joined);
            return Ok(());
        }
        let link = &mut self.links[place];
        link.join(joined)
    }

    /// The messages that open the link at a place are sent, and its sessions have a tick.
    #[tactic(auto, using(crate::proofs::Steps::steps))]
    fn open_link(&mut self, place: usize) -> Result<(), Fault>
        ensures relays { Relays self.old self.new }
        ensures faults { IfErr result IsNetFault }
    {
        self.dispatch(place, Side::First, 0)?;
        self.dispatch(place, Side::Second, 0)?;
        self.tick_end(place, Side::First)?;
        self.tick_end(place, Side::Second)
    }
}
