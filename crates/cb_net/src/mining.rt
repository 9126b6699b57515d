//! Blocks that drawn nodes mine, and that the network relays.
ghost use Rattle.std.specs.Prelude.{◌≡◌, ◌⊎◌, ◌+◌, ◌≤◌, ◌<◌, true, IfErr, IfNone, IfOk, IfSome, OnOk};
ghost use Rattle.cb_net.specs.Counting.{is_honest_at};
ghost use Rattle.cb_net.specs.Faults.{IsNetFault};
ghost use Rattle.cb_net.specs.Moments.{Ages, IsLater, Lasts, Relays, roles_in};
ghost use Rattle.cb_net.specs.Results.{IsResult, IsTold, hash_of};
ghost use Rattle.cb_net.specs.Totals.{SettlesOnce};

use crate::net::Net;
use crate::world::World;
use cb_base::{Fault, Shared};
use cb_block::{SoundBlock, Tx};
use cb_net_node::{Arrivals, BlockResult, LIES, Misdeed, Side};
use cb_net_plan::Role;

impl Net {
    /// The next block: the faults before it, the transactions, and the block itself. `None` if all
    /// blocks were mined, or if the bound on the number of events was reached.
    ///
    /// Fails with `Fault::Memory`, and as a hall does.
    #[tactic(auto, using(crate::proofs::Moments::ages_last))]
    pub fn next_block(&mut self) -> Result<Option<BlockResult>, Fault>
        ensures none { IfOk result (λ told. IfNone told
            (((self.old.settings.blocks ≤ self.old.relayed) ⊎ (self.old.left ≡ 0))
            × (self.new ≡ self.old))) }
        ensures some { IfOk result (λ told. IfSome told (λ told.
            (self.old.relayed < self.old.settings.blocks) × (0 < self.old.left)
            × (self.new.relayed ≡ self.old.relayed + 1)
            × (told.number ≡ self.new.relayed) × IsResult self.old.world self.new.world told)) }
        ensures settles { IfOk result
            (λ told. IfSome told (λ told. SettlesOnce self.old self.new)) }
        ensures lasts { Lasts self.old self.new }
        ensures faults { IfErr result IsNetFault }
    {
        if self.relayed >= self.settings.blocks || self.left == 0 {
            return Ok(None);
        }
        let number = self.relayed + 1;
        let result = self.relay_next(number)?;
        self.relayed = number;
        Ok(Some(result))
    }

    /// The faults before a block, the transactions, and the block itself.
    #[tactic(auto, using(crate::proofs::Told::results_since, crate::proofs::Settled::ages_settled))]
    fn relay_next(&mut self, number: u32) -> Result<BlockResult, Fault>
        ensures number { IfOk result (λ told. told.number ≡ number) }
        ensures told { IfOk result (IsResult self.old.world self.new.world) }
        ensures settles { OnOk result (SettlesOnce self.old self.new) }
        ensures ages { Ages self.old self.new }
        ensures faults { IfErr result IsNetFault }
    {
        self.disturb(number)?;
        let kept = self.tell_next()?;
        self.forget();
        self.settle();
        self.relay(number, kept.as_slice())
    }

    /// Each node forgets the block that was relayed before.
    fn forget(&mut self)
        ensures { Ages self.old self.new }
    {
        self.world.forget();
    }

    /// A drawn node has these transactions too, as some others have, and mines a block. The nodes
    /// relay it.
    #[tactic(auto, using(crate::proofs::Told::told_is_result, crate::proofs::Told::numbered, crate::proofs::NetFaults::no_more_is))]
    fn relay(&mut self, number: u32, kept: &[Shared<Tx>]) -> Result<BlockResult, Fault>
        ensures number { IfOk result (λ told. told.number ≡ number) }
        ensures told { IfOk result (IsResult self.old.world self.new.world) }
        ensures total { self.new.total ≡ self.old.total }
        ensures ages { Ages self.old self.new }
        ensures faults { IfErr result IsNetFault }
    {
        let Some(miner) = self.draw_miner() else {
            return Err(Fault::NoMore);
        };
        self.give_some(miner, kept)?;
        let mined = self.world.queue.now();
        let block = self.mine(miner)?;
        self.spread(&block)?;
        self.world.result(number, miner, mined, &block)
    }

    /// The number of a drawn honest node; `None` if there is none.
    fn draw_miner(&mut self) -> Option<u32>
        ensures honest { IfSome result
            (λ miner. is_honest_at (roles_in self.new.world.nodes.items) miner ≡ true) }
        ensures others { self.new ≡ record self.old { draws = self.new.draws } }
    {
        let drawn = self.draws.below(self.world.count_honest());
        self.world.honest_behind(drawn, self.settings.nodes)
    }

    /// A node mines a block on its tip, and all its sessions have a tick. From then on that block
    /// is being relayed.
    ///
    /// Fails with `Fault::NoMore` if it has no hall, and as `Hall::mine` and `Hall::submit` do.
    pub(crate) fn mine(&mut self, number: u32) -> Result<SoundBlock, Fault>
        ensures relayed { IfOk result
            (λ block. self.new.world.block ≡ hash_of block) }
        ensures later { IsLater self.old.world self.new.world }
        ensures others { self.new ≡ record self.old { world = self.new.world } }
        ensures faults { IfErr result IsNetFault }
    {
        let mark = (self.relayed % 256) as u8;
        self.world.mine(number, mark)
    }

    /// The nodes relay a block, and those that stall or lie do so about it.
    fn spread(&mut self, block: &SoundBlock) -> Result<(), Fault>
        ensures relays { Relays self.old.world self.new.world }
        ensures total { self.new.total ≡ self.old.total }
        ensures ages { Ages self.old self.new }
        ensures faults { IfErr result IsNetFault }
    {
        self.misbehave(block)?;
        self.run()
    }

    /// Each node that stalls or lies does so about a block, to each of its neighbours.
    fn misbehave(&mut self, block: &SoundBlock) -> Result<(), Fault>
        ensures relays { Relays self.old.world self.new.world }
        ensures total { self.new.total ≡ self.old.total }
        ensures ages { Ages self.old self.new }
        ensures faults { IfErr result IsNetFault }
    {
        for place in 0..self.world.links.len() {
            if let Some((to, role)) = self.world.misled(place) {
                let misdeed = self.draw_misdeed(role);
                self.world.misbehave_at(place, to, misdeed, block)?;
            }
        }
        Ok(())
    }

    /// What a node of this role does.
    fn draw_misdeed(&mut self, role: Role) -> Misdeed
        ensures { self.new ≡ record self.old { draws = self.new.draws } }
    {
        if role == Role::Stalls {
            return Misdeed::Silence;
        }
        let drawn = self.draws.below(LIES.len() as u64) as usize;
        LIES.as_slice()
            .get(drawn)
            .copied()
            .unwrap_or(Misdeed::Silence)
    }
}

impl World {
    /// What happened while a block was relayed that a node mined at a time. Fails only with
    /// `Fault::Memory`.
    #[tactic(auto, using(crate::proofs::NetFaults::of_memory))]
    fn result(
        &self,
        number: u32,
        miner: u32,
        mined: u64,
        block: &SoundBlock,
    ) -> Result<BlockResult, Fault>
        ensures told { IfOk result (IsTold self.now number miner mined block.now) }
        ensures faults { IfErr result IsNetFault }
    {
        let arrivals = Arrivals::of(self.alloc, self.nodes.as_slice(), mined)?;
        Ok(BlockResult {
            number,
            miner,
            transactions: block.txids().len() as u64,
            half: arrivals.by(50),
            most: arrivals.by(90),
            all: arrivals.by(100),
            reached: arrivals.reached(),
            once: arrivals.once,
            asked: arrivals.asked,
            whole: arrivals.whole,
            traffic: self.traffic,
        })
    }

    /// Each node forgets the block that was relayed before.
    #[tactic(auto, using(crate::proofs::Steps::steps))]
    fn forget(&mut self)
        ensures { Relays self.old self.new }
    {
        for place in 0..self.nodes.len() {
            self.forget_at(place);
        }
    }

    /// The node of this number does.
    #[tactic(auto, using(crate::proofs::Steps::steps, crate::proofs::Alike::forgot_alike))]
    fn forget_at(&mut self, place: usize)
        ensures { Relays self.old self.new }
    {
        if place >= self.nodes.len() {
            return;
        }
        let node = &mut self.nodes[place];
        node.forget();
    }

    /// The number of the honest node behind so many others, among so many nodes; `None` if there
    /// are fewer.
    fn honest_behind(&self, others: u64, nodes: u32) -> Option<u32>
        ensures { IfSome result
            (λ number. is_honest_at (roles_in self.now.nodes.items) number ≡ true) }
    {
        let mut left = others;
        for number in 0..nodes {
            if self.is_honest(number) {
                if left == 0 {
                    return Some(number);
                }
                left -= 1;
            }
        }
        None
    }

    /// A node mines a block with a mark on its tip, and all its sessions have a tick.
    #[tactic(auto, using(crate::proofs::Steps::steps, crate::proofs::Moments::relays_later, crate::proofs::Moments::later_then))]
    fn mine(&mut self, number: u32, mark: u8) -> Result<SoundBlock, Fault>
        ensures relayed { IfOk result (λ block. self.new.block ≡ hash_of block) }
        ensures later { IsLater self.old self.new }
        ensures faults { IfErr result IsNetFault }
    {
        let block = self.mine_at(number, mark)?;
        self.block = block.block().header.hash();
        self.note_tip(number, None)?;
        Ok(block)
    }

    /// A node mines a block with a mark on its tip.
    #[tactic(auto, using(crate::proofs::Steps::steps, crate::proofs::Alike::mined_alike, crate::proofs::NetFaults::unless_mine, crate::proofs::NetFaults::no_more_is))]
    fn mine_at(&mut self, number: u32, mark: u8) -> Result<SoundBlock, Fault>
        ensures relays { Relays self.old self.new }
        ensures faults { IfErr result IsNetFault }
    {
        let place = number as usize;
        if place >= self.nodes.len() {
            return Err(Fault::NoMore);
        }
        let node = &mut self.nodes[place];
        node.mine(mark)
    }

    /// The node at the far side of a link does this about a block. What it sends is on its way to
    /// this side.
    #[tactic(auto, using(crate::proofs::Steps::steps))]
    fn misbehave_at(
        &mut self,
        place: usize,
        to: Side,
        misdeed: Misdeed,
        block: &SoundBlock,
    ) -> Result<(), Fault>
        ensures relays { Relays self.old self.new }
        ensures faults { IfErr result IsNetFault }
    {
        let before = self.waiting(place, to);
        self.say(place, misdeed, block)?;
        self.dispatch(place, to, before)
    }

    /// A node that stalls or lies begins to do so at the link at a place.
    #[tactic(auto, using(crate::proofs::Steps::steps))]
    fn say(&mut self, place: usize, misdeed: Misdeed, block: &SoundBlock) -> Result<(), Fault>
        ensures relays { Relays self.old self.new }
        ensures faults { IfErr result IsNetFault }
    {
        if place >= self.links.len() {
            return Ok(());
        }
        let link = &mut self.links[place];
        match link.open_mut() {
            Some(joined) => joined.misbehave(self.alloc, misdeed, block),
            None => Ok(()),
        }
    }

    /// The side of the honest node at a link, and the role of the other one, if that isn't honest.
    fn misled(&self, place: usize) -> Option<(Side, Role)> {
        let link = self.links.as_slice().get(place)?;
        let first = self.role(link.at(Side::First).node)?;
        let second = self.role(link.at(Side::Second).node)?;
        if first != Role::Honest {
            return Some((Side::Second, first));
        }
        if second != Role::Honest {
            return Some((Side::First, second));
        }
        None
    }

    /// What a node is like.
    fn role(&self, number: u32) -> Option<Role> {
        let node = self.nodes.as_slice().get(number as usize)?;
        Some(node.role)
    }
}
