//! Transactions that the nodes tell each other before a block.
ghost use Rattle.std.specs.Prelude.{◌≡◌, ◌≤◌, IfErr, IsOkUnless};
ghost use Rattle.cb_base.specs.declared.fault.Fault.TheVariants.{Memory};
ghost use Rattle.cb_net.specs.Faults.{IsNetFault};
ghost use Rattle.cb_net.specs.Moments.{Ages, Relays};

use crate::net::Net;
use crate::world::World;
use cb_base::{Fault, Shared};
use cb_block::Tx;
use std::alloc::Global;

impl Net {
    /// Makes the transactions of the next block, gives each honest node all but those that are kept
    /// back, and lets the nodes tell each other of them. Returns those that are kept back.
    ///
    /// Fails with `Fault::Memory`, and as a hall does.
    #[tactic(auto, using(crate::proofs::NetFaults::of_memory))]
    pub(crate) fn tell_next(&mut self) -> Result<Vec<Shared<Tx>>, Fault>
        ensures ages { Ages self.old self.new }
        ensures faults { IfErr result IsNetFault }
    {
        let mut txs = self.wallet.wave(self.world.alloc)?;
        let kept = keep_back(self.world.alloc, &mut txs, self.settings.missing)?;
        self.tell(txs.as_slice())?;
        Ok(kept)
    }

    /// Gives each honest node these transactions, and lets the nodes tell each other of them.
    fn tell(&mut self, txs: &[Shared<Tx>]) -> Result<(), Fault>
        ensures ages { Ages self.old self.new }
        ensures faults { IfErr result IsNetFault }
    {
        self.world.give_all(txs)?;
        self.world.tick_all()?;
        self.run()
    }

    /// Gives the miner these transactions, and each other honest node that isn't drawn to lack
    /// them. Nobody is told.
    pub(crate) fn give_some(&mut self, miner: u32, txs: &[Shared<Tx>]) -> Result<(), Fault>
        ensures total { self.new.total ≡ self.old.total }
        ensures ages { Ages self.old self.new }
        ensures faults { IfErr result IsNetFault }
    {
        let lacking = u64::from(self.settings.lacking);
        for place in 0..self.world.nodes.len() {
            let drawn = self.draws.below(100);
            if place == miner as usize || lacking <= drawn {
                self.world.give(place, txs)?;
            }
        }
        Ok(())
    }
}

impl World {
    /// Gives each honest node these transactions.
    #[tactic(auto, using(crate::proofs::Steps::steps))]
    pub(crate) fn give_all(&mut self, txs: &[Shared<Tx>]) -> Result<(), Fault>
        ensures relays { Relays self.old self.new }
        ensures faults { IfErr result IsNetFault }
    {
        for place in 0..self.nodes.len() {
            self.give(place, txs)?;
        }
        Ok(())
    }

    /// Gives the node of this number these transactions, if it is honest.
    #[tactic(auto, using(crate::proofs::Steps::steps, crate::proofs::Alike::taken_alike, crate::proofs::NetFaults::unless_journal_full))]
    fn give(&mut self, place: usize, txs: &[Shared<Tx>]) -> Result<(), Fault>
        ensures relays { Relays self.old self.new }
        ensures faults { IfErr result IsNetFault }
    {
        if place >= self.nodes.len() {
            return Ok(());
        }
        let node = &mut self.nodes[place];
        node.take_txs(txs)
    }
}

/// Takes so many transactions off the end of a list, the last one first. Fails only with
/// `Fault::Memory`.
fn keep_back(alloc: Global, txs: &mut Vec<Shared<Tx>>, count: u32) -> Result<Vec<Shared<Tx>>, Fault>
    ensures memory { IsOkUnless result Memory }
{
    let mut kept = Vec::new(alloc);
    for _ in 0..count {
        let Some(tx) = txs.pop() else {
            return Ok(kept);
        };
        kept.push(tx)?;
    }
    Ok(kept)
}
