//! What goes wrong in a network: it is cut in two, and a node begins anew.
ghost use Rattle.std.specs.Prelude.{◌≡◌, ◌≤◌, IfErr, IfOk, IsOkUnless, OnOk, true};
ghost use Rattle.cb_base.specs.declared.fault.Fault.TheVariants.{Memory};
ghost use Rattle.cb_net.specs.Ending.{IsVerdictOn, Judged};
ghost use Rattle.cb_net.specs.Faults.{IsNetFault};
ghost use Rattle.cb_net.specs.Moments.{Ages, Relays};

use crate::audits::AuditVerdict;
use crate::ending::{count_no, count_yes};
use crate::net::Net;
use crate::world::World;
use cb_base::Fault;
use cb_net_node::Side;

impl Net {
    /// What goes wrong before a block. Links that ended are joined anew. The two parts of a network
    /// are joined again first, if the block before was the last one for which they are cut.
    ///
    /// Fails with `Fault::Memory`, and as a hall does.
    pub(crate) fn disturb(&mut self, number: u32) -> Result<(), Fault>
        ensures ages { Ages self.old self.new }
        ensures faults { IfErr result IsNetFault }
    {
        self.heal_before(number)?;
        self.part_before(number);
        self.restart_before(number)?;
        self.mend()?;
        self.run()
    }

    /// The two parts are joined again, if they are to be behind the block before.
    fn heal_before(&mut self, number: u32) -> Result<(), Fault>
        ensures ages { Ages self.old self.new }
        ensures faults { IfErr result IsNetFault }
    {
        match self.settings.part {
            Some(part) if self.is_parted && part.to < number => self.heal(),
            _ => Ok(()),
        }
    }

    /// The network is cut in two, if it is to be before a block.
    fn part_before(&mut self, number: u32)
        ensures { self.new ≡ record self.old { is_parted = self.new.is_parted } }
    {
        if let Some(part) = self.settings.part {
            if part.from == number {
                self.is_parted = true;
            }
        }
    }

    /// A node begins anew, if one is to before a block.
    fn restart_before(&mut self, number: u32) -> Result<(), Fault>
        ensures ages { Ages self.old self.new }
        ensures faults { IfErr result IsNetFault }
    {
        match self.settings.restart {
            Some(restart) if restart.block == number => self.restart(restart.node),
            _ => Ok(()),
        }
    }

    /// The two parts are joined again.
    pub(crate) fn heal(&mut self) -> Result<(), Fault>
        ensures ages { Ages self.old self.new }
        ensures faults { IfErr result IsNetFault }
    {
        self.is_parted = false;
        self.mend()?;
        self.run()
    }

    /// Cuts the links between the two parts of the network, if it is parted, and joins all others.
    pub(crate) fn mend(&mut self) -> Result<(), Fault>
        ensures ages { Ages self.old self.new }
        ensures faults { IfErr result IsNetFault }
    {
        for place in 0..self.world.links.len() {
            if self.is_between(place) {
                self.world.cut(place)?;
            } else {
                self.join(place)?;
            }
        }
        Ok(())
    }

    /// Whether the link at a place joins the two parts of a network that is parted.
    fn is_between(&self, place: usize) -> bool {
        match (self.settings.part, self.world.links.as_slice().get(place)) {
            (Some(part), Some(link)) => {
                let first = link.at(Side::First).node < part.below;
                let second = link.at(Side::Second).node < part.below;
                self.is_parted && first != second
            }
            _ => false,
        }
    }

    /// A node begins anew, with nothing. Its hall is audited before it goes, if audits are asked
    /// for.
    fn restart(&mut self, number: u32) -> Result<(), Fault>
        ensures judged { OnOk result (self.old.settings.audit ≡ true →
            Judged self.old.world number self.old self.new) }
        ensures ages { Ages self.old self.new }
        ensures faults { IfErr result IsNetFault }
    {
        if self.settings.audit {
            self.audit_before_restart(number)?;
        }
        self.world.begin_anew(number)
    }

    /// Audits a node that is about to begin anew, and counts the verdict.
    #[tactic(auto, using(crate::proofs::NetFaults::of_memory))]
    fn audit_before_restart(&mut self, number: u32) -> Result<(), Fault>
        ensures judged { OnOk result (Judged self.old.world number self.old self.new) }
        ensures others { self.new ≡ record self.old { yes = self.new.yes; no = self.new.no } }
        ensures faults { IfErr result IsNetFault }
    {
        let verdict = self.world.verdict_on(number)?;
        let verdicts = [verdict];
        self.yes = self.yes.saturating_add(count_yes(&verdicts));
        self.no = self.no.saturating_add(count_no(&verdicts));
        Ok(())
    }
}

impl World {
    /// The verdict on the node of a number. Fails only with `Fault::Memory`.
    fn verdict_on(&self, number: u32) -> Result<AuditVerdict, Fault>
        ensures verdict { IfOk result (λ verdict. IsVerdictOn self.now number verdict) }
        ensures memory { IsOkUnless result Memory }
    {
        match self.nodes.as_slice().get(number as usize) {
            Some(node) => self.judge(node),
            None => Ok(AuditVerdict::Nothing),
        }
    }

    /// A node begins anew: its connections end, and its hall has nothing in it.
    #[tactic(auto, using(crate::proofs::Steps::steps))]
    fn begin_anew(&mut self, number: u32) -> Result<(), Fault>
        ensures relays { Relays self.old self.new }
        ensures faults { IfErr result IsNetFault }
    {
        self.forget_links(number)?;
        self.begin(number as usize)
    }

    /// Ends the links of a node that begins anew.
    #[tactic(auto, using(crate::proofs::Steps::steps))]
    fn forget_links(&mut self, number: u32) -> Result<(), Fault>
        ensures relays { Relays self.old self.new }
        ensures faults { IfErr result IsNetFault }
    {
        for place in 0..self.links.len() {
            self.forget_link(place, number)?;
        }
        Ok(())
    }

    /// Ends the link at a place, if it is one of a node that begins anew.
    #[tactic(auto, using(crate::proofs::Steps::steps))]
    fn forget_link(&mut self, place: usize, number: u32) -> Result<(), Fault>
        ensures relays { Relays self.old self.new }
        ensures faults { IfErr result IsNetFault }
    {
        if place >= self.links.len() {
            return Ok(());
        }
        let link = &mut self.links[place];
        if link.at(Side::First).node == number {
            return link.forget(Side::First);
        }
        if link.at(Side::Second).node == number {
            return link.forget(Side::Second);
        }
        Ok(())
    }

    /// A node begins with a hall that has nothing in it, if it is honest.
    #[tactic(auto, using(crate::proofs::Steps::steps, crate::proofs::Alike::begun_alike, crate::proofs::NetFaults::unless_no_more))]
    pub(crate) fn begin(&mut self, place: usize) -> Result<(), Fault>
        ensures relays { Relays self.old self.new }
        ensures faults { IfErr result IsNetFault }
    {
        if place >= self.nodes.len() {
            return Ok(());
        }
        let node = &mut self.nodes[place];
        node.begin(self.alloc, self.seed)
    }
}
