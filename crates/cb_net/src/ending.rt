//! How a network ended.
ghost use Rattle.std.specs.Prelude.{◌≡◌, List, IfErr, IfOk, IsOkUnless, OnOk, count_by};
ghost use Rattle.cb_base.specs.declared.fault.Fault.TheVariants.{Memory};
ghost use Rattle.cb_net_node.specs.Nodes.{is_honest};
ghost use Rattle.cb_net.specs.Audits.{AreVerdicts, is_no, is_yes, refusal_in};
ghost use Rattle.cb_net.specs.Ending.{AreMade, agrees, ending_of, first_tip};
ghost use Rattle.cb_net.specs.Faults.{IsNetFault};
ghost use Rattle.cb_net.specs.Moments.{Ages};
ghost use Rattle.cb_net.specs.Totals.{Settles, SettlesAtLast};
ghost use Rattle.cb_net.specs.declared.audits.AuditVerdict.{AuditVerdict};

use crate::audits::AuditVerdict;
use crate::net::Net;
use crate::world::World;
use cb_audit::Split;
use cb_base::{Fault, Hash256};
use cb_net_node::{Ending, SimulatedNode, Traffic};

impl Net {
    /// Ends the run: heals the network, and audits each honest node if that is asked for.
    ///
    /// Fails with `Fault::Memory`, and as a hall does.
    #[tactic(auto, using(crate::proofs::NetFaults::of_memory, crate::proofs::Settled::ages_settled))]
    pub fn finish(&mut self) -> Result<Ending, Fault>
        ensures ending { IfOk result (λ ending. (verdicts : List AuditVerdict)
            × AreMade self.new verdicts × (ending ≡ ending_of self.new verdicts)) }
        ensures settles { OnOk result (SettlesAtLast self.old self.new) }
        ensures ages { Ages self.old self.new }
        ensures faults { IfErr result IsNetFault }
    {
        self.heal_at_last()?;
        self.settle();
        let verdicts = self.verdicts()?;
        Ok(self.ending(verdicts.as_slice()))
    }

    /// Lets a network go, with all that is in it.
    pub fn close(self) {
        // Its destructor is called by name, or the prover would go through all its parts.
        drop(self);
    }

    /// The two parts of a network that is cut in two are joined again.
    fn heal_at_last(&mut self) -> Result<(), Fault>
        ensures ages { Ages self.old self.new }
        ensures faults { IfErr result IsNetFault }
    {
        if self.is_parted {
            return self.heal();
        }
        Ok(())
    }

    /// What the honest nodes sent since the block before is added to what they sent before that.
    /// From then on nothing was sent.
    pub(crate) fn settle(&mut self)
        ensures { Settles self.old self.new }
    {
        self.total.add(&self.world.traffic);
        self.world.traffic = Traffic::new();
    }

    /// The verdicts on all nodes, if audits are asked for. Fails only with `Fault::Memory`.
    fn verdicts(&self) -> Result<Vec<AuditVerdict>, Fault>
        ensures made { IfOk result (λ verdicts. AreMade self.now verdicts.items) }
        ensures memory { IsOkUnless result Memory }
    {
        if !self.settings.audit {
            return Ok(Vec::new(self.world.alloc));
        }
        self.world.verdicts()
    }

    /// How it ended, with these verdicts.
    #[tactic(auto, unfolding(crate::specs::Ending::ending_of))]
    fn ending(&self, verdicts: &[AuditVerdict]) -> Ending
        ensures { result ≡ ending_of self.now verdicts.now }
    {
        let (height, tip) = self.world.first_tip();
        Ending {
            height,
            tip,
            agreeing: self.world.count_agreeing(&tip),
            honest: self.world.count_honest(),
            yes: self.yes.saturating_add(count_yes(verdicts)),
            no: self.no.saturating_add(count_no(verdicts)),
            refused: first_refusal(verdicts),
            closed_on_liars: self.world.closed.on_liars,
            closed_on_honest: self.world.closed.on_honest,
            traffic: self.total,
            is_cut: self.left == 0,
        }
    }
}

impl World {
    /// The height and the hash of the first node's tip; 0 and zeros if it has no hall.
    fn first_tip(&self) -> (u32, Hash256)
        ensures { result ≡ first_tip self.now.nodes.items }
    {
        match self.nodes.as_slice().first().and_then(|node| node.look()) {
            Some(look) => (look.height, look.tip),
            None => (0, Hash256([0; 32])),
        }
    }

    /// How many honest nodes have a hall with this tip.
    fn count_agreeing(&self, tip: &Hash256) -> u64
        ensures { result ≡ count_by (agrees tip.now) self.now.nodes.items }
    {
        let mut count = 0usize;
        for node in self.nodes.as_slice() {
            if agrees(node, tip) {
                count += 1;
            }
        }
        count as u64
    }

    /// How many nodes are honest.
    pub(crate) fn count_honest(&self) -> u64
        ensures { result ≡ count_by is_honest self.now.nodes.items }
    {
        let mut count = 0usize;
        for node in self.nodes.as_slice() {
            if node.is_honest() {
                count += 1;
            }
        }
        count as u64
    }
}

/// Whether a node is honest and its hall has this tip.
fn agrees(node: &SimulatedNode, tip: &Hash256) -> bool
    ensures { result ≡ agrees tip.now node.now }
{
    match node.look() {
        Some(look) => node.is_honest() && look.tip == *tip,
        None => false,
    }
}

/// How many of the verdicts are a yes.
pub(crate) fn count_yes(verdicts: &[AuditVerdict]) -> u64
    ensures { result ≡ count_by is_yes verdicts.now }
{
    let mut count = 0usize;
    for verdict in verdicts {
        if verdict.is_yes() {
            count += 1;
        }
    }
    count as u64
}

/// How many of the verdicts are a no.
pub(crate) fn count_no(verdicts: &[AuditVerdict]) -> u64
    ensures { result ≡ count_by is_no verdicts.now }
{
    let mut count = 0usize;
    for verdict in verdicts {
        if verdict.is_no() {
            count += 1;
        }
    }
    count as u64
}

/// The first no, with the number of its node.
fn first_refusal(verdicts: &[AuditVerdict]) -> Option<(u32, Split)>
    ensures { result ≡ refusal_in 0 verdicts.now }
{
    for (place, verdict) in verdicts.iter().enumerate() {
        if let AuditVerdict::No(split) = verdict {
            return Some((u32::try_from(place).unwrap_or(u32::MAX), *split));
        }
    }
    None
}
