//! A law of all networks.
ghost use Rattle.std.specs.Prelude.{List};
ghost use Rattle.cb_net_node.specs.Arrivals.{IsWell};
ghost use Rattle.cb_net.specs.Ending.{AreMade, ending_of};
ghost use Rattle.cb_net.specs.GoodEnd.{IsGood};
ghost use Rattle.cb_net.specs.declared.audits.AuditVerdict.{AuditVerdict};
ghost use Rattle.cb_net.specs.declared.net.Net.{Net};

/// If all ended well, the hall of each honest node has the tip that is told, and, if audits were
/// asked for, the audit of each honest node says yes.
#[tactic(auto, using(crate::proofs::GoodEnds::good))]
pub fn a_good_end_is_one_for_all()
    ensures { (net : Net) (verdicts : List AuditVerdict) → AreMade net verdicts
        → IsWell (ending_of net verdicts) → IsGood net }
{}
