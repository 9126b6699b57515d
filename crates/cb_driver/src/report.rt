ghost use Rattle.std.specs.Prelude.{◌≡◌, ◌++◌, OnOk, IsOkUnless, string_bytes};
ghost use Rattle.std.specs.List.{list_all};
ghost use Rattle.cb_base.specs.declared.fault.Fault.TheVariants.{Memory};
ghost use Rattle.cb_driver.specs.Summary.{report_text, reports_text, tally_reported};

use cb_base::Fault;
use cb_control::{Tally, yes_no};
use cb_hall::Look;
use std::alloc::Global;

/// What is printed of a node at the end of a run.
#[derive(Clone, Copy)]
pub struct NodeReport {
    /// The node's number.
    pub node: u16,
    /// The node's chain and mempool.
    pub look: Look,
    /// Whether the hall's journal and the traces of its connections tell one history.
    pub agrees: bool,
}

impl NodeReport {
    /// Appends the node's line. Fails only with `Fault::Memory`.
    fn print(&self, alloc: Global, out: &mut String) -> Result<(), Fault>
        ensures text { OnOk result
            (string_bytes out.new ≡ string_bytes out.old ++ report_text self.now) }
        ensures memory { IsOkUnless result Memory }
    {
        let (node, height, pool) = (self.node, self.look.height, self.look.pool);
        let tip = self.look.tip.show(alloc)?;
        let agrees = yes_no(self.agrees);
        writeln!(
            out,
            "node {node} height {height} tip {tip} pool {pool} audit {agrees}"
        )?;
        Ok(())
    }
}

/// Appends the lines of nodes, in their order. Fails only with `Fault::Memory`.
pub fn print_reports(alloc: Global, reports: &[NodeReport], out: &mut String) -> Result<(), Fault>
    ensures text { OnOk result
        (string_bytes out.new ≡ string_bytes out.old ++ reports_text reports.now) }
    ensures memory { IsOkUnless result Memory }
{
    for report in reports {
        report.print(alloc, out)?;
    }
    Ok(())
}

/// A run's tally after the audits of all nodes.
pub fn tally_reported(tally: Tally, reports: &[NodeReport]) -> Tally
    ensures { result ≡ tally_reported tally reports.now }
{
    tally.audited(all_agree(reports))
}

/// Whether all audits say yes.
fn all_agree(reports: &[NodeReport]) -> bool
    ensures { result ≡ list_all (λ report. report.agrees) reports.now }
{
    reports.iter().all(|report| report.agrees)
}
