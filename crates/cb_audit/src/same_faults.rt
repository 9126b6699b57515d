//! Equality of faults.
ghost use Rattle.std.specs.Prelude.{◌≡◌};
ghost use Rattle.cb_audit.specs.Faults.{broken_rule};

use crate::same::Same;
use cb_base::Fault;

/// The number of the transaction rule that is broken; 0 if the fault names none.
fn broken_rule(fault: &Fault) -> u8
    ensures { result ≡ broken_rule fault.now }
{
    match fault {
        Fault::BadTx(rule) => rule.number(),
        _ => 0,
    }
}

impl Same for Fault {
    #[tactic(auto, using(crate::proofs::FaultNumbers::exact_fault))]
    fn same(&self, other: &Fault) -> bool {
        self.number() == other.number() && broken_rule(self) == broken_rule(other)
    }
}
