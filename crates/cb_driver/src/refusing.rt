ghost use Rattle.std.specs.Prelude.{◌≡◌};
ghost use Rattle.cb_driver.specs.Deeds.{refusal_of};

use cb_control::Refusal;
use cb_node::NodeFault;

/// Why an order is refused, by why a node refuses a call.
pub fn refusal_of(fault: NodeFault) -> Refusal
    ensures { result ≡ refusal_of fault }
{
    match fault {
        NodeFault::Io(_) => Refusal::Io,
        NodeFault::NoSlot => Refusal::NoSlot,
        NodeFault::Memory => Refusal::Memory,
        NodeFault::Hall(fault) => Refusal::Fault(fault),
    }
}
