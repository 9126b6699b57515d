//! Why a node can't be started, by why it refuses.
use cb_node::NodeFault;
use cb_rpc_serve::StartFault;

/// Why a node can't be started, by why it refuses.
pub(crate) fn start_fault_of(fault: NodeFault) -> StartFault {
    match fault {
        NodeFault::Memory => StartFault::Memory,
        NodeFault::Io(kind) => StartFault::of_kind(kind),
        NodeFault::NoSlot | NodeFault::Hall(_) => StartFault::NoMeans,
    }
}
