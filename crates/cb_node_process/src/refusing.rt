//! Why a call is refused where memory runs out.
ghost use Rattle.std.specs.Prelude.{◌≡◌, IfErr, IfOk, Ok};
ghost use Rattle.cb_rpc_call.specs.declared.fault.RpcFault.TheVariants.{Memory};
ghost use Rattle.cb_node.specs.declared.fault.NodeFault.TheVariants as node;

use cb_node::NodeFault;
use cb_rpc_call::RpcFault;

/// The outcome of a call of the node that fails for want of memory alone.
pub(crate) fn or_memory<T>(outcome: Result<T, NodeFault>) -> Result<T, RpcFault>
    requires { IfErr outcome (λ fault. fault ≡ node.Memory) }
    ensures same { IfOk result (λ value. outcome ≡ Ok value) }
    ensures memory { IfErr result (λ fault. fault ≡ Memory) }
{
    match outcome {
        Ok(value) => Ok(value),
        Err(NodeFault::Memory) => Err(RpcFault::Memory),
        Err(NodeFault::Io(_) | NodeFault::NoSlot | NodeFault::Hall(_)) => unreachable!(),
    }
}
