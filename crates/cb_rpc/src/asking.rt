//! Who answers calls.
ghost use Rattle.cb_rpc_call.specs.declared.call.Call.{Call};
ghost use Rattle.cb_rpc_call.specs.declared.fault.RpcFault.{RpcFault};
ghost use Rattle.cb_rpc.specs.declared.told.CallResult.{CallResult};
ghost use Rattle.std.specs.Prelude.{Result};

use crate::told::CallResult;
use cb_rpc_call::{Call, RpcFault};

/// Who answers calls.
pub trait CallHandler: Drop {
    // What may be answered to a call.
    ghost answers: { Self → Call → Result CallResult RpcFault → Type 0 };

    /// Does what a call says, and answers it.
    fn ask(&self, call: Call) -> Result<CallResult, RpcFault>
        ensures { answers self.now call result };
}
