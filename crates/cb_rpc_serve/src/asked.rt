//! The way of a call to the thread that answers, and of the answer back.
ghost use Rattle.std.specs.Prelude.{⊤};

use cb_rpc::{CallHandler, CallResult};
use cb_rpc_call::{Call, RpcFault};
use crossbeam_channel::{Receiver, Sender};
use std::alloc::Global;
use std::sync::Wait;

/// What is answered to a call.
pub type CallOutcome = Result<CallResult, RpcFault>;

/// A call, and which worker waits for the answer.
#[derive(Drop)]
pub struct Asked {
    /// The worker.
    pub worker: usize,
    /// The call.
    pub call: Call,
}

/// A worker's way to the thread that answers.
pub struct CallChannel<R: Drop> {
    /// What waiting needs.
    pub rt: R,
    /// Which worker's it is.
    pub worker: usize,
    /// Where calls go.
    pub calls: Sender<Asked, Global>,
    /// Where the answers to this worker's calls come from.
    pub answers: Receiver<CallOutcome, Global>,
}

impl<R: Drop> Drop for CallChannel<R> {
    fn drop(self) {
        let CallChannel {
            rt: _,
            worker: _,
            calls: _,
            answers: _,
        } = self;
    }
}

impl<R: Wait + Drop> CallHandler for CallChannel<R> {
    ghost answers = { λ line call outcome. ⊤ };

    /// Waits until the call is answered. At the end of the server it is refused.
    fn ask(&self, call: Call) -> Result<CallResult, RpcFault> {
        let asked = Asked {
            worker: self.worker,
            call,
        };
        if self.calls.send(&self.rt, asked).is_err() {
            return Err(RpcFault::Ending);
        }
        match self.answers.recv(&self.rt) {
            Ok(answer) => answer,
            Err(_) => Err(RpcFault::Ending),
        }
    }
}
