//! The service of a worker's connections.
ghost use Rattle.std.specs.Prelude.{◌≡◌, OnOk};
ghost use Rattle.http_server.specs.Response.{IsBlank};
ghost use Rattle.cb_rpc_serve.specs.Serving.{IsServed};

use crate::asked::CallChannel;
use crate::rpc::Rpc;
use bytes::Bytes;
use http::{Request, StatusCode};
use http_server::{Response, Service};
use std::alloc::AllocError;
use std::sync::Wait;
use std::thread;
use std::time::{Clock, Duration};

/// How long a stranger waits to be refused, in milliseconds.
const PAUSE_MILLISECONDS: u64 = 250;

/// The service of a worker's connections. It counts what it answers, and lets who lacks the
/// password wait.
pub struct RequestHandler<R: Wait + Clock + Drop> {
    /// What waiting needs.
    pub rt: R,
    /// What answers.
    pub rpc: Rpc<CallChannel<R>>,
    /// How many requests it answered.
    pub answered: u64,
}

impl<R: Wait + Clock + Drop> Drop for RequestHandler<R> {
    fn drop(self) {
        let RequestHandler {
            rt: _,
            rpc: _,
            answered: _,
        } = self;
    }
}

impl<R: Wait + Clock + Drop> Service for RequestHandler<R> {
    ghost answers = { λ old request response new.
        IsServed old.rpc.password old.rpc.remote request response };

    fn call(
        &mut self,
        request: &Request<Bytes>,
        response: &mut Response,
    ) -> Result<(), AllocError> {
        serve(&mut self.rpc, request, response)?;
        self.answered = self.answered.wrapping_add(1);
        if response.status == StatusCode::UNAUTHORIZED {
            thread::sleep(&self.rt, Duration::from_millis(PAUSE_MILLISECONDS));
        }
        Ok(())
    }
}

/// Answers a request.
#[tactic(auto, unfolding(crate::specs::Serving::IsServed))]
fn serve<R: Wait + Clock + Drop>(
    rpc: &mut Rpc<CallChannel<R>>,
    request: &Request<Bytes>,
    response: &mut Response,
) -> Result<(), AllocError>
    requires { IsBlank response.old }
    ensures served { OnOk result
        (IsServed rpc.old.password rpc.old.remote request.now response.new) }
    ensures same { rpc.new ≡ rpc.old }
{
    rpc.call(request, response)
}
