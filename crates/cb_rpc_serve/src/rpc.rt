//! The service of a connection.
ghost use Rattle.std.specs.Prelude.{◌≡◌, OnOk};
ghost use Rattle.http_server.specs.Response.{IsBlank};
ghost use Rattle.cb_rpc_call.specs.Faults.{status_number};
ghost use Rattle.cb_rpc_serve.specs.Service.{IsAnswerTo, IsFilled, IsTold};

use crate::password::Password;
use crate::refusal::why_refused;
use crate::refusing::refuse;
use bytes::Bytes;
use cb_rpc::{CallHandler, Response as Answer, respond};
use cb_rpc_call::ResponseStatus;
use http::header::CONTENT_TYPE;
use http::{HeaderValue, Request, StatusCode};
use http_server::{Response, Service};
use std::alloc::{AllocError, Global};

/// Answers requests by asking a node.
#[derive(Drop)]
pub struct Rpc<N: CallHandler> {
    /// Where answers are made.
    pub alloc: Global,
    /// Who is asked.
    pub node: N,
    /// What who asks must know.
    pub password: Password,
    /// Whether the own machine may have any name.
    pub remote: bool,
}

impl<N: CallHandler> Service for Rpc<N> {
    ghost answers = { λ old request response new. (new ≡ old)
        × IsAnswerTo (N.answers old.node) old.password old.remote request response };

    fn call(
        &mut self,
        request: &Request<Bytes>,
        response: &mut Response,
    ) -> Result<(), AllocError> {
        match why_refused(&self.password, self.remote, request) {
            Some(refusal) => refuse(self.alloc, refusal, response),
            None => tell(self.alloc, &self.node, request, response),
        }
    }
}

/// Answers a request by asking the node.
fn tell<N: CallHandler>(
    alloc: Global,
    node: &N,
    request: &Request<Bytes>,
    response: &mut Response,
) -> Result<(), AllocError>
    requires { IsBlank response.old }
    ensures { OnOk result (IsTold (N.answers node.now) request.now response.new) }
{
    let answer = respond(alloc, node, request.body().as_slice())?;
    fill(response, answer)
}

/// Fills a response with an answer.
fn fill(response: &mut Response, answer: Answer) -> Result<(), AllocError>
    requires { IsBlank response.old }
    ensures { OnOk result (IsFilled answer response.new) }
{
    response.status = status_code(answer.status);
    if answer.text.is_empty() {
        return Ok(());
    }
    response.add_header(CONTENT_TYPE, HeaderValue::from_static("application/json"))?;
    response.body.push(Bytes::from_vec(answer.text)?)
}

/// A status as HTTP numbers it.
fn status_code(status: ResponseStatus) -> StatusCode
    ensures { result ≡ status_number status }
{
    match status {
        ResponseStatus::Answered => StatusCode::OK,
        ResponseStatus::NoContent => StatusCode::NO_CONTENT,
        ResponseStatus::BadRequest => StatusCode::BAD_REQUEST,
        ResponseStatus::NotFound => StatusCode::NOT_FOUND,
        ResponseStatus::ServerError => StatusCode::INTERNAL_SERVER_ERROR,
    }
}
