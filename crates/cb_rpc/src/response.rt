//! What answers an HTTP request.
ghost use Rattle.cb_rpc.specs.Responses.{IsSilent};

use cb_rpc_call::ResponseStatus;
use std::alloc::Global;

/// What answers the text of a request: the status of the HTTP response, and its body.
#[derive(Drop)]
pub struct Response {
    /// The status: what Bitcoin Core's daemon answers to the fault, if there is one.
    pub status: ResponseStatus,
    /// The body: a line of JSON, or nothing.
    pub text: Vec<u8>,
}

/// No answer: status 204 and no body.
pub(crate) fn silence(alloc: Global) -> Response
    ensures { IsSilent result }
{
    Response {
        status: ResponseStatus::NoContent,
        text: Vec::new(alloc),
    }
}
