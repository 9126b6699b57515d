//! What answers the text of a request.
ghost use Rattle.std.specs.Prelude.{◌≡◌, Err, IfOk};
ghost use Rattle.json.specs.Json.{null};
ghost use Rattle.json.specs.Tree.{HasNumbers};
ghost use Rattle.json.specs.Value.{value_view};
ghost use Rattle.cb_rpc.specs.Outcomes.{IsOutcome};
ghost use Rattle.cb_rpc.specs.Responses.{Answers, IsAlone, IsPrinted, Responds, outcome_status};

use crate::asking::CallHandler;
use crate::listing::answer_all;
use crate::reading::{is_note, is_second};
use crate::response::{Response, silence};
use crate::told::CallResult;
use crate::writing::put_answer;
use cb_rpc_call::{ResponseStatus, RpcFault, read_call};
use json::{Error, Scratch, Value, Writer};
use std::alloc::{AllocError, Global};

/// Answers the text of a request: one call, or a list of calls. A text that is no JSON is told so.
/// Fails only for lack of memory; calls that were asked by then are done.
pub fn respond<N: CallHandler>(alloc: Global, node: &N, text: &[u8]) -> Result<Response, AllocError>
    ensures { IfOk result (λ response. Responds (N.answers node.now) text.now response) }
{
    let mut scratch = Scratch::new(alloc);
    match Value::from_slice(alloc, text, &mut scratch) {
        Ok(request) => answer_read(alloc, node, &request),
        Err(Error::OutOfMemory) => Err(AllocError),
        Err(_) => refuse(alloc, RpcFault::Unreadable),
    }
}

/// Answers a request that was read: one call, or a list of calls.
fn answer_read<N: CallHandler>(
    alloc: Global,
    node: &N,
    request: &Value<'_>,
) -> Result<Response, AllocError>
    requires { HasNumbers (value_view request.now) }
    ensures { IfOk result
        (λ response. Answers (N.answers node.now) (value_view request.now) response) }
{
    match request {
        Value::Array(_) => answer_all(alloc, node, request),
        Value::Object(_) => finish_one(alloc, request, &outcome(alloc, node, request)),
        _ => refuse(alloc, RpcFault::NotObject),
    }
}

/// What comes of a request.
pub(crate) fn outcome<N: CallHandler>(
    alloc: Global,
    node: &N,
    request: &Value<'_>,
) -> Result<CallResult, RpcFault>
    ensures { IsOutcome (N.answers node.now) (value_view request.now) result }
{
    match read_call(alloc, request) {
        Ok(call) => node.ask(call),
        Err(fault) => Err(fault),
    }
}

/// Tells why nothing of a text was asked.
pub(crate) fn refuse(alloc: Global, fault: RpcFault) -> Result<Response, AllocError>
    ensures { IfOk result (λ response. IsPrinted null (Err fault) response) }
{
    print_one(alloc, &Value::Null, &Err(fault))
}

/// The answer to a request that stands alone, if it is answered.
fn finish_one(
    alloc: Global,
    request: &Value<'_>,
    outcome: &Result<CallResult, RpcFault>,
) -> Result<Response, AllocError>
    requires { HasNumbers (value_view request.now) }
    ensures { IfOk result (λ response. IsAlone (value_view request.now) outcome.now response) }
{
    if is_note(request) {
        Ok(silence(alloc))
    } else {
        print_one(alloc, request, outcome)
    }
}

/// The answer to a request that stands alone: a line of JSON.
fn print_one(
    alloc: Global,
    request: &Value<'_>,
    outcome: &Result<CallResult, RpcFault>,
) -> Result<Response, AllocError>
    requires { HasNumbers (value_view request.now) }
    ensures { IfOk result (λ response. IsPrinted (value_view request.now) outcome.now response) }
{
    let status = status_of(request, outcome);
    let mut writer = Writer::new(Vec::with_capacity(alloc, 256)?);
    put_answer(alloc, &mut writer, request, outcome)?;
    let mut text = writer.into_inner();
    text.push(b'\n')?;
    Ok(Response { status, text })
}

/// The status of a response that tells one outcome alone.
fn status_of(request: &Value<'_>, outcome: &Result<CallResult, RpcFault>) -> ResponseStatus
    ensures { result ≡ outcome_status (value_view request.now) outcome.now }
{
    if is_second(request) {
        return ResponseStatus::Answered;
    }
    match outcome {
        Ok(_) => ResponseStatus::Answered,
        Err(fault) => fault.status(),
    }
}
