//! What answers a list of requests.
ghost use Rattle.std.specs.Prelude.{◌≡◌, [], not, IfOk, OnOk};
ghost use Rattle.json.specs.Tree.{HasNumbers};
ghost use Rattle.json.specs.Value.{value_view};
ghost use Rattle.cb_rpc.specs.Requests.{is_note};
ghost use Rattle.cb_rpc.specs.Responses.{Adds, AddsOne, AreAnswered, IsClosed, IsListed, is_told_at};

use crate::asking::CallHandler;
use crate::reading::{is_note, size};
use crate::responding::{outcome, refuse};
use crate::response::{Response, silence};
use crate::writing::put_answer;
use cb_rpc_call::{ResponseStatus, RpcFault};
use json::{Value, Writer};
use std::alloc::{AllocError, Global};

/// How many requests a list may have. Of a longer one, none is asked.
pub const MOST_REQUESTS: usize = 1_000;

/// Answers requests that come in a list.
pub(crate) fn answer_all<N: CallHandler>(
    alloc: Global,
    node: &N,
    requests: &Value<'_>,
) -> Result<Response, AllocError>
    requires { HasNumbers (value_view requests.now) }
    ensures { IfOk result
        (λ response. AreAnswered (N.answers node.now) (value_view requests.now) response) }
{
    if size(requests) > MOST_REQUESTS {
        refuse(alloc, RpcFault::TooMany)
    } else {
        answer_each(alloc, node, requests)
    }
}

/// Answers each request of a list, in order.
fn answer_each<N: CallHandler>(
    alloc: Global,
    node: &N,
    requests: &Value<'_>,
) -> Result<Response, AllocError>
    requires { HasNumbers (value_view requests.now) }
    ensures { IfOk result
        (λ response. IsListed (N.answers node.now) (value_view requests.now) response) }
{
    let mut writer = Writer::new(Vec::with_capacity(alloc, 256)?);
    writer.begin_array()?;
    let mut told = size(requests) == 0;
    for place in 0..size(requests) {
        if put_at(alloc, &mut writer, node, requests, place)? {
            told = true;
        }
    }
    close(alloc, writer, told)
}

/// Ends the answers to a list. If there are none, nothing is answered.
fn close(alloc: Global, writer: Writer, told: bool) -> Result<Response, AllocError>
    requires { writer.before ≡ [] }
    ensures { IfOk result (λ response. IsClosed told writer.tokens response) }
{
    if !told {
        return Ok(silence(alloc));
    }
    let mut writer = writer;
    writer.end_array()?;
    let mut text = writer.into_inner();
    text.push(b'\n')?;
    Ok(Response {
        status: ResponseStatus::Answered,
        text,
    })
}

/// Answers the request at a place of a list. Returns whether it is answered.
fn put_at<N: CallHandler>(
    alloc: Global,
    writer: &mut Writer,
    node: &N,
    requests: &Value<'_>,
    place: usize,
) -> Result<bool, AllocError>
    requires { HasNumbers (value_view requests.now) }
    ensures tokens { OnOk result (Adds (N.answers node.now) (value_view requests.now) place
        writer.old.tokens writer.new.tokens) }
    ensures told { IfOk result (λ told. told ≡ is_told_at place (value_view requests.now)) }
    ensures before { writer.new.before ≡ writer.old.before }
{
    match requests.at(place) {
        Some(request) => put_one(alloc, writer, node, request),
        None => put_one(alloc, writer, node, &Value::Null),
    }
}

/// Answers a request of a list. Returns whether it is answered.
fn put_one<N: CallHandler>(
    alloc: Global,
    writer: &mut Writer,
    node: &N,
    request: &Value<'_>,
) -> Result<bool, AllocError>
    requires { HasNumbers (value_view request.now) }
    ensures tokens { OnOk result (AddsOne (N.answers node.now) (value_view request.now)
        writer.old.tokens writer.new.tokens) }
    ensures told { IfOk result (λ told. told ≡ not (is_note (value_view request.now))) }
    ensures before { writer.new.before ≡ writer.old.before }
{
    let outcome = outcome(alloc, node, request);
    if is_note(request) {
        return Ok(false);
    }
    put_answer(alloc, writer, request, &outcome)?;
    Ok(true)
}
