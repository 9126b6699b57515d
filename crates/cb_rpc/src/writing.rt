//! The answer to one request as JSON.
ghost use Rattle.std.specs.Prelude.{◌≡◌, ◌++◌, OnOk};
ghost use Rattle.json.specs.Tree.{HasNumbers};
ghost use Rattle.json.specs.Value.{value_view};
ghost use Rattle.cb_rpc.specs.Answers.{answer_tokens, code_tokens, error_tokens, fault_tokens, first_tokens, id_tokens, message_tokens, result_tokens, second_tokens, version_tokens, yield_tokens};

use crate::reading::is_second;
use crate::telling::put_told;
use crate::told::CallResult;
use cb_rpc_call::RpcFault;
use json::{Value, Writer};
use std::alloc::{AllocError, Global};

/// Writes the answer to one request.
pub(crate) fn put_answer(
    alloc: Global,
    writer: &mut Writer,
    request: &Value<'_>,
    outcome: &Result<CallResult, RpcFault>,
) -> Result<(), AllocError>
    requires { HasNumbers (value_view request.now) }
    ensures tokens { OnOk result (writer.new.tokens
        ≡ writer.old.tokens ++ answer_tokens (value_view request.now) outcome.now) }
    ensures before { writer.new.before ≡ writer.old.before }
{
    if is_second(request) {
        put_second(alloc, writer, request, outcome)
    } else {
        put_first(alloc, writer, request, outcome)
    }
}

/// Writes an answer of JSON-RPC 1.x.
fn put_first(
    alloc: Global,
    writer: &mut Writer,
    request: &Value<'_>,
    outcome: &Result<CallResult, RpcFault>,
) -> Result<(), AllocError>
    requires { HasNumbers (value_view request.now) }
    ensures tokens { OnOk result (writer.new.tokens
        ≡ writer.old.tokens ++ first_tokens (value_view request.now) outcome.now) }
    ensures before { writer.new.before ≡ writer.old.before }
{
    writer.begin_object()?;
    writer.key("result")?;
    put_result(alloc, writer, outcome)?;
    writer.key("error")?;
    put_error(writer, outcome)?;
    put_id(writer, request)?;
    writer.end_object()
}

/// Writes an answer of JSON-RPC 2.0.
fn put_second(
    alloc: Global,
    writer: &mut Writer,
    request: &Value<'_>,
    outcome: &Result<CallResult, RpcFault>,
) -> Result<(), AllocError>
    requires { HasNumbers (value_view request.now) }
    ensures tokens { OnOk result (writer.new.tokens
        ≡ writer.old.tokens ++ second_tokens (value_view request.now) outcome.now) }
    ensures before { writer.new.before ≡ writer.old.before }
{
    writer.begin_object()?;
    put_version(writer)?;
    put_yield(alloc, writer, outcome)?;
    put_id(writer, request)?;
    writer.end_object()
}

/// Writes that an answer is one of JSON-RPC 2.0.
fn put_version(writer: &mut Writer) -> Result<(), AllocError>
    ensures tokens { OnOk result (writer.new.tokens ≡ writer.old.tokens ++ version_tokens) }
    ensures before { writer.new.before ≡ writer.old.before }
{
    writer.key("jsonrpc")?;
    writer.string("2.0")
}

/// Writes the result of a request, or why it was refused.
fn put_yield(
    alloc: Global,
    writer: &mut Writer,
    outcome: &Result<CallResult, RpcFault>,
) -> Result<(), AllocError>
    ensures tokens { OnOk result
        (writer.new.tokens ≡ writer.old.tokens ++ yield_tokens outcome.now) }
    ensures before { writer.new.before ≡ writer.old.before }
{
    match outcome {
        Ok(told) => {
            writer.key("result")?;
            put_told(alloc, writer, told)
        }
        Err(fault) => {
            writer.key("error")?;
            put_fault(writer, *fault)
        }
    }
}

/// Writes the result of a request; null if it was refused.
fn put_result(
    alloc: Global,
    writer: &mut Writer,
    outcome: &Result<CallResult, RpcFault>,
) -> Result<(), AllocError>
    ensures tokens { OnOk result
        (writer.new.tokens ≡ writer.old.tokens ++ result_tokens outcome.now) }
    ensures before { writer.new.before ≡ writer.old.before }
{
    match outcome {
        Ok(told) => put_told(alloc, writer, told),
        Err(_) => writer.null(),
    }
}

/// Writes why a request was refused; null if it wasn't.
fn put_error(writer: &mut Writer, outcome: &Result<CallResult, RpcFault>) -> Result<(), AllocError>
    ensures tokens { OnOk result
        (writer.new.tokens ≡ writer.old.tokens ++ error_tokens outcome.now) }
    ensures before { writer.new.before ≡ writer.old.before }
{
    match outcome {
        Ok(_) => writer.null(),
        Err(fault) => put_fault(writer, *fault),
    }
}

/// Writes why a request was refused.
fn put_fault(writer: &mut Writer, fault: RpcFault) -> Result<(), AllocError>
    ensures tokens { OnOk result (writer.new.tokens ≡ writer.old.tokens ++ fault_tokens fault) }
    ensures before { writer.new.before ≡ writer.old.before }
{
    writer.begin_object()?;
    put_code(writer, fault)?;
    put_message(writer, fault)?;
    writer.end_object()
}

/// Writes the number of why a request was refused.
fn put_code(writer: &mut Writer, fault: RpcFault) -> Result<(), AllocError>
    ensures tokens { OnOk result (writer.new.tokens ≡ writer.old.tokens ++ code_tokens fault) }
    ensures before { writer.new.before ≡ writer.old.before }
{
    writer.key("code")?;
    writer.i64(fault.code())
}

/// Writes why a request was refused in words.
fn put_message(writer: &mut Writer, fault: RpcFault) -> Result<(), AllocError>
    ensures tokens { OnOk result
        (writer.new.tokens ≡ writer.old.tokens ++ message_tokens fault) }
    ensures before { writer.new.before ≡ writer.old.before }
{
    writer.key("message")?;
    writer.string(fault.message())
}

/// Writes the `id` of a request; null if it has none.
fn put_id(writer: &mut Writer, request: &Value<'_>) -> Result<(), AllocError>
    requires { HasNumbers (value_view request.now) }
    ensures tokens { OnOk result
        (writer.new.tokens ≡ writer.old.tokens ++ id_tokens (value_view request.now)) }
    ensures before { writer.new.before ≡ writer.old.before }
{
    writer.key("id")?;
    match request.get("id") {
        Some(value) => writer.value(value),
        None => writer.null(),
    }
}
