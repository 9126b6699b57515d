//! Calls about the node itself.
ghost use Rattle.std.specs.Prelude.{◌≡◌};
ghost use Rattle.json.specs.Value.{value_view};
ghost use Rattle.cb_rpc_call.specs.ControlCalls.{help_call, level_in, logging_call};

use crate::arguments::argument;
use crate::call::Call;
use crate::fault::RpcFault;
use crate::method::Method;
use json::Value;
use log::LevelFilter;

/// `logging`.
pub(crate) fn logging(request: &Value<'_>) -> Result<Call, RpcFault>
    ensures { result ≡ logging_call (value_view request.now) }
{
    let Some(value) = argument(request, 0, "level") else {
        return Ok(Call::Logging(None));
    };
    let word = value.as_str().ok_or(RpcFault::WrongType)?;
    Ok(Call::Logging(Some(level_in(word)?)))
}

/// The level that a word names.
fn level_in(word: &str) -> Result<LevelFilter, RpcFault>
    ensures { result ≡ level_in word.now }
{
    match word {
        "off" => Ok(LevelFilter::Off),
        "error" => Ok(LevelFilter::Error),
        "warn" => Ok(LevelFilter::Warn),
        "info" => Ok(LevelFilter::Info),
        "debug" => Ok(LevelFilter::Debug),
        "trace" => Ok(LevelFilter::Trace),
        _ => Err(RpcFault::BadWord),
    }
}

/// `help`.
pub(crate) fn help(request: &Value<'_>) -> Result<Call, RpcFault>
    ensures { result ≡ help_call (value_view request.now) }
{
    let Some(value) = argument(request, 0, "command") else {
        return Ok(Call::Help(None));
    };
    let name = value.as_str().ok_or(RpcFault::WrongType)?;
    Ok(Call::Help(Some(Method::named(name))))
}
