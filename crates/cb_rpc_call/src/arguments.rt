//! The arguments of a request.
ghost use Rattle.std.specs.Prelude.{◌≡◌, ◌^◌, option_map};
ghost use Rattle.json.specs.Find.{at, get, later_or};
ghost use Rattle.json.specs.Value.{value_view};
ghost use Rattle.cb_rpc_call.specs.Arguments.{argument, hash_of, if_given, needed, number_of, switch_of};

use crate::fault::RpcFault;
use crate::method::Method;
use cb_base::Hash256;
use cb_control::{number, read_hash};
use json::Value;

/// The argument at this place, or with this name. One that is null counts as left out.
pub(crate) fn argument<'v, 'a>(
    request: &'v Value<'a>,
    place: usize,
    name: &str,
) -> Option<&'v Value<'a>>
    ensures { option_map (λ v. value_view v.now) result
        ≡ argument place name.now (value_view request.now) }
{
    let value = at_or_named(request.get("params")?, place, name)?;
    if value.is_null() { None } else { Some(value) }
}

/// The item at this place of a list, or the member with this name of an object.
fn at_or_named<'v, 'a>(params: &'v Value<'a>, place: usize, name: &str) -> Option<&'v Value<'a>>
    ensures { option_map (λ v. value_view v.now) result
        ≡ later_or (at place (value_view params.now)) (get name.now (value_view params.now)) }
{
    match params.at(place) {
        Some(value) => Some(value),
        None => params.get(name),
    }
}

/// A hash: 64 digits of hex, the last byte first.
pub(crate) fn hash_of(value: &Value<'_>) -> Result<Hash256, RpcFault>
    ensures { result ≡ hash_of (value_view value.now) }
{
    let text = value.as_str().ok_or(RpcFault::WrongType)?;
    read_hash(text).ok_or(RpcFault::BadHash)
}

/// A hash that may not be left out.
pub(crate) fn needed_hash(
    method: Method,
    request: &Value<'_>,
    place: usize,
    name: &str,
) -> Result<Hash256, RpcFault>
    ensures { result
        ≡ needed method hash_of (argument place name.now (value_view request.now)) }
{
    match argument(request, place, name) {
        Some(value) => hash_of(value),
        None => Err(RpcFault::Usage(method)),
    }
}

/// A decimal number below 2^64, in digits alone.
pub(crate) fn number_of(value: &Value<'_>) -> Result<u64, RpcFault>
    ensures { result ≡ number_of (2 ^ 64) (value_view value.now) }
{
    let digits = value.as_number().ok_or(RpcFault::WrongType)?;
    number(digits).ok_or(RpcFault::OutOfRange)
}

/// True or false.
pub(crate) fn switch_of(value: &Value<'_>) -> Result<bool, RpcFault>
    ensures { result ≡ switch_of (value_view value.now) }
{
    value.as_bool().ok_or(RpcFault::WrongType)
}

/// True or false, with what stands for it if it is left out.
pub(crate) fn switch_or(
    default: bool,
    request: &Value<'_>,
    place: usize,
    name: &str,
) -> Result<bool, RpcFault>
    ensures { result
        ≡ if_given default switch_of (argument place name.now (value_view request.now)) }
{
    match argument(request, place, name) {
        Some(value) => switch_of(value),
        None => Ok(default),
    }
}
