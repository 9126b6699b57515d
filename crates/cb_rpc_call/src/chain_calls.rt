//! Calls about the chain.
ghost use Rattle.std.specs.Prelude.{◌≡◌, ◌^◌, None, option_and_then, option_map};
ghost use Rattle.json.specs.Value.{value_view};
ghost use Rattle.cb_rpc_call.specs.Arguments.{if_given};
ghost use Rattle.cb_rpc_call.specs.ChainCalls.{block_call, block_hash_call, block_header_call, detail_of, detail_with, generate_call, header_in, header_of, height_of, mined_of, submit_header_call, unless_zero, verbosity};
ghost use Rattle.cb_rpc_call.specs.declared.call.Detail.TheVariants as details;
ghost use Rattle.cb_control.specs.Words.{number_in};

use crate::arguments::{argument, needed_hash, number_of, switch_or};
use crate::call::{Call, Detail, ReadCall};
use crate::fault::RpcFault;
use crate::method::Method;
use cb_base::Cursor;
use cb_block::{Header, read_header};
use cb_control::{MOST_MINED, number, short};
use json::Value;

/// `getblockhash`.
pub(crate) fn block_hash(request: &Value<'_>) -> Result<Call, RpcFault>
    ensures { result ≡ block_hash_call (value_view request.now) }
{
    let Some(height) = argument(request, 0, "height") else {
        return Err(RpcFault::Usage(Method::GetBlockHash));
    };
    Ok(Call::Read(ReadCall::BlockHash(height_of(height)?)))
}

/// A height.
fn height_of(value: &Value<'_>) -> Result<u32, RpcFault>
    ensures { result ≡ height_of (value_view value.now) }
{
    let digits = value.as_number().ok_or(RpcFault::WrongType)?;
    word_in(digits).ok_or(RpcFault::HeightOutOfRange)
}

/// A decimal number below 2^32.
pub(crate) fn word_in(digits: &str) -> Option<u32>
    ensures { result ≡ number_in (2 ^ 32) digits.now }
{
    u32::try_from(number(digits)?).ok()
}

/// `getblockheader`.
pub(crate) fn block_header(request: &Value<'_>) -> Result<Call, RpcFault>
    ensures { result ≡ block_header_call (value_view request.now) }
{
    let hash = needed_hash(Method::GetBlockHeader, request, 0, "blockhash")?;
    let verbose = switch_or(true, request, 1, "verbose")?;
    Ok(Call::Read(ReadCall::BlockHeader(hash, verbose)))
}

/// `getblock`.
pub(crate) fn block(request: &Value<'_>) -> Result<Call, RpcFault>
    ensures { result ≡ block_call (value_view request.now) }
{
    let hash = needed_hash(Method::GetBlock, request, 0, "blockhash")?;
    let detail = detail_or_txids(request)?;
    Ok(Call::Read(ReadCall::Block(hash, detail)))
}

/// The argument `verbosity`, or `verbose`, as it was named before.
pub(crate) fn verbosity<'v, 'a>(request: &'v Value<'a>) -> Option<&'v Value<'a>>
    ensures { option_map (λ v. value_view v.now) result ≡ verbosity (value_view request.now) }
{
    match argument(request, 1, "verbosity") {
        Some(value) => Some(value),
        None => argument(request, 1, "verbose"),
    }
}

/// How much of a block is told.
fn detail_or_txids(request: &Value<'_>) -> Result<Detail, RpcFault>
    ensures { result ≡ if_given details.Txids detail_of (verbosity (value_view request.now)) }
{
    match verbosity(request) {
        Some(value) => detail_of(value),
        None => Ok(Detail::Txids),
    }
}

/// How much of a block is told: 0, 1 or 2, or false or true for the first two.
fn detail_of(value: &Value<'_>) -> Result<Detail, RpcFault>
    ensures { result ≡ detail_of (value_view value.now) }
{
    match value.as_bool() {
        Some(true) => Ok(Detail::Txids),
        Some(false) => Ok(Detail::Hex),
        None => detail_numbered(value),
    }
}

/// How much of a block is told, as a number.
fn detail_numbered(value: &Value<'_>) -> Result<Detail, RpcFault>
    ensures { result ≡ detail_with None (value_view value.now) }
{
    match number_of(value)? {
        0 => Ok(Detail::Hex),
        1 => Ok(Detail::Txids),
        2 => Ok(Detail::Txs),
        _ => Err(RpcFault::OutOfRange),
    }
}

/// `submitheader`.
pub(crate) fn submit_header(request: &Value<'_>) -> Result<Call, RpcFault>
    ensures { result ≡ submit_header_call (value_view request.now) }
{
    let Some(value) = argument(request, 0, "hexdata") else {
        return Err(RpcFault::Usage(Method::SubmitHeader));
    };
    Ok(Call::SubmitHeader(header_of(value)?))
}

/// A header in hex.
fn header_of(value: &Value<'_>) -> Result<Header, RpcFault>
    ensures { result ≡ header_of (value_view value.now) }
{
    let text = value.as_str().ok_or(RpcFault::WrongType)?;
    header_in(text).ok_or(RpcFault::BadHeader)
}

/// The header that 160 digits of hex write.
fn header_in(text: &str) -> Option<Header>
    ensures { result ≡ header_in text.now }
{
    let mut bytes = [0u8; 80];
    hex::decode_to_slice(text.as_bytes(), &mut bytes).ok()?;
    read_header(&mut Cursor::new(&bytes)).ok()
}

/// `generate`.
pub(crate) fn generate(request: &Value<'_>) -> Result<Call, RpcFault>
    ensures { result ≡ generate_call (value_view request.now) }
{
    let Some(count) = argument(request, 0, "nblocks") else {
        return Err(RpcFault::Usage(Method::Generate));
    };
    Ok(Call::Generate(mined_of(count)?))
}

/// How many blocks are mined.
fn mined_of(value: &Value<'_>) -> Result<u16, RpcFault>
    ensures { result ≡ mined_of (value_view value.now) }
{
    let digits = value.as_number().ok_or(RpcFault::WrongType)?;
    mined_in(digits).ok_or(RpcFault::OutOfRange)
}

/// A number from 1 to `MOST_MINED`.
fn mined_in(digits: &str) -> Option<u16>
    ensures { result ≡ option_and_then unless_zero (number_in 1001 digits.now) }
{
    let count = short(digits)?;
    if count != 0 && count <= MOST_MINED {
        Some(count)
    } else {
        None
    }
}
