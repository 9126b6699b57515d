//! Orders as an operator's lines give them.
ghost use Rattle.std.specs.Prelude.{◌≡◌, IfOk, IsOkUnless, option_map};
ghost use Rattle.cb_base.specs.declared.fault.Fault.TheVariants.{Memory};
ghost use Rattle.cb_control.specs.Words.{number_in};
ghost use Rattle.cb_control.specs.declared.order.Deed.TheVariants as deeds;
ghost use Rattle.cb_control.specs.OrderLine.{ReadsOrder};
ghost use Rattle.cb_control.specs.OrderReading.{IsAddress, IsLine, IsNamed, plain_order, switch_in};

use crate::order::{Deed, MOST_MINED, Order};
use crate::words::{cut, short};
use crate::written::{read_block, read_hash, read_tx};
use cb_base::Fault;
use std::alloc::Global;
use std::net::SocketAddr;

/// Reads an operator's line. One space separates two words. Numbers are decimal digits; leading
/// zeros are allowed. Hex may have letters of either case.
///
/// | line | order |
/// |---|---|
/// | `tip`, `pool`, `peers`, `checkpoint`, `stats`, `restart`, `quit` | the one of that name |
/// | `block HASH` | `Block`: 64 digits of hex, the last byte first |
/// | `tx HEX`, `submit-block HEX` | `Tx`, `Submit` |
/// | `mine`, `mine N` | `Mine` of one block, or of N, at most `MOST_MINED` |
/// | `kick SLOT` | `Kick` |
/// | `connect ADDR:PORT` | `Connect`: in numbers, as `127.0.0.1:18444` or `[::1]:18444` |
/// | `disconnect ADDR:PORT` | `Disconnect` |
/// | `network on`, `network off` | `Network` |
///
/// Returns `None` exactly if the line is none of these. Fails only with `Fault::Memory`.
pub fn read_order(alloc: Global, text: &[u8]) -> Result<Option<Order>, Fault>
    ensures exact { IfOk result (λ read. ReadsOrder text.now read) }
    ensures memory { IsOkUnless result Memory }
{
    match str::from_utf8(text) {
        Ok(text) => order_of(alloc, text),
        Err(_) => Ok(None),
    }
}

/// The order of a line. Fails only with `Fault::Memory`.
fn order_of(alloc: Global, text: &str) -> Result<Option<Order>, Fault>
    ensures exact { IfOk result (λ read. IsLine text.now read) }
    ensures memory { IsOkUnless result Memory }
{
    match cut(text) {
        Some((word, rest)) => named(alloc, word, rest),
        None => Ok(plain(text)),
    }
}

/// The order of one word.
fn plain(word: &str) -> Option<Order>
    ensures { result ≡ plain_order word.now }
{
    match word {
        "tip" => Some(Order::Tip),
        "mine" => Some(Order::Do(Deed::Mine(1))),
        "pool" => Some(Order::Pool),
        "peers" => Some(Order::Peers),
        "checkpoint" => Some(Order::Do(Deed::Checkpoint)),
        "stats" => Some(Order::Stats),
        "restart" => Some(Order::Restart),
        "quit" => Some(Order::Quit),
        _ => None,
    }
}

/// The order of a word, and what stands behind it. Fails only with `Fault::Memory`.
fn named(alloc: Global, word: &str, rest: &str) -> Result<Option<Order>, Fault>
    ensures exact { IfOk result (λ read. IsNamed word.now rest.now read) }
    ensures memory { IsOkUnless result Memory }
{
    match word {
        "block" => Ok(read_hash(rest).map(|hash| Order::Block(hash))),
        "tx" => Ok(read_tx(alloc, rest)?.map(|tx| Order::Do(Deed::Tx(tx)))),
        "submit-block" => {
            Ok(read_block(alloc, rest)?.map(|block| Order::Do(Deed::Submit(block))))
        }
        "mine" => Ok(mine(rest)),
        "kick" => Ok(short(rest).map(|slot| Order::Do(Deed::Kick(slot)))),
        "connect" => Ok(address(rest).map(|address| Order::Connect(address))),
        "disconnect" => Ok(address(rest).map(|address| Order::Disconnect(address))),
        "network" => Ok(switch(rest).map(|on| Order::Network(on))),
        _ => Ok(None),
    }
}

/// `mine`: how many blocks, at most `MOST_MINED`.
fn mine(rest: &str) -> Option<Order>
    ensures { result ≡ option_map (λ count. Order.Do (deeds.Mine count)) (number_in 1001 rest.now) }
{
    let count = short(rest)?;
    if count <= MOST_MINED {
        Some(Order::Do(Deed::Mine(count)))
    } else {
        None
    }
}

/// An address and a port.
fn address(text: &str) -> Option<SocketAddr>
    ensures { IsAddress text.now result }
{
    text.parse::<SocketAddr>().ok()
}

/// `network`: `on` or `off`.
fn switch(rest: &str) -> Option<bool>
    ensures { result ≡ switch_in rest.now }
{
    match rest {
        "on" => Some(true),
        "off" => Some(false),
        _ => None,
    }
}
