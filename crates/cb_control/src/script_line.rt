//! Orders as the lines of a script give them.
ghost use Rattle.std.specs.Prelude.{◌≡◌, ◌^◌, IfOk, IfSome, IsOkUnless, option_map};
ghost use Rattle.cb_base.specs.declared.fault.Fault.TheVariants.{Memory};
ghost use Rattle.cb_control.specs.declared.ending.Halt.TheVariants as halts;
ghost use Rattle.cb_control.specs.Words.{number_in};
ghost use Rattle.cb_control.specs.declared.order.Deed.TheVariants as deeds;
ghost use Rattle.cb_control.specs.ScriptLine.{IsAmong, ReadsScript};
ghost use Rattle.cb_control.specs.ScriptReading.{addressed_in, script_in, script_named, two_in};
ghost use Rattle.cb_control.specs.Written.{block_in, tx_in};

use crate::ending::Halt;
use crate::order::Deed;
use crate::words::{cut, short};
use crate::written::{read_block, read_tx};
use cb_base::Fault;
use std::alloc::Global;

/// What a line of a script has nodes do. They have the numbers 0, 1, and so on.
#[derive(Drop)]
pub enum ScriptOrder {
    /// `link A B`: node A connects to node B.
    Link(u16, u16),
    /// `wait`: the nodes are given time until they have one tip.
    Wait,
    /// A node does something: `tx A HEX`, `block A HEX`, which submits a block, `mine A`,
    /// `kick A SLOT` or `checkpoint A`.
    Obey(u16, Deed),
}

/// Reads a line of a script for so many nodes. One space separates two words. Numbers are decimal
/// digits; leading zeros are allowed. Hex may have letters of either case.
///
/// Returns `None` exactly if the line isn't of one of the forms of `ScriptOrder`, or names a node
/// that there isn't. Fails only with `Halt::Memory`.
pub fn read_script_order(
    alloc: Global,
    text: &[u8],
    nodes: u16,
) -> Result<Option<ScriptOrder>, Halt>
    ensures exact { IfOk result (λ read. ReadsScript nodes text.now read) }
    ensures among { IfOk result (λ read. IfSome read (λ order. IsAmong nodes order)) }
    ensures memory { IsOkUnless result halts.Memory }
{
    match str::from_utf8(text) {
        Ok(text) => script_order_of(alloc, text, nodes).map_err(Halt::of_memory),
        Err(_) => Ok(None),
    }
}

/// The order of a line. Fails only with `Fault::Memory`.
fn script_order_of(alloc: Global, text: &str, nodes: u16) -> Result<Option<ScriptOrder>, Fault>
    ensures exact { IfOk result (λ read. read ≡ script_in nodes text.now) }
    ensures memory { IsOkUnless result Memory }
{
    if text == "wait" {
        return Ok(Some(ScriptOrder::Wait));
    }
    match cut(text) {
        Some((word, rest)) => named(alloc, word, rest, nodes),
        None => Ok(None),
    }
}

/// The order of a word, and what stands behind it. Fails only with `Fault::Memory`.
fn named(alloc: Global, word: &str, rest: &str, nodes: u16) -> Result<Option<ScriptOrder>, Fault>
    ensures exact { IfOk result (λ read. read ≡ script_named nodes word.now rest.now) }
    ensures memory { IsOkUnless result Memory }
{
    match word {
        "link" => Ok(link(rest, nodes)),
        "tx" => tx(alloc, rest, nodes),
        "block" => submit(alloc, rest, nodes),
        "mine" => Ok(node(rest, nodes).map(|node| ScriptOrder::Obey(node, Deed::Mine(1)))),
        "kick" => Ok(kick(rest, nodes)),
        "checkpoint" => {
            Ok(node(rest, nodes).map(|node| ScriptOrder::Obey(node, Deed::Checkpoint)))
        }
        _ => Ok(None),
    }
}

/// The number of one of so many nodes.
fn node(word: &str, nodes: u16) -> Option<u16>
    ensures { result ≡ number_in nodes word.now }
{
    let node = short(word)?;
    if node < nodes { Some(node) } else { None }
}

/// `link`: two nodes.
fn link(rest: &str, nodes: u16) -> Option<ScriptOrder>
    ensures { result ≡ two_in (λ first second. ScriptOrder.Link first second)
        (number_in nodes) (number_in nodes) rest.now }
{
    let (first, second) = cut(rest)?;
    Some(ScriptOrder::Link(node(first, nodes)?, node(second, nodes)?))
}

/// `kick`: a node and a slot.
fn kick(rest: &str, nodes: u16) -> Option<ScriptOrder>
    ensures { result ≡ two_in (λ node slot. ScriptOrder.Obey node (deeds.Kick slot))
        (number_in nodes) (number_in (2 ^ 16)) rest.now }
{
    let (first, second) = cut(rest)?;
    Some(ScriptOrder::Obey(node(first, nodes)?, Deed::Kick(short(second)?)))
}

/// A node, and the text behind it.
fn addressed(rest: &str, nodes: u16) -> Option<(u16, &str)>
    ensures { option_map (λ found. (found.0, found.1.now)) result ≡ addressed_in nodes rest.now }
{
    let (word, text) = cut(rest)?;
    Some((node(word, nodes)?, text))
}

/// `tx`: a node and a transaction. Fails only with `Fault::Memory`.
fn tx(alloc: Global, rest: &str, nodes: u16) -> Result<Option<ScriptOrder>, Fault>
    ensures exact { IfOk result (λ read. read
        ≡ two_in (λ node tx. ScriptOrder.Obey node (deeds.Tx tx)) (number_in nodes) tx_in
        rest.now) }
    ensures memory { IsOkUnless result Memory }
{
    let Some((node, text)) = addressed(rest, nodes) else {
        return Ok(None);
    };
    Ok(read_tx(alloc, text)?.map(|tx| ScriptOrder::Obey(node, Deed::Tx(tx))))
}

/// `block`: a node and a block. Fails only with `Fault::Memory`.
fn submit(alloc: Global, rest: &str, nodes: u16) -> Result<Option<ScriptOrder>, Fault>
    ensures exact { IfOk result (λ read. read
        ≡ two_in (λ node block. ScriptOrder.Obey node (deeds.Submit block))
        (number_in nodes) block_in rest.now) }
    ensures memory { IsOkUnless result Memory }
{
    let Some((node, text)) = addressed(rest, nodes) else {
        return Ok(None);
    };
    Ok(read_block(alloc, text)?.map(|block| ScriptOrder::Obey(node, Deed::Submit(block))))
}
