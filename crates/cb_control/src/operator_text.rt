//! Replies as an operator is told them.
ghost use Rattle.std.specs.Prelude.{◌≡◌, ◌++◌, true, IsOkUnless, OnErr, OnOk, string_bytes};
ghost use Rattle.std.specs.Io.KnownBytes.{Appends};
ghost use Rattle.std.specs.List.{flat_map};
ghost use Rattle.cb_base.specs.declared.fault.Fault.TheVariants.{Memory};
ghost use Rattle.cb_control.specs.declared.ending.Halt.TheVariants as halts;
ghost use Rattle.cb_control.specs.declared.reply.Reply.{Reply};
ghost use Rattle.cb_control.specs.OrderLine.{on_off};
ghost use Rattle.cb_control.specs.ReplyText.{IsOr, block_text, count_line, hash_line, peer_text, reply_text, stats_text, tip_line, txid_line, verdict_text, yes_no};

use crate::ending::Halt;
use crate::output::write_all;
use crate::peer_line::print_peer;
use crate::reply::Reply;
use crate::report::{BlockReport, PeerReport, StatsReport, Tip};
use crate::verdict::Verdict;
use cb_base::{Fault, Hash256, Sink};
use std::alloc::Global;

/// Prints the lines of a reply, or `error memory` in their place if memory lacks for them. Fails
/// only with `Halt::WriteFailed`.
pub fn write_reply<W: Sink>(alloc: Global, reply: &Reply, writer: &mut W) -> Result<(), Halt>
    ensures told { OnOk result ((told : Reply) × IsOr reply.now told
        × Appends (W.contents writer.old) (W.contents writer.new) (reply_text told)) }
    ensures failed { IsOkUnless result halts.WriteFailed }
    ensures marked { OnErr result (W.has_failed writer.new ≡ true) }
{
    let mut text = String::new(alloc);
    match print_reply(alloc, reply, &mut text) {
        Ok(()) => write_all(writer, text.as_bytes()),
        Err(_) => write_all(writer, b"error memory\n"),
    }
}

/// Appends the lines of a reply. Fails only with `Fault::Memory`.
pub fn print_reply(alloc: Global, reply: &Reply, out: &mut String) -> Result<(), Fault>
    ensures text { OnOk result
        (string_bytes out.new ≡ string_bytes out.old ++ reply_text reply.now) }
    ensures memory { IsOkUnless result Memory }
{
    match reply {
        Reply::Listening(address) => writeln!(out, "listening {address}")?,
        Reply::Tip(tip) => print_tip("tip ", tip, alloc, out)?,
        Reply::Block(block) => print_block(block, alloc, out)?,
        Reply::Tx(txid) => print_hash("tx ", txid, alloc, out)?,
        Reply::Submitted(hash) => print_hash("submitted ", hash, alloc, out)?,
        Reply::Mined(count, tip) => {
            write!(out, "mined {count}")?;
            print_tip(" tip ", tip, alloc, out)?;
        }
        Reply::Pool(txids) => {
            writeln!(out, "pool {}", txids.len())?;
            print_txids(txids.as_slice(), alloc, out)?;
        }
        Reply::Peers(peers) => {
            writeln!(out, "peers {}", peers.len())?;
            print_peers(peers.as_slice(), out)?;
        }
        Reply::Kicked(slot) => writeln!(out, "kicked {slot}")?,
        Reply::Connected(address, slot) => writeln!(out, "connected {address} slot {slot}")?,
        Reply::Disconnected(address) => writeln!(out, "disconnected {address}")?,
        Reply::Network(on) => writeln!(out, "network {}", on_off(*on))?,
        Reply::Checkpoint => writeln!(out, "checkpoint")?,
        Reply::Stats(stats) => print_stats(stats, out)?,
        Reply::Restarted(verdict, tip) => {
            print_verdict(*verdict, out)?;
            print_tip("restarted tip ", tip, alloc, out)?;
        }
        Reply::Audit(verdict) => print_verdict(*verdict, out)?,
        Reply::Refused(refusal) => writeln!(out, "error {refusal}")?,
    }
    Ok(())
}

/// Appends what an audit answers. Fails only with `Fault::Memory`.
fn print_verdict(verdict: Verdict, out: &mut String) -> Result<(), Fault>
    ensures text { OnOk result
        (string_bytes out.new ≡ string_bytes out.old ++ verdict_text verdict) }
    ensures memory { IsOkUnless result Memory }
{
    match verdict {
        Verdict::Yes(answers, dropped) => {
            writeln!(out, "audit yes {answers} answers, {dropped} dropped")?;
        }
        Verdict::Count(slot, generation) => {
            writeln!(out, "audit no count slot {slot} connection {generation}")?;
        }
        Verdict::Differs(slot, generation, place) => writeln!(
            out,
            "audit no differs slot {slot} connection {generation} place {place}"
        )?,
        Verdict::OutOfOrder => writeln!(out, "audit no order")?,
        Verdict::Memory => writeln!(out, "audit no memory")?,
    }
    Ok(())
}

/// Appends a block's line. Fails only with `Fault::Memory`.
fn print_block(block: &BlockReport, alloc: Global, out: &mut String) -> Result<(), Fault>
    ensures text { OnOk result
        (string_bytes out.new ≡ string_bytes out.old ++ block_text block.now) }
    ensures memory { IsOkUnless result Memory }
{
    let hash = block.hash.show(alloc)?;
    let (height, best) = (block.height, yes_no(block.best));
    write!(
        out,
        "block {hash} height {height} best {best} transactions "
    )?;
    print_count(block.txs, out)
}

/// Appends how many transactions a block has, if it is kept. Fails only with `Fault::Memory`.
fn print_count(txs: Option<usize>, out: &mut String) -> Result<(), Fault>
    ensures text { OnOk result
        (string_bytes out.new ≡ string_bytes out.old ++ count_line txs) }
    ensures memory { IsOkUnless result Memory }
{
    match txs {
        Some(count) => writeln!(out, "{count}")?,
        None => writeln!(out, "none")?,
    }
    Ok(())
}

/// `yes` or `no`.
pub fn yes_no(is_so: bool) -> &'static str
    ensures { result.now ≡ yes_no is_so }
{
    if is_so { "yes" } else { "no" }
}

/// `on` or `off`.
fn on_off(is_on: bool) -> &'static str
    ensures { result.now ≡ on_off is_on }
{
    if is_on { "on" } else { "off" }
}

/// Appends a line for each of these txids. Fails only with `Fault::Memory`.
fn print_txids(txids: &[Hash256], alloc: Global, out: &mut String) -> Result<(), Fault>
    ensures text { OnOk result
        (string_bytes out.new ≡ string_bytes out.old ++ flat_map txid_line txids.now) }
    ensures memory { IsOkUnless result Memory }
{
    for txid in txids {
        print_hash("", txid, alloc, out)?;
    }
    Ok(())
}

/// Appends a line for each of these connections. Fails only with `Fault::Memory`.
fn print_peers(peers: &[PeerReport], out: &mut String) -> Result<(), Fault>
    ensures text { OnOk result
        (string_bytes out.new ≡ string_bytes out.old ++ flat_map peer_text peers.now) }
    ensures memory { IsOkUnless result Memory }
{
    for peer in peers {
        print_peer(peer, out)?;
    }
    Ok(())
}

/// Appends what all connections moved. Fails only with `Fault::Memory`.
fn print_stats(stats: &StatsReport, out: &mut String) -> Result<(), Fault>
    ensures text { OnOk result
        (string_bytes out.new ≡ string_bytes out.old ++ stats_text stats.now) }
    ensures memory { IsOkUnless result Memory }
{
    let (seconds, lasting, all) = (stats.seconds, stats.lasting, stats.all);
    write!(
        out,
        "stats seconds {seconds} open {lasting} connections {all} "
    )?;
    stats.moved.print(out)?;
    let refused = stats.refused;
    writeln!(out, " refused {refused}")?;
    Ok(())
}

/// Appends a word, a height and a hash. Fails only with `Fault::Memory`.
fn print_tip(word: &str, tip: &Tip, alloc: Global, out: &mut String) -> Result<(), Fault>
    ensures text { OnOk result
        (string_bytes out.new ≡ string_bytes out.old ++ tip_line word.now tip.now) }
    ensures memory { IsOkUnless result Memory }
{
    let (height, hash) = (tip.height, tip.hash.show(alloc)?);
    writeln!(out, "{word}{height} {hash}")?;
    Ok(())
}

/// Appends a word and a hash. Fails only with `Fault::Memory`.
fn print_hash(word: &str, hash: &Hash256, alloc: Global, out: &mut String) -> Result<(), Fault>
    ensures text { OnOk result
        (string_bytes out.new ≡ string_bytes out.old ++ hash_line word.now hash.now) }
    ensures memory { IsOkUnless result Memory }
{
    let hash = hash.show(alloc)?;
    writeln!(out, "{word}{hash}")?;
    Ok(())
}
