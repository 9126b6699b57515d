//! Plays a network and prints what happened.
ghost use Rattle.std.specs.Prelude.{◌≡◌, ◌⊎◌, ◌++◌, ℕ, true, List, string_bytes, IfErr, IfOk, IsOkUnless, OnOk};
ghost use Rattle.std.specs.Io.KnownBytes.{Appends};
ghost use Rattle.cb_base.specs.declared.fault.Fault.TheVariants as faults;
ghost use Rattle.std.specs.List.{flat_map};
ghost use Rattle.cb_net_node.specs.declared.results.BlockResult.{BlockResult};
ghost use Rattle.cb_net.specs.Played.{EndsAs, HasPlayed, PlaysOn};
ghost use Rattle.cb_net.specs.Playing.{EndsShort, LacksOrFails, PlaysNet, RunsNet, bad_net_line, block_part, end_part, end_status, head_part};

use crate::net::Net;
use crate::net_end::NetEnd;
use crate::printing::{push_block, push_ending, push_fault};
use crate::progress::Progress;
use crate::rows::{push_head, push_row};
use cb_base::{Fault, Sink};
use cb_control::{Halt, Status, write_all};
use cb_net_node::BlockResult;
use cb_net_plan::{BadNet, NetSettings};
use std::alloc::Global;

/// Plays a network of these settings, and prints lines for each block as soon as it was relayed, or
/// a row for a plot, and at the end the tip, the connections that were closed, and the audits.
/// Returns the exit status: 0 if the honest nodes have one tip, each audit says yes, and all that
/// was due happened; else 2. If no network can be so, tells on `errors` why, and returns 3.
/// Meanwhile `progress` tells how far it is.
///
/// Fails if memory runs out or a write fails.
pub fn run_net<W: Sink, E: Sink, P: Sink>(
    alloc: Global,
    net: Result<NetSettings, BadNet>,
    writer: &mut W,
    errors: &mut E,
    progress: &mut Progress<P>,
) -> Result<u8, Halt>
    ensures runs { IfOk result (RunsNet (writer.new ≡ writer.old) (errors.new ≡ errors.old)
        (W.contents writer.old) (W.contents writer.new) (E.contents errors.old)
        (E.contents errors.new) net) }
    ensures err { IfErr result
        (EndsShort (W.has_failed writer.new) (E.has_failed errors.new)) }
    ensures quiet { IfErr result
        (λ halt. (errors.new ≡ errors.old) ⊎ (E.has_failed errors.new ≡ true)) }
{
    match net {
        Ok(settings) => play_net(alloc, &settings, writer, progress),
        Err(bad) => refuse(alloc, bad, errors),
    }
}

/// Tells why no network can be as it was asked for. Returns the exit status.
fn refuse<E: Sink>(alloc: Global, bad: BadNet, errors: &mut E) -> Result<u8, Halt>
    ensures told { OnOk result
        (Appends (E.contents errors.old) (E.contents errors.new) (bad_net_line bad)) }
    ensures status { IfOk result (λ status. status ≡ 3) }
    ensures err { IfErr result (LacksOrFails (E.has_failed errors.new)) }
    ensures quiet { IfErr result
        (λ halt. (errors.new ≡ errors.old) ⊎ (E.has_failed errors.new ≡ true)) }
{
    let text = format!(in alloc; "error: {bad}\n")?;
    write_all(errors, text.as_bytes())?;
    Ok(Status::RunFailed.code())
}

/// Plays a network of these settings, and prints what happened. Returns the exit status.
fn play_net<W: Sink, P: Sink>(
    alloc: Global,
    settings: &NetSettings,
    writer: &mut W,
    progress: &mut Progress<P>,
) -> Result<u8, Halt>
    ensures plays { IfOk result (λ status. (out : List ℕ)
        × Appends (W.contents writer.old) (W.contents writer.new) out
        × PlaysNet settings.now out status) }
    ensures err { IfErr result (LacksOrFails (W.has_failed writer.new)) }
{
    tell_head(alloc, settings.csv, writer)?;
    let end = play(alloc, settings, writer, progress)?;
    tell_end(alloc, settings, &end, writer)
}

/// Plays a network, and prints what is told of its blocks. Returns how it ended.
fn play<W: Sink, P: Sink>(
    alloc: Global,
    settings: &NetSettings,
    writer: &mut W,
    progress: &mut Progress<P>,
) -> Result<NetEnd, Halt>
    ensures plays { IfOk result (λ end. (blocks : List BlockResult)
        × HasPlayed settings.now blocks end
        × Appends (W.contents writer.old) (W.contents writer.new)
        (flat_map (block_part settings.now.csv) blocks)) }
    ensures err { IfErr result (LacksOrFails (W.has_failed writer.new)) }
{
    progress.show_greetings();
    let mut net = match Net::new(alloc, *settings) {
        Ok(net) => net,
        Err(fault) => {
            progress.erase();
            return Ok(NetEnd::Broke(fault));
        }
    };
    let end = relay_all(alloc, settings, &mut net, writer, progress);
    net.close();
    progress.erase();
    end
}

/// A network that just began relays its blocks, and what is told of each is printed. Returns how it
/// ended.
fn relay_all<W: Sink, P: Sink>(
    alloc: Global,
    settings: &NetSettings,
    net: &mut Net,
    writer: &mut W,
    progress: &mut Progress<P>,
) -> Result<NetEnd, Halt>
    requires settings { net.old.settings ≡ settings.now }
    requires fresh { net.old.relayed ≡ 0 }
    ensures plays { IfOk result (λ end. (blocks : List BlockResult)
        × PlaysOn net.old blocks end
        × Appends (W.contents writer.old) (W.contents writer.new)
        (flat_map (block_part settings.now.csv) blocks)) }
    ensures err { IfErr result (LacksOrFails (W.has_failed writer.new)) }
{
    for turn in 0..settings.blocks {
        progress.show_block(alloc, turn, settings.blocks);
        match net.next_block() {
            Ok(Some(block)) => tell_block(alloc, settings.csv, &block, writer, progress)?,
            Ok(None) => return Ok(end_of(net, progress)),
            Err(fault) => return Ok(NetEnd::Broke(fault)),
        }
    }
    Ok(end_of(net, progress))
}

/// Ends a network.
fn end_of<P: Sink>(net: &mut Net, progress: &mut Progress<P>) -> NetEnd
    ensures { EndsAs net.old net.new result }
{
    progress.show_end();
    match net.finish() {
        Ok(ending) => NetEnd::Ended(ending),
        Err(fault) => NetEnd::Broke(fault),
    }
}

/// Prints the first row, if rows are printed.
fn tell_head<W: Sink>(alloc: Global, csv: bool, writer: &mut W) -> Result<(), Halt>
    ensures text { OnOk result
        (Appends (W.contents writer.old) (W.contents writer.new) (head_part csv)) }
    ensures err { IfErr result (LacksOrFails (W.has_failed writer.new)) }
{
    let mut text = String::new(alloc);
    push_first(&mut text, csv).map_err(Halt::of_memory)?;
    write_all(writer, text.as_bytes())
}

/// Appends the first row, if rows are printed. Fails only with `Fault::Memory`.
fn push_first(text: &mut String, csv: bool) -> Result<(), Fault>
    ensures text { OnOk result
        (string_bytes text.new ≡ string_bytes text.old ++ head_part csv) }
    ensures memory { IsOkUnless result faults.Memory }
{
    if csv { push_head(text) } else { Ok(()) }
}

/// Erases the line that tells how far the network is, and prints what is told of a block.
fn tell_block<W: Sink, P: Sink>(
    alloc: Global,
    csv: bool,
    block: &BlockResult,
    writer: &mut W,
    progress: &mut Progress<P>,
) -> Result<(), Halt>
    ensures text { OnOk result
        (Appends (W.contents writer.old) (W.contents writer.new) (block_part csv block.now)) }
    ensures err { IfErr result (LacksOrFails (W.has_failed writer.new)) }
{
    progress.erase();
    let mut text = String::new(alloc);
    push_told(&mut text, csv, block).map_err(Halt::of_memory)?;
    write_all(writer, text.as_bytes())
}

/// Appends what is told of a block. Fails only with `Fault::Memory`.
fn push_told(text: &mut String, csv: bool, block: &BlockResult) -> Result<(), Fault>
    ensures text { OnOk result
        (string_bytes text.new ≡ string_bytes text.old ++ block_part csv block.now) }
    ensures memory { IsOkUnless result faults.Memory }
{
    if csv {
        push_row(text, block)
    } else {
        push_block(text, block)
    }
}

/// Prints how a network ended, if words are printed. Returns the exit status.
fn tell_end<W: Sink>(
    alloc: Global,
    settings: &NetSettings,
    end: &NetEnd,
    writer: &mut W,
) -> Result<u8, Halt>
    ensures text { OnOk result (Appends (W.contents writer.old) (W.contents writer.new)
        (end_part settings.now end.now)) }
    ensures status { IfOk result (λ status. status ≡ end_status end.now) }
    ensures err { IfErr result (LacksOrFails (W.has_failed writer.new)) }
{
    let mut text = String::new(alloc);
    push_end(alloc, &mut text, settings, end).map_err(Halt::of_memory)?;
    write_all(writer, text.as_bytes())?;
    Ok(end.status().code())
}

/// Appends how a network ended, if words are printed. Fails only with `Fault::Memory`, also if that
/// ended it.
fn push_end(
    alloc: Global,
    text: &mut String,
    settings: &NetSettings,
    end: &NetEnd,
) -> Result<(), Fault>
    ensures text { OnOk result
        (string_bytes text.new ≡ string_bytes text.old ++ end_part settings.now end.now) }
    ensures memory { IsOkUnless result faults.Memory }
{
    if let NetEnd::Broke(Fault::Memory) = end {
        return Err(Fault::Memory);
    }
    if settings.csv {
        return Ok(());
    }
    match end {
        NetEnd::Ended(ending) => push_ending(alloc, text, ending, settings.audit, settings.seed),
        NetEnd::Broke(fault) => push_fault(text, *fault, settings.seed),
    }
}
