//! What is printed in words. Each function here fails only with `Fault::Memory`.
ghost use Rattle.std.specs.Prelude.{◌≡◌, ◌++◌, IsOkUnless, OnOk, string_bytes};
ghost use Rattle.cb_base.specs.declared.fault.Fault.TheVariants.{Memory};
ghost use Rattle.cb_net.specs.NetEnding.{audits_text, block_text, closed_text, cut_text, ending_text, fault_text, refused_text, seed_text, split_text, times_text, tip_text, trouble_text, ways_text};

use crate::milliseconds::Milliseconds;
use crate::traffic::push_sent;
use cb_audit::Split;
use cb_base::Fault;
use cb_net_node::{BlockResult, Ending};
use std::alloc::Global;

/// Appends the lines of a block: when it came to half, to nine of ten and to all of the honest
/// nodes, in milliseconds, and how; and what they sent meanwhile, by commands.
pub fn push_block(text: &mut String, block: &BlockResult) -> Result<(), Fault>
    ensures text { OnOk result
        (string_bytes text.new ≡ string_bytes text.old ++ block_text block.now) }
    ensures memory { IsOkUnless result Memory }
{
    push_times(text, block)?;
    push_ways(text, block)?;
    push_sent(text, block.traffic.rows())?;
    Ok(())
}

/// Appends who mined a block, and when it came to half, to nine of ten and to all.
fn push_times(text: &mut String, block: &BlockResult) -> Result<(), Fault>
    ensures text { OnOk result
        (string_bytes text.new ≡ string_bytes text.old ++ times_text block.now) }
    ensures memory { IsOkUnless result Memory }
{
    let (number, miner) = (block.number, block.miner);
    let (half, most) = (Milliseconds(block.half), Milliseconds(block.most));
    let all = Milliseconds(block.all);
    write!(
        text,
        "block {number} miner {miner} half {half} most {most} all {all}"
    )?;
    Ok(())
}

/// Appends how a block came, the line's end, and the beginning of the next line.
fn push_ways(text: &mut String, block: &BlockResult) -> Result<(), Fault>
    ensures text { OnOk result
        (string_bytes text.new ≡ string_bytes text.old ++ ways_text block.now) }
    ensures memory { IsOkUnless result Memory }
{
    let (once, number) = (block.once, block.number);
    let (asked, whole) = (block.asked, block.whole);
    write!(
        text,
        " once {once} asked {asked} whole {whole}\nbytes {number}"
    )?;
    Ok(())
}

/// Appends the last lines: all that was sent, the tip, the connections that were closed, the
/// audits, and if not all is well, the seed under which it happens again.
pub fn push_ending(
    alloc: Global,
    text: &mut String,
    ending: &Ending,
    audit: bool,
    seed: u64,
) -> Result<(), Fault>
    ensures text { OnOk result
        (string_bytes text.new ≡ string_bytes text.old ++ ending_text audit seed ending.now) }
    ensures memory { IsOkUnless result Memory }
{
    write!(text, "bytes all")?;
    push_sent(text, ending.traffic.rows())?;
    push_tip(alloc, text, ending)?;
    push_closed(text, ending)?;
    push_audits(text, ending, audit)?;
    push_refused(text, ending.refused)?;
    push_cut(text, ending.is_cut)?;
    push_trouble(text, ending, seed)?;
    Ok(())
}

/// Appends the line of the tip.
fn push_tip(alloc: Global, text: &mut String, ending: &Ending) -> Result<(), Fault>
    ensures text { OnOk result
        (string_bytes text.new ≡ string_bytes text.old ++ tip_text ending.now) }
    ensures memory { IsOkUnless result Memory }
{
    let tip = ending.tip.show(alloc)?;
    let (height, agreeing, honest) = (ending.height, ending.agreeing, ending.honest);
    writeln!(text, "tip {height} {tip} nodes {agreeing} of {honest}")?;
    Ok(())
}

/// Appends the line of the connections that honest nodes closed.
fn push_closed(text: &mut String, ending: &Ending) -> Result<(), Fault>
    ensures text { OnOk result
        (string_bytes text.new ≡ string_bytes text.old ++ closed_text ending.now) }
    ensures memory { IsOkUnless result Memory }
{
    let (liars, others) = (ending.closed_on_liars, ending.closed_on_honest);
    writeln!(text, "closed dishonest {liars} honest {others}")?;
    Ok(())
}

/// Appends the line of the audits, if there are any.
fn push_audits(text: &mut String, ending: &Ending, audit: bool) -> Result<(), Fault>
    ensures text { OnOk result
        (string_bytes text.new ≡ string_bytes text.old ++ audits_text audit ending.now) }
    ensures memory { IsOkUnless result Memory }
{
    if !audit {
        return Ok(());
    }
    let (yes, no) = (ending.yes, ending.no);
    writeln!(text, "audit yes {yes} no {no}")?;
    Ok(())
}

/// Appends which audit doesn't say yes, if one doesn't.
fn push_refused(text: &mut String, refused: Option<(u32, Split)>) -> Result<(), Fault>
    ensures text { OnOk result
        (string_bytes text.new ≡ string_bytes text.old ++ refused_text refused) }
    ensures memory { IsOkUnless result Memory }
{
    match refused {
        Some((node, split)) => push_split(text, node, split),
        None => Ok(()),
    }
}

/// Appends why the audit of a node doesn't say yes.
fn push_split(text: &mut String, node: u32, split: Split) -> Result<(), Fault>
    ensures text { OnOk result
        (string_bytes text.new ≡ string_bytes text.old ++ split_text node split) }
    ensures memory { IsOkUnless result Memory }
{
    match split {
        Split::Memory => writeln!(text, "audit node {node} unknown")?,
        Split::Count(connection) => {
            let (peer, generation) = (connection.peer, connection.generation);
            writeln!(text, "audit node {node} count {peer} {generation}")?;
        }
        Split::Differs(connection, place) => {
            let (peer, generation) = (connection.peer, connection.generation);
            writeln!(
                text,
                "audit node {node} differs {peer} {generation} {place}"
            )?;
        }
    }
    Ok(())
}

/// Appends a line if not all that was due happened.
fn push_cut(text: &mut String, is_cut: bool) -> Result<(), Fault>
    ensures text { OnOk result
        (string_bytes text.new ≡ string_bytes text.old ++ cut_text is_cut) }
    ensures memory { IsOkUnless result Memory }
{
    if is_cut {
        writeln!(text, "too many events")?;
    }
    Ok(())
}

/// Appends the line with the seed, if not all is well.
fn push_trouble(text: &mut String, ending: &Ending, seed: u64) -> Result<(), Fault>
    ensures text { OnOk result
        (string_bytes text.new ≡ string_bytes text.old ++ trouble_text seed ending.now) }
    ensures memory { IsOkUnless result Memory }
{
    if ending.is_well() {
        return Ok(());
    }
    push_seed(text, seed)
}

/// Appends the line with the seed.
fn push_seed(text: &mut String, seed: u64) -> Result<(), Fault>
    ensures text { OnOk result
        (string_bytes text.new ≡ string_bytes text.old ++ seed_text seed) }
    ensures memory { IsOkUnless result Memory }
{
    writeln!(text, "failed seed {seed}")?;
    Ok(())
}

/// Appends why a network couldn't be played on, and the seed.
pub fn push_fault(text: &mut String, fault: Fault, seed: u64) -> Result<(), Fault>
    ensures text { OnOk result
        (string_bytes text.new ≡ string_bytes text.old ++ fault_text fault seed) }
    ensures memory { IsOkUnless result Memory }
{
    writeln!(text, "fault {fault}\nfailed seed {seed}")?;
    Ok(())
}
