//! What is printed as rows of comma-separated values (RFC 4180 with LF as the end of a row). Each
//! function here fails only with `Fault::Memory`.
ghost use Rattle.std.specs.Prelude.{◌≡◌, ◌++◌, IsOkUnless, OnOk, string_bytes};
ghost use Rattle.cb_base.specs.declared.fault.Fault.TheVariants.{Memory};
ghost use Rattle.cb_net.specs.NetEnding.{head_row, row_text, time_cells, way_cells};

use crate::milliseconds::Cell;
use crate::traffic::{push_columns, push_heads};
use cb_base::Fault;
use cb_net_node::BlockResult;

/// Appends the first row: the names of the columns.
pub fn push_head(text: &mut String) -> Result<(), Fault>
    ensures text { OnOk result (string_bytes text.new ≡ string_bytes text.old ++ head_row) }
    ensures memory { IsOkUnless result Memory }
{
    write!(
        text,
        "block,miner,transactions,half,most,all,reached,once,asked,whole"
    )?;
    push_heads(text)?;
    Ok(())
}

/// Appends the row of a block. Times are in milliseconds; one that isn't there is empty.
pub fn push_row(text: &mut String, block: &BlockResult) -> Result<(), Fault>
    ensures text { OnOk result
        (string_bytes text.new ≡ string_bytes text.old ++ row_text block.now) }
    ensures memory { IsOkUnless result Memory }
{
    push_times(text, block)?;
    push_ways(text, block)?;
    push_columns(text, block.traffic.rows())?;
    Ok(())
}

/// Appends what a block is, and when it came to half, to nine of ten and to all.
fn push_times(text: &mut String, block: &BlockResult) -> Result<(), Fault>
    ensures text { OnOk result
        (string_bytes text.new ≡ string_bytes text.old ++ time_cells block.now) }
    ensures memory { IsOkUnless result Memory }
{
    let (number, miner, transactions) = (block.number, block.miner, block.transactions);
    let (half, most, all) = (Cell(block.half), Cell(block.most), Cell(block.all));
    write!(text, "{number},{miner},{transactions},{half},{most},{all}")?;
    Ok(())
}

/// Appends how many nodes it came to, and how.
fn push_ways(text: &mut String, block: &BlockResult) -> Result<(), Fault>
    ensures text { OnOk result
        (string_bytes text.new ≡ string_bytes text.old ++ way_cells block.now) }
    ensures memory { IsOkUnless result Memory }
{
    let (reached, once) = (block.reached, block.once);
    let (asked, whole) = (block.asked, block.whole);
    write!(text, ",{reached},{once},{asked},{whole}")?;
    Ok(())
}
