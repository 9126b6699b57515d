ghost use Rattle.std.specs.Prelude.{◌≡◌};
ghost use Rattle.cb_block.specs.declared.block.Block.{Block};
ghost use Rattle.cb_relay.specs.Parts.{IsNoSpans};
ghost use Rattle.cb_relay.specs.Spans.{spans_of};
ghost use Rattle.cb_relay.specs.Whole.{IsBlockOf, IsNoSoundBlock, IsNoValidBlock, IsSoundOf, IsValidOf};
ghost use Rattle.cb_c.specs.Giving.{Gives};
ghost use Rattle.cb_c.specs.Status.{Answers};

use crate::giving::give;
use crate::status::status;
use cb_relay::{CbSpan, block_spans, sound_block, valid_block};
use std::alloc::Global;

/// Whether the bytes are one sound block: its transactions are the only ones that fit its header.
#[unsafe(no_mangle)]
pub extern "C" fn cbrelay_block_sound(alloc: Global, block: &[u8]) -> u32
    ensures { Answers result
        ((read : Block) × IsSoundOf block.now read)
        (IsNoSoundBlock block.now) }
{
    match sound_block(alloc, block) {
        Ok(_read) => 0,
        Err(fault) => status(fault),
    }
}

/// Whether the bytes are one sound block that meets the rules a block meets by itself.
#[unsafe(no_mangle)]
pub extern "C" fn cbrelay_block_check(alloc: Global, block: &[u8]) -> u32
    ensures { Answers result
        ((read : Block) × IsValidOf block.now read)
        (IsNoValidBlock block.now) }
{
    match valid_block(alloc, block) {
        Ok(_read) => 0,
        Err(fault) => status(fault),
    }
}

/// Where each transaction lies in the block that is all of these bytes. After a fault nothing has
/// changed.
#[unsafe(no_mangle)]
pub extern "C" fn cbrelay_block_transactions_at(
    alloc: Global,
    block: &[u8],
    spans: &mut [CbSpan],
    count: &mut usize,
) -> u32
    ensures { Gives
        (λ list. (read : Block) × IsBlockOf block.now read × (list ≡ spans_of read))
        (IsNoSpans block.now) spans.old spans.new count.old count.new result }
{
    match block_spans(alloc, block) {
        Ok(list) => give(list.as_slice(), spans, count),
        Err(fault) => status(fault),
    }
}
