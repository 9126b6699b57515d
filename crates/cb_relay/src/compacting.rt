//! Making a compact block of a block.
ghost use Rattle.std.specs.Prelude.{◌≡◌, IfErr, IfOk, IsOkUnless};
ghost use Rattle.cb_base.specs.declared.fault.Fault.TheVariants.{Memory};
ghost use Rattle.cb_block.specs.Blocks.{MeetsBlockRules};
ghost use Rattle.cb_relay.specs.Whole.{IsNoValidBlock, IsValidOf};
ghost use Rattle.cb_wire.specs.CompactBlocks.{compact_block_text};
ghost use Rattle.cb_compact.specs.Shortening.{shortened_of};
ghost use Rattle.cb_relay.specs.Compacting.{IsCompacted, IsNotCompacted};

use crate::blocks::valid_block;
use cb_base::Fault;
use cb_block::SoundBlock;
use cb_compact::shortened;
use cb_wire::put_compact_block;
use std::alloc::Global;

/// The payload of the compact block of a sound block.
fn text_of(alloc: Global, block: &SoundBlock, nonce: u64) -> Result<Vec<u8>, Fault>
    requires { MeetsBlockRules block.now }
    ensures text { IfOk result
        (λ text. text.items ≡ compact_block_text (shortened_of block.now nonce)) }
    ensures memory { IsOkUnless result Memory }
{
    let form = shortened(alloc, block, nonce)?;
    let mut text = Vec::new(alloc);
    put_compact_block(&mut text, &form)?;
    Ok(text)
}

/// Makes the payload of the `cmpctblock` (BIP 152, HeaderAndShortIDs) of a block under a nonce. The
/// block's first transaction is prefilled, and all others are short ids.
///
/// Fails as `valid_block` does with the first reason why the bytes are no valid block, and then
/// only with `Memory`.
pub fn compact_block(alloc: Global, block: &[u8], nonce: u64) -> Result<Vec<u8>, Fault>
    ensures found { IfOk result (λ text. IsCompacted block.now nonce text.items) }
    ensures refused { IfErr result (IsNotCompacted block.now) }
{
    let read = match valid_block(alloc, block) {
        Ok(read) => read,
        Err(fault) => return Err(fault),
    };
    match text_of(alloc, &read, nonce) {
        Ok(text) => Ok(text),
        Err(fault) => Err(fault),
    }
}
