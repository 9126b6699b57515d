ghost use Rattle.std.specs.Prelude.{◌≡◌, ◌≤◌, length, IfOk, IsOkUnless};
ghost use Rattle.cb_base.specs.declared.fault.Fault.TheVariants.{Memory};
ghost use Rattle.cb_block.specs.Blocks.{MeetsBlockRules};
ghost use Rattle.cb_block.specs.BlockText.{block_text};
ghost use Rattle.cb_chain.specs.Entries.{block_of};

use cb_base::{Fault, Hash256};
use cb_block::SoundBlock;
use cb_chain::{Chain, kept_meet_rules};
use std::marker::Model;

/// A sound block that meets the rules of a block by itself (Bitcoin's consensus). So it fits in a
/// message, also as a compact block: it has at most 1,000,000 bytes when serialised. Its model is
/// the block.
#[derive(Drop)]
pub struct BoundedBlock {
    block: SoundBlock,
}

impl Model for BoundedBlock {
    ghost use Rattle.cb_block.specs.Blocks.{MeetsBlockRules};
    ghost use Rattle.cb_block.specs.declared.block.Block.{Block};

    ghost Value = { Block };

    ghost view = { λ bounded. bounded.block };

    ghost invariant = { λ bounded. MeetsBlockRules bounded.block };
}

impl BoundedBlock {
    /// Wraps a block that meets the rules of a block.
    pub fn new(block: SoundBlock) -> BoundedBlock
        requires { MeetsBlockRules block }
        ensures { result ≡ block }
    {
        BoundedBlock { block }
    }

    /// The block.
    pub fn block(&self) -> &SoundBlock
        ensures same { result.now ≡ self.now }
        ensures rules { MeetsBlockRules self.now }
        ensures few { length (block_text self.now) ≤ 4000000 }
    {
        &self.block
    }

    /// Another handle to the same block. No memory is allocated. Fails only with `Fault::Memory`,
    /// if the block's count of owners is full.
    pub fn copy(&self) -> Result<BoundedBlock, Fault>
        ensures same { IfOk result (λ copy. copy ≡ self.now) }
        ensures memory { IsOkUnless result Memory }
    {
        Ok(BoundedBlock {
            block: self.block.copy()?,
        })
    }
}

/// The block of this hash, if it is kept and not marked bad. The block is shared, not copied. Fails
/// only with `Fault::Memory`.
pub(crate) fn kept_block(chain: &Chain, hash: &Hash256) -> Result<Option<BoundedBlock>, Fault>
    ensures block { IfOk result (λ block. block ≡ block_of chain.now hash.now) }
    ensures memory { IsOkUnless result Memory }
{
    kept_meet_rules(chain);
    match chain.block(hash) {
        Some(block) => Ok(Some(BoundedBlock::new(block.copy()?))),
        None => Ok(None),
    }
}
