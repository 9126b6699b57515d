ghost use Rattle.std.specs.Prelude.{◌≡◌, ◌<◌, ◌^◌, length, All, IfOk, IsOkUnless};
ghost use Rattle.cb_base.specs.declared.fault.Fault.TheVariants.{Memory};

use cb_base::{Fault, Hash256};
use cb_block::{Header, SoundBlock};
use std::marker::Model;

/// A kept block: each of its transactions has fewer than 4,294,967,296 outputs, so that it may be
/// connected. Contracts see it as the block.
#[derive(Drop)]
pub(crate) struct Kept {
    block: SoundBlock,
}

impl Model for Kept {
    ghost use Rattle.std.specs.Prelude.{◌<◌, ◌^◌, length, All};
    ghost use Rattle.cb_block.specs.declared.block.Block.{Block};

    ghost Value = { Block };

    ghost view = { λ kept. kept.block };

    ghost invariant = { λ kept. All (λ tx. length tx.outputs < 2 ^ 32) kept.block.txs };
}

impl Kept {
    pub(crate) fn new(block: SoundBlock) -> Kept
        requires { All (λ tx. length tx.outputs < 2 ^ 32) block.txs }
        ensures { result ≡ block }
    {
        Kept { block }
    }

    pub(crate) fn block(&self) -> &SoundBlock
        ensures same { result.now ≡ self.now }
        ensures few { All (λ tx. length tx.outputs < 2 ^ 32) self.now.txs }
    {
        &self.block
    }

    /// The same block. Fails only with `Fault::Memory`.
    fn copy(&self) -> Result<Kept, Fault>
        ensures same { IfOk result (λ copy. copy ≡ self.now) }
        ensures memory { IsOkUnless result Memory }
    {
        let block = self.block.copy()?;
        Ok(Kept { block })
    }
}

/// A header in the tree, with its block if that is kept (in Bitcoin Core: `CBlockIndex`). It never
/// changes. Its mark stands beside it: whether the block breaks a rule or can't be connected, or is
/// on top of one that can't.
#[derive(Drop)]
pub(crate) struct BareIndex {
    pub(crate) header: Header,
    pub(crate) hash: Hash256,
    // The height. The genesis block has 0.
    pub(crate) height: u32,
    // The place of the parent's block index. The first block index has its own place here, 0.
    pub(crate) parent: usize,
    // The block, if it is kept.
    pub(crate) kept: Option<Kept>,
}

impl BareIndex {
    /// An equal block index. Fails only with `Fault::Memory`.
    pub(crate) fn copy(&self) -> Result<BareIndex, Fault>
        ensures same { IfOk result (λ copy. copy ≡ self.now) }
        ensures memory { IsOkUnless result Memory }
    {
        let kept = match &self.kept {
            Some(kept) => Some(kept.copy()?),
            None => None,
        };
        Ok(BareIndex {
            header: self.header,
            hash: self.hash,
            height: self.height,
            parent: self.parent,
            kept,
        })
    }
}
