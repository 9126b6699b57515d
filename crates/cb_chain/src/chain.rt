ghost use Rattle.std.specs.Prelude.{◌≡◌, [], Ok, Some, map, option_copied, option_map, IfOk, IsOkUnless};
ghost use Rattle.cb_base.specs.declared.fault.Fault.TheVariants.{Memory};
ghost use Rattle.cb_chain.specs.Best.{best, unspent_after};
ghost use Rattle.cb_chain.specs.Entries.{block_of, entry_of, height_of, is_lacking, sound_block};
ghost use Rattle.cb_chain.specs.Keeping.{entry_from};
ghost use Rattle.cb_chain.specs.Marking.{index_of};

use crate::block_index::BareIndex;
use crate::side_branch::SideBranch;
use crate::tree::Tree;
use cb_base::{Fault, Hash256, Seed};
use cb_block::{Header, SoundBlock};
use cb_ledger::Ledger;
use std::alloc::Global;
use std::marker::Model;

/// The headers and blocks that are kept, the best chain among them (here: the active chain), and
/// the UTXO set after its tip. A header is known if it is in the tree. A block is kept if its
/// transactions are stored, too.
///
/// Contracts see it as the headers and blocks above the genesis block, the newest first. The active
/// chain and the UTXO set follow from these.
pub struct Chain {
    pub(crate) alloc: Global,
    pub(crate) tree: Tree,
    // The places in the tree of the active chain's block indexes, by height.
    pub(crate) active: Vec<usize>,
    // The UTXO set after the tip.
    pub(crate) ledger: Ledger,
    // The branch beside the active chain that was tried last.
    pub(crate) side_branch: Option<SideBranch>,
}

impl Model for Chain {
    ghost use Rattle.std.specs.Prelude.{List};
    ghost use Rattle.cb_chain.specs.Entries.{Entry};

    ghost Value = { List Entry };

    ghost use Rattle.cb_chain.specs.History.{IsHistoric};
    ghost use Rattle.cb_chain.specs.Keeping.{tree_of};
    ghost use Rattle.cb_chain.specs.SideBranches.{IsChain};

    ghost view = { λ chain. tree_of chain.tree.block_indexes };

    ghost invariant = { λ chain. IsChain (tree_of chain.tree.block_indexes) chain.active.items
        chain.tree.undos chain.ledger.unspent chain.side_branch
        × IsHistoric (tree_of chain.tree.block_indexes) };
}

impl Drop for Chain {
    fn drop(self) {
        let Chain {
            alloc: _,
            tree: _,
            active: _,
            ledger: _,
            side_branch: _,
        } = self;
    }
}

impl Chain {
    /// The chain of the genesis block alone. Its UTXO set is empty. Its tables have this seed,
    /// which changes no result. Fails only with `Fault::Memory`.
    pub fn with_seed(alloc: Global, seed: Seed) -> Result<Chain, Fault>
        ensures first { IfOk result (λ chain. chain ≡ []) }
        ensures memory { IsOkUnless result Memory }
    {
        let tree = Tree::new(alloc, seed)?;
        let mut active = Vec::with_capacity(alloc, 1)?;
        active.push(0)?;
        let ledger = Ledger::with_seed(alloc, seed);
        Ok(Chain {
            alloc,
            tree,
            active,
            ledger,
            side_branch: None,
        })
    }

    /// The block index of the tip.
    fn tip_index(&self) -> &BareIndex
        ensures hash { result.now.hash ≡ best self.now }
        ensures height { height_of self.now (best self.now) ≡ Some result.now.height }
    {
        self.tree.block_index(self.active[self.active.len() - 1])
    }

    /// The hash of the tip: the last block of the active chain.
    pub fn tip(&self) -> Hash256
        ensures { result ≡ best self.now }
    {
        self.tip_index().hash
    }

    /// The height of the tip. The genesis block has height 0.
    pub fn tip_height(&self) -> u32
        ensures { height_of self.now (best self.now) ≡ Some result }
    {
        self.tip_index().height
    }

    /// The height of a header, if it is known.
    pub fn height(&self, hash: &Hash256) -> Option<u32>
        ensures { result ≡ height_of self.now hash.now }
    {
        match self.tree.find(hash) {
            Some((block_index, _)) => Some(block_index.height),
            None => None,
        }
    }

    /// The header with this hash, if it is known.
    pub fn header(&self, hash: &Hash256) -> Option<&Header>
        ensures { option_copied result
            ≡ option_map (λ entry. entry.header) (entry_of self.now hash.now) }
    {
        match self.tree.find(hash) {
            Some((block_index, _)) => Some(&block_index.header),
            None => None,
        }
    }

    /// The block with this hash, if it is kept and not marked bad.
    pub fn block(&self, hash: &Hash256) -> Option<&SoundBlock>
        ensures { option_copied result ≡ block_of self.now hash.now }
    {
        match self.tree.find(hash) {
            Some((block_index, marked)) => shown_block(block_index, marked),
            None => None,
        }
    }

    /// Whether the block with this hash is missing: neither kept nor marked bad.
    pub fn lacks(&self, hash: &Hash256) -> bool
        ensures { result ≡ is_lacking self.now hash.now }
    {
        match self.tree.find(hash) {
            Some((block_index, marked)) => block_index.kept.is_none() && !marked,
            None => true,
        }
    }

    /// The UTXO set after the tip.
    pub fn ledger(&self) -> &Ledger
        ensures { unspent_after self.now (best self.now) ≡ Ok result.now.unspent }
    {
        &self.ledger
    }

    /// An equal chain. Fails only with `Fault::Memory`.
    pub fn copy(&self) -> Result<Chain, Fault>
        ensures same { IfOk result (λ copy. copy ≡ self.now) }
        ensures memory { IsOkUnless result Memory }
    {
        let tree = self.tree.copy()?;
        let active = Vec::from_slice(self.alloc, self.active.as_slice())?;
        let ledger = self.ledger.copy()?;
        Ok(Chain {
            alloc: self.alloc,
            tree,
            active,
            ledger,
            side_branch: None,
        })
    }
}

/// The block index's block, if it is kept and not marked bad.
fn shown_block(block_index: &BareIndex, marked: bool) -> Option<&SoundBlock>
    ensures { option_copied result ≡ sound_block (entry_from (index_of block_index.now marked)) }
{
    if marked {
        return None;
    }
    match &block_index.kept {
        Some(kept) => Some(kept.block()),
        None => None,
    }
}
