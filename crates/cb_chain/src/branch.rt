ghost use Rattle.std.specs.Prelude.{◌≡◌, ◌<◌, length, map, drop, slice_get, true, Some, IfOk, IsOkUnless};
ghost use Rattle.cb_base.specs.declared.fault.Fault.TheVariants.{Memory};
ghost use Rattle.cb_base.specs.declared.hash.Hash256.{Hash256};
ghost use Rattle.cb_chain.specs.Best.{active};
ghost use Rattle.cb_chain.specs.Entries.{is_kept};
ghost use Rattle.cb_chain.specs.Following.{stands_at};
ghost use Rattle.cb_chain.specs.Keeping.{IsFork, active_places, climb, place_of, tree_of};
ghost use Rattle.cb_chain.specs.Marking.{BlockIndex};

use crate::tree::Tree;
use cb_base::Fault;
use std::alloc::Global;

/// Whether the block index is on the active chain: whether its hash is the one at its height there.
/// `places` has the active chain's block indexes by height.
fn stands(tree: &Tree, places: &[usize], place: usize) -> bool
    requires place { place < length tree.now.block_indexes }
    requires places { places.now ≡ active_places (tree_of tree.now.block_indexes) }
    ensures { (block_index : BlockIndex) → slice_get tree.now.block_indexes place ≡ Some block_index
        → result
        ≡ stands_at (active (tree_of tree.now.block_indexes)) block_index.height
        block_index.header }
{
    let block_index = tree.block_index(place);
    match places.get(block_index.height as usize) {
        Some(other) => tree.block_index(*other).hash == block_index.hash,
        None => false,
    }
}

/// The fork's height: that of the highest block index on the branch that is on the active chain.
pub(crate) fn fork_of(tree: &Tree, places: &[usize], from: usize) -> usize
    requires place { from < length tree.now.block_indexes }
    requires places { places.now ≡ active_places (tree_of tree.now.block_indexes) }
    ensures { (hash : Hash256) → place_of (tree_of tree.now.block_indexes) hash ≡ Some from →
        IsFork (tree_of tree.now.block_indexes) hash result }
{
    let mut place = from;
    while !stands(tree, places, place) {
        place = tree.block_index(place).parent;
    }
    tree.block_index(place).height as usize
}

/// The places of the block indexes on a kept block's branch above the height `fork`, from the
/// lowest up to the block's own. Fails only with `Fault::Memory`.
pub(crate) fn branch_above(
    alloc: Global,
    tree: &Tree,
    from: usize,
    fork: usize,
) -> Result<Vec<usize>, Fault>
    requires place { from < length tree.now.block_indexes }
    ensures places { IfOk result
        (λ branch. (hash : Hash256) → place_of (tree_of tree.now.block_indexes) hash ≡ Some from →
        is_kept (tree_of tree.now.block_indexes) hash ≡ true
        → branch.items
        ≡ map (λ step. step.place) (drop fork (climb (tree_of tree.now.block_indexes) hash))) }
    ensures memory { IsOkUnless result Memory }
{
    let mut branch = Vec::new(alloc);
    let mut place = from;
    while tree.block_index(place).height as usize > fork {
        branch.push(place)?;
        place = tree.block_index(place).parent;
    }
    branch.reverse();
    Ok(branch)
}
