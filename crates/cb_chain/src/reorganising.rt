ghost use Rattle.std.specs.Prelude.{◌≡◌, ◌≢◌, ◌⊎◌, ◌+◌, ◌<◌, ◌≤◌, ◌∷◌, ◌++◌, [], length, drop, take, map, reverse, slice_get, false, true, None, Some, Ok, Err, All, IfErr, IfOk, IfSome, IsOkUnless, IsSome, OnErr, OnOk, vec_capacity, vec_len};
ghost use Rattle.cb_base.specs.declared.fault.Fault.TheVariants.{Memory};
ghost use Rattle.cb_ledger.specs.Undo.{changed};
ghost use Rattle.cb_chain.specs.Best.{best, is_higher};
ghost use Rattle.cb_chain.specs.Calls.{block_entry, block_fault, joined, marked_above};
ghost use Rattle.cb_chain.specs.Entries.{block_hash, is_kept};
ghost use Rattle.cb_chain.specs.History.{IsHistoric};
ghost use Rattle.cb_chain.specs.Keeping.{IsFork, IsIndex, IsSpot, IsTree, active_places, block_at, climb, tree_of};
ghost use Rattle.cb_chain.specs.Laws.{LeadsOver, active_hashes};
ghost use Rattle.cb_chain.specs.Plans.{Moved, change_at, hash_at};
ghost use Rattle.cb_chain.specs.SideBranches.{RestsOn};
ghost use Rattle.cb_chain.specs.Marking.{BlockIndex, index_of};

use crate::accepting::Spot;
use crate::block_index::{BareIndex, Kept};
use crate::branch::{branch_above, fork_of};
use crate::chain::Chain;
use crate::change::{Change, Hashes};
use crate::side_branch::{
    BranchFault, SideBranch, keep_side_branch, not_far_below, rest_on, starts_from,
};
use crate::tree::Tree;
use cb_base::{Fault, Hash256};
use cb_ledger::Ledger;
use std::alloc::Global;

/// How a block will become the tip.
#[derive(Drop)]
struct Reorganisation {
    // The fork's height: where the block's branch leaves the active chain.
    fork: usize,
    // The block indexes of the branch above the fork, without the block's own.
    branch: Vec<usize>,
    change: Change,
}

/// Replaces what is above the height `fork` on the active chain by a branch and the block index
/// `last`. There must be room.
fn put_on(active: &mut Vec<usize>, fork: usize, branch: Vec<usize>, last: usize)
    requires fork { fork < length active.old.items }
    requires places { vec_len active.old + (vec_len branch + 1) ≤ vec_capacity active.old }
    ensures { active.new.items ≡ take (fork + 1) active.old.items ++ branch.items ++ last ∷ [] }
{
    active.truncate(fork + 1);
    for place in branch {
        active.push(place).unwrap();
    }
    active.push(last).unwrap();
}

/// The hashes of the block indexes at these places. Fails only with `Fault::Memory`.
fn hashes_at(alloc: Global, tree: &Tree, places: &[usize]) -> Result<Vec<Hash256>, Fault>
    requires { All (λ place. place < length tree.now.block_indexes) places.now }
    ensures hashes { IfOk result
        (λ hashes. hashes.items ≡ map (hash_at tree.now.block_indexes) places.now) }
    ensures memory { IsOkUnless result Memory }
{
    let mut hashes = Vec::with_capacity(alloc, places.len())?;
    for place in places {
        hashes.push(tree.block_index(*place).hash)?;
    }
    Ok(hashes)
}

/// The change of the active chain if the block indexes `off` leave it, and the block indexes
/// `branch` and then the block join it. Both lists are given from the lowest up. Fails only with
/// `Fault::Memory`.
fn change_to(
    alloc: Global,
    tree: &Tree,
    off: &[usize],
    branch: &[usize],
    hash: Hash256,
) -> Result<Change, Fault>
    requires off { All (λ place. place < length tree.now.block_indexes) off.now }
    requires branch { All (λ place. place < length tree.now.block_indexes) branch.now }
    ensures off { IfOk result
        (λ change. change.off ≡ reverse (map (hash_at tree.now.block_indexes) off.now)) }
    ensures on { IfOk result
        (λ change. change.on ≡ map (hash_at tree.now.block_indexes) branch.now ++ hash ∷ []) }
    ensures memory { IsOkUnless result Memory }
{
    let mut off = hashes_at(alloc, tree, off)?;
    off.reverse();
    let mut on = hashes_at(alloc, tree, branch)?;
    on.push(hash)?;
    Ok(Change {
        off: Hashes::new(off),
        on: Hashes::new(on),
    })
}

/// The plan that makes a block the tip. The block's parent must be kept. Fails only with
/// `Fault::Memory`.
fn plan_for(
    alloc: Global,
    tree: &Tree,
    active: &[usize],
    spot: Spot,
) -> Result<Reorganisation, Fault>
    requires tree { IsTree tree.now.block_indexes }
    requires active { active.now ≡ active_places (tree_of tree.now.block_indexes) }
    requires spot { IsSpot spot spot.header (tree_of tree.now.block_indexes) }
    requires kept { is_kept (tree_of tree.now.block_indexes) spot.header.prev ≡ true }
    ensures fork { IfOk result
        (λ plan. IsFork (tree_of tree.now.block_indexes) spot.header.prev plan.fork) }
    ensures branch { IfOk result
        (λ plan. plan.branch.items
        ≡ map (λ step. step.place)
        (drop plan.fork (climb (tree_of tree.now.block_indexes) spot.header.prev))) }
    ensures change { IfOk result
        (λ plan. plan.change ≡ change_at (tree_of tree.now.block_indexes) spot.header plan.fork) }
    ensures memory { IsOkUnless result Memory }
{
    let fork = fork_of(tree, active, spot.parent);
    let branch = branch_above(alloc, tree, spot.parent, fork)?;
    let change = change_to(
        alloc,
        tree,
        &active[fork + 1..],
        branch.as_slice(),
        spot.hash,
    )?;
    Ok(Reorganisation {
        fork,
        branch,
        change,
    })
}

/// The plan that makes a block the tip, with room for the block in the tree and for the plan on the
/// active chain. The block's parent must be kept. Fails only with `Fault::Memory`; the block
/// indexes, records and places are unchanged in every case.
fn planned(
    alloc: Global,
    tree: &mut Tree,
    active: &mut Vec<usize>,
    spot: Spot,
) -> Result<Reorganisation, Fault>
    requires active { active.old.items ≡ active_places (tree_of tree.old.block_indexes) }
    requires spot { IsSpot spot spot.header (tree_of tree.old.block_indexes) }
    requires kept { is_kept (tree_of tree.old.block_indexes) spot.header.prev ≡ true }
    ensures same { tree.new.block_indexes ≡ tree.old.block_indexes }
    ensures undos { tree.new.undos ≡ tree.old.undos }
    ensures tree { IsTree tree.new.block_indexes }
    ensures items { active.new.items ≡ active.old.items }
    ensures fork { IfOk result
        (λ plan. IsFork (tree_of tree.new.block_indexes) spot.header.prev plan.fork) }
    ensures branch { IfOk result
        (λ plan. plan.branch.items
        ≡ map (λ step. step.place)
        (drop plan.fork (climb (tree_of tree.new.block_indexes) spot.header.prev))) }
    ensures change { IfOk result
        (λ plan. plan.change ≡ change_at (tree_of tree.new.block_indexes) spot.header plan.fork) }
    ensures room { OnOk result (0 < tree.new.room) }
    ensures places { IfOk result
        (λ plan. vec_len active.new + (vec_len plan.branch + 1) ≤ vec_capacity active.new) }
    ensures memory { IsOkUnless result Memory }
{
    tree.reserve(1)?;
    let plan = plan_for(alloc, tree, active.as_slice(), spot)?;
    active.reserve(plan.branch.len() + 1)?;
    Ok(plan)
}

/// Adds a block whose path can't be connected, and marks bad the first block that can't and all
/// kept blocks above it. If the reason was `Fault::Memory`, nothing changes.
fn mark_stop(tree: &mut Tree, block_index: BareIndex, stop: BranchFault)
    requires room { 0 < tree.old.room }
    requires block_index { IsIndex (index_of block_index false) (tree_of tree.old.block_indexes) }
    requires place { (stop.fault ≡ Memory)
        ⊎ ((0 < stop.place)
        × IsSome
        (block_at (tree.old.block_indexes ++ index_of block_index false ∷ []) stop.place)) }
    ensures { ((stop.fault ≡ Memory) × (tree.new.block_indexes ≡ tree.old.block_indexes)
        × (tree.new.undos ≡ tree.old.undos))
        ⊎ ((stop.fault ≢ Memory) × (tree.new.undos ≡ tree.old.undos ++ None ∷ [])
        × ((first : BlockIndex)
        → slice_get (tree.old.block_indexes ++ index_of block_index false ∷ []) stop.place
        ≡ Some first
        → tree_of tree.new.block_indexes
        ≡ marked_above first.hash
        (tree_of (tree.old.block_indexes ++ index_of block_index false ∷ [])))) }
{
    if stop.fault == Fault::Memory {
        return;
    }
    tree.add(block_index, false, None);
    tree.mark_above(stop.place);
}

/// Reorganises the chain to a branch that was tried and a block on top of it. Fails only with
/// `Fault::Memory`; the active chain, the ledger and `side_branch` are then unchanged. After it,
/// `side_branch` is the branch that was tried last, adapted to the new ledger, or, if there was
/// none, the branch of the old tip. If memory doesn't suffice for that, it is none.
fn switch(
    alloc: Global,
    tree: &Tree,
    active: &mut Vec<usize>,
    ledger: &mut Ledger,
    side_branch: &mut Option<SideBranch>,
    spot: Spot,
    tried: SideBranch,
) -> Result<Change, Fault>
    requires tree { IsTree tree.now.block_indexes }
    requires active { active.old.items ≡ active_places (tree_of tree.now.block_indexes) }
    requires spot { IsSpot spot spot.header (tree_of tree.now.block_indexes) }
    requires kept { is_kept (tree_of tree.now.block_indexes) spot.header.prev ≡ true }
    ensures moved { IfOk result
        (λ change. Moved (tree_of tree.now.block_indexes) spot.header active.old.items
        (length tree.now.block_indexes) active.new.items change) }
    ensures ledger { OnOk result (ledger.new.unspent ≡ changed ledger.old.unspent tried.overlay) }
    ensures side_branch { OnOk result
        (IfSome side_branch.new
        (RestsOn active.old.items ledger.old.unspent ledger.new.unspent side_branch.old)) }
    ensures same { OnErr result
        ((active.new.items ≡ active.old.items) × (ledger.new.unspent ≡ ledger.old.unspent)
        × (side_branch.new ≡ side_branch.old)) }
    ensures memory { IsOkUnless result Memory }
{
    let mut back = tried.into_changes(alloc)?;
    ledger.reserve(back.len())?;
    let Reorganisation {
        fork,
        branch,
        change,
    } = plan_for(alloc, tree, active.as_slice(), spot)?;
    active.reserve(branch.len() + 1)?;
    ledger.exchange(&mut back);
    let tip = active[active.len() - 1];
    let fresh = SideBranch::at(alloc, ledger.seed(), tip);
    let last = side_branch.take().unwrap_or(fresh);
    *side_branch = rest_on(Some(last), &back);
    put_on(active, fork, branch, tree.len());
    Ok(change)
}

impl Chain {
    /// Adds a block on top of the tip. It becomes the new tip, or is marked bad if it can't be
    /// connected.
    fn extend(&mut self, spot: Spot, kept: Kept) -> Result<Change, Fault>
        requires spot { IsSpot spot kept.header self.old }
        requires none { block_fault self.old kept.header ≡ None }
        requires higher { is_higher (block_entry kept ∷ self.old) (block_hash kept.header)
            (best self.old) ≡ true }
        requires calls { IsHistoric (joined self.old kept).1 }
        requires tip { kept.header.prev ≡ best self.old }
        ensures ok { IfOk result (λ change. (Ok change, self.new) ≡ joined self.old kept) }
        ensures moves { IfOk result
            (λ change. LeadsOver (active_hashes self.old) change (active_hashes self.new)) }
        ensures err { IfErr result
            (λ fault. ((fault ≡ Memory) × (self.new ≡ self.old))
            ⊎ ((Err fault, self.new) ≡ joined self.old kept)) }
        ensures unchanged { result ≡ Err Memory → self.new ≡ self.old }
    {
        let Reorganisation {
            fork,
            branch,
            change,
        } = planned(self.alloc, &mut self.tree, &mut self.active, spot)?;
        let last = self.tree.len();
        let undo = match self.ledger.connect(kept.block()) {
            Ok(undo) => undo,
            Err(fault) => {
                let stop = BranchFault { place: last, fault };
                mark_stop(&mut self.tree, spot.block_index(Some(kept)), stop);
                return Err(fault);
            }
        };
        let side_branch = not_far_below(&self.tree, self.side_branch.take(), spot.height);
        self.side_branch = rest_on(side_branch, &undo);
        put_on(&mut self.active, fork, branch, last);
        self.tree
            .add(spot.block_index(Some(kept)), false, Some(undo));
        Ok(change)
    }

    /// Adds a block on top of another branch. The chain is reorganised to that branch, or the first
    /// block on the path that can't be connected is marked bad with all above it.
    fn turn(&mut self, spot: Spot, kept: Kept) -> Result<Change, Fault>
        requires spot { IsSpot spot kept.header self.old }
        requires none { block_fault self.old kept.header ≡ None }
        requires higher { is_higher (block_entry kept ∷ self.old) (block_hash kept.header)
            (best self.old) ≡ true }
        requires calls { IsHistoric (joined self.old kept).1 }
        ensures ok { IfOk result (λ change. (Ok change, self.new) ≡ joined self.old kept) }
        ensures moves { IfOk result
            (λ change. LeadsOver (active_hashes self.old) change (active_hashes self.new)) }
        ensures err { IfErr result
            (λ fault. ((fault ≡ Memory) × (self.new ≡ self.old))
            ⊎ ((Err fault, self.new) ≡ joined self.old kept)) }
        ensures unchanged { result ≡ Err Memory → self.new ≡ self.old }
    {
        self.tree.reserve(1)?;
        let tip = self.active[self.active.len() - 1];
        let seed = self.ledger.seed();
        let mut side_branch = starts_from(
            self.alloc,
            seed,
            &self.tree,
            tip,
            &mut self.side_branch,
            spot.parent,
        );
        let tried = side_branch.try_on(
            self.alloc,
            &self.ledger,
            &mut self.tree,
            spot.parent,
            &kept,
        );
        let undo = match tried {
            Ok(undo) => undo,
            Err(stop) => {
                keep_side_branch(&mut self.side_branch, side_branch);
                mark_stop(&mut self.tree, spot.block_index(Some(kept)), stop);
                return Err(stop.fault);
            }
        };
        let change = switch(
            self.alloc,
            &self.tree,
            &mut self.active,
            &mut self.ledger,
            &mut self.side_branch,
            spot,
            side_branch,
        )?;
        self.tree
            .add(spot.block_index(Some(kept)), false, Some(undo));
        Ok(change)
    }

    /// Adds a block that is higher than the tip. It becomes the tip, unless its path can't be
    /// connected.
    pub(crate) fn lead(&mut self, spot: Spot, kept: Kept) -> Result<Change, Fault>
        requires spot { IsSpot spot kept.header self.old }
        requires none { block_fault self.old kept.header ≡ None }
        requires higher { is_higher (block_entry kept ∷ self.old) (block_hash kept.header)
            (best self.old) ≡ true }
        requires calls { IsHistoric (joined self.old kept).1 }
        ensures ok { IfOk result (λ change. (Ok change, self.new) ≡ joined self.old kept) }
        ensures moves { IfOk result
            (λ change. LeadsOver (active_hashes self.old) change (active_hashes self.new)) }
        ensures err { IfErr result
            (λ fault. ((fault ≡ Memory) × (self.new ≡ self.old))
            ⊎ ((Err fault, self.new) ≡ joined self.old kept)) }
        ensures unchanged { result ≡ Err Memory → self.new ≡ self.old }
    {
        if spot.parent == self.active[self.active.len() - 1] {
            self.extend(spot, kept)
        } else {
            self.turn(spot, kept)
        }
    }
}
