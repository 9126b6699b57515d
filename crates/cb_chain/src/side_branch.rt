ghost use Rattle.std.specs.Prelude.{◌≡◌, ◌⊎◌, ◌<◌, [], length, reverse, true, Ok, Some, IfErr, IfOk, IfSome, IsOkUnless, OnErr, OnOk, Option};
ghost use Rattle.cb_base.specs.declared.fault.Fault.TheVariants.{Memory};
ghost use Rattle.cb_ledger.specs.Undo.{changed};
ghost use Rattle.cb_ledger.specs.Unspent.{Unspent};
ghost use Rattle.cb_chain.specs.Entries.{is_kept};
ghost use Rattle.cb_chain.specs.Keeping.{IsTree, place_of, tree_of};
ghost use Rattle.cb_chain.specs.SideBranches.{AreUndos, FailsAt, IsKeptPlace, IsRested, IsSideBranch, KeepRecords, LeadUp, StandsOn, Stops, StopsBelow, Tops};

use crate::block_index::Kept;
use crate::tree::Tree;
use cb_base::{Fault, Seed};
use cb_ledger::{Ledger, Overlay, Undo};
use std::alloc::Global;

/// Up to this many steps two blocks are near each other.
const FEW_STEPS: usize = 20;

/// How often the number of steps is doubled in a search. It then exceeds the size of any tree.
const DOUBLINGS: usize = 31;

/// The branch that was tried last is kept while its end is at most this far below the tip.
const MOST_BELOW: u32 = 1_000;

/// The place of the first block that can't be connected, and why.
#[derive(Clone, Copy)]
pub(crate) struct BranchFault {
    pub(crate) place: usize,
    pub(crate) fault: Fault,
}

/// A branch beside the active chain whose blocks were connected: its last block, and the changes
/// that lead from the UTXO set after the tip to the one after that block. It moves up and down the
/// tree block by block. So a further block on a branch that was tried costs only what that block
/// costs.
pub(crate) struct SideBranch {
    pub(crate) end: usize,
    pub(crate) overlay: Overlay,
}

impl Drop for SideBranch {
    fn drop(self) {
        let SideBranch { end: _, overlay: _ } = self;
    }
}

impl SideBranch {
    /// The branch that ends at the tip, without changes. The table of its changes has this seed.
    pub(crate) fn at(alloc: Global, seed: Seed, tip: usize) -> SideBranch
        ensures end { result.end ≡ tip }
        ensures overlay { result.overlay ≡ [] }
    {
        SideBranch {
            end: tip,
            overlay: Overlay::with_seed(alloc, seed),
        }
    }

    /// The same branch over a ledger that has changed; `undo` leads from the new ledger back to the
    /// old one. Returns `None` if memory doesn't suffice.
    fn rest_on(self, undo: &Undo) -> Option<SideBranch>
        ensures { IfSome result (λ side_branch. IsRested self undo.now side_branch) }
    {
        let SideBranch { end, mut overlay } = self;
        match overlay.rest_on(undo) {
            Ok(()) => Some(SideBranch { end, overlay }),
            Err(_) => None,
        }
    }

    /// The branch's changes, as a record that the ledger can take. Fails only with `Fault::Memory`.
    pub(crate) fn into_changes(self, alloc: Global) -> Result<Undo, Fault>
        ensures same { IfOk result (λ changes. changes ≡ self.overlay) }
        ensures memory { IsOkUnless result Memory }
    {
        let SideBranch { end: _, overlay } = self;
        overlay.into_undo(alloc)
    }

    /// Disconnects the last block. Fails only with `Fault::Memory`.
    fn lower(&mut self, tree: &Tree) -> Result<(), Fault>
        requires tree { IsTree tree.now.block_indexes }
        requires undos { AreUndos (tree_of tree.now.block_indexes) tree.now.undos }
        requires side_branch { (unspent : Unspent)
            × IsSideBranch (tree_of tree.now.block_indexes) tree.now.undos unspent self.old }
        requires above { 0 < self.old.end }
        ensures side_branch { (unspent : Unspent) →
            IsSideBranch (tree_of tree.now.block_indexes) tree.now.undos unspent self.old
            → IsSideBranch (tree_of tree.now.block_indexes) tree.now.undos unspent self.new }
        ensures lower { OnOk result (self.new.end < self.old.end) }
        ensures memory { IsOkUnless result Memory }
    {
        if let Some(undo) = tree.undo(self.end) {
            self.overlay.take_back(undo)?;
            self.end = tree.block_index(self.end).parent;
        }
        Ok(())
    }

    /// Disconnects blocks until the last one is on the path of the block `target`. Returns the
    /// places from the target's down to the lowest above the last block's. Fails only with
    /// `Fault::Memory`.
    fn lower_to(&mut self, alloc: Global, tree: &Tree, target: usize) -> Result<Vec<usize>, Fault>
        requires tree { IsTree tree.now.block_indexes }
        requires undos { AreUndos (tree_of tree.now.block_indexes) tree.now.undos }
        requires side_branch { (unspent : Unspent)
            × IsSideBranch (tree_of tree.now.block_indexes) tree.now.undos unspent self.old }
        requires target { IsKeptPlace tree.now.block_indexes target }
        ensures side_branch { (unspent : Unspent) →
            IsSideBranch (tree_of tree.now.block_indexes) tree.now.undos unspent self.old
            → IsSideBranch (tree_of tree.now.block_indexes) tree.now.undos unspent self.new }
        ensures up { IfOk result
            (λ down. LeadUp tree.now.block_indexes self.new.end (reverse down.items) target) }
        ensures memory { IsOkUnless result Memory }
    {
        let mut down = Vec::new(alloc);
        let mut place = target;
        while place != self.end {
            if self.end < place {
                down.push(place)?;
                place = tree.block_index(place).parent;
            } else {
                self.lower(tree)?;
            }
        }
        Ok(down)
    }

    /// Connects a block whose parent is the last one.
    fn raise(&mut self, ledger: &Ledger, tree: &mut Tree, place: usize) -> Result<(), Fault>
        requires tree { IsTree tree.old.block_indexes }
        requires undos { AreUndos (tree_of tree.old.block_indexes) tree.old.undos }
        requires side_branch { IsSideBranch (tree_of tree.old.block_indexes) tree.old.undos
            ledger.now.unspent self.old }
        requires next { StandsOn tree.old.block_indexes self.old.end place }
        ensures block_indexes { tree.new.block_indexes ≡ tree.old.block_indexes }
        ensures undos { AreUndos (tree_of tree.new.block_indexes) tree.new.undos }
        ensures records { KeepRecords tree.old.undos tree.new.undos }
        ensures room { tree.new.room ≡ tree.old.room }
        ensures side_branch { IsSideBranch (tree_of tree.new.block_indexes) tree.new.undos
            ledger.now.unspent self.new }
        ensures end { OnOk result (self.new.end ≡ place) }
        ensures err { IfErr result
            (λ fault. (fault ≡ Memory) ⊎ FailsAt tree.old.block_indexes place fault) }
    {
        let Some(kept) = &tree.block_index(place).kept else {
            return Ok(());
        };
        let undo = self.overlay.connect(ledger, kept.block())?;
        tree.note(place, undo);
        self.end = place;
        Ok(())
    }

    /// Moves to a block, or stops below the first block on the path that can't be connected, and
    /// returns that one with its fault. Otherwise fails only with `Fault::Memory`.
    fn reach(
        &mut self,
        alloc: Global,
        ledger: &Ledger,
        tree: &mut Tree,
        target: usize,
    ) -> Result<(), BranchFault>
        requires tree { IsTree tree.old.block_indexes }
        requires undos { AreUndos (tree_of tree.old.block_indexes) tree.old.undos }
        requires side_branch { IsSideBranch (tree_of tree.old.block_indexes) tree.old.undos
            ledger.now.unspent self.old }
        requires target { IsKeptPlace tree.old.block_indexes target }
        ensures block_indexes { tree.new.block_indexes ≡ tree.old.block_indexes }
        ensures undos { AreUndos (tree_of tree.new.block_indexes) tree.new.undos }
        ensures records { KeepRecords tree.old.undos tree.new.undos }
        ensures room { tree.new.room ≡ tree.old.room }
        ensures side_branch { IsSideBranch (tree_of tree.new.block_indexes) tree.new.undos
            ledger.now.unspent self.new }
        ensures end { OnOk result (self.new.end ≡ target) }
        ensures err { IfErr result
            (λ stop. (stop.fault ≡ Memory)
            ⊎ StopsBelow tree.old.block_indexes target stop.place stop.fault) }
    {
        let down = match self.lower_to(alloc, tree, target) {
            Ok(down) => down,
            Err(fault) => return Err(BranchFault { place: 0, fault }),
        };
        let mut left = down.len();
        while left > 0 {
            left -= 1;
            let place = down[left];
            match self.raise(ledger, tree, place) {
                Ok(()) => {}
                Err(fault) => return Err(BranchFault { place, fault }),
            }
        }
        Ok(())
    }

    /// Moves to the block `parent`, and connects a block on top of it that isn't in the tree yet.
    /// Returns the record that disconnects it. The overlay then includes that block's changes.
    pub(crate) fn try_on(
        &mut self,
        alloc: Global,
        ledger: &Ledger,
        tree: &mut Tree,
        parent: usize,
        kept: &Kept,
    ) -> Result<Undo, BranchFault>
        requires tree { IsTree tree.old.block_indexes }
        requires undos { AreUndos (tree_of tree.old.block_indexes) tree.old.undos }
        requires side_branch { IsSideBranch (tree_of tree.old.block_indexes) tree.old.undos
            ledger.now.unspent self.old }
        requires parent { place_of (tree_of tree.old.block_indexes) kept.now.header.prev
            ≡ Some parent }
        requires kept { is_kept (tree_of tree.old.block_indexes) kept.now.header.prev ≡ true }
        ensures block_indexes { tree.new.block_indexes ≡ tree.old.block_indexes }
        ensures undos { AreUndos (tree_of tree.new.block_indexes) tree.new.undos }
        ensures records { KeepRecords tree.old.undos tree.new.undos }
        ensures room { tree.new.room ≡ tree.old.room }
        ensures ok { IfOk result
            (λ undo. Tops (tree_of tree.old.block_indexes) tree.new.undos kept.now undo
            (changed ledger.now.unspent self.new.overlay)) }
        ensures side_branch { OnErr result
            (IsSideBranch (tree_of tree.new.block_indexes) tree.new.undos ledger.now.unspent
            self.new) }
        ensures err { IfErr result
            (λ stop. (stop.fault ≡ Memory)
            ⊎ Stops tree.old.block_indexes kept.now stop.place stop.fault) }
    {
        self.reach(alloc, ledger, tree, parent)?;
        match self.overlay.connect(ledger, kept.block()) {
            Ok(undo) => Ok(undo),
            Err(fault) => Err(BranchFault {
                place: tree.len(),
                fault,
            }),
        }
    }
}

/// Drops a branch that ends more than 1,000 blocks below a height. Its changes grow with every
/// block on the tip.
pub(crate) fn not_far_below(
    tree: &Tree,
    side_branch: Option<SideBranch>,
    height: u32,
) -> Option<SideBranch>
    requires tree { IsTree tree.now.block_indexes }
    requires side_branch { IfSome side_branch
        (λ side_branch. side_branch.end < length tree.now.block_indexes) }
    ensures { (result ≡ None) ⊎ (result ≡ side_branch) }
{
    let side_branch = side_branch?;
    if height.saturating_sub(tree.block_index(side_branch.end).height) > MOST_BELOW {
        return None;
    }
    Some(side_branch)
}

/// The branch over a ledger that has changed, if there is one; `undo` leads from the new ledger
/// back to the old one.
pub(crate) fn rest_on(side_branch: Option<SideBranch>, undo: &Undo) -> Option<SideBranch>
    ensures { IfSome result
        (λ new. (old : SideBranch) × (side_branch ≡ Some old) × IsRested old undo.now new) }
{
    side_branch?.rest_on(undo)
}

/// Whether at most `steps` steps of the tree are between two blocks.
fn is_near(tree: &Tree, one: usize, other: usize, steps: usize) -> bool
    requires tree { IsTree tree.now.block_indexes }
    requires one { one < length tree.now.block_indexes }
    requires other { other < length tree.now.block_indexes }
{
    let (mut low, mut high) = (one, other);
    for _ in 0..steps {
        if low == high {
            return true;
        }
        if low > high {
            low = tree.block_index(low).parent;
        } else {
            high = tree.block_index(high).parent;
        }
    }
    low == high
}

/// Whether a search from the branch's end finds the block before one from the tip does. Both get
/// ever more steps in turn, so the time follows the shorter way.
fn is_found_first(tree: &Tree, end: usize, tip: usize, block: usize) -> bool
    requires tree { IsTree tree.now.block_indexes }
    requires end { end < length tree.now.block_indexes }
    requires tip { tip < length tree.now.block_indexes }
    requires block { block < length tree.now.block_indexes }
{
    let mut steps = FEW_STEPS;
    for _ in 0..DOUBLINGS {
        if is_near(tree, end, block, steps) {
            return true;
        }
        if is_near(tree, tip, block, steps) {
            return false;
        }
        steps = steps.saturating_mul(2);
    }
    false
}

/// From where a block on `parent` is tried. Near the tip it is the tip, and the branch that was
/// tried last is left as it is: its changes may be many more than those of a few blocks. Otherwise
/// it is that branch, or the tip if that is nearer. A branch that begins at the tip has this seed.
pub(crate) fn starts_from(
    alloc: Global,
    seed: Seed,
    tree: &Tree,
    tip: usize,
    side_branch: &mut Option<SideBranch>,
    parent: usize,
) -> SideBranch
    requires tree { IsTree tree.now.block_indexes }
    requires tip { tip < length tree.now.block_indexes }
    requires parent { parent < length tree.now.block_indexes }
    requires side_branch { IfSome side_branch.old
        (λ side_branch. side_branch.end < length tree.now.block_indexes) }
    ensures from { (result ≡ record { end = tip; overlay = [] }) ⊎ (side_branch.old ≡ Some result) }
    ensures side_branch { (side_branch.new ≡ None) ⊎ (side_branch.new ≡ side_branch.old) }
{
    let fresh = SideBranch::at(alloc, seed, tip);
    let Some(last) = side_branch.take() else {
        return fresh;
    };
    if is_near(tree, tip, parent, FEW_STEPS) {
        *side_branch = Some(last);
        return fresh;
    }
    if is_found_first(tree, last.end, tip, parent) {
        return last;
    }
    fresh
}

/// Stores a branch that was tried, unless another one is still stored.
pub(crate) fn keep_side_branch(side_branch: &mut Option<SideBranch>, tried: SideBranch)
    ensures { (side_branch.new ≡ Some tried) ⊎ (side_branch.new ≡ side_branch.old) }
{
    if side_branch.is_none() {
        *side_branch = Some(tried);
    }
}
