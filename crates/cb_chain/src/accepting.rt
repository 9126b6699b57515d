ghost use Rattle.std.specs.Prelude.{◌≡◌, ◌≢◌, ◌⊎◌, ◌∷◌, ◌++◌, [], List, map, reverse, true, None, Some, Ok, Err, IfErr, IfOk, MatchResult, OnOk};
ghost use Rattle.cb_base.specs.declared.fault.Fault.TheVariants.{Memory};
ghost use Rattle.cb_block.specs.Work.{HasWork};
ghost use Rattle.cb_chain.specs.Best.{best};
ghost use Rattle.cb_chain.specs.Calls.{AcceptsBlock, AcceptsHeader, block_fault, header_fault, joined};
ghost use Rattle.cb_chain.specs.Entries.{block_hash, is_kept};
ghost use Rattle.cb_chain.specs.History.{BlockCall, Call, HeaderCall, IsHistoric, IsHistory};
ghost use Rattle.cb_chain.specs.Keeping.{IsIndex, IsSpot, IsTree, parent_fault, tree_of};
ghost use Rattle.cb_chain.specs.Following.{headers_above};
ghost use Rattle.cb_chain.specs.Laws.{LeadsOver, MayLead, Stays, active_hashes};
ghost use Rattle.cb_chain.specs.Marking.{index_of};
ghost use Rattle.cb_chain.specs.Spots.{placed_on};

use crate::block_index::{BareIndex, Kept};
use crate::chain::Chain;
use crate::change::{Change, Hashes};
use crate::tree::Tree;
use cb_base::{Fault, Hash256};
use cb_block::{Header, SoundBlock, check_block, hash_with_work};

/// The greatest height that a header may have.
pub const MOST_HEIGHT: u32 = 1_000_000_000;

/// Where a header will be put in the tree: its parent's place and its height.
#[derive(Clone, Copy)]
pub(crate) struct Spot {
    pub(crate) header: Header,
    pub(crate) hash: Hash256,
    pub(crate) parent: usize,
    pub(crate) height: u32,
}

impl Spot {
    /// The block index of the header, with its block if that is kept.
    pub(crate) fn block_index(self, kept: Option<Kept>) -> BareIndex
        ensures { result ≡ placed_on self kept }
    {
        BareIndex {
            header: self.header,
            hash: self.hash,
            height: self.height,
            parent: self.parent,
            kept,
        }
    }
}

impl Tree {
    /// Where a header goes on top of its parent, or the first reason against it. With `block` the
    /// parent's block must be kept, too.
    fn spot_on_parent(&self, header: Header, hash: Hash256, block: bool) -> Result<Spot, Fault>
        requires { hash ≡ block_hash header }
        ensures ok { IfOk result (λ spot. IsSpot spot header (tree_of self.now.block_indexes)) }
        ensures none { OnOk result
            (parent_fault (tree_of self.now.block_indexes) header.prev block ≡ None) }
        ensures err { IfErr result
            (λ fault. parent_fault (tree_of self.now.block_indexes) header.prev block
            ≡ Some fault) }
    {
        let Some(parent) = self.place(&header.prev) else {
            return Err(Fault::NoParent);
        };
        let block_index = self.block_index(parent);
        if self.is_bad(parent) {
            return Err(Fault::BadParent);
        }
        if block && block_index.kept.is_none() {
            return Err(Fault::NoParent);
        }
        if block_index.height >= MOST_HEIGHT {
            return Err(Fault::TooMany);
        }
        Ok(Spot {
            header,
            hash,
            parent,
            height: block_index.height + 1,
        })
    }

    /// Where a header goes, or the first reason against it.
    pub(crate) fn header_spot(&self, header: Header, hash: Hash256) -> Result<Spot, Fault>
        requires { hash ≡ block_hash header }
        ensures ok { IfOk result (λ spot. IsSpot spot header (tree_of self.now.block_indexes)) }
        ensures none { OnOk result (header_fault (tree_of self.now.block_indexes) header ≡ None) }
        ensures err { IfErr result
            (λ fault. header_fault (tree_of self.now.block_indexes) header ≡ Some fault) }
        ensures tree { IsTree self.now.block_indexes }
    {
        if let Some(place) = self.place(&hash) {
            if self.is_bad(place) {
                return Err(Fault::BadParent);
            }
            return Err(Fault::Known);
        }
        self.spot_on_parent(header, hash, false)
    }
}

/// Adds a header that is marked bad, and returns the reason. If that is `Fault::Memory` or memory
/// doesn't suffice, returns `Fault::Memory`, and nothing changes.
fn mark_header(tree: &mut Tree, block_index: BareIndex, fault: Fault) -> Fault
    requires { IsIndex (index_of block_index true) (tree_of tree.old.block_indexes) }
    ensures added { ((result ≡ Memory) × (tree.new.block_indexes ≡ tree.old.block_indexes)
        × (tree.new.undos ≡ tree.old.undos))
        ⊎ ((result ≡ fault) × (fault ≢ Memory)
        × (tree.new.block_indexes ≡ tree.old.block_indexes ++ index_of block_index true ∷ [])
        × (tree.new.undos ≡ tree.old.undos ++ None ∷ [])) }
    ensures tree { IsTree tree.old.block_indexes }
{
    if let Err(lacking) = tree.reserve(1) {
        return lacking;
    }
    if fault == Fault::Memory {
        return fault;
    }
    tree.add(block_index, true, None);
    fault
}

impl Chain {
    /// Where a block goes, or the first reason against it.
    fn block_spot(&self, header: Header, hash: Hash256) -> Result<Spot, Fault>
        requires { hash ≡ block_hash header }
        ensures ok { IfOk result (λ spot. IsSpot spot header self.now) }
        ensures none { OnOk result (block_fault self.now header ≡ None) }
        ensures err { IfErr result (λ fault. block_fault self.now header ≡ Some fault) }
        ensures tip { is_kept self.now (best self.now) ≡ true }
    {
        if let Some(place) = self.tree.place(&hash) {
            let block_index = self.tree.block_index(place);
            if self.tree.is_bad(place) {
                return Err(Fault::BadParent);
            }
            if block_index.kept.is_some() {
                return Err(Fault::Known);
            }
        }
        self.tree.spot_on_parent(header, hash, true)
    }

    /// Adds a header to the tree.
    ///
    /// Fails with the first of these; nothing has then changed:
    /// - `Fault::BadWork` if `hash_with_work` refuses the header.
    /// - `Fault::BadParent` if the header is known and marked bad.
    /// - `Fault::Known` if it is known.
    /// - `Fault::NoParent` if its parent isn't known.
    /// - `Fault::BadParent` if its parent is marked bad.
    /// - `Fault::TooMany` if its height would be above 1,000,000,000.
    /// - `Fault::Memory`, which comes only if nothing speaks against the header.
    pub fn accept_header(&mut self, header: Header) -> Result<(), Fault>
        ensures ok { OnOk result (AcceptsHeader self.old header None self.new) }
        ensures err { IfErr result (λ fault. ((fault ≡ Memory) × (self.new ≡ self.old))
            ⊎ AcceptsHeader self.old header (Some fault) self.new) }
        // The tree is that of all calls so far, including this one unless it failed with
        // `Fault::Memory`.
        ensures history { (calls : List Call) → IsHistory calls self.old
            → MatchResult result (λ _. IsHistory (HeaderCall header ∷ calls) self.new)
            (λ fault. ((fault ≡ Memory) × IsHistory calls self.new)
            ⊎ IsHistory (HeaderCall header ∷ calls) self.new) }
        ensures unchanged { result ≡ Err Memory → self.new ≡ self.old }
        // `Fault::Memory` comes only if nothing speaks against the header.
        ensures unpaid { result ≡ Err Memory →
            HasWork header × (header_fault self.old header ≡ None) }
    {
        let hash = hash_with_work(&header)?;
        let spot = self.tree.header_spot(header, hash)?;
        self.tree.reserve(1)?;
        self.tree.add(spot.block_index(None), false, None);
        Ok(())
    }

    /// Adds a block to the tree, and makes it the tip if it is higher than the tip. Returns which
    /// blocks left the active chain and which joined it.
    ///
    /// Fails with the first of these; nothing has then changed:
    /// - `Fault::BadWork` if `hash_with_work` refuses the header.
    /// - `Fault::BadParent` if the block's hash is marked bad.
    /// - `Fault::Known` if the block is kept already.
    /// - `Fault::BadParent` if its parent is marked bad.
    /// - `Fault::NoParent` if its parent's block isn't kept.
    /// - `Fault::TooMany` if its height would be above 1,000,000,000.
    ///
    /// Then come two kinds of errors that are remembered in the tree:
    /// - `Fault::Oversize`, `Fault::BadCoinbase` or `Fault::BadTx` from `check_block`. The header
    ///   is added and marked bad, and the block isn't kept.
    /// - `Fault::NoInput`, `Fault::Overspent` or `Fault::Remade`, if the block is higher than the
    ///   tip and its path can't be connected: the fault of the first block on the path that can't.
    ///   The new block is added. The first block that can't be connected and all kept blocks above
    ///   it are marked bad, and the tip stays.
    ///
    /// `Fault::Memory` changes nothing. It may take the place of a remembered error, if there is no
    /// memory to remember it.
    pub fn accept_block(&mut self, block: SoundBlock) -> Result<Change, Fault>
        ensures ok { IfOk result (λ change. AcceptsBlock self.old block (Ok change) self.new) }
        // The change leads from the old active chain to the new one.
        ensures moves { IfOk result
            (λ change. LeadsOver (active_hashes self.old) change (active_hashes self.new)) }
        // If the tip moves, the blocks that leave are those above the parent's branch. Otherwise
        // the active chain stays.
        ensures leads { IfOk result (λ change. change.on ≢ [] → MayLead self.old block.header.prev
            × (change.off ≡ reverse (map block_hash (headers_above self.old block.header.prev)))) }
        ensures stays { IfOk result (λ change. change.on ≡ []) → Stays self.old self.new }
        ensures err { IfErr result (λ fault. ((fault ≡ Memory) × (self.new ≡ self.old))
            ⊎ AcceptsBlock self.old block (Err fault) self.new) }
        // The tree is that of all calls so far, including this one unless it failed with
        // `Fault::Memory`.
        ensures history { (calls : List Call) → IsHistory calls self.old
            → MatchResult result (λ _. IsHistory (BlockCall block ∷ calls) self.new)
            (λ fault. ((fault ≡ Memory) × IsHistory calls self.new)
            ⊎ IsHistory (BlockCall block ∷ calls) self.new) }
        ensures unchanged { result ≡ Err Memory → self.new ≡ self.old }
        // `Fault::Memory` comes only if nothing speaks against the block's header.
        ensures unpaid { result ≡ Err Memory →
            HasWork block.header × (block_fault self.old block.header ≡ None) }
    {
        let header = block.block().header;
        let hash = hash_with_work(&header)?;
        let spot = self.block_spot(header, hash)?;
        match check_block(self.alloc, &block) {
            Ok(()) => self.join(spot, Kept::new(block)),
            Err(fault) => {
                drop(block);
                Err(mark_header(&mut self.tree, spot.block_index(None), fault))
            }
        }
    }

    /// Adds a block that meets the block rules. It becomes the tip if it is higher and its path can
    /// be connected.
    fn join(&mut self, spot: Spot, kept: Kept) -> Result<Change, Fault>
        requires spot { IsSpot spot kept.header self.old }
        requires none { block_fault self.old kept.header ≡ None }
        requires tip { is_kept self.old (best self.old) ≡ true }
        requires calls { IsHistoric (joined self.old kept).1 }
        ensures ok { IfOk result (λ change. (Ok change, self.new) ≡ joined self.old kept) }
        ensures moves { IfOk result
            (λ change. LeadsOver (active_hashes self.old) change (active_hashes self.new)) }
        ensures err { IfErr result
            (λ fault. ((fault ≡ Memory) × (self.new ≡ self.old))
            ⊎ ((Err fault, self.new) ≡ joined self.old kept)) }
        ensures unchanged { result ≡ Err Memory → self.new ≡ self.old }
    {
        if spot.height > self.tip_height() {
            return self.lead(spot, kept);
        }
        self.tree.reserve(1)?;
        self.tree.add(spot.block_index(Some(kept)), false, None);
        Ok(Change {
            off: Hashes::new(Vec::new(self.alloc)),
            on: Hashes::new(Vec::new(self.alloc)),
        })
    }
}
