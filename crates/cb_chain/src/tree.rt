ghost use Rattle.std.specs.Prelude.{◌≡◌, ◌+◌, ℕ, Bool, false, ◌<◌, ◌≤◌, [], ◌∷◌, ◌++◌, length, set, slice_get, vec_len, vec_capacity, List, None, Some, option_map, option_copied, IfOk, IfSome, IsOk, IsOkUnless, IsSome, OnOk};
ghost use Rattle.cb_base.specs.declared.fault.Fault.TheVariants.{Memory};
ghost use Rattle.cb_chain.specs.Calls.{marked_above};
ghost use Rattle.cb_chain.specs.Entries.{entry_of, height_of};
ghost use Rattle.cb_chain.specs.Keeping.{AreLinked, AreLinks, IsFirst, IsMarked, IsIndex, IsTree, block_at, entry_from, marked_indexes, place_of, tree_of};
ghost use Rattle.cb_chain.specs.SideBranches.{record_at};
ghost use Rattle.cb_chain.specs.Marking.{BlockIndex, mark_at, marks_of, index_of};

use crate::block_index::{BareIndex, Kept};
use crate::index_list::IndexList;
use cb_base::{Fault, Hash256, Seed};
use cb_block::genesis;
use cb_ledger::Undo;
use std::alloc::Global;
use std::collections::HashMap;
use std::marker::Model;

/// The headers and blocks in the order in which they were added, so a header comes before its
/// children. Contracts see the list of the block indexes, the undo records at their places, and for
/// how many more block indexes there is room.
pub(crate) struct Tree {
    alloc: Global,
    // The block indexes without their marks. Copies share them.
    block_indexes: IndexList,
    // For each block index, whether it is marked bad.
    marks: Vec<bool>,
    // The place of each hash's newest block index.
    places: HashMap<Hash256, usize, Seed>,
    // For each block index, the place of the newest kept block on top of it, or 0 if there is none.
    newest: Vec<usize>,
    // For each kept block, the place of the one before it on the same parent, or 0 if there is
    // none.
    elder: Vec<usize>,
    // The undo record of each block that was connected once, at the block's place.
    undos: Vec<Option<Undo>>,
    // The places that were marked last. It has room for all block indexes, so that marking needs no
    // memory.
    found: Vec<usize>,
}

impl Model for Tree {
    ghost use Rattle.std.specs.Prelude.{◌≡◌, ◌-◌, ◌≤◌, length, min, vec_len, vec_capacity};
    ghost use Rattle.std.specs.HashMap.{spare};
    ghost use Rattle.cb_chain.specs.Keeping.{AreLinks, Grown, IsPlaced};
    ghost use Rattle.cb_chain.specs.Marking.{with_marks};

    ghost Value = { Grown };

    ghost view = { λ tree. record {
      block_indexes = with_marks tree.block_indexes.block_indexes tree.marks.items;
      undos = tree.undos.items;
      room = min
          (min (spare tree.places)
          (min tree.block_indexes.room (vec_capacity tree.marks - vec_len tree.marks)))
          (min
          (min (vec_capacity tree.newest - vec_len tree.newest)
          (vec_capacity tree.elder - vec_len tree.elder))
          (min (vec_capacity tree.undos - vec_len tree.undos)
          (vec_capacity tree.found - vec_len tree.marks)));
    } };

    ghost invariant = { λ tree. IsPlaced
        (with_marks tree.block_indexes.block_indexes tree.marks.items) tree.places.entries
        × AreLinks (with_marks tree.block_indexes.block_indexes tree.marks.items) tree.newest.items
        tree.elder.items
        × (vec_len tree.marks ≤ vec_capacity tree.found)
        × (length tree.block_indexes.block_indexes ≡ vec_len tree.marks) };
}

impl Drop for Tree {
    fn drop(self) {
        let Tree {
            alloc: _,
            block_indexes: _,
            marks: _,
            places: _,
            newest: _,
            elder: _,
            undos: _,
            found: _,
        } = self;
    }
}

/// The block index of the genesis block.
fn first_index(alloc: Global) -> Result<BareIndex, Fault>
    ensures first { IfOk result (λ block_index. IsFirst (index_of block_index false)) }
    ensures memory { IsOkUnless result Memory }
{
    let block = genesis(alloc)?;
    let header = block.block().header;
    Ok(BareIndex {
        header,
        hash: header.hash(),
        height: 0,
        parent: 0,
        kept: Some(Kept::new(block)),
    })
}

impl Tree {
    /// The tree of the genesis block alone. Its table has this seed. Fails only with
    /// `Fault::Memory`.
    pub(crate) fn new(alloc: Global, seed: Seed) -> Result<Tree, Fault>
        ensures block_indexes { IfOk result (λ tree. tree_of tree.block_indexes ≡ []) }
        ensures undos { IfOk result (λ tree. tree.undos ≡ None ∷ []) }
        ensures tree { IfOk result (λ tree. IsTree tree.block_indexes) }
        ensures memory { IsOkUnless result Memory }
    {
        let mut newest = Vec::with_capacity(alloc, 1)?;
        newest.push(0)?;
        let mut elder = Vec::with_capacity(alloc, 1)?;
        elder.push(0)?;
        let found = Vec::with_capacity(alloc, 1)?;
        let mut undos = Vec::with_capacity(alloc, 1)?;
        undos.push(None)?;
        let mut marks = Vec::with_capacity(alloc, 1)?;
        marks.push(false)?;
        let mut block_indexes = IndexList::new(alloc)?;
        let first = first_index(alloc)?;
        let mut places = HashMap::with_hasher(alloc, seed);
        places.insert(first.hash, 0)?;
        block_indexes.push(first);
        Ok(Tree {
            alloc,
            block_indexes,
            marks,
            places,
            newest,
            elder,
            undos,
            found,
        })
    }

    /// The number of block indexes.
    pub(crate) fn len(&self) -> usize
        ensures len { result ≡ length self.now.block_indexes }
        ensures tree { IsTree self.now.block_indexes }
    {
        self.marks.len()
    }

    /// The place of the newest block index with this hash.
    pub(crate) fn place(&self, hash: &Hash256) -> Option<usize>
        ensures place { result ≡ place_of (tree_of self.now.block_indexes) hash.now }
        ensures within { IfSome result (λ place. place < length self.now.block_indexes) }
        ensures tree { IsTree self.now.block_indexes }
    {
        self.places.get(hash).copied()
    }

    /// The block index at a place.
    pub(crate) fn block_index(&self, place: usize) -> &BareIndex
        requires { IsTree self.now.block_indexes → place < length self.now.block_indexes }
        ensures block_index { slice_get self.now.block_indexes place
            ≡ Some (index_of result.now (mark_at self.now.block_indexes place)) }
        ensures tree { IsTree self.now.block_indexes }
    {
        self.block_indexes.get(place)
    }

    /// Whether the block index at a place is marked bad.
    pub(crate) fn is_bad(&self, place: usize) -> bool
        requires { IsTree self.now.block_indexes → place < length self.now.block_indexes }
        ensures { result ≡ mark_at self.now.block_indexes place }
    {
        self.marks[place]
    }

    /// The newest block index with this hash, and whether it is marked bad.
    pub(crate) fn find(&self, hash: &Hash256) -> Option<(&BareIndex, bool)>
        ensures entry { entry_of (tree_of self.now.block_indexes) hash.now
            ≡ option_map (λ found. entry_from (index_of found.0.now found.1)) result }
        ensures height { height_of (tree_of self.now.block_indexes) hash.now
            ≡ option_map (λ found. found.0.now.height) result }
    {
        match self.place(hash) {
            Some(place) => Some((self.block_index(place), self.is_bad(place))),
            None => None,
        }
    }

    /// The undo record of the block at a place, if it was connected once.
    pub(crate) fn undo(&self, place: usize) -> Option<&Undo>
        ensures { option_copied result ≡ record_at self.now.undos place }
    {
        match self.undos.get(place) {
            Some(Some(undo)) => Some(undo),
            _ => None,
        }
    }

    /// Stores the undo record of the block at a place.
    pub(crate) fn note(&mut self, place: usize, undo: Undo)
        requires { place < length self.old.undos }
        ensures block_indexes { self.new.block_indexes ≡ self.old.block_indexes }
        ensures undos { self.new.undos ≡ set self.old.undos place (Some undo) }
        ensures room { self.new.room ≡ self.old.room }
    {
        self.undos[place] = Some(undo);
    }

    /// Reserves room for `count` more block indexes. Fails only with `Fault::Memory`; the block
    /// indexes and records are unchanged in every case.
    pub(crate) fn reserve(&mut self, count: usize) -> Result<(), Fault>
        ensures same { self.new.block_indexes ≡ self.old.block_indexes }
        ensures undos { self.new.undos ≡ self.old.undos }
        ensures tree { IsTree self.new.block_indexes }
        ensures room { OnOk result (count ≤ self.new.room) }
        ensures memory { IsOkUnless result Memory }
    {
        self.marks.reserve(count)?;
        self.block_indexes.reserve(count)?;
        self.newest.reserve(count)?;
        self.elder.reserve(count)?;
        self.undos.reserve(count)?;
        self.found.reserve(self.marks.len() + count)?;
        self.places.reserve(count)?;
        Ok(())
    }

    /// Adds a block index with its mark, and with its undo record if its block is connected. There
    /// must be room for it.
    pub(crate) fn add(&mut self, block_index: BareIndex, marked: bool, undo: Option<Undo>)
        requires room { 0 < self.old.room }
        requires block_index { IsIndex (index_of block_index marked)
            (tree_of self.old.block_indexes) }
        ensures block_indexes { self.new.block_indexes
            ≡ self.old.block_indexes ++ index_of block_index marked ∷ [] }
        ensures undos { self.new.undos ≡ self.old.undos ++ undo ∷ [] }
        ensures room { self.old.room ≤ self.new.room + 1 }
    {
        let place = self.marks.len();
        let elder = put_above(self.newest.as_mut_slice(), &block_index, place);
        self.newest.push(0).unwrap();
        self.elder.push(elder).unwrap();
        self.undos.push(undo).unwrap();
        let noted: Result<_, _> = self.places.insert(block_index.hash, place);
        noted.unwrap();
        self.marks.push(marked).unwrap();
        self.block_indexes.push(block_index);
    }

    /// Marks the block at a place and all kept blocks above it as bad.
    pub(crate) fn mark_above(&mut self, first: usize)
        requires above { 0 < first }
        requires kept { IsSome (block_at self.old.block_indexes first) }
        ensures marks { (block_index : BlockIndex)
            → slice_get self.old.block_indexes first ≡ Some block_index
            → tree_of self.new.block_indexes
            ≡ marked_above block_index.hash (tree_of self.old.block_indexes) }
        ensures len { length self.new.block_indexes ≡ length self.old.block_indexes }
        ensures undos { self.new.undos ≡ self.old.undos }
        ensures tree { IsTree self.new.block_indexes }
    {
        mark_from(
            self.marks.as_mut_slice(),
            self.newest.as_slice(),
            self.elder.as_slice(),
            &mut self.found,
            first,
        );
    }

    /// An equal tree, which shares the full chunks of its block indexes. Fails only with
    /// `Fault::Memory`.
    pub(crate) fn copy(&self) -> Result<Tree, Fault>
        ensures same { IfOk result (λ copy. copy.block_indexes ≡ self.now.block_indexes) }
        ensures undos { IfOk result (λ copy. copy.undos ≡ self.now.undos) }
        ensures memory { IsOkUnless result Memory }
    {
        let newest = Vec::from_slice(self.alloc, self.newest.as_slice())?;
        let elder = Vec::from_slice(self.alloc, self.elder.as_slice())?;
        let found = Vec::with_capacity(self.alloc, self.marks.len())?;
        let undos = copy_undos(self.alloc, self.undos.as_slice())?;
        let marks = Vec::from_slice(self.alloc, self.marks.as_slice())?;
        let block_indexes = self.block_indexes.copy()?;
        let places = self.places.clone()?;
        Ok(Tree {
            alloc: self.alloc,
            block_indexes,
            marks,
            places,
            newest,
            elder,
            undos,
            found,
        })
    }
}

/// If the block index's block is kept, makes it the newest on its parent. Returns the place of the
/// one that was the newest before, or 0.
fn put_above(newest: &mut [usize], block_index: &BareIndex, place: usize) -> usize
    requires { block_index.now.parent < length newest.old }
    ensures len { length newest.new ≡ length newest.old }
    ensures links { (block_indexes : List BlockIndex) (elder : List ℕ) (marked : Bool)
        → place ≡ length block_indexes →
        IsTree block_indexes → IsIndex (index_of block_index.now marked) (tree_of block_indexes) →
        AreLinks block_indexes newest.old elder
        → AreLinks (block_indexes ++ index_of block_index.now marked ∷ []) (newest.new ++ 0 ∷ [])
        (elder ++ result ∷ []) }
{
    if block_index.kept.is_none() {
        return 0;
    }
    let elder = newest[block_index.parent];
    newest[block_index.parent] = place;
    elder
}

/// Adds the places of the kept blocks on one parent, from the newest on. There must be room.
fn push_linked(found: &mut Vec<usize>, elder: &[usize], newest: usize)
    requires links { (places : List ℕ) × AreLinked elder.now newest places
        × (vec_len found.old + length places ≤ vec_capacity found.old) }
    ensures found { (places : List ℕ) → AreLinked elder.now newest places →
        found.new.items ≡ found.old.items ++ places }
    ensures room { vec_capacity found.old ≤ vec_capacity found.new }
{
    let mut place = newest;
    while place != 0 {
        found.push(place).unwrap();
        place = elder[place];
    }
}

/// Marks the block at a place and all kept blocks above it as bad, and leaves their places in
/// `found`. There must be room for all block indexes.
fn mark_from(
    marks: &mut [bool],
    newest: &[usize],
    elder: &[usize],
    found: &mut Vec<usize>,
    first: usize,
)
    requires tree { (block_indexes : List BlockIndex)
        × IsMarked block_indexes marks.old newest.now elder.now first }
    requires above { 0 < first }
    requires room { length marks.old ≤ vec_capacity found.old }
    ensures len { length marks.new ≡ length marks.old }
    ensures marks { (block_indexes : List BlockIndex) (block_index : BlockIndex) →
        IsMarked block_indexes marks.old newest.now elder.now first
        → slice_get block_indexes first ≡ Some block_index
        → marks.new ≡ marks_of (marked_indexes block_index.hash block_indexes) }
    ensures room { vec_capacity found.old ≤ vec_capacity found.new }
{
    found.clear();
    found.push(first).unwrap();
    let mut turn = 0;
    while turn < found.len() {
        let place = found[turn];
        marks[place] = true;
        push_linked(found, elder, newest[place]);
        turn += 1;
    }
}

fn copy_undo(alloc: Global, undo: &Option<Undo>) -> Result<Option<Undo>, Fault>
    ensures same { IfOk result (λ copy. copy ≡ undo.now) }
    ensures memory { IsOkUnless result Memory }
{
    match undo {
        Some(undo) => Ok(Some(undo.copy(alloc)?)),
        None => Ok(None),
    }
}

fn copy_undos(alloc: Global, undos: &[Option<Undo>]) -> Result<Vec<Option<Undo>>, Fault>
    ensures same { IfOk result (λ copies. copies.items ≡ undos.now) }
    ensures memory { IsOkUnless result Memory }
{
    let mut copies = Vec::with_capacity(alloc, undos.len())?;
    for undo in undos {
        copies.push(copy_undo(alloc, undo)?)?;
    }
    Ok(copies)
}
