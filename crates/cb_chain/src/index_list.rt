ghost use Rattle.std.specs.Prelude.{◌≡◌, ◌+◌, ◌<◌, ◌≤◌, ◌⊎◌, ◌++◌, ◌∷◌, [], length, slice_get, Some, All, vec_len, vec_capacity, IfOk, IsOkUnless, OnOk};
ghost use Rattle.cb_base.specs.declared.fault.Fault.TheVariants.{Memory};

use crate::block_index::BareIndex;
use crate::chunk::{CHUNK_SIZE, Chunk, copy_indexes};
use cb_base::Fault;
use std::alloc::Global;
use std::marker::Model;
use std::mem;

/// The block indexes of a tree without their marks, in the order in which they were added. Copies
/// of a list share its full chunks. Contracts see the block indexes, and for how many more there is
/// room.
#[derive(Drop)]
pub(crate) struct IndexList {
    alloc: Global,
    full: Vec<Chunk>,
    // The block indexes after those of the full chunks. It has room for a chunk.
    last: Vec<BareIndex>,
    // Empty vectors with room for a chunk, for the block indexes after those.
    spare: Vec<Vec<BareIndex>>,
}

impl Model for IndexList {
    ghost use Rattle.std.specs.Prelude.{◌≡◌, ◌+◌, ◌-◌, ◌≤◌, ◌*◌, [], length, All, vec_len, vec_capacity};
    ghost use Rattle.cb_chain.specs.Listing.{Listed, listed};

    ghost Value = { Listed };

    ghost view = { λ list. record {
      block_indexes = listed list.full.items list.last.items;
      room = 256 - vec_len list.last + 256 * vec_len list.spare;
    } };

    ghost invariant = { λ list. All (λ chunk. length chunk ≡ 256) list.full.items
        × All (λ block_indexes. (block_indexes.items ≡ []) × (256 ≤ vec_capacity block_indexes))
        list.spare.items
        × (vec_len list.last ≤ 256) × (256 ≤ vec_capacity list.last)
        × (vec_len list.full + vec_len list.spare ≤ vec_capacity list.full) };
}

impl IndexList {
    /// A list with no block indexes, and with room for some. Fails only with `Fault::Memory`.
    pub(crate) fn new(alloc: Global) -> Result<IndexList, Fault>
        ensures block_indexes { IfOk result (λ list. list.block_indexes ≡ []) }
        ensures room { IfOk result (λ list. list.room ≡ 256) }
        ensures memory { IsOkUnless result Memory }
    {
        let last = Vec::with_capacity(alloc, CHUNK_SIZE)?;
        Ok(IndexList {
            alloc,
            full: Vec::new(alloc),
            last,
            spare: Vec::new(alloc),
        })
    }

    /// The block index at a place.
    pub(crate) fn get(&self, place: usize) -> &BareIndex
        requires { place < length self.now.block_indexes }
        ensures { slice_get self.now.block_indexes place ≡ Some result.now }
    {
        let chunk = place / CHUNK_SIZE;
        let within = place % CHUNK_SIZE;
        if chunk < self.full.len() {
            return self.full[chunk].get(within);
        }
        &self.last[within]
    }

    /// Reserves room for `count` more block indexes. Fails only with `Fault::Memory`; the block
    /// indexes are unchanged in every case.
    pub(crate) fn reserve(&mut self, count: usize) -> Result<(), Fault>
        ensures same { self.new.block_indexes ≡ self.old.block_indexes }
        ensures room { OnOk result (count ≤ self.new.room) }
        ensures memory { IsOkUnless result Memory }
    {
        let free = CHUNK_SIZE - self.last.len();
        if count <= free {
            return Ok(());
        }
        let chunks = (count - free) / CHUNK_SIZE + 1;
        self.full.reserve(chunks)?;
        reserve_spare(self.alloc, &mut self.spare, chunks)
    }

    /// Adds a block index. There must be room for it.
    pub(crate) fn push(&mut self, block_index: BareIndex)
        requires { 0 < self.old.room }
        ensures block_indexes { self.new.block_indexes
            ≡ self.old.block_indexes ++ block_index ∷ [] }
        ensures room { self.old.room ≤ self.new.room + 1 }
    {
        if self.last.len() < CHUNK_SIZE {
            self.last.push(block_index).unwrap();
            return;
        }
        let mut next = self.spare.pop().unwrap();
        next.push(block_index).unwrap();
        let block_indexes = mem::replace(&mut self.last, next);
        self.full
            .push(Chunk::new(self.alloc, block_indexes))
            .unwrap();
    }

    /// An equal list, which shares the full chunks. Fails only with `Fault::Memory`.
    pub(crate) fn copy(&self) -> Result<IndexList, Fault>
        ensures same { IfOk result (λ copy. copy.block_indexes ≡ self.now.block_indexes) }
        ensures memory { IsOkUnless result Memory }
    {
        let last = copy_indexes(self.alloc, self.last.as_slice(), CHUNK_SIZE)?;
        let mut full = Vec::with_capacity(self.alloc, self.full.len())?;
        for chunk in &self.full {
            full.push(chunk.copy(self.alloc)?)?;
        }
        Ok(IndexList {
            alloc: self.alloc,
            full,
            last,
            spare: Vec::new(self.alloc),
        })
    }
}

/// Adds empty vectors with room for a chunk, until there are `count`. Fails only with
/// `Fault::Memory`.
fn reserve_spare(alloc: Global, spare: &mut Vec<Vec<BareIndex>>, count: usize) -> Result<(), Fault>
    requires { All
        (λ block_indexes. (block_indexes.items ≡ []) × (256 ≤ vec_capacity block_indexes))
        spare.old.items }
    ensures empty { All
        (λ block_indexes. (block_indexes.items ≡ []) × (256 ≤ vec_capacity block_indexes))
        spare.new.items }
    ensures most { (vec_len spare.new ≤ count) ⊎ (vec_len spare.new ≡ vec_len spare.old) }
    ensures ok { OnOk result (count ≤ vec_len spare.new) }
    ensures memory { IsOkUnless result Memory }
{
    while spare.len() < count {
        spare.push(Vec::with_capacity(alloc, CHUNK_SIZE)?)?;
    }
    Ok(())
}
