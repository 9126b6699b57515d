ghost use Rattle.std.specs.Prelude.{◌≡◌, ◌<◌, ◌≤◌, length, slice_get, Some, vec_capacity, IfOk, IsOkUnless};
ghost use Rattle.cb_base.specs.declared.fault.Fault.TheVariants.{Memory};

use crate::block_index::BareIndex;
use cb_base::{Fault, Shared};
use std::alloc::Global;
use std::marker::Model;

/// The number of block indexes in a chunk.
pub(crate) const CHUNK_SIZE: usize = 256;

/// The block indexes of a chunk. They have one owner only if memory lacked to share them.
#[derive(Drop)]
enum Held {
    Own(Vec<BareIndex>),
    Shared(Shared<Vec<BareIndex>>),
}

/// Block indexes that never change, so that lists can share them. Contracts see them as a list.
#[derive(Drop)]
pub(crate) struct Chunk {
    block_indexes: Held,
}

impl Model for Chunk {
    ghost use Rattle.std.specs.Prelude.{List};
    ghost use Rattle.cb_chain.specs.declared.block_index.BareIndex.{BareIndex};

    ghost Value = { List BareIndex };

    ghost use Rattle.cb_chain.specs.Listing.{held_indexes};

    ghost view = { λ chunk. held_indexes chunk.block_indexes };
}

impl Chunk {
    /// The chunk of these block indexes. Copies share it, unless there is no memory for that.
    pub(crate) fn new(alloc: Global, block_indexes: Vec<BareIndex>) -> Chunk
        ensures { result ≡ block_indexes.items }
    {
        match Shared::new(alloc, block_indexes) {
            Ok(shared) => Chunk {
                block_indexes: Held::Shared(shared),
            },
            Err(failed) => Chunk {
                block_indexes: Held::Own(failed.value),
            },
        }
    }

    /// The block index at a place of the chunk.
    pub(crate) fn get(&self, place: usize) -> &BareIndex
        requires { place < length self.now }
        ensures { slice_get self.now place ≡ Some result.now }
    {
        match &self.block_indexes {
            Held::Own(block_indexes) => &block_indexes[place],
            Held::Shared(block_indexes) => &(**block_indexes)[place],
        }
    }

    /// An equal chunk, which shares the block indexes if they can be shared. Fails only with
    /// `Fault::Memory`.
    pub(crate) fn copy(&self, alloc: Global) -> Result<Chunk, Fault>
        ensures same { IfOk result (λ copy. copy ≡ self.now) }
        ensures memory { IsOkUnless result Memory }
    {
        match &self.block_indexes {
            Held::Own(block_indexes) => {
                let copies = copy_indexes(alloc, block_indexes.as_slice(), block_indexes.len())?;
                Ok(Chunk::new(alloc, copies))
            }
            Held::Shared(block_indexes) => Ok(Chunk {
                block_indexes: Held::Shared(block_indexes.clone()?),
            }),
        }
    }
}

/// Equal block indexes in a vector with room for `count`, or for more. Fails only with
/// `Fault::Memory`.
pub(crate) fn copy_indexes(
    alloc: Global,
    block_indexes: &[BareIndex],
    count: usize,
) -> Result<Vec<BareIndex>, Fault>
    ensures same { IfOk result (λ copies. copies.items ≡ block_indexes.now) }
    ensures room { IfOk result (λ copies. count ≤ vec_capacity copies) }
    ensures memory { IsOkUnless result Memory }
{
    let mut copies = Vec::with_capacity(alloc, count)?;
    for block_index in block_indexes {
        copies.push(block_index.copy()?)?;
    }
    Ok(copies)
}
