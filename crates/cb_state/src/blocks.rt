//! A block, and where it stands.
ghost use Rattle.std.specs.Prelude.{◌≡◌, ◌↔◌, true, length, Contains, option_map};
ghost use Rattle.cb_block.specs.declared.block.Block as blocks;
ghost use Rattle.cb_chain.specs.Entries.{block_of};
ghost use Rattle.cb_chain.specs.Laws.{active_hashes};
ghost use Rattle.cb_state.specs.Blocks.{IsBlockLook, is_marked_in};

use cb_base::Hash256;
use cb_chain::Chain;

/// What the chain has of a block.
#[derive(Clone, Copy)]
pub struct BlockLook {
    /// Its height; the genesis block has height 0.
    pub height: u32,
    /// How many transactions it has, if it is kept and not marked bad.
    pub txs: Option<usize>,
    /// Whether it is on the best chain.
    pub best: bool,
}

/// What the chain has of the block with this hash; `None` if its header isn't known.
pub fn block_look(chain: &Chain, hash: &Hash256) -> Option<BlockLook>
    ensures { IsBlockLook chain.now hash.now result }
{
    let height = chain.height(hash)?;
    Some(BlockLook {
        height,
        txs: txs_in(chain, hash),
        best: is_on_best(chain, hash),
    })
}

/// How many transactions the block with this hash has, if it is kept and not marked bad.
pub(crate) fn txs_in(chain: &Chain, hash: &Hash256) -> Option<usize>
    ensures { result ≡ option_map (λ (block : blocks.Block). length block.txs)
        (block_of chain.now hash.now) }
{
    match chain.block(hash) {
        Some(block) => Some(block.block().txs.as_slice().len()),
        None => None,
    }
}

/// Whether a block is on the best chain.
pub(crate) fn is_on_best(chain: &Chain, hash: &Hash256) -> bool
    ensures { (result ≡ true) ↔ Contains (active_hashes chain.now) hash.now }
{
    chain.active_height(hash).is_some()
}

/// Whether the block with this hash is marked bad.
pub fn is_marked(chain: &Chain, hash: &Hash256) -> bool
    ensures { result ≡ is_marked_in chain.now hash.now }
{
    !chain.lacks(hash) && chain.block(hash).is_none()
}
