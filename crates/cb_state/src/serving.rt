ghost use Rattle.std.specs.Prelude.{◌≡◌, ◌≤◌, length, IfOk, IsOkUnless};
ghost use Rattle.cb_base.specs.declared.fault.Fault.TheVariants.{Memory};
ghost use Rattle.cb_chain.specs.Entries.{block_of};
ghost use Rattle.cb_pool.specs.Listing.{txs_of};
ghost use Rattle.cb_pool.specs.Rules.{named_in};
ghost use Rattle.cb_wire.specs.declared.inventory.Inventory.TheVariants as entry;
ghost use Rattle.cb_state.specs.Serving.{is_within, piece_of, pieces_of, short_piece, tx_piece, whole_piece};

use crate::bounded::{BoundedBlock, kept_block};
use crate::state::Relay;
use cb_base::{Fault, Hash256};
use cb_pool::Candidate;
use cb_wire::{Entries, Inventory, Listed, MOST_ENTRIES};

/// The greatest depth below the tip at which a block is served as a compact block (this node's own
/// choice).
const MOST_COMPACT_DEPTH: u32 = 5;

/// What one inventory entry is answered with. It fits in a message.
#[derive(Drop)]
pub enum Piece {
    /// A transaction of the mempool.
    Tx(Candidate),
    /// A block, to be sent whole.
    Whole(BoundedBlock),
    /// A block near the tip that was asked for as a compact block.
    Short(BoundedBlock),
    /// An entry that this node doesn't have.
    Lacking(Inventory),
}

/// At most 50,000 pieces.
pub type Pieces = Listed<Piece, MOST_ENTRIES>;

impl Relay {
    /// Looks up inventory entries. Returns one piece for each entry of a known type, in order.
    /// Transactions and blocks are shared, not copied.
    ///
    /// Fails only with `Fault::Memory`.
    pub fn serve(&self, entries: &Entries) -> Result<Pieces, Fault>
        ensures pieces { IfOk result (λ pieces. pieces ≡ pieces_of self.now entries.now) }
        ensures memory { IsOkUnless result Memory }
    {
        let asked = entries.as_slice();
        let mut list = Vec::with_capacity(self.alloc, asked.len())?;
        for entry in asked {
            if let Some(piece) = self.piece(*entry)? {
                list.push_reserved(piece);
            }
        }
        Ok(Listed::from_few(list))
    }

    /// The piece for one entry; `None` if its type is unknown. Fails only with `Fault::Memory`.
    fn piece(&self, entry: Inventory) -> Result<Option<Piece>, Fault>
        ensures piece { IfOk result (λ piece. piece ≡ piece_of self.now entry) }
        ensures memory { IsOkUnless result Memory }
    {
        match entry {
            Inventory::Tx(txid) => Ok(Some(self.waiting(txid)?)),
            Inventory::Block(hash) => Ok(Some(self.whole(hash)?)),
            Inventory::CompactBlock(hash) => Ok(Some(self.short(hash)?)),
            Inventory::Other(_, _) => Ok(None),
        }
    }

    /// The piece for a txid: the mempool's transaction, if it is there. Fails only with
    /// `Fault::Memory`.
    fn waiting(&self, txid: Hash256) -> Result<Piece, Fault>
        ensures piece { IfOk result
            (λ piece. piece
            ≡ tx_piece (entry.Tx txid) (named_in (txs_of self.now.pool.list) txid)) }
        ensures memory { IsOkUnless result Memory }
    {
        match self.pool.get(&txid) {
            Some(candidate) => Ok(Piece::Tx(candidate.clone()?)),
            None => Ok(Piece::Lacking(Inventory::Tx(txid))),
        }
    }

    /// The piece for a block: the whole block, if it is kept and not marked bad. Fails only with
    /// `Fault::Memory`.
    fn whole(&self, hash: Hash256) -> Result<Piece, Fault>
        ensures piece { IfOk result
            (λ piece. piece ≡ whole_piece (entry.Block hash) (block_of self.now.tree hash)) }
        ensures memory { IsOkUnless result Memory }
    {
        match kept_block(&self.chain, &hash)? {
            Some(block) => Ok(Piece::Whole(block)),
            None => Ok(Piece::Lacking(Inventory::Block(hash))),
        }
    }

    /// The piece for a compact block: as `whole`, but `Piece::Short` if the block is near the tip.
    /// Fails only with `Fault::Memory`.
    fn short(&self, hash: Hash256) -> Result<Piece, Fault>
        ensures piece { IfOk result (λ piece. piece
            ≡ short_piece (is_within 5 self.now.tree hash) (entry.CompactBlock hash)
            (block_of self.now.tree hash)) }
        ensures memory { IsOkUnless result Memory }
    {
        match kept_block(&self.chain, &hash)? {
            Some(block) if self.is_within(&hash, MOST_COMPACT_DEPTH) => Ok(Piece::Short(block)),
            Some(block) => Ok(Piece::Whole(block)),
            None => Ok(Piece::Lacking(Inventory::CompactBlock(hash))),
        }
    }

    /// Whether the block is at most `depth` below the tip's height. An unknown block counts as
    /// height 0.
    pub(crate) fn is_within(&self, hash: &Hash256, depth: u32) -> bool
        ensures { result ≡ is_within depth self.now.tree hash.now }
    {
        let height = self.chain.height(hash).unwrap_or(0);
        self.chain.tip_height().saturating_sub(height) <= depth
    }
}
