ghost use Rattle.std.specs.Prelude.{◌≡◌, ◌≤◌, false, length, slice_get, IfOk, IsOk, IsOkUnless};
ghost use Rattle.cb_base.specs.declared.fault.Fault.TheVariants.{BadIndex, Memory};
ghost use Rattle.cb_block.specs.Blocks.{MeetsBlockRules};
ghost use Rattle.cb_block.specs.BlockText.{header_text};
ghost use Rattle.cb_compact.specs.Differences.{sums};
ghost use Rattle.cb_state.specs.Parts.{BlockPart, IsCarried, txs_at};
ghost use Rattle.cb_state.specs.Serving.{are_below, excerpt_at, excerpt_of};
ghost use Rattle.cb_state.specs.declared.serving_places.Excerpt.TheVariants as excerpts;

use crate::bounded::BoundedBlock;
use crate::state::Relay;
use cb_base::{Fault, Hash256, Shared};
use cb_block::{Header, SoundBlock, Tx, Txs};
use cb_chain::kept_meet_rules;
use cb_compact::undiffer;
use std::alloc::Global;
use std::marker::Model;

/// The greatest depth below the tip at which single transactions of a block are served (this node's
/// own choice).
const MOST_PART_DEPTH: u32 = 10;

/// Transactions of a block that fit in a message: the block's hash, the count and the transactions
/// have at most 4,000,000 bytes (Bitcoin's protocol; BIP 152, `blocktxn`). Its model is the hash
/// and the list.
#[derive(Drop)]
pub struct Part {
    hash: Hash256,
    txs: Txs,
}

impl Model for Part {
    ghost use Rattle.cb_state.specs.Parts.{BlockPart, IsCarried};

    ghost Value = { BlockPart };

    ghost view = { λ part. record { hash = part.hash; txs = part.txs } };

    ghost invariant = { λ part. IsCarried part.txs };
}

impl Part {
    /// Wraps the hash of a block and transactions of it that fit in a message.
    pub fn new(hash: Hash256, txs: Txs) -> Part
        requires { IsCarried txs }
        ensures { result ≡ record { hash = hash; txs = txs } }
    {
        Part { hash, txs }
    }

    /// The block's hash.
    pub fn hash(&self) -> Hash256
        ensures { result ≡ self.now.hash }
    {
        self.hash
    }

    /// The transactions, in order.
    pub fn txs(&self) -> &Txs
        ensures same { result.now ≡ self.now.txs }
        ensures few { IsCarried self.now.txs }
    {
        &self.txs
    }

    /// Gives the transactions out, in order.
    pub fn into_txs(self) -> Txs
        ensures same { result ≡ self.txs }
        ensures few { IsCarried self.txs }
    {
        self.txs
    }

    /// A copy. The transactions are shared; memory is allocated only for their list. Fails only
    /// with `Fault::Memory`.
    pub fn copy(&self, alloc: Global) -> Result<Part, Fault>
        ensures same { IfOk result (λ copy. copy ≡ self.now) }
        ensures memory { IsOkUnless result Memory }
    {
        let list = copy_txs(alloc, self.txs.as_slice())?;
        Ok(Part {
            hash: self.hash,
            txs: Txs::new(list),
        })
    }
}

/// The answer to a request for transactions of a block by their places (BIP 152, `getblocktxn`).
#[derive(Drop)]
pub enum Excerpt {
    /// The block isn't kept, or is marked bad.
    Absent,
    /// A place isn't in the block. The fault is `Fault::BadIndex`.
    Refused(Fault),
    /// The block's transactions at these places.
    Part(Part),
    /// The whole block, because it is too far below the tip for single transactions.
    Whole(BoundedBlock),
}

impl Relay {
    /// Returns what a request for places of a block is answered with (BIP 152, `getblocktxn`). The
    /// places are given by their differences. If the block is at most ten below the tip, the answer
    /// is its transactions at these places, else the whole block. Transactions and blocks are
    /// shared, not copied.
    ///
    /// If a place isn't below the block's number of transactions, or overflows 64 bits, the answer
    /// is `Excerpt::Refused` with `Fault::BadIndex`, however deep the block is.
    ///
    /// Fails only with `Fault::Memory`, and never if the answer is `Absent` or `Refused`.
    pub fn serve_places(&self, hash: &Hash256, differences: &[u64]) -> Result<Excerpt, Fault>
        ensures exact { IfOk result
            (λ excerpt. excerpt ≡ excerpt_of self.now hash.now differences.now) }
        ensures memory { IsOkUnless result Memory }
        ensures absent { excerpt_of self.now hash.now differences.now ≡ excerpts.Absent →
            IsOk result }
        ensures refused { excerpt_of self.now hash.now differences.now ≡ excerpts.Refused BadIndex →
            IsOk result }
    {
        kept_meet_rules(&self.chain);
        let Some(block) = self.chain.block(hash) else {
            return Ok(Excerpt::Absent);
        };
        let near = self.is_within(hash, MOST_PART_DEPTH);
        excerpt_at(self.alloc, near, *hash, differences, block)
    }
}

/// The transactions at these places of a block, or the whole block if it isn't near the tip. Fails
/// only with `Fault::Memory`, and never if a place is refused.
fn excerpt_at(
    alloc: Global,
    near: bool,
    hash: Hash256,
    differences: &[u64],
    block: &SoundBlock,
) -> Result<Excerpt, Fault>
    requires { MeetsBlockRules block.now }
    ensures exact { IfOk result
        (λ excerpt. excerpt ≡ excerpt_at near hash (sums 0 differences.now) block.now) }
    ensures memory { IsOkUnless result Memory }
    ensures refused { are_below (length block.now.txs) (sums 0 differences.now) ≡ false →
        IsOk result }
{
    let total = block.block().txs.as_slice().len();
    let places = match undiffer(alloc, differences, total as u64) {
        Ok(places) => places,
        Err(fault) if fault == Fault::BadIndex => return Ok(Excerpt::Refused(fault)),
        Err(fault) => return Err(fault),
    };
    if !near {
        return Ok(Excerpt::Whole(BoundedBlock::new(block.copy()?)));
    }
    // No effect when it runs: it tells the prover what the type keeps.
    let _ = header_size(&block.block().header);
    let list = txs_at(alloc, block.block().txs.as_slice(), places.as_slice())?;
    Ok(Excerpt::Part(Part::new(hash, Txs::new(list))))
}

/// The bytes of a block header.
fn header_size(header: &Header) -> usize
    ensures text { result ≡ length (header_text header.now) }
    ensures size { result ≡ 80 }
{
    header.text().as_slice().len()
}

/// The transaction at a place, if there is one. Fails only with `Fault::Memory`.
fn tx_at(txs: &[Shared<Tx>], place: u64) -> Result<Option<Shared<Tx>>, Fault>
    ensures same { IfOk result (λ tx. tx ≡ slice_get txs.now place) }
    ensures memory { IsOkUnless result Memory }
{
    match txs.get(place as usize) {
        Some(tx) => Ok(Some(tx.clone()?)),
        None => Ok(None),
    }
}

/// The transactions at these places, in order. A place outside the list is skipped. Fails only with
/// `Fault::Memory`.
fn txs_at(alloc: Global, txs: &[Shared<Tx>], places: &[u64]) -> Result<Vec<Shared<Tx>>, Fault>
    ensures exact { IfOk result (λ list. list.items ≡ txs_at txs.now places.now) }
    ensures memory { IsOkUnless result Memory }
{
    let mut list = Vec::with_capacity(alloc, places.len())?;
    for place in places {
        if let Some(tx) = tx_at(txs, *place)? {
            list.push(tx)?;
        }
    }
    Ok(list)
}

/// Further handles to the transactions, in order. Fails only with `Fault::Memory`.
fn copy_txs(alloc: Global, txs: &[Shared<Tx>]) -> Result<Vec<Shared<Tx>>, Fault>
    ensures same { IfOk result (λ list. list.items ≡ txs.now) }
    ensures memory { IsOkUnless result Memory }
{
    let mut list = Vec::with_capacity(alloc, txs.len())?;
    for tx in txs {
        list.push(tx.clone()?)?;
    }
    Ok(list)
}
