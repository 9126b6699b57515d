//! Reading the messages of BIP 152 that carry transactions: where these lie in the payload.
ghost use Rattle.std.specs.Prelude.{◌≡◌, ◌⊎◌, ◌+◌, ◌<◌, ◌≤◌, ◌^◌, length, IfErr, IfOk, IsOk, IsOkUnless, MatchResult, Ok, Err};
ghost use Rattle.std.specs.List.{flat_map};
ghost use Rattle.cb_base.specs.declared.fault.Fault.{Fault};
ghost use Rattle.cb_base.specs.declared.fault.Fault.TheVariants.{Memory};
ghost use Rattle.cb_relay.specs.Shapes.{hash_of};
ghost use Rattle.cb_wire.specs.BlockTransactions.{BlockTxsTakesMemory, block_txs_at, block_txs_count_at, block_txs_text};
ghost use Rattle.cb_wire.specs.CompactBlocks.{CompactBlockTakesMemory, compact_block_at, compact_block_count_at};
ghost use Rattle.cb_wire.specs.ShortForms.{prefilled_text, short_form_text, short_id_text};
ghost use Rattle.cb_wire.specs.declared.block_transactions.BlockTransactions.{BlockTransactions};
ghost use Rattle.cb_wire.specs.declared.compact_block.HeaderAndShortIds.{HeaderAndShortIds};
ghost use Rattle.cb_relay.specs.MessageSpans.{AreCompactParts, prefilled_from, prefilled_in, spans_in};
ghost use Rattle.cb_relay.specs.WholeMessages.{all_of};
ghost use Rattle.cb_block.specs.TxText.{list_text};

use crate::headers::header_fields;
use crate::lists::hash_shape;
use crate::message_shapes::{CbCompact, CbPrefilled};
use crate::parts::spans_from;
use crate::shapes::{CbHash, CbSpan};
use crate::whole::{whole_block_txs, whole_compact};
use cb_base::Fault;
use cb_block::compact_size;
use cb_wire::{BlockTransactions, HeaderAndShortIds, PrefilledTransaction};
use std::alloc::Global;

/// A `blocktxn` (BIP 152): the block's hash, and where each transaction lies.
#[derive(Drop)]
pub struct TxsParts {
    pub block: CbHash,
    pub spans: Vec<CbSpan>,
}

/// A `cmpctblock` (BIP 152): its fields, the short ids, and the prefilled transactions.
#[derive(Drop)]
pub struct CompactParts {
    pub fields: CbCompact,
    pub ids: Vec<u64>,
    pub prefilled: Vec<CbPrefilled>,
}

/// Where the transactions lie in the payload of a `blocktxn`, which has fewer than 2^64 bytes.
#[tactic(auto, unfolding(cb_wire::specs::BlockTransactions::block_txs_text, cb_block::specs::TxText::list_text))]
fn spans_of(alloc: Global, part: &BlockTransactions) -> Result<Vec<CbSpan>, Fault>
    requires { length (block_txs_text part.now) < 2 ^ 64 }
    ensures same { IfOk result (λ spans. spans.items ≡ spans_in part.now) }
    ensures memory { IsOkUnless result Memory }
    ensures unpaid { length part.now.txs ≡ 0 → IsOk result }
{
    let txs = part.txs.as_slice();
    let block = part.block.bytes().len();
    spans_from(alloc, block + compact_size(txs.len() as u64) as usize, txs)
}

/// Reads a `blocktxn`.
///
/// Fails with the fault of the first field from the left that can't be read, and last with
/// `Trailing`; with `Memory` only for a count above 0.
pub fn blocktxn_read(alloc: Global, payload: &[u8]) -> Result<TxsParts, Fault>
    ensures found { IfOk result
        (λ told. (part : BlockTransactions) × (all_of (block_txs_at payload.now) ≡ Ok part)
        × (hash_of told.block ≡ part.block) × (told.spans.items ≡ spans_in part)) }
    ensures refused { IfErr result
        (λ fault. (fault ≡ Memory) ⊎ (all_of (block_txs_at payload.now) ≡ Err fault)) }
    ensures unpaid { (fault : Fault) → block_txs_count_at payload.now ≡ Err fault →
        result ≡ Err fault }
    ensures paid { result ≡ Err Memory → BlockTxsTakesMemory payload.now }
{
    let part = whole_block_txs(alloc, payload)?;
    let spans = spans_of(alloc, &part)?;
    Ok(TxsParts {
        block: hash_shape(&part.block),
        spans,
    })
}

/// The prefilled transactions, the first of which begins at `start`.
#[tactic(auto, unfolding(cb_wire::specs::ShortForms::prefilled_text))]
fn prefilled_from(
    alloc: Global,
    start: usize,
    prefilled: &[PrefilledTransaction],
) -> Result<Vec<CbPrefilled>, Fault>
    requires { start + length (flat_map prefilled_text prefilled.now) < 2 ^ 64 }
    ensures same { IfOk result (λ list. list.items ≡ prefilled_from start prefilled.now) }
    ensures memory { IsOkUnless result Memory }
{
    let mut list = Vec::with_capacity(alloc, prefilled.len())?;
    let mut at = start;
    for given in prefilled {
        let offset = at + compact_size(given.difference) as usize;
        let len = given.tx.size() as usize;
        let tx = CbSpan { offset, len };
        list.push(CbPrefilled {
            difference: given.difference,
            tx,
        })?;
        at = offset + len;
    }
    Ok(list)
}

/// The parts of a compact block. Its payload, which is 88 bytes and both lists, has fewer than 2^64
/// bytes.
fn parts_of(alloc: Global, form: HeaderAndShortIds) -> Result<CompactParts, Fault>
    requires { 88 + length (short_form_text form.txs) < 2 ^ 64 }
    ensures same { IfOk result (AreCompactParts form) }
    ensures memory { IsOkUnless result Memory }
{
    let before = 88 + ids_size(form.txs.ids());
    let count = form.txs.prefilled().len();
    let start = before + compact_size(count as u64) as usize;
    let prefilled = prefilled_from(alloc, start, form.txs.prefilled())?;
    let fields = CbCompact {
        header: header_fields(&form.header),
        nonce: form.nonce,
        ids: form.txs.ids().len(),
        prefilled: count,
    };
    let (ids, _given) = form.txs.into_lists();
    Ok(CompactParts {
        fields,
        ids,
        prefilled,
    })
}

/// The length of short ids with their count in bytes: 6 for each, which are at most 16,666.
fn ids_size(ids: &[u64]) -> usize
    requires { length ids.now ≤ 16666 }
    ensures { result ≡ length (list_text short_id_text ids.now) }
{
    compact_size(ids.len() as u64) as usize + 6 * ids.len()
}

/// Reads a `cmpctblock`. Whether the differences lead to places in the block isn't checked.
///
/// Fails with the fault of the first field from the left that can't be read, and last with
/// `Trailing`; with `Memory` only behind the counts.
pub fn cmpctblock_read(alloc: Global, payload: &[u8]) -> Result<CompactParts, Fault>
    ensures found { IfOk result
        (λ parts. (form : HeaderAndShortIds) × (all_of (compact_block_at payload.now) ≡ Ok form)
        × AreCompactParts form parts) }
    ensures refused { IfErr result
        (λ fault. (fault ≡ Memory) ⊎ (all_of (compact_block_at payload.now) ≡ Err fault)) }
    ensures unpaid { (fault : Fault) → compact_block_count_at payload.now ≡ Err fault →
        result ≡ Err fault }
    ensures paid { result ≡ Err Memory → CompactBlockTakesMemory payload.now }
{
    let form = whole_compact(alloc, payload)?;
    parts_of(alloc, form)
}
