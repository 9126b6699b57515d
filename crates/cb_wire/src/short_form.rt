ghost use Rattle.std.specs.Prelude.{◌≡◌, ◌+◌, ◌-◌, ◌^◌, ◌<◌, ◌≤◌, ◌++◌, length, min, All, IfOk, IfErr, IsOk, IsOkUnless, IsTrue, ◌↔◌, OnErr, OnOk, Ok, Err};
ghost use Rattle.cb_base.specs.CompactSize.{Gives};
ghost use Rattle.cb_base.specs.declared.fault.Fault.{Fault};
ghost use Rattle.cb_base.specs.declared.fault.Fault.TheVariants.{Memory};
ghost use Rattle.cb_block.specs.TxReading.{GivesInMemory, count_at};
ghost use Rattle.cb_wire.specs.ShortForms.{FormTakesMemory, IsPrefilled, IsShortForm, IsShortId, prefilled_count_at, short_form_at, short_form_text};
ghost use Rattle.cb_block.specs.TxWriting.{Extends};

use crate::prefilled::PrefilledTransaction;
use crate::short_ids::{ids_size, put_ids, read_ids};
use crate::tx_lists::share_tx_items;
use cb_base::{Cursor, Fault};
use cb_block::{items_of, items_size, put_items};
use std::alloc::Global;
use std::marker::Model;

/// The most transactions that a compact block may have. The limit is this program's own: a block
/// has at most 1,000,000 bytes, a valid transaction at least 60, and the quotient is rounded down.
pub const MOST_BLOCK_TXS: usize = 16_666;

/// The transactions of a compact block (BIP 152): the short ids of those that it leaves out, and
/// the prefilled ones that it carries in full. There are 1 to 16,666 in all, and each short id has
/// 6 bytes.
#[derive(Drop)]
pub struct CompactTxs {
    ids: Vec<u64>,
    prefilled: Vec<PrefilledTransaction>,
}

impl Model for CompactTxs {
    ghost use Rattle.cb_wire.specs.ShortForms.{IsShortForm, ShortForm};

    ghost Value = { ShortForm };

    ghost view = { λ txs. record { ids = txs.ids.items; prefilled = txs.prefilled.items } };

    ghost invariant = { λ txs. IsShortForm
        (record { ids = txs.ids.items; prefilled = txs.prefilled.items }) };
}

impl CompactTxs {
    /// Takes both lists if they have 1 to 16,666 members in all and each short id is below 2^48. If
    /// not, the error gives them back.
    pub fn new(
        ids: Vec<u64>,
        prefilled: Vec<PrefilledTransaction>,
    ) -> Result<CompactTxs, (Vec<u64>, Vec<PrefilledTransaction>)>
        ensures same { IfOk result
            (λ txs. txs ≡ record { ids = ids.items; prefilled = prefilled.items }) }
        ensures back { IfErr result (λ back. (back.0 ≡ ids) × (back.1 ≡ prefilled)) }
        ensures few { IsShortForm (record { ids = ids.items; prefilled = prefilled.items }) →
            IsOk result }
    {
        let total = ids.len().saturating_add(prefilled.len());
        if total == 0 || total > MOST_BLOCK_TXS || !are_short(ids.as_slice()) {
            return Err((ids, prefilled));
        }
        Ok(CompactTxs { ids, prefilled })
    }

    /// Takes both lists, which meet the rules of `new`.
    pub fn from_few(ids: Vec<u64>, prefilled: Vec<PrefilledTransaction>) -> CompactTxs
        requires { IsShortForm (record { ids = ids.items; prefilled = prefilled.items }) }
        ensures { result ≡ record { ids = ids.items; prefilled = prefilled.items } }
    {
        CompactTxs { ids, prefilled }
    }

    /// The short ids, in the order of their transactions in the block.
    pub fn ids(&self) -> &[u64]
        ensures same { result.now ≡ self.now.ids }
        ensures kept { IsShortForm self.now }
    {
        self.ids.as_slice()
    }

    /// The prefilled transactions, in order.
    pub fn prefilled(&self) -> &[PrefilledTransaction]
        ensures same { result.now ≡ self.now.prefilled }
        ensures kept { IsShortForm self.now }
    {
        self.prefilled.as_slice()
    }

    /// Gives both lists out.
    pub fn into_lists(self) -> (Vec<u64>, Vec<PrefilledTransaction>)
        ensures ids { result.0.items ≡ self.ids }
        ensures prefilled { result.1.items ≡ self.prefilled }
        ensures kept { IsShortForm self }
    {
        let CompactTxs { ids, prefilled } = self;
        (ids, prefilled)
    }

    /// An equal value that shares the transactions. Only the lists are allocated. Fails only with
    /// `Fault::Memory`: an allocation failed, or a transaction has 2^63 owners.
    pub fn copy(&self, alloc: Global) -> Result<CompactTxs, Fault>
        ensures equal { IfOk result (λ copy. copy ≡ self.now) }
        ensures memory { IsOkUnless result Memory }
    {
        let mut ids = Vec::with_capacity(alloc, self.ids.len())?;
        ids.extend_from_slice(self.ids.as_slice())?;
        let prefilled = share_tx_items(alloc, self.prefilled.as_slice())?;
        Ok(CompactTxs { ids, prefilled })
    }

    /// The length of both lists with their counts in bytes, or 2^64 - 1 if it is longer.
    #[tactic(auto, unfolding(crate::specs::ShortForms::short_form_text))]
    pub fn size(&self) -> u64
        ensures { result ≡ min (length (short_form_text self.now)) (2 ^ 64 - 1) }
    {
        ids_size(self.ids.as_slice()).saturating_add(items_size(self.prefilled.as_slice()))
    }
}

/// Whether each short id fits in 6 bytes.
fn are_short(ids: &[u64]) -> bool
    ensures { IsTrue result ↔ All IsShortId ids.now }
{
    ids.iter().all(|id| *id < 0x1_0000_0000_0000)
}

/// Reads the count of prefilled transactions after `ids` short ids. Fails with `Fault::Empty` if
/// there are no transactions in all, with `Fault::TooMany` if there are more than 16,666, then with
/// `Fault::Truncated` if the prefilled transactions don't fit in the remaining bytes, so that
/// nothing is allocated for them. After an error the cursor may stand anywhere.
#[tactic(auto, unfolding(crate::specs::ShortForms::prefilled_count_at))]
fn read_prefilled_count(cursor: &mut Cursor, ids: usize) -> Result<usize, Fault>
    ensures exact { Gives (prefilled_count_at ids cursor.old) result cursor.new }
    ensures some { IfOk result (λ count. 1 ≤ ids + count) }
    ensures few { IfOk result (λ count. ids + count ≤ 16666) }
{
    let count = cursor.compact()?;
    let total = ids as u128 + u128::from(count);
    if total == 0 {
        return Err(Fault::Empty);
    }
    if total > MOST_BLOCK_TXS as u128 {
        return Err(Fault::TooMany);
    }
    if (cursor.left() as u128) < u128::from(count) * 11 {
        return Err(Fault::Truncated);
    }
    Ok(count as usize)
}

/// Reads the short ids and the prefilled transactions of a compact block, each list after its
/// count.
///
/// A count of short ids is `Fault::Truncated` at once if the ids don't fit in the remaining bytes,
/// at 6 bytes each. Both counts are checked when the second has been read: `Fault::Empty` for none
/// in all, `Fault::TooMany` for more than 16,666, then `Fault::Truncated` if the prefilled
/// transactions don't fit, at 11 bytes each. Otherwise the error is that of the first field that
/// can't be read, or `Fault::Memory`. After an error the cursor may stand anywhere.
#[tactic(auto, unfolding(crate::specs::ShortForms::short_form_at))]
pub fn read_short_form(alloc: Global, cursor: &mut Cursor) -> Result<CompactTxs, Fault>
    ensures exact { GivesInMemory (short_form_at cursor.old) result cursor.new }
    // No memory is allocated before the count of short ids has been read.
    ensures unpaid { (fault : Fault) → count_at 6 cursor.old ≡ Err fault → result ≡ Err fault }
    // Without short ids, none is allocated before the count of prefilled transactions has been read
    // and accepted.
    ensures paid { result ≡ Err Memory → FormTakesMemory cursor.old }
{
    let ids = read_ids(alloc, cursor)?;
    let count = read_prefilled_count(cursor, ids.len())?;
    let prefilled = items_of(alloc, cursor, count)?;
    Ok(CompactTxs::from_few(ids, prefilled))
}

/// Appends both lists, each after its count, to `out`. Fails only with `Fault::Memory`; `out` may
/// then end with a part of them, behind what it had.
#[tactic(auto, unfolding(crate::specs::ShortForms::short_form_text), using(cb_block::proofs::Appends::appends))]
pub fn put_short_form(out: &mut Vec<u8>, txs: &CompactTxs) -> Result<(), Fault>
    ensures ok { OnOk result (out.new.items ≡ out.old.items ++ short_form_text txs.now) }
    ensures err { OnErr result (Extends out.old.items out.new.items) }
    ensures memory { IsOkUnless result Memory }
    ensures kept { OnOk result (All IsPrefilled txs.now.prefilled) }
    ensures form { IsShortForm txs.now }
{
    put_ids(out, txs.ids())?;
    put_items(out, txs.prefilled())
}
