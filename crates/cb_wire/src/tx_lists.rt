//! Prefilled transactions, and sharing the transactions of `blocktxn` and `cmpctblock`.
ghost use Rattle.std.specs.Prelude.{◌≡◌, ◌+◌, ◌-◌, ◌^◌, ◌<◌, ◌≤◌, [], ◌++◌, length, min, IfOk, IsOk, IsOkUnless, OnOk, OnErr, Ok, vec_capacity, vec_len};
ghost use Rattle.cb_base.specs.declared.fault.Fault.TheVariants.{Memory};
ghost use Rattle.cb_block.specs.TxReading.{GivesInMemory};
ghost use Rattle.cb_block.specs.TxWriting.{Extends};
ghost use Rattle.cb_wire.specs.ShortForms.{IsPrefilled, prefilled_at, prefilled_text};

use crate::prefilled::PrefilledTransaction;
use cb_base::{Cursor, Fault, Shared, put_compact};
use cb_block::{Coded, Tx, compact_size};
use std::alloc::Global;

/// An item of a list that has a transaction: the transaction alone, or with its index in the block.
pub trait TxItem: Drop {
    ghost use Rattle.std.specs.Prelude.{◌≡◌, IfOk, IsOkUnless};
    ghost use Rattle.cb_base.specs.declared.fault.Fault.TheVariants.{Memory};

    /// An equal item that shares the transaction. Fails only with `Fault::Memory`.
    fn share(&self) -> Result<Self, Fault>
        ensures equal { IfOk result (λ copy. copy ≡ self.now) }
        ensures memory { IsOkUnless result Memory };
}

impl TxItem for Shared<Tx> {
    fn share(&self) -> Result<Shared<Tx>, Fault> {
        Ok(self.clone()?)
    }
}

impl TxItem for PrefilledTransaction {
    fn share(&self) -> Result<PrefilledTransaction, Fault> {
        Ok(PrefilledTransaction {
            difference: self.difference,
            tx: self.tx.clone()?,
        })
    }
}

impl Coded for PrefilledTransaction {
    ghost use Rattle.cb_wire.specs.ShortForms.{IsPrefilled, prefilled_at, prefilled_text};

    ghost text = { prefilled_text };

    ghost item_at = { prefilled_at };

    ghost is_kept = { IsPrefilled };

    ghost LEAST = { 11 };

    const LEAST: u32 = 11;

    fn read(alloc: Global, cursor: &mut Cursor) -> Result<PrefilledTransaction, Fault> {
        read_prefilled(alloc, cursor)
    }

    fn put(&self, out: &mut Vec<u8>) -> Result<(), Fault> {
        put_prefilled(out, self)
    }

    fn text_size(&self) -> u64 {
        prefilled_size(self)
    }
}

#[tactic(auto, unfolding(crate::specs::ShortForms::prefilled_at))]
fn read_prefilled(alloc: Global, cursor: &mut Cursor) -> Result<PrefilledTransaction, Fault>
    ensures { GivesInMemory (prefilled_at cursor.old) result cursor.new }
{
    let difference = cursor.compact()?;
    let tx = Shared::<Tx>::read(alloc, cursor)?;
    Ok(PrefilledTransaction { difference, tx })
}

#[tactic(auto, unfolding(crate::specs::ShortForms::prefilled_text), using(cb_block::proofs::Appends::appends))]
fn put_prefilled(out: &mut Vec<u8>, prefilled: &PrefilledTransaction) -> Result<(), Fault>
    ensures ok { OnOk result (out.new.items ≡ out.old.items ++ prefilled_text prefilled.now) }
    ensures err { OnErr result (Extends out.old.items out.new.items) }
    ensures memory { IsOkUnless result Memory }
    ensures full { OnErr result
        (vec_capacity out.old < vec_len out.old + length (prefilled_text prefilled.now)) }
    ensures capacity { vec_capacity out.old ≤ vec_capacity out.new }
    ensures kept { OnOk result (IsPrefilled prefilled.now) }
{
    put_compact(out, prefilled.difference)?;
    prefilled.tx.put(out)
}

#[tactic(auto, unfolding(crate::specs::ShortForms::prefilled_text))]
fn prefilled_size(prefilled: &PrefilledTransaction) -> u64
    ensures size { result ≡ min (length (prefilled_text prefilled.now)) (2 ^ 64 - 1) }
    ensures kept { IsPrefilled prefilled.now }
{
    prefilled
        .tx
        .text_size()
        .saturating_add(compact_size(prefilled.difference))
}

/// An equal list that shares the transactions. Only the list itself is allocated. Fails only with
/// `Fault::Memory`: an allocation failed, or a transaction has 2^63 owners. An empty list can't
/// fail.
pub fn share_tx_items<T: TxItem>(alloc: Global, items: &[T]) -> Result<Vec<T>, Fault>
    ensures equal { IfOk result (λ copies. copies.items ≡ items.now) }
    ensures memory { IsOkUnless result Memory }
    ensures unpaid { items.now ≡ [] → IsOk result }
{
    let mut copies = Vec::with_capacity(alloc, items.len())?;
    for item in items {
        copies.push(item.share()?)?;
    }
    Ok(copies)
}
