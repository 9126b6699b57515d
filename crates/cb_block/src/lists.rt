//! Reading and writing lists: a count, then the items.
ghost use Rattle.std.specs.Prelude.{◌≡◌, ℕ, ◌+◌, ◌-◌, ◌^◌, ◌<◌, ◌≤◌, List, [], ◌++◌, length, min, All, IfOk, IsOk, IsOkUnless, MatchResult, OnOk, OnErr, Ok, Err, ◌⊎◌, vec_capacity, vec_len};
ghost use Rattle.cb_base.specs.declared.fault.Fault.{Fault};
ghost use Rattle.cb_base.specs.declared.fault.Fault.TheVariants.{Memory};
ghost use Rattle.cb_block.specs.TxReading.{CountsSome, count_at, items_at, list_at};
ghost use Rattle.cb_block.specs.TxText.{list_text};
ghost use Rattle.cb_block.specs.TxWriting.{Extends};

use crate::coded::Coded;
use crate::counting::read_count;
use crate::size::compact_size;
use cb_base::{Cursor, Fault, put_compact};
use std::alloc::Global;

/// Reads `count` items. A count of 0 allocates nothing. After an error the cursor may stand
/// anywhere.
pub fn items_of<T: Coded>(alloc: Global, cursor: &mut Cursor, count: usize) -> Result<Vec<T>, Fault>
    ensures exact { MatchResult result
        (λ items. items_at T.item_at count cursor.old ≡ Ok (items.items, cursor.new))
        (λ fault. (fault ≡ Memory) ⊎ (items_at T.item_at count cursor.old ≡ Err fault)) }
    ensures few { IfOk result (λ items. length items.items ≡ count) }
    ensures unpaid { count ≡ 0 → IsOk result }
{
    let mut items = Vec::with_capacity(alloc, count)?;
    for _ in 0..count {
        items.push(T::read(alloc, cursor)?)?;
    }
    Ok(items)
}

/// Reads a list: its count, then its items.
///
/// Fails as `read_count` does, at `LEAST` bytes for each item, then as the first item that can't be
/// read; with `Fault::Memory` if an allocation fails, but never for a count of 0. After an error
/// the cursor may stand anywhere.
#[tactic(auto, unfolding(crate::specs::TxReading::list_at))]
pub fn read_items<T: Coded>(alloc: Global, cursor: &mut Cursor) -> Result<Vec<T>, Fault>
    ensures exact { MatchResult result
        (λ items. list_at T.LEAST T.item_at cursor.old ≡ Ok (items.items, cursor.new))
        (λ fault. (fault ≡ Memory) ⊎ (list_at T.LEAST T.item_at cursor.old ≡ Err fault)) }
    // No memory is allocated before the count has been read.
    ensures unpaid { (fault : Fault) → count_at T.LEAST cursor.old ≡ Err fault →
        result ≡ Err fault }
    // A count of 0 allocates nothing.
    ensures paid { result ≡ Err Memory → CountsSome T.LEAST cursor.old }
{
    let count = read_count(cursor, T::LEAST)?;
    items_of(alloc, cursor, count)
}

/// Appends the count and the items to `out`. Fails only with `Fault::Memory`, and only if the free
/// capacity is smaller than the list's text; `out` may then end with a part of it.
#[tactic(auto, unfolding(crate::specs::TxText::list_text), using(crate::proofs::Appends::appends))]
pub fn put_items<T: Coded>(out: &mut Vec<u8>, items: &[T]) -> Result<(), Fault>
    ensures ok { OnOk result (out.new.items ≡ out.old.items ++ list_text T.text items.now) }
    ensures err { OnErr result (Extends out.old.items out.new.items) }
    ensures memory { IsOkUnless result Memory }
    ensures full { OnErr result
        (vec_capacity out.old < vec_len out.old + length (list_text T.text items.now)) }
    ensures capacity { vec_capacity out.old ≤ vec_capacity out.new }
    ensures few { length items.now < 2 ^ 64 }
    // Each number is in the range of its field, and each hash has 32 bytes.
    ensures kept { OnOk result (All T.is_kept items.now) }
{
    put_compact(out, items.len() as u64)?;
    for item in items {
        item.put(out)?;
    }
    Ok(())
}

/// The length of the count and the items in bytes, or 2^64 - 1 if it is longer.
#[tactic(auto, unfolding(crate::specs::TxText::list_text))]
pub fn items_size<T: Coded>(items: &[T]) -> u64
    ensures size { result ≡ min (length (list_text T.text items.now)) (2 ^ 64 - 1) }
    ensures few { length items.now < 2 ^ 64 }
    // Each number is in the range of its field, and each hash has 32 bytes.
    ensures kept { All T.is_kept items.now }
{
    let mut size = compact_size(items.len() as u64);
    for item in items {
        size = size.saturating_add(item.text_size());
    }
    size
}
