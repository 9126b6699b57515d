//! Lists in messages: a count of at most so many, then the items.
ghost use Rattle.std.specs.Prelude.{◌≡◌, ◌+◌, ◌-◌, ◌^◌, ◌<◌, ◌≤◌, ◌++◌, length, min, IfOk, IsOkUnless, OnOk, OnErr, Err, vec_capacity, vec_len};
ghost use Rattle.cb_base.specs.CompactSize.{Gives};
ghost use Rattle.cb_base.specs.declared.fault.Fault.{Fault};
ghost use Rattle.cb_base.specs.declared.fault.Fault.TheVariants.{Memory};
ghost use Rattle.cb_block.specs.BlockText.{listed_header_text};
ghost use Rattle.cb_block.specs.TxReading.{GivesInMemory};
ghost use Rattle.cb_block.specs.TxText.{list_text};
ghost use Rattle.cb_block.specs.TxWriting.{Extends};
ghost use Rattle.cb_wire.specs.Lists.{CountsSome, IsEntry, entry_at, entry_text, hash_text, limited_at, listed_at};

use crate::inventory::{Entries, HeaderList, Inventory, Locator};
use crate::listed::Listed;
use cb_base::{Cursor, Fault};
use cb_block::{Coded, items_of, items_size, read_hash};
use std::alloc::Global;

impl Coded for Inventory {
    ghost use Rattle.cb_wire.specs.Lists.{IsEntry, entry_at, entry_text};

    ghost text = { entry_text };

    ghost item_at = { entry_at };

    ghost is_kept = { IsEntry };

    ghost LEAST = { 36 };

    const LEAST: u32 = 36;

    fn read(_alloc: Global, cursor: &mut Cursor) -> Result<Inventory, Fault> {
        read_entry(cursor)
    }

    fn put(&self, out: &mut Vec<u8>) -> Result<(), Fault> {
        put_entry(*self, out)
    }

    fn text_size(&self) -> u64 {
        entry_size(*self)
    }
}

#[tactic(auto, unfolding(crate::specs::Lists::entry_at))]
fn read_entry(cursor: &mut Cursor) -> Result<Inventory, Fault>
    ensures { Gives (entry_at cursor.old) result cursor.new }
{
    let kind = cursor.u32()?;
    let hash = read_hash(cursor)?;
    Ok(Inventory::of(kind, hash))
}

#[tactic(auto, unfolding(crate::specs::Lists::entry_text), using(cb_block::proofs::Appends::appends))]
fn put_entry(entry: Inventory, out: &mut Vec<u8>) -> Result<(), Fault>
    ensures ok { OnOk result (out.new.items ≡ out.old.items ++ entry_text entry) }
    ensures err { OnErr result (Extends out.old.items out.new.items) }
    ensures memory { IsOkUnless result Memory }
    ensures full { OnErr result
        (vec_capacity out.old < vec_len out.old + length (entry_text entry)) }
    ensures capacity { vec_capacity out.old ≤ vec_capacity out.new }
    ensures kept { IsEntry entry }
{
    let kind = entry.kind();
    let hash = entry.hash();
    out.extend_from_slice(&kind.to_le_bytes())?;
    out.extend_from_slice(hash.0.as_slice())?;
    Ok(())
}

#[tactic(auto, unfolding(crate::specs::Lists::entry_text))]
fn entry_size(entry: Inventory) -> u64
    ensures size { result ≡ min (length (entry_text entry)) (2 ^ 64 - 1) }
    ensures kept { IsEntry entry }
{
    let hash = entry.hash();
    hash.0.as_slice().len() as u64 + 4
}

/// Reads a count of items that have at least `size` bytes each. Fails with `Fault::TooMany` if the
/// count is above `most`, else with `Fault::Truncated` if the items don't fit in the remaining
/// bytes, so that nothing is allocated for them. It also fails if the count itself can't be read
/// (`Cursor::compact`). After an error the cursor may stand anywhere.
#[tactic(auto, unfolding(crate::specs::Lists::limited_at))]
pub fn read_limited(cursor: &mut Cursor, most: usize, size: u32) -> Result<usize, Fault>
    ensures exact { Gives (limited_at most size cursor.old) result cursor.new }
    ensures few { IfOk result (λ count. count ≤ most) }
{
    let count = cursor.compact()?;
    if count > most as u64 {
        return Err(Fault::TooMany);
    }
    if (cursor.left() as u128) < u128::from(count) * u128::from(size) {
        return Err(Fault::Truncated);
    }
    Ok(count as usize)
}

/// Reads a list: a count, then at most `MOST` items. Used for `inv`, `getdata`, `notfound`,
/// `headers`, the locator of `getheaders` and the differences of `getblocktxn`.
///
/// Fails with `Fault::NotShortest` if the count, or a CompactSize within an item, isn't in its
/// shortest form; `Fault::TooMany` if the count is above `MOST`; `Fault::Truncated` if bytes are
/// missing, at once if the items don't fit in the remaining bytes at `LEAST` bytes each;
/// `Fault::BadBool` if the transaction count of a header isn't 0; `Fault::Memory` if an allocation
/// fails, but never for an empty list. After an error the cursor may stand anywhere.
#[tactic(auto, unfolding(crate::specs::Lists::listed_at))]
pub fn read_list<T: Coded, const MOST: usize>(
    alloc: Global,
    cursor: &mut Cursor,
) -> Result<Listed<T, MOST>, Fault>
    ensures exact { GivesInMemory (listed_at MOST T.LEAST T.item_at cursor.old) result cursor.new }
    // No memory is allocated before the count has been read.
    ensures unpaid { (fault : Fault) → limited_at MOST T.LEAST cursor.old ≡ Err fault →
        result ≡ Err fault }
    // A count of 0 allocates nothing.
    ensures paid { result ≡ Err Memory → CountsSome MOST T.LEAST cursor.old }
{
    let count = read_limited(cursor, MOST, T::LEAST)?;
    Ok(Listed::from_few(items_of(alloc, cursor, count)?))
}

/// The length of the count and the entries in bytes, at most 1,800,009.
pub fn entries_size(entries: &Entries) -> u64
    ensures size { result ≡ length (list_text entry_text entries.now) }
    ensures limit { result ≤ 1800009 }
{
    items_size(entries.as_slice())
}

/// The length of the count and the headers in bytes, at most 162,009.
pub fn headers_size(headers: &HeaderList) -> u64
    ensures size { result ≡ length (list_text listed_header_text headers.now) }
    ensures limit { result ≤ 162009 }
{
    items_size(headers.as_slice())
}

/// The length of the count and the hashes in bytes, at most 3,241.
pub fn locator_size(locator: &Locator) -> u64
    ensures size { result ≡ length (list_text hash_text locator.now) }
    ensures limit { result ≤ 3241 }
{
    items_size(locator.as_slice())
}
