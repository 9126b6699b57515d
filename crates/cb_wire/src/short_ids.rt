//! Reading and writing lists of short ids (BIP 152): a count, then 6 bytes for each, little-endian.
ghost use Rattle.std.specs.Prelude.{◌≡◌, ℕ, ◌-◌, ◌^◌, ◌<◌, List, ◌++◌, length, min, All, IfOk, IsOk, IsOkUnless, MatchResult, OnErr, OnOk, Ok, Err, ◌⊎◌};
ghost use Rattle.cb_base.specs.CompactSize.{Gives};
ghost use Rattle.cb_base.specs.declared.fault.Fault.{Fault};
ghost use Rattle.cb_base.specs.declared.fault.Fault.TheVariants.{Memory};
ghost use Rattle.cb_block.specs.TxReading.{CountsSome, count_at, items_at, list_at};
ghost use Rattle.cb_block.specs.TxText.{list_text};
ghost use Rattle.cb_wire.specs.ShortForms.{IsShortId, short_id_at, short_id_text};
ghost use Rattle.cb_block.specs.TxWriting.{Extends};

use cb_base::{Cursor, Fault, put_compact};
use cb_block::{compact_size, read_count};
use std::alloc::Global;

#[tactic(auto, unfolding(crate::specs::ShortForms::short_id_at))]
fn read_short_id(cursor: &mut Cursor) -> Result<u64, Fault>
    ensures exact { Gives (short_id_at cursor.old) result cursor.new }
    ensures low { IfOk result IsShortId }
{
    let bytes = cursor.take(6)?;
    Ok(u64::from_le_bytes([
        bytes[0], bytes[1], bytes[2], bytes[3], bytes[4], bytes[5], 0, 0,
    ]))
}

/// Reads `count` short ids.
fn ids_of(alloc: Global, cursor: &mut Cursor, count: usize) -> Result<Vec<u64>, Fault>
    ensures exact { MatchResult result
        (λ ids. items_at short_id_at count cursor.old ≡ Ok (ids.items, cursor.new))
        (λ fault. (fault ≡ Memory) ⊎ (items_at short_id_at count cursor.old ≡ Err fault)) }
    ensures low { IfOk result (λ ids. All IsShortId ids.items) }
    ensures unpaid { count ≡ 0 → IsOk result }
{
    let mut ids = Vec::with_capacity(alloc, count)?;
    for _ in 0..count {
        ids.push(read_short_id(cursor)?)?;
    }
    Ok(ids)
}

/// Reads a count and that many short ids. Fails with `Fault::Truncated` at once if they don't fit
/// in the remaining bytes, with the fault of the count if it can't be read (`read_count`), or with
/// `Fault::Memory`. After an error the cursor may stand anywhere.
#[tactic(auto, unfolding(cb_block::specs::TxReading::list_at))]
pub fn read_ids(alloc: Global, cursor: &mut Cursor) -> Result<Vec<u64>, Fault>
    ensures exact { MatchResult result
        (λ ids. list_at 6 short_id_at cursor.old ≡ Ok (ids.items, cursor.new))
        (λ fault. (fault ≡ Memory) ⊎ (list_at 6 short_id_at cursor.old ≡ Err fault)) }
    ensures low { IfOk result (λ ids. All IsShortId ids.items) }
    ensures unpaid { (fault : Fault) → count_at 6 cursor.old ≡ Err fault → result ≡ Err fault }
    ensures paid { result ≡ Err Memory → CountsSome 6 cursor.old }
{
    let count = read_count(cursor, 6)?;
    ids_of(alloc, cursor, count)
}

/// Appends the count and the short ids to `out`. Fails only with `Fault::Memory`; `out` may then
/// end with a part of them, behind what it had.
#[tactic(auto, unfolding(cb_block::specs::TxText::list_text), using(cb_block::proofs::Appends::appends))]
pub fn put_ids(out: &mut Vec<u8>, ids: &[u64]) -> Result<(), Fault>
    ensures ok { OnOk result (out.new.items ≡ out.old.items ++ list_text short_id_text ids.now) }
    ensures err { OnErr result (Extends out.old.items out.new.items) }
    ensures memory { IsOkUnless result Memory }
{
    put_compact(out, ids.len() as u64)?;
    for id in ids {
        let bytes = id.to_le_bytes();
        let (six, _) = bytes.split_at(6);
        out.extend_from_slice(six)?;
    }
    Ok(())
}

/// The length of the count and the short ids in bytes, or 2^64 - 1 if it is longer.
pub fn ids_size(ids: &[u64]) -> u64
    ensures { result ≡ min (length (list_text short_id_text ids.now)) (2 ^ 64 - 1) }
{
    let count = ids.len() as u64;
    compact_size(count).saturating_add(count.saturating_mul(6))
}
