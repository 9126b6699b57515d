ghost use Rattle.std.specs.Prelude.{◌≡◌, ℕ, ◌<◌, ◌⊎◌, List, ◌++◌, slice_index, IfOk, IsOk, MatchResult, Ok, Err};
ghost use Rattle.cb_base.specs.declared.fault.Fault.{Fault};
ghost use Rattle.cb_base.specs.declared.fault.Fault.TheVariants.{Memory};
ghost use Rattle.cb_base.specs.CompactSize.{Gives};
ghost use Rattle.cb_base.specs.Reading.{ReadsInMemory};
ghost use Rattle.cb_block.specs.TxReading.{CountsSome, GivesInMemory, TakesMemory, count_at, first_count_at, hash_at, input_at, items_at, list_at, output_at, script_at, tx_at};
ghost use Rattle.cb_block.specs.TxText.{IsTx, tx_text};
ghost use Rattle.cb_block.specs.declared.tx.Tx.{Tx};

use crate::lists::read_items;
use crate::script::Script;
use crate::tx::{Inputs, OutPoint, Outputs, Tx, TxIn, TxOut};
use cb_base::{Cursor, Fault, Hash256, copy_bytes};
use std::alloc::Global;

/// Reads a script: its length, then its bytes.
#[tactic(auto, unfolding(crate::specs::TxReading::script_at))]
fn read_script(alloc: Global, cursor: &mut Cursor) -> Result<Script, Fault>
    ensures { GivesInMemory (script_at cursor.old) result cursor.new }
{
    let len = cursor.compact()?;
    let bytes = cursor.take(len as usize)?;
    Ok(Script::new(copy_bytes(alloc, bytes)?))
}

/// Reads a hash: the next 32 bytes. Fails with `Fault::Truncated` if fewer are left. After an error
/// the cursor may have advanced.
#[tactic(auto, unfolding(crate::specs::TxReading::hash_at))]
pub fn read_hash(cursor: &mut Cursor) -> Result<Hash256, Fault>
    ensures { Gives (hash_at cursor.old) result cursor.new }
{
    let bytes = cursor.take(32)?;
    let mut hash = [0u8; 32];
    hash.copy_from_slice(bytes);
    Ok(Hash256(hash))
}

#[tactic(auto, unfolding(crate::specs::TxReading::input_at))]
pub fn read_input(alloc: Global, cursor: &mut Cursor) -> Result<TxIn, Fault>
    ensures { GivesInMemory (input_at cursor.old) result cursor.new }
{
    let txid = read_hash(cursor)?;
    let index = cursor.u32()?;
    let script = read_script(alloc, cursor)?;
    let sequence = cursor.u32()?;
    let prev = OutPoint { txid, index };
    Ok(TxIn {
        prev,
        script,
        sequence,
    })
}

#[tactic(auto, unfolding(crate::specs::TxReading::output_at))]
pub fn read_output(alloc: Global, cursor: &mut Cursor) -> Result<TxOut, Fault>
    ensures { GivesInMemory (output_at cursor.old) result cursor.new }
{
    let value = cursor.i64()?;
    let script = read_script(alloc, cursor)?;
    Ok(TxOut { value, script })
}

/// Reads a transaction. After an error the cursor may have advanced.
#[tactic(auto, unfolding(crate::specs::TxReading::tx_at, crate::specs::TxReading::first_count_at))]
fn tx_or_fault(alloc: Global, cursor: &mut Cursor) -> Result<Tx, Fault>
    ensures exact { GivesInMemory (tx_at cursor.old) result cursor.new }
    ensures unpaid { (fault : Fault) → first_count_at cursor.old ≡ Err fault → result ≡ Err fault }
    ensures paid { result ≡ Err Memory → TakesMemory cursor.old }
{
    let version = cursor.i32()?;
    let inputs = read_items(alloc, cursor)?;
    let outputs = read_items(alloc, cursor)?;
    let lock_time = cursor.u32()?;
    Ok(Tx {
        version,
        inputs: Inputs::new(inputs),
        outputs: Outputs::new(outputs),
        lock_time,
    })
}

/// Decodes the transaction at the front. Returns it with a cursor at the bytes after it.
fn tx_of(alloc: Global, bytes: &[u8]) -> Result<(Tx, Cursor<'_>), Fault>
    ensures exact { MatchResult result (λ read. tx_at bytes.now ≡ Ok (read.0, read.1))
        (λ fault. (fault ≡ Memory) ⊎ (tx_at bytes.now ≡ Err fault)) }
    ensures unpaid { (fault : Fault) → first_count_at bytes.now ≡ Err fault → result ≡ Err fault }
    ensures paid { result ≡ Err Memory → TakesMemory bytes.now }
    ensures bytes { (i : ℕ) → slice_index bytes.now i < 256 }
{
    let mut cursor = Cursor::new(bytes);
    let tx = tx_or_fault(alloc, &mut cursor)?;
    Ok((tx, cursor))
}

/// Reads a transaction in Bitcoin's serialisation, without the marker, flag and witnesses of BIP
/// 141.
///
/// Fails at the first field from the left that can't be read: with `Fault::Truncated` if bytes are
/// missing, with `Fault::NotShortest` if a count or a length isn't in its shortest encoding. A
/// count of inputs or outputs that can't fit in the bytes left fails with `Fault::Truncated` before
/// memory is allocated for it. `Fault::Memory` is possible only after a count above 0. A failed
/// read leaves the cursor where it was.
pub fn read_tx<'a>(alloc: Global, cursor: &mut Cursor<'a>) -> Result<Tx, Fault>
    ensures exact { ReadsInMemory (tx_at cursor.old) cursor.old result cursor.new }
    // On success, the bytes began with the transaction's serialisation.
    ensures found { IfOk result (λ tx. IsTx tx × (cursor.old ≡ tx_text tx ++ cursor.new)) }
    // The serialisation of any transaction is read, whatever bytes follow it, unless memory runs
    // out.
    ensures only { (tx : Tx) (rest : List ℕ) → IsTx tx → cursor.old ≡ tx_text tx ++ rest
        → (result ≡ Err Memory) ⊎ ((result ≡ Ok tx) × (cursor.new ≡ rest)) }
    // Nothing is allocated before the count of inputs is read.
    ensures unpaid { (fault : Fault) → first_count_at cursor.old ≡ Err fault → result ≡ Err fault }
    // Nothing is allocated for a count of 0. If there are no inputs, nothing is allocated either
    // for a count of outputs that can't be read.
    ensures paid { result ≡ Err Memory → TakesMemory cursor.old }
{
    let left = cursor.left();
    let bytes = cursor.take(left)?;
    match tx_of(alloc, bytes) {
        Ok((tx, rest)) => {
            *cursor = rest;
            Ok(tx)
        }
        Err(fault) => {
            *cursor = Cursor::new(bytes);
            Err(fault)
        }
    }
}
