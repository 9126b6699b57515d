ghost use Rattle.std.specs.Prelude.{◌≡◌, ◌≢◌, ℕ, ◌+◌, ◌^◌, ◌<◌, ◌≤◌, List, [], ◌++◌, length, min, All, Err, OnOk, OnErr, IfOk, IsOkUnless, vec_capacity, vec_len};
ghost use Rattle.cb_base.specs.declared.fault.Fault.TheVariants.{Memory, Truncated};
ghost use Rattle.cb_base.specs.DoubleHash.{double_hash};
ghost use Rattle.cb_block.specs.TxReading.{tx_at};
ghost use Rattle.cb_block.specs.TxText.{IsInput, IsOutput, IsTx, input_text, list_text, output_text, script_text, tx_text};
ghost use Rattle.cb_block.specs.TxWriting.{Extends};
ghost use Rattle.cb_block.specs.declared.tx.Tx.{Tx};

use crate::lists::put_items;
use crate::script::Script;
use crate::tx::{Tx, TxIn, TxOut};
use cb_base::{Fault, Hash256, dsha, put_compact};
use std::alloc::Global;

#[tactic(auto, unfolding(crate::specs::TxText::script_text), using(crate::proofs::Appends::appends))]
fn put_script(out: &mut Vec<u8>, script: &Script) -> Result<(), Fault>
    ensures ok { OnOk result (out.new.items ≡ out.old.items ++ script_text script.now) }
    ensures err { OnErr result (Extends out.old.items out.new.items) }
    ensures memory { IsOkUnless result Memory }
    ensures full { OnErr result
        (vec_capacity out.old < vec_len out.old + length (script_text script.now)) }
    ensures capacity { vec_capacity out.old ≤ vec_capacity out.new }
    ensures fits { length script.now < 2 ^ 64 }
{
    put_compact(out, script.len() as u64)?;
    out.extend_from_slice(script.as_slice())?;
    Ok(())
}

#[tactic(auto, unfolding(crate::specs::TxText::input_text), using(crate::proofs::Appends::appends))]
pub fn put_input(out: &mut Vec<u8>, input: &TxIn) -> Result<(), Fault>
    ensures ok { OnOk result (out.new.items ≡ out.old.items ++ input_text input.now) }
    ensures err { OnErr result (Extends out.old.items out.new.items) }
    ensures memory { IsOkUnless result Memory }
    ensures full { OnErr result
        (vec_capacity out.old < vec_len out.old + length (input_text input.now)) }
    ensures capacity { vec_capacity out.old ≤ vec_capacity out.new }
    ensures fits { OnOk result (IsInput input.now) }
{
    out.extend_from_slice(input.prev.txid.bytes())?;
    out.extend_from_slice(&input.prev.index.to_le_bytes())?;
    put_script(out, &input.script)?;
    out.extend_from_slice(&input.sequence.to_le_bytes())?;
    Ok(())
}

#[tactic(auto, unfolding(crate::specs::TxText::output_text), using(crate::proofs::Appends::appends))]
pub fn put_output(out: &mut Vec<u8>, output: &TxOut) -> Result<(), Fault>
    ensures ok { OnOk result (out.new.items ≡ out.old.items ++ output_text output.now) }
    ensures err { OnErr result (Extends out.old.items out.new.items) }
    ensures memory { IsOkUnless result Memory }
    ensures full { OnErr result
        (vec_capacity out.old < vec_len out.old + length (output_text output.now)) }
    ensures capacity { vec_capacity out.old ≤ vec_capacity out.new }
    ensures fits { OnOk result (IsOutput output.now) }
{
    out.extend_from_slice(&output.value.to_le_bytes())?;
    put_script(out, &output.script)
}

#[tactic(auto, unfolding(crate::specs::TxText::tx_text), using(crate::proofs::Appends::appends))]
pub fn put_tx(out: &mut Vec<u8>, tx: &Tx) -> Result<(), Fault>
    ensures ok { OnOk result (out.new.items ≡ out.old.items ++ tx_text tx.now) }
    ensures err { OnErr result (Extends out.old.items out.new.items) }
    ensures memory { IsOkUnless result Memory }
    ensures full { OnErr result (vec_capacity out.old < vec_len out.old + length (tx_text tx.now)) }
    ensures capacity { vec_capacity out.old ≤ vec_capacity out.new }
    ensures fits { OnOk result (IsTx tx.now) }
{
    out.extend_from_slice(&tx.version.to_le_bytes())?;
    put_items(out, tx.inputs.as_slice())?;
    put_items(out, tx.outputs.as_slice())?;
    out.extend_from_slice(&tx.lock_time.to_le_bytes())?;
    Ok(())
}

/// Appends the transaction's serialisation to `out`.
///
/// Fails only with `Fault::Memory`. `out` then has the bytes it had.
pub fn write_tx(out: &mut Vec<u8>, tx: &Tx) -> Result<(), Fault>
    ensures ok { OnOk result (out.new.items ≡ out.old.items ++ tx_text tx.now) }
    ensures err { OnErr result (out.new.items ≡ out.old.items) }
    ensures memory { IsOkUnless result Memory }
    // It fails only if the free capacity is smaller than the serialisation.
    ensures full { OnErr result (vec_capacity out.old < vec_len out.old + length (tx_text tx.now)) }
    ensures capacity { vec_capacity out.old ≤ vec_capacity out.new }
    // On success, each number fits its field and each hash has 32 bytes.
    ensures fits { OnOk result (IsTx tx.now) }
{
    // With room for the whole serialisation, no append after this can fail.
    out.reserve(tx.size() as usize)?;
    put_tx(out, tx)
}

impl Tx {
    /// The txid: the double SHA-256 of the serialisation. Fails only with `Fault::Memory`.
    pub fn txid(&self, alloc: Global) -> Result<Hash256, Fault>
        ensures name { IfOk result (λ txid. txid ≡ double_hash (tx_text self.now)) }
        ensures memory { IsOkUnless result Memory }
    {
        let mut text = Vec::new(alloc);
        write_tx(&mut text, self)?;
        Ok(dsha(text.as_slice()))
    }
}

/// The serialisation is unique and prefix-free. If the serialisations of two transactions, each
/// followed by any bytes, are the same bytes, then the transactions are equal, and so are the bytes
/// that follow. The function does nothing: its contract is a theorem.
pub fn one_text()
    ensures { (a b : Tx) (x y : List ℕ) → IsTx a → IsTx b → tx_text a ++ x ≡ tx_text b ++ y →
        (a ≡ b) × (x ≡ y) }
{}

/// A strict prefix of a transaction's serialisation fails to read with `Fault::Truncated`. The
/// function does nothing: its contract is a theorem.
pub fn beginning_of_tx_is_truncated()
    ensures { (tx : Tx) (b c : List ℕ) → IsTx tx → tx_text tx ≡ b ++ c → c ≢ [] →
        tx_at b ≡ Err Truncated }
{}
