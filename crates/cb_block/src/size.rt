ghost use Rattle.std.specs.Prelude.{◌≡◌, ◌-◌, ◌^◌, ◌<◌, ◌==◌, length, min};
ghost use Rattle.cb_base.specs.CompactSize.{compact_text};
ghost use Rattle.cb_block.specs.TxText.{IsInput, IsOutput, IsTx, input_text, list_text, output_text, script_text, tx_text};

use crate::lists::items_size;
use crate::script::Script;
use crate::tx::{Tx, TxIn, TxOut};

/// The length of the CompactSize of a number: 1, 3, 5 or 9 bytes.
#[tactic(auto, unfolding(cb_base::specs::CompactSize::compact_text))]
pub fn compact_size(number: u64) -> u64
    ensures { result ≡ length (compact_text number) }
{
    match number {
        0..253 => 1,
        253..0x1_0000 => 3,
        0x1_0000..0x1_0000_0000 => 5,
        _ => 9,
    }
}

#[tactic(auto, unfolding(crate::specs::TxText::script_text))]
fn script_size(script: &Script) -> u64
    ensures size { result ≡ min (length (script_text script.now)) (2 ^ 64 - 1) }
    ensures fits { length script.now < 2 ^ 64 }
{
    let len = script.len() as u64;
    compact_size(len).saturating_add(len)
}

#[tactic(auto, unfolding(crate::specs::TxText::input_text))]
pub fn input_size(input: &TxIn) -> u64
    ensures size { result ≡ min (length (input_text input.now)) (2 ^ 64 - 1) }
    ensures fits { IsInput input.now }
{
    // No effect when it runs: it tells the prover that the numbers fit their fields.
    let _index = input.prev.index;
    let _sequence = input.sequence;
    let txid = input.prev.txid.bytes().len() as u64;
    script_size(&input.script)
        .saturating_add(8)
        .saturating_add(txid)
}

#[tactic(auto, unfolding(crate::specs::TxText::output_text))]
pub fn output_size(output: &TxOut) -> u64
    ensures size { result ≡ min (length (output_text output.now)) (2 ^ 64 - 1) }
    ensures fits { IsOutput output.now }
{
    // No effect when it runs: it tells the prover that the number fits its field.
    let _value = output.value;
    script_size(&output.script).saturating_add(8)
}

#[tactic(auto, unfolding(crate::specs::TxText::tx_text))]
pub fn tx_size(tx: &Tx) -> u64
    ensures size { result ≡ min (length (tx_text tx.now)) (2 ^ 64 - 1) }
    ensures fits { IsTx tx.now }
{
    // No effect when it runs: it tells the prover that the numbers fit their fields.
    let _version = tx.version;
    let _lock_time = tx.lock_time;
    let inputs = items_size(tx.inputs.as_slice());
    let outputs = items_size(tx.outputs.as_slice());
    inputs.saturating_add(outputs).saturating_add(8)
}

impl Tx {
    /// The length of its serialisation in bytes, or 2^64 - 1 if it is longer than that.
    pub fn size(&self) -> u64
        ensures { result ≡ min (length (tx_text self.now)) (2 ^ 64 - 1) }
    {
        tx_size(self)
    }
}
