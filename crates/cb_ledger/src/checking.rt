ghost use Rattle.std.specs.Prelude.{◌≡◌, ◌≢◌, ◌⊎◌, ◌<◌, ◌^◌, [], length, All, Err, IfOk};
ghost use Rattle.cb_base.specs.declared.fault.Fault.TheVariants.{Memory};
ghost use Rattle.cb_base.specs.DoubleHash.{double_hash};
ghost use Rattle.cb_block.specs.TxRules.{value_sum};
ghost use Rattle.cb_block.specs.TxText.{tx_text};
ghost use Rattle.cb_block.specs.Blocks.{texts};
ghost use Rattle.cb_block.specs.Soundness.{names};
ghost use Rattle.cb_ledger.specs.Spend.{make_outputs as outputs_made, spend, spend_inputs as inputs_spent, spend_tx as tx_spent, Tells};
ghost use Rattle.cb_ledger.specs.Touched.{MakesFirst, SpendsFirst, Touches, TouchesOne};
ghost use Rattle.cb_ledger.specs.Undo.{changed};

use crate::base::Base;
use crate::overlay::Overlay;
use crate::undo::Undo;
use cb_base::{Fault, Hash256, Shared};
use cb_block::{OutPoint, SoundBlock, Tx, TxIn, TxOut};
use std::alloc::Global;

/// The sum of the values of outputs, in satoshis.
pub fn sum_of(outputs: &[TxOut]) -> i128
    ensures { result ≡ value_sum outputs.now }
{
    let mut sum = 0i128;
    for output in outputs {
        sum += i128::from(output.value);
    }
    sum
}

/// Spends the inputs in order. Returns the sum of their values.
fn spend_inputs(base: &Base<'_>, draft: &mut Overlay, inputs: &[TxIn]) -> Result<i128, Fault>
    ensures told { Tells (inputs_spent (changed base.now draft.old) inputs.now)
        (λ sum. (sum, changed base.now draft.new)) result }
    ensures unpaid { SpendsFirst (changed base.now draft.old) inputs.now
        ⊎ ((draft.new ≡ draft.old) × (result ≢ Err Memory)) }
{
    let mut sum = 0i128;
    for input in inputs {
        match draft.value(base, &input.prev) {
            Some(value) => {
                draft.note(input.prev, None)?;
                sum += i128::from(value);
            }
            None => return Err(Fault::NoInput),
        }
    }
    Ok(sum)
}

/// Creates the outputs in order.
fn make_outputs(
    base: &Base<'_>,
    draft: &mut Overlay,
    txid: Hash256,
    outputs: &[TxOut],
) -> Result<(), Fault>
    requires { length outputs.now < 2 ^ 32 }
    ensures told { Tells (outputs_made (changed base.now draft.old) txid 0 outputs.now)
        (λ _. changed base.now draft.new) result }
    ensures unpaid { MakesFirst (changed base.now draft.old) txid outputs.now
        ⊎ ((draft.new ≡ draft.old) × (result ≢ Err Memory)) }
{
    let mut index = 0u32;
    for output in outputs {
        let point = OutPoint { txid, index };
        if draft.value(base, &point).is_some() {
            return Err(Fault::Remade);
        }
        draft.note(point, Some(output.value))?;
        index += 1;
    }
    Ok(())
}

/// Spends a transaction's inputs, unless it is a coinbase, and creates its outputs.
fn spend_tx(base: &Base<'_>, draft: &mut Overlay, txid: Hash256, tx: &Tx) -> Result<(), Fault>
    requires name { txid ≡ double_hash (tx_text tx.now) }
    requires few { length tx.now.outputs < 2 ^ 32 }
    ensures told { Tells (tx_spent (changed base.now draft.old) tx.now)
        (λ _. changed base.now draft.new) result }
    ensures unpaid { TouchesOne (changed base.now draft.old) tx.now
        ⊎ ((draft.new ≡ draft.old) × (result ≢ Err Memory)) }
{
    let outputs = tx.outputs.as_slice();
    if tx.is_coinbase() {
        return make_outputs(base, draft, txid, outputs);
    }
    let spent = spend_inputs(base, draft, tx.inputs.as_slice())?;
    if spent < sum_of(outputs) {
        return Err(Fault::Overspent);
    }
    make_outputs(base, draft, txid, outputs)
}

/// Applies the transactions in order: notes in the draft what they change over the base. Fails with
/// the first fault.
fn spend_txs(
    base: &Base<'_>,
    draft: &mut Overlay,
    txs: &[Shared<Tx>],
    txids: &[Hash256],
) -> Result<(), Fault>
    requires named { txids.now ≡ names (texts txs.now) }
    requires few { All (λ tx. length tx.outputs < 2 ^ 32) txs.now }
    ensures told { Tells (spend (changed base.now draft.old) txs.now)
        (λ _. changed base.now draft.new) result }
    ensures unpaid { Touches (changed base.now draft.old) txs.now
        ⊎ ((draft.new ≡ draft.old) × (result ≢ Err Memory)) }
{
    for place in 0..txs.len() {
        spend_tx(base, draft, txids[place], &txs[place])?;
    }
    Ok(())
}

/// What a block changes over the base, or its first fault. The base stays as it is.
pub(crate) fn changes_over(
    alloc: Global,
    base: &Base<'_>,
    block: &SoundBlock,
) -> Result<Undo, Fault>
    requires { All (λ tx. length tx.outputs < 2 ^ 32) block.now.txs }
    ensures told { Tells (spend base.now block.now.txs)
        (λ changes. changed base.now changes) result }
    ensures unpaid { Touches base.now block.now.txs
        ⊎ (IfOk result (λ changes. changes ≡ []) × (result ≢ Err Memory)) }
{
    let mut draft = Overlay::with_seed(alloc, base.seed());
    let txs = block.block().txs.as_slice();
    spend_txs(base, &mut draft, txs, block.txids())?;
    draft.into_undo(alloc)
}
