ghost use Rattle.std.specs.Prelude.{◌≡◌, ◌⊎◌, ◌<◌, ◌↔◌, ◌^◌, length, Any, Err, IsTrue, MatchOption, Ok, ⊤, if◌then◌else◌};
ghost use Rattle.cb_base.specs.declared.fault.Fault.TheVariants.{NoInput, Overspent, Remade};
ghost use Rattle.cb_block.specs.TxRules.{SpendsTwice};
ghost use Rattle.cb_ledger.specs.Spend.{make_outputs as outputs_made, spend_inputs as inputs_spent, spend_tx};
ghost use Rattle.cb_ledger.specs.Undo.{changed, changes_of};
ghost use Rattle.cb_pool.specs.Leaving.{after_tx, with_outputs, without_inputs};
ghost use Rattle.cb_pool.specs.Rules.{StandsAlone};
ghost use Rattle.cb_block.specs.Txid.{txid_of};

use crate::coins::value_of;
use cb_base::{Fault, Hash256, Seed};
use cb_block::{OutPoint, Tx, TxIn, TxOut};
use cb_ledger::{Ledger, sum_of};
use std::collections::HashMap;

/// The sum of the values that the inputs spend, or `None` if one of the outputs isn't unspent. The
/// inputs must spend different outputs. The UTXO set is `ledger` with the changes `coins`.
fn worth(
    coins: &HashMap<OutPoint, Option<i64>, Seed>,
    ledger: &Ledger,
    inputs: &[TxIn],
) -> Option<i128>
    requires { ¬ SpendsTwice inputs.now }
    ensures { MatchOption result
        (inputs_spent (changed ledger.now.unspent (changes_of coins.now.entries)) inputs.now
        ≡ Err NoInput)
        (λ sum. inputs_spent (changed ledger.now.unspent (changes_of coins.now.entries)) inputs.now
        ≡ Ok (
          sum,
          without_inputs
              (changed ledger.now.unspent (changes_of coins.now.entries)) inputs.now,
        )) }
{
    let mut sum = 0i128;
    for input in inputs {
        match value_of(coins, ledger, &input.prev) {
            Some(value) => sum += i128::from(value),
            None => return None,
        }
    }
    Some(sum)
}

/// Whether one of the inputs spends the output.
fn is_spent_by(inputs: &[TxIn], point: &OutPoint) -> bool
    ensures { IsTrue result ↔ Any (λ input. input.prev ≡ point.now) inputs.now }
{
    inputs.iter().any(|input| input.prev == *point)
}

/// Whether one of the transaction's outputs is already unspent once its inputs are spent.
fn is_remade(
    coins: &HashMap<OutPoint, Option<i64>, Seed>,
    ledger: &Ledger,
    txid: Hash256,
    inputs: &[TxIn],
    outputs: &[TxOut],
) -> bool
    requires { length outputs.now < 2 ^ 32 }
    ensures { outputs_made
        (without_inputs
        (changed ledger.now.unspent (changes_of coins.now.entries)) inputs.now) txid 0 outputs.now
        ≡ (if result then Err Remade else Ok
        (with_outputs
        (without_inputs
        (changed ledger.now.unspent
        (changes_of coins.now.entries)) inputs.now) txid 0 outputs.now)) }
{
    let mut index = 0u32;
    for output in outputs {
        let point = OutPoint { txid, index };
        if value_of(coins, ledger, &point).is_some() && !is_spent_by(inputs, &point) {
            return true;
        }
        index += 1;
    }
    false
}

/// The first reason why the transaction can't be spent over `ledger` with the changes `coins`:
/// `Fault::NoInput`, `Fault::Overspent` or `Fault::Remade`. `None` if it can be spent. Each input
/// and each output is looked up once, and nothing is allocated.
pub(crate) fn fault_over(
    coins: &HashMap<OutPoint, Option<i64>, Seed>,
    ledger: &Ledger,
    txid: Hash256,
    tx: &Tx,
) -> Option<Fault>
    requires name { txid ≡ txid_of tx.now }
    requires alone { StandsAlone tx.now }
    ensures exact { MatchOption result
        (spend_tx (changed ledger.now.unspent (changes_of coins.now.entries)) tx.now
        ≡ Ok (after_tx (changed ledger.now.unspent (changes_of coins.now.entries)) tx.now))
        (λ fault. spend_tx (changed ledger.now.unspent (changes_of coins.now.entries)) tx.now
        ≡ Err fault) }
    ensures named { MatchOption result ⊤
        (λ fault. (fault ≡ NoInput) ⊎ ((fault ≡ Overspent) ⊎ (fault ≡ Remade))) }
{
    let (inputs, outputs) = (tx.inputs.as_slice(), tx.outputs.as_slice());
    let Some(sum) = worth(coins, ledger, inputs) else {
        return Some(Fault::NoInput);
    };
    if sum < sum_of(outputs) {
        return Some(Fault::Overspent);
    }
    is_remade(coins, ledger, txid, inputs, outputs).then_some(Fault::Remade)
}
