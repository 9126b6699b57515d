ghost use Rattle.std.specs.Prelude.{◌≡◌, ◌+◌, ◌<◌, ◌≤◌, ◌^◌, length};
ghost use Rattle.std.specs.FinMap as map;
ghost use Rattle.std.specs.HashMap.{spare};
ghost use Rattle.cb_ledger.specs.Undo.{changed, changes_of};
ghost use Rattle.cb_ledger.specs.Unspent.{Unspent};
ghost use Rattle.cb_pool.specs.Leaving.{with_outputs, without_inputs};

use cb_base::{Hash256, Seed};
use cb_block::{OutPoint, TxIn, TxOut};
use cb_ledger::Ledger;
use std::collections::HashMap;

/// The value of an output in `ledger` with the changes `coins`, or `None` if it isn't unspent
/// there.
pub(crate) fn value_of(
    coins: &HashMap<OutPoint, Option<i64>, Seed>,
    ledger: &Ledger,
    point: &OutPoint,
) -> Option<i64>
    ensures { result ≡ map.get
        (changed ledger.now.unspent (changes_of coins.now.entries)) point.now }
{
    match coins.get(point).copied() {
        Some(value) => value,
        None => ledger.value(point),
    }
}

/// Notes in `coins` that the outputs named by the inputs are spent. There must be room for each of
/// them.
pub(crate) fn spend_outputs(coins: &mut HashMap<OutPoint, Option<i64>, Seed>, inputs: &[TxIn])
    requires { length inputs.now ≤ spare coins.old }
    ensures after { (u : Unspent) →
        changed u (changes_of coins.new.entries)
        ≡ without_inputs (changed u (changes_of coins.old.entries)) inputs.now }
    ensures room { spare coins.old ≤ spare coins.new + length inputs.now }
{
    for input in inputs {
        let had: Result<_, _> = coins.insert(input.prev, None);
        had.unwrap();
    }
}

/// Notes in `coins` that the outputs of a transaction are unspent. There must be room for each of
/// them.
pub(crate) fn make_outputs(
    coins: &mut HashMap<OutPoint, Option<i64>, Seed>,
    txid: Hash256,
    outputs: &[TxOut],
)
    requires few { length outputs.now < 2 ^ 32 }
    requires room { length outputs.now ≤ spare coins.old }
    ensures after { (u : Unspent) →
        changed u (changes_of coins.new.entries)
        ≡ with_outputs (changed u (changes_of coins.old.entries)) txid 0 outputs.now }
    ensures room { spare coins.old ≤ spare coins.new + length outputs.now }
{
    let mut index = 0u32;
    for output in outputs {
        let point = OutPoint { txid, index };
        let had: Result<_, _> = coins.insert(point, Some(output.value));
        had.unwrap();
        index += 1;
    }
}
