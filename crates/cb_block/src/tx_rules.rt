ghost use Rattle.std.specs.Prelude.{◌≡◌, ◌++◌, ℕ, List, ◌<◌, ◌≤◌, ◌⊎◌, ◌↔◌, pos, ◌<ℤ◌, length, Any, IfOk, IsOk, IsOkUnless, IsTrue, MatchOption, MatchResult, Err};
ghost use Rattle.std.specs.HashSet.{IsEmpty, hasher_of};
ghost use Rattle.cb_base.specs.Fault.{rule_number};
ghost use Rattle.cb_base.specs.declared.fault.Fault.TheVariants.{BadTx, Memory};
ghost use Rattle.cb_base.specs.declared.fault.TxRule.{TxRule};
ghost use Rattle.cb_base.specs.Seeding.{AreKeys, fixed_seed, seed_of_keys};
ghost use Rattle.cb_block.specs.TxRules.{HasBadScript, IsCoinbase, IsLeastBroken, IsNull, IsOutsideMoney, MeetsFirst, MeetsRules, SpendsTwice, value_sum};
ghost use Rattle.cb_block.specs.TxText.{point_text, points_text};

use crate::tx::{OutPoint, Tx, TxIn, TxOut};
use cb_base::{Fault, Hash256, Keys, Seed, TxRule};
use std::alloc::Global;
use std::collections::HashSet;

/// The most money that can exist, in satoshis: 21 million bitcoins.
const MAX_MONEY: i64 = 2_100_000_000_000_000;

/// Whether this is the null outpoint: txid zero and index ffffffff.
fn is_null(prev: &OutPoint) -> bool
    ensures { IsTrue result ↔ IsNull prev.now }
{
    prev.index == 0xffff_ffff && prev.txid == Hash256([0; 32])
}

impl Tx {
    /// Whether it is a coinbase: it has exactly one input, and that has the null outpoint (txid
    /// zero, index ffffffff).
    pub fn is_coinbase(&self) -> bool
        ensures { IsTrue result ↔ IsCoinbase self.now }
    {
        match self.inputs.as_slice() {
            [only] => is_null(&only.prev),
            _ => false,
        }
    }
}

fn has_bad_value(outputs: &[TxOut]) -> bool
    ensures { IsTrue result ↔ Any (λ output. IsOutsideMoney output.value) outputs.now }
{
    outputs
        .iter()
        .any(|output| output.value < 0 || output.value > MAX_MONEY)
}

fn has_bad_sum(outputs: &[TxOut]) -> bool
    ensures { IsTrue result ↔ (pos 2100000000000000 <ℤ value_sum outputs.now) }
{
    let mut sum = 0i128;
    for output in outputs {
        sum += i128::from(output.value);
    }
    sum > i128::from(MAX_MONEY)
}

/// Up to this number of inputs a table of them has the fixed seed. Even if they all collide, their
/// lookups cost less than a seed that is made of them.
const FEW_INPUTS: usize = 64;

/// The seed for a table of the outputs that these inputs spend: that of all of them, so that a
/// sender can't choose outputs that collide. Up to 64 inputs have the fixed seed.
fn seed_for(inputs: &[TxIn]) -> Seed
    ensures few { length inputs.now ≤ 64 → result ≡ fixed_seed }
    ensures many { 64 < length inputs.now → result ≡ seed_of_keys (points_text inputs.now) }
{
    if inputs.len() <= FEW_INPUTS {
        return Seed::fixed();
    }
    seed_of_points(inputs)
}

/// Adds an outpoint to the keys.
fn add_point(keys: &mut Keys, point: OutPoint)
    ensures { (text : List ℕ) → AreKeys keys.old text →
        AreKeys keys.new (text ++ point_text point) }
{
    keys.add(point.txid.0.as_slice());
    keys.add(point.index.to_le_bytes().as_slice());
}

/// The seed that is made of all outputs which these inputs spend.
fn seed_of_points(inputs: &[TxIn]) -> Seed
    ensures { result ≡ seed_of_keys (points_text inputs.now) }
{
    let mut keys = Keys::new();
    for input in inputs {
        add_point(&mut keys, input.prev);
    }
    keys.seed()
}

/// Whether two inputs spend the same output. The set is empty, and notes what is seen. Its seed is
/// that of all outputs which the inputs spend. No result shows the seed, so it is fixed here.
fn repeats_in(spent: HashSet<OutPoint, Seed>, inputs: &[TxIn]) -> Result<bool, Fault>
    requires empty { IsEmpty spent }
    requires seed { 64 < length inputs.now →
        hasher_of spent ≡ seed_of_keys (points_text inputs.now) }
    ensures ok { IfOk result (λ twice. IsTrue twice ↔ SpendsTwice inputs.now) }
    ensures memory { IsOkUnless result Memory }
{
    let mut spent = spent;
    for input in inputs {
        if !spent.insert(input.prev)? {
            return Ok(true);
        }
    }
    Ok(false)
}

/// Whether two inputs spend the same output. Fewer than two inputs need no memory.
fn spends_twice(alloc: Global, inputs: &[TxIn]) -> Result<bool, Fault>
    ensures ok { IfOk result (λ twice. IsTrue twice ↔ SpendsTwice inputs.now) }
    ensures memory { IsOkUnless result Memory }
    ensures unpaid { length inputs.now < 2 → IsOk result }
{
    if inputs.len() < 2 {
        return Ok(false);
    }
    let spent = HashSet::with_capacity_and_hasher(alloc, inputs.len(), seed_for(inputs))?;
    repeats_in(spent, inputs)
}

/// Whether the script of the first input has fewer than 2 bytes or more than 100.
fn has_bad_script(inputs: &[TxIn]) -> bool
    ensures { IsTrue result ↔ HasBadScript inputs.now }
{
    match inputs {
        [] => false,
        [first, ..] => first.script.len() < 2 || first.script.len() > 100,
    }
}

fn has_null(inputs: &[TxIn]) -> bool
    ensures { IsTrue result ↔ Any (λ input. IsNull input.prev) inputs.now }
{
    inputs.iter().any(|input| is_null(&input.prev))
}

/// The first of the rules 1 to 5 that the transaction breaks.
fn broken_size_or_value(tx: &Tx) -> Option<TxRule>
    ensures { MatchOption result (MeetsFirst tx.now)
        (λ rule. (rule_number rule < 6) × IsLeastBroken tx.now rule) }
{
    if tx.inputs.as_slice().is_empty() {
        return Some(TxRule::NoInputs);
    }
    if tx.outputs.as_slice().is_empty() {
        return Some(TxRule::NoOutputs);
    }
    if tx.size() > 1_000_000 {
        return Some(TxRule::TooLong);
    }
    if has_bad_value(tx.outputs.as_slice()) {
        return Some(TxRule::BadValue);
    }
    has_bad_sum(tx.outputs.as_slice()).then_some(TxRule::BadSum)
}

/// The one of the rules 7 and 8 that the transaction breaks, if it meets all others.
fn broken_coinbase(tx: &Tx) -> Option<TxRule>
    requires first { MeetsFirst tx.now }
    requires once { ¬ SpendsTwice tx.now.inputs }
    ensures { MatchOption result (MeetsRules tx.now) (λ rule. IsLeastBroken tx.now rule) }
{
    let inputs = tx.inputs.as_slice();
    if tx.is_coinbase() {
        return has_bad_script(inputs).then_some(TxRule::BadCoinbaseScript);
    }
    has_null(inputs).then_some(TxRule::NullInput)
}

/// Checks the rules that a transaction must meet by itself (`TxRule`; Bitcoin Core's
/// `CheckTransaction`).
///
/// Fails with `Fault::BadTx` and the first rule that is broken. Fails with `Fault::Memory` only if
/// the first five rules are met, there are two inputs or more, and memory runs out for the set of
/// outputs that they spend.
pub fn check_tx(alloc: Global, tx: &Tx) -> Result<(), Fault>
    ensures exact { MatchResult result (λ _. MeetsRules tx.now)
        (λ fault. (fault ≡ Memory)
        ⊎ ((rule : TxRule) × (fault ≡ BadTx rule) × IsLeastBroken tx.now rule)) }
    // The first five rules are checked without allocating.
    ensures unpaid { (rule : TxRule) → rule_number rule < 6 → IsLeastBroken tx.now rule →
        result ≡ Err (BadTx rule) }
    // So is the sixth, if there is only one input.
    ensures paid { result ≡ Err Memory → MeetsFirst tx.now × (2 ≤ length tx.now.inputs) }
{
    if let Some(rule) = broken_size_or_value(tx) {
        return Err(Fault::BadTx(rule));
    }
    if spends_twice(alloc, tx.inputs.as_slice())? {
        return Err(Fault::BadTx(TxRule::RepeatedInput));
    }
    match broken_coinbase(tx) {
        Some(rule) => Err(Fault::BadTx(rule)),
        None => Ok(()),
    }
}
