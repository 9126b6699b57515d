ghost use Rattle.std.specs.Prelude.{◌≡◌, ◌<◌, ◌^◌, ◌++◌, ◌∷◌, [], List, if◌then◌else◌, is_some, length, not, filter, true, IfOk, IfSome, IsOk, IsOkUnless, IsTrue, Ok, OnOk};
ghost use Rattle.std.specs.Map.{lookup};
ghost use Rattle.cb_base.specs.declared.fault.Fault.TheVariants.{Memory};
ghost use Rattle.cb_block.specs.declared.tx.OutPoint.{OutPoint};
ghost use Rattle.cb_block.specs.declared.tx.Tx.{Tx};
ghost use Rattle.cb_ledger.specs.Spend.{spend, spend_tx};
ghost use Rattle.cb_ledger.specs.Unspent.{Unspent};
ghost use Rattle.cb_pool.specs.Folding.{Refolds};
ghost use Rattle.cb_pool.specs.Listing.{txs_of};
ghost use Rattle.cb_block.specs.Txid.{txid_of};
ghost use Rattle.cb_pool.specs.Staying.{Agree, AreSpent, Covers, Fits, Moves, StaysOf, Tells, ThinsOut, Turned, is_gone, mark_at, same_point, staying};

use crate::candidate::Candidate;
use crate::coins::{make_outputs, spend_outputs};
use crate::marks::{OutputMark, OutputMarks};
use crate::members::{Members, Pooled};
use crate::pool::Pool;
use cb_base::{Fault, Hash256, Seed};
use cb_block::{OutPoint, SoundBlock, Tx};
use cb_ledger::Ledger;
use indexmap::IndexMap;
use std::alloc::Global;
use std::collections::{HashMap, HashSet};
use std::marker::Model;

/// A plan for thinning a pool out: taking out those that can't be spent once a block is connected.
/// Its size depends on what the block and those that leave touch, not on the pool. Contracts see
/// the marks, the txids of those that leave, and what those that stay change at the outputs with
/// marks.
#[derive(Drop)]
pub struct Thinning {
    marks: OutputMarks,
    gone: HashSet<Hash256, Seed>,
    coins: HashMap<OutPoint, Option<i64>, Seed>,
}

impl Model for Thinning {
    ghost use Rattle.cb_pool.specs.Staying.{Thin};

    ghost Value = { Thin };

    ghost view = { λ plan.
        record { marks = plan.marks; gone = plan.gone.keys; coins = plan.coins.entries } };
}

/// Notes what a transaction of a block spends. Fails only with `Fault::Memory`.
fn mark_spent(marks: &mut OutputMarks, tx: &Tx) -> Result<(), Fault>
    ensures spent { OnOk result (AreSpent tx.now.inputs marks.old marks.new) }
    ensures memory { IsOkUnless result Memory }
{
    if tx.is_coinbase() {
        return Ok(());
    }
    marks.put_inputs(tx.inputs.as_slice(), OutputMark::Gone)?;
    Ok(())
}

/// Notes what a transaction of a block changes in the new UTXO set. Fails only with
/// `Fault::Memory`.
fn mark_tx(marks: &mut OutputMarks, txid: Hash256, tx: &Tx) -> Result<(), Fault>
    requires name { txid ≡ txid_of tx.now }
    requires few { length tx.now.outputs < 2 ^ 32 }
    ensures tells { OnOk result ((was now next : Unspent) →
        spend_tx now tx.now ≡ Ok next → Tells marks.old was now → Tells marks.new was next) }
    ensures memory { IsOkUnless result Memory }
{
    mark_spent(marks, tx)?;
    marks.make(txid, tx.outputs.as_slice())?;
    Ok(())
}

/// Notes what a block changes in the new UTXO set. The answer is false if a transaction of the
/// block has more than 4,294,967,295 outputs; then the marks say nothing. Fails only with
/// `Fault::Memory`.
fn mark_block(marks: &mut OutputMarks, block: &SoundBlock) -> Result<bool, Fault>
    ensures tells { IfOk result (λ known. IsTrue known → (was now next : Unspent) →
        spend now block.now.txs ≡ Ok next → Tells marks.old was now → Tells marks.new was next) }
    ensures memory { IsOkUnless result Memory }
{
    for place in 0..block.block().txs.as_slice().len() {
        let (txid, tx) = (block.txids()[place], &block.block().txs.as_slice()[place]);
        if u32::try_from(tx.outputs.as_slice().len()).is_err() {
            return Ok(false);
        }
        mark_tx(marks, txid, tx)?;
    }
    Ok(true)
}

/// Notes that a transaction of the pool leaves. Fails only with `Fault::Memory`.
fn leave(marks: &mut OutputMarks, tx: &Candidate) -> Result<(), Fault>
    ensures moves { OnOk result (Moves tx.now marks.old marks.new) }
    ensures memory { IsOkUnless result Memory }
{
    marks.put_inputs(tx.tx().inputs.as_slice(), OutputMark::Unknown)?;
    marks.miss(tx.txid(), tx.tx().outputs.as_slice())?;
    Ok(())
}

/// The turn of one transaction of the pool, in order. The answer is false if the marks don't tell
/// whether it stays, as where a txid comes twice. Fails only with `Fault::Memory`.
fn turn(
    marks: &mut OutputMarks,
    gone: &mut HashSet<Hash256, Seed>,
    tx: &Candidate,
) -> Result<bool, Fault>
    ensures turned { IfOk result (λ known. IsTrue known →
        Turned tx.now marks.old marks.new gone.old.keys gone.new.keys) }
    ensures memory { IsOkUnless result Memory }
{
    let inputs = tx.tx().inputs.as_slice();
    if marks.keep(inputs) {
        return Ok(!marks.has_txid(&tx.txid()));
    }
    if !marks.lose(inputs) {
        return Ok(false);
    }
    gone.insert(tx.txid())?;
    leave(marks, tx)?;
    Ok(true)
}

/// The turns of all transactions of a pool. The answer is false if the marks don't tell which stay.
/// Fails only with `Fault::Memory`.
fn turn_all(
    members: &Members,
    marks: &mut OutputMarks,
    gone: &mut HashSet<Hash256, Seed>,
) -> Result<bool, Fault>
    requires none { gone.old.keys ≡ [] }
    ensures stay { IfOk result (λ known. IsTrue known → (was now : Unspent) →
        Tells marks.old was now → IsOk (spend was (txs_of members.now.list)) →
        StaysOf now members.now.list (staying gone.new.keys members.now.list)) }
    ensures agree { IfOk result (λ known. IsTrue known →
        Agree marks.new
        (txs_of members.now.list) (txs_of (staying gone.new.keys members.now.list))) }
    ensures memory { IsOkUnless result Memory }
{
    // No effect when it runs: it tells the prover what the type keeps.
    let _ = members.len();
    for pooled in members.entries.values() {
        if !turn(marks, gone, &pooled.tx)? {
            return Ok(false);
        }
    }
    Ok(true)
}

/// Notes in `coins` what a transaction that stays changes, if it touches an output with a mark.
/// Fails only with `Fault::Memory`.
fn note(
    coins: &mut HashMap<OutPoint, Option<i64>, Seed>,
    marks: &OutputMarks,
    tx: &Candidate,
) -> Result<(), Fault>
    ensures covers { OnOk result ((kept : List Tx) → Covers marks.now coins.old.entries kept
        → Covers marks.now coins.new.entries (kept ++ tx.now ∷ [])) }
    ensures memory { IsOkUnless result Memory }
{
    let (inputs, txid) = (tx.tx().inputs.as_slice(), tx.txid());
    if marks.pass(&txid, inputs) {
        return Ok(());
    }
    coins.reserve(tx.touched())?;
    spend_outputs(coins, inputs);
    make_outputs(coins, txid, tx.tx().outputs.as_slice());
    Ok(())
}

/// Notes in `coins` what a transaction of the pool changes, if it stays and touches an output with
/// a mark. Fails only with `Fault::Memory`.
fn note_pooled(
    coins: &mut HashMap<OutPoint, Option<i64>, Seed>,
    marks: &OutputMarks,
    gone: &HashSet<Hash256, Seed>,
    pooled: &Pooled,
) -> Result<(), Fault>
    ensures covers { OnOk result ((done : List Pooled) →
        Covers marks.now coins.old.entries (txs_of (staying gone.now.keys done)) →
        Covers marks.now coins.new.entries
        (txs_of (staying gone.now.keys (done ++ pooled.now ∷ [])))) }
    ensures memory { IsOkUnless result Memory }
{
    if gone.contains(&pooled.tx.txid()) {
        return Ok(());
    }
    note(coins, marks, &pooled.tx)?;
    Ok(())
}

/// Notes in `coins` what those that stay change at the outputs with marks. Fails only with
/// `Fault::Memory`.
fn note_all(
    coins: &mut HashMap<OutPoint, Option<i64>, Seed>,
    members: &Members,
    marks: &OutputMarks,
    gone: &HashSet<Hash256, Seed>,
) -> Result<(), Fault>
    requires none { coins.old.entries ≡ [] }
    ensures covers { OnOk result (Covers marks.now coins.new.entries
        (txs_of (staying gone.now.keys members.now.list))) }
    ensures memory { IsOkUnless result Memory }
{
    for pooled in members.entries.values() {
        note_pooled(coins, marks, gone, pooled)?;
    }
    Ok(())
}

/// Works an empty plan out. The answer is false if the marks don't tell which stay. Fails only with
/// `Fault::Memory`.
fn work_out(plan: &mut Thinning, members: &Members, block: &SoundBlock) -> Result<bool, Fault>
    requires marks { plan.old.marks ≡ [] }
    requires gone { plan.old.gone ≡ [] }
    requires coins { plan.old.coins ≡ [] }
    ensures thins { IfOk result (λ known. IsTrue known → (was now : Unspent) →
        IsOk (spend was (txs_of members.now.list)) → spend was block.now.txs ≡ Ok now →
        ThinsOut now plan.new members.now.list) }
    ensures memory { IsOkUnless result Memory }
{
    if !mark_block(&mut plan.marks, block)? {
        return Ok(false);
    }
    if !turn_all(members, &mut plan.marks, &mut plan.gone)? {
        return Ok(false);
    }
    note_all(&mut plan.coins, members, &plan.marks, &plan.gone)?;
    Ok(true)
}

/// Takes out the transactions with these txids.
fn take_out(entries: &mut IndexMap<Hash256, Pooled, Seed>, gone: &HashSet<Hash256, Seed>)
    ensures { entries.new.entries
        ≡ filter (λ entry. not (is_gone gone.now.keys entry.0)) entries.old.entries }
{
    entries.retain(
        |txid: &Hash256, pooled: &mut Pooled| -> bool
            ensures { (result ≡ not (is_gone gone.entry.now.keys txid.now))
                × (pooled.new ≡ pooled.old) }
        { !gone.contains(txid) },
    );
}

/// Puts at each output with a mark what `changes` has there, or nothing.
fn put_changes(
    coins: &mut HashMap<OutPoint, Option<i64>, Seed>,
    marks: &OutputMarks,
    changes: &HashMap<OutPoint, Option<i64>, Seed>,
)
    requires held { (point : OutPoint) → is_some (mark_at marks.now point) ≡ true →
        is_some (lookup (same_point point) changes.now.entries) ≡ true →
        is_some (lookup (same_point point) coins.old.entries) ≡ true }
    ensures { (point : OutPoint) → lookup (same_point point) coins.new.entries
        ≡ (if is_some (mark_at marks.now point) then lookup (same_point point) changes.now.entries
        else lookup (same_point point) coins.old.entries) }
{
    for point in marks.points.keys() {
        match changes.get(point).copied() {
            Some(value) => {
                let had: Result<_, _> = coins.insert(*point, value);
                had.unwrap();
            }
            None => {
                coins.remove(point);
            }
        }
    }
}

impl Members {
    /// Takes out those that leave by a plan. Nothing is allocated.
    fn thin(&mut self, plan: Thinning)
        requires { Fits plan self.old.list }
        ensures { self.new.list ≡ staying plan.gone self.old.list }
    {
        let Thinning { marks, gone, coins } = plan;
        take_out(&mut self.entries, &gone);
        put_changes(&mut self.coins, &marks, &coins);
    }
}

impl Pool {
    /// Makes a plan for taking out those that can't be spent any more once the block is connected
    /// to the UTXO set for which the pool is valid. `None` if the marks don't tell which these are;
    /// this takes two transactions with the same txid.
    ///
    /// Each input of the block and of the pool is looked up, and of the outputs only those of the
    /// block, of those that leave, and of those that touch what the block or those touched. Fails
    /// only with `Fault::Memory`.
    pub fn thinning(&self, block: &SoundBlock) -> Result<Option<Thinning>, Fault>
        ensures thins { IfOk result (λ plan. IfSome plan (λ plan. (was now : Unspent) →
            IsOk (spend was (txs_of self.now.list)) → spend was block.now.txs ≡ Ok now →
            ThinsOut now plan self.now.list)) }
        ensures memory { IsOkUnless result Memory }
    {
        let seed = self.members.seed();
        let mut plan = Thinning {
            marks: OutputMarks::new(self.alloc, seed),
            gone: HashSet::with_hasher(self.alloc, seed),
            coins: HashMap::with_hasher(self.alloc, seed),
        };
        if !work_out(&mut plan, &self.members, block)? {
            return Ok(None);
        }
        Ok(Some(plan))
    }

    /// Takes out those that leave by a plan. All others stay as they are, with their numbers, and
    /// none of their outputs is looked at. Nothing is allocated.
    pub fn thin_with(&mut self, ledger: &Ledger, plan: Thinning)
        requires { ThinsOut ledger.now.unspent plan self.old.list }
        ensures folds { Refolds ledger.now.unspent [] self.old self.new }
        ensures applies { IsOk (spend ledger.now.unspent (txs_of self.new.list)) }
    {
        let _ = ledger;
        self.members.thin(plan);
        self.named = None;
    }
}
