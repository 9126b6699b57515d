ghost use Rattle.std.specs.Prelude.{◌≡◌, ℕ, ℤ, Option, ◌⊎◌, ◌<◌, ◌^◌, ⊤, if◌then◌else◌, false, length, All, Any, IsOkUnless, IsTrue, None, OnOk, Ok, Some, [], is_some};
ghost use Rattle.cb_base.specs.declared.fault.Fault.TheVariants.{Memory};
ghost use Rattle.cb_block.specs.declared.tx.OutPoint.{OutPoint};
ghost use Rattle.cb_ledger.specs.Spend.{make_outputs as outputs_made};
ghost use Rattle.cb_ledger.specs.Unspent.{Unspent};
ghost use Rattle.cb_pool.specs.Leaving.{with_outputs};
ghost use Rattle.cb_pool.specs.Staying.{AreMarked, IsLevel, Says, Tells, mark_at, same_point};
ghost use Rattle.cb_pool.specs.declared.marks.OutputMark.TheVariants.{Gone};

use cb_base::{Fault, Hash256, Seed};
use cb_block::{OutPoint, TxIn, TxOut};
use std::alloc::Global;
use std::collections::{HashMap, HashSet};
use std::marker::Model;

/// How an output differs between two UTXO sets: the one behind the pool's transactions so far, and
/// the one behind those of them that stay, with a block's before them.
#[derive(Clone, Copy)]
pub(crate) enum OutputMark {
    // It isn't unspent in the new one.
    Gone,
    // It is unspent in the new one and has this value.
    Holds(i64),
    // It is the same in both.
    Same,
    // Nothing is known of it.
    Unknown,
}

/// The outputs at which two UTXO sets may differ, with their marks. Contracts see the list of both.
#[derive(Drop)]
pub(crate) struct OutputMarks {
    pub(crate) points: HashMap<OutPoint, OutputMark, Seed>,
    // The txids of all these outputs.
    txids: HashSet<Hash256, Seed>,
}

impl Model for OutputMarks {
    ghost use Rattle.std.specs.Prelude.{◌≡◌, true, is_some};
    ghost use Rattle.cb_block.specs.declared.tx.OutPoint.{OutPoint};
    ghost use Rattle.cb_pool.specs.Staying.{Marking};

    ghost Value = { Marking };

    ghost use Rattle.cb_pool.specs.Staying.{is_gone, mark_at};

    ghost view = { λ marks. marks.points.entries };

    ghost invariant = { λ marks. (point : OutPoint)
        → is_some (mark_at marks.points.entries point) ≡ true
        → is_gone marks.txids.keys point.txid ≡ true };
}

/// What becomes of the mark of an output that was not there and that a transaction of the pool
/// makes in the old UTXO set alone.
fn mark_behind(mark: Option<OutputMark>, value: i64) -> OutputMark
    ensures { (now : Option ℤ) → Says mark None now → Says (Some result) (Some value) now }
{
    match mark {
        Some(OutputMark::Holds(held)) if held == value => OutputMark::Same,
        Some(OutputMark::Holds(held)) => OutputMark::Holds(held),
        Some(OutputMark::Unknown) => OutputMark::Unknown,
        _ => OutputMark::Gone,
    }
}

impl OutputMarks {
    /// No marks. The tables have this seed.
    pub(crate) fn new(alloc: Global, seed: Seed) -> OutputMarks
        ensures { result ≡ [] }
    {
        OutputMarks {
            points: HashMap::with_hasher(alloc, seed),
            txids: HashSet::with_hasher(alloc, seed),
        }
    }

    /// The mark of an output.
    pub(crate) fn mark_of(&self, point: &OutPoint) -> Option<OutputMark>
        ensures { result ≡ mark_at self.now point.now }
    {
        self.points.get(point).copied()
    }

    /// Marks an output. Fails only with `Fault::Memory`.
    fn put(&mut self, point: OutPoint, mark: OutputMark) -> Result<(), Fault>
        ensures put { OnOk result ((other : OutPoint) → mark_at self.new other
            ≡ (if same_point point other then Some mark else mark_at self.old other)) }
        ensures memory { IsOkUnless result Memory }
    {
        self.txids.insert(point.txid)?;
        self.points.insert(point, mark)?;
        Ok(())
    }

    /// Whether an output of this txid has a mark, or had one.
    pub(crate) fn has_txid(&self, txid: &Hash256) -> bool
        ensures { result ≡ false → (index : ℕ) →
            mark_at self.now (record { txid = txid.now; index = index }) ≡ None }
    {
        self.txids.contains(txid)
    }

    /// Whether nothing differs at the outputs that these inputs spend.
    pub(crate) fn keep(&self, inputs: &[TxIn]) -> bool
        ensures { IsTrue result → All (λ input. IsLevel (mark_at self.now input.prev)) inputs.now }
    {
        inputs.iter().all(|input| match self.mark_of(&input.prev) {
            None => true,
            Some(OutputMark::Same) => true,
            Some(_) => false,
        })
    }

    /// Whether one of these inputs spends an output that is gone.
    pub(crate) fn lose(&self, inputs: &[TxIn]) -> bool
        ensures { IsTrue result
            → Any (λ input. mark_at self.now input.prev ≡ Some Gone) inputs.now }
    {
        inputs.iter().any(|input| match self.mark_of(&input.prev) {
            Some(OutputMark::Gone) => true,
            _ => false,
        })
    }

    /// Whether no output that a transaction with this txid makes or that these inputs spend has a
    /// mark.
    pub(crate) fn pass(&self, txid: &Hash256, inputs: &[TxIn]) -> bool
        ensures inputs { IsTrue result
            → All (λ input. mark_at self.now input.prev ≡ None) inputs.now }
        ensures outputs { IsTrue result → (index : ℕ) →
            mark_at self.now (record { txid = txid.now; index = index }) ≡ None }
    {
        inputs
            .iter()
            .all(|input| self.mark_of(&input.prev).is_none())
            && !self.has_txid(txid)
    }

    /// Marks the outputs that these inputs spend. Fails only with `Fault::Memory`.
    pub(crate) fn put_inputs(&mut self, inputs: &[TxIn], mark: OutputMark) -> Result<(), Fault>
        ensures marked { OnOk result (AreMarked inputs.now mark self.old self.new) }
        ensures memory { IsOkUnless result Memory }
    {
        for input in inputs {
            self.put(input.prev, mark)?;
        }
        Ok(())
    }

    /// Notes that the outputs of a transaction are made in the new UTXO set. Fails only with
    /// `Fault::Memory`.
    pub(crate) fn make(&mut self, txid: Hash256, outputs: &[TxOut]) -> Result<(), Fault>
        requires few { length outputs.now < 2 ^ 32 }
        ensures tells { OnOk result ((was now : Unspent) → Tells self.old was now
            → Tells self.new was (with_outputs now txid 0 outputs.now)) }
        ensures memory { IsOkUnless result Memory }
    {
        let mut index = 0u32;
        for output in outputs {
            self.put(OutPoint { txid, index }, OutputMark::Holds(output.value))?;
            index += 1;
        }
        Ok(())
    }

    /// Notes that the outputs of a transaction that leaves are made in the old UTXO set alone.
    /// Fails only with `Fault::Memory`.
    pub(crate) fn miss(&mut self, txid: Hash256, outputs: &[TxOut]) -> Result<(), Fault>
        requires few { length outputs.now < 2 ^ 32 }
        ensures tells { OnOk result ((was now next : Unspent) →
            outputs_made was txid 0 outputs.now ≡ Ok next → Tells self.old was now
            → Tells self.new (with_outputs was txid 0 outputs.now) now) }
        ensures marked { OnOk result ((point : OutPoint) → mark_at self.new point ≡ None →
            (mark_at self.old point ≡ None)
            × (¬ ((point.txid ≡ txid) × (point.index < length outputs.now)))) }
        ensures memory { IsOkUnless result Memory }
    {
        let mut index = 0u32;
        for output in outputs {
            let point = OutPoint { txid, index };
            let mark = mark_behind(self.mark_of(&point), output.value);
            self.put(point, mark)?;
            index += 1;
        }
        Ok(())
    }
}
