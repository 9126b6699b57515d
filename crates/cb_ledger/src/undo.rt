ghost use Rattle.std.specs.Prelude.{◌≡◌, ◌==◌, [], length, IfOk, IsOk, IsOkUnless};
ghost use Rattle.cb_base.specs.declared.fault.Fault.TheVariants.{Memory};

use cb_base::Fault;
use cb_block::OutPoint;
use std::alloc::Global;
use std::marker::Model;

/// An outpoint and what it has: the value of an unspent output in satoshis, or none.
#[derive(Clone, Copy, Debug, PartialEq, Eq)]
pub struct CoinChange {
    pub point: OutPoint,
    pub value: Option<i64>,
}

/// The undo record of a block: what the outpoints that the block touches had before it. Contracts
/// see the list of these changes. No outpoint occurs twice in it.
#[derive(Drop)]
pub struct Undo {
    pub(crate) changes: Vec<CoinChange>,
}

impl Model for Undo {
    ghost use Rattle.std.specs.Prelude.{List};
    ghost use Rattle.cb_ledger.specs.declared.undo.CoinChange.{CoinChange};

    ghost Value = { List CoinChange };

    ghost use Rattle.cb_ledger.specs.Undo.{StandOnce};

    ghost view = { λ undo. undo.changes.items };

    ghost invariant = { λ undo. StandOnce undo.changes.items };
}

impl Undo {
    /// How many outpoints it has. Room for as many outputs is enough to disconnect its block.
    pub fn len(&self) -> usize
        ensures { result ≡ length self.now }
    {
        self.changes.len()
    }

    /// Whether it has no outpoints.
    pub fn is_empty(&self) -> bool
        ensures { result ≡ (length self.now == 0) }
    {
        self.changes.is_empty()
    }

    /// Returns an equal undo record. Fails only with `Fault::Memory`. An empty record never fails.
    pub fn copy(&self, alloc: Global) -> Result<Undo, Fault>
        ensures same { IfOk result (λ copy. copy ≡ self.now) }
        ensures none { self.now ≡ [] → IsOk result }
        ensures memory { IsOkUnless result Memory }
    {
        let all = self.changes.as_slice();
        let mut changes = Vec::with_capacity(alloc, all.len())?;
        changes.extend_from_slice(all)?;
        Ok(Undo { changes })
    }
}
