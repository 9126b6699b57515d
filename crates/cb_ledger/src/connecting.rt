ghost use Rattle.std.specs.Prelude.{◌≡◌, ◌≢◌, ◌⊎◌, ◌+◌, ◌<◌, ◌≤◌, ◌^◌, [], length, All, Err, IfOk, IfErr, IsOk, IsOkUnless, OnOk, OnErr};
ghost use Rattle.cb_base.specs.declared.fault.Fault.TheVariants.{Memory};
ghost use Rattle.cb_ledger.specs.Spend.{spend, Tells};
ghost use Rattle.cb_ledger.specs.Touched.{Touches};
ghost use Rattle.cb_ledger.specs.Undo.{LeadsBack, StandOnce, changed, values_of};
ghost use Rattle.cb_ledger.specs.Unspent.{Unspent};

use crate::base::Base;
use crate::checking::changes_over;
use crate::ledger::Ledger;
use crate::overlay::Overlay;
use crate::undo::{CoinChange, Undo};
use cb_base::Fault;
use cb_block::SoundBlock;

/// Sets each outpoint to the value in its change, and puts its old value in the change.
fn exchange_all(ledger: &mut Ledger, changes: &mut [CoinChange])
    requires once { StandOnce changes.old }
    requires room { length changes.old ≤ ledger.old.room }
    ensures after { ledger.new.unspent ≡ changed ledger.old.unspent changes.old }
    ensures before { changes.new ≡ values_of ledger.old.unspent changes.old }
    ensures room { ledger.old.room ≤ ledger.new.room + length changes.old }
{
    let mut left = changes.len();
    while left > 0 {
        left -= 1;
        let change = changes[left];
        changes[left].value = ledger.set(change.point, change.value);
    }
}

/// What a block changes over the ledger, or its first fault. The ledger stays as it is.
fn changes_of(ledger: &Ledger, block: &SoundBlock) -> Result<Undo, Fault>
    requires { All (λ tx. length tx.outputs < 2 ^ 32) block.now.txs }
    ensures told { Tells (spend ledger.now.unspent block.now.txs)
        (λ changes. changed ledger.now.unspent changes) result }
    ensures unpaid { Touches ledger.now.unspent block.now.txs
        ⊎ (IfOk result (λ changes. changes ≡ []) × (result ≢ Err Memory)) }
{
    let none = Overlay::with_seed(ledger.alloc, ledger.seed());
    changes_over(ledger.alloc, &Base::new(ledger, &none), block)
}

/// How many outputs to reserve room for: the changes, their undoing, and `more`. Fails with
/// `Fault::Memory` if that is above `usize`.
fn places_for(changes: usize, more: usize) -> Result<usize, Fault>
    ensures places { IfOk result (λ places. places ≡ changes + changes + more) }
    ensures none { changes ≡ 0 → IsOk result }
    ensures memory { IsOkUnless result Memory }
{
    let Some(both) = changes.checked_add(changes) else {
        return Err(Fault::Memory);
    };
    match both.checked_add(more) {
        Some(places) => Ok(places),
        None => Err(Fault::Memory),
    }
}

impl Ledger {
    /// Sets each outpoint of an undo record to its value there, and leaves in the record what it
    /// had before. A second exchange with the record reverts the first. The ledger must have room
    /// for as many outputs as the record has outpoints (`reserve`).
    pub fn exchange(&mut self, undo: &mut Undo)
        requires { length undo.old ≤ self.old.room }
        ensures after { self.new.unspent ≡ changed self.old.unspent undo.old }
        ensures back { changed self.new.unspent undo.new ≡ self.old.unspent }
        ensures len { length undo.new ≡ length undo.old }
        ensures room { self.old.room ≤ self.new.room + length undo.old }
    {
        exchange_all(self, undo.changes.as_mut_slice());
    }

    /// Connects a block, as `connect` does, and reserves more room: for disconnecting the block,
    /// and for `places` outputs beyond that.
    ///
    /// The errors are those of `connect`, and the UTXO set is then unchanged.
    pub fn connect_with_room(&mut self, block: &SoundBlock, places: usize) -> Result<Undo, Fault>
        requires { All (λ tx. length tx.outputs < 2 ^ 32) block.now.txs }
        ensures exact { Tells (spend self.old.unspent block.now.txs)
            (λ _. self.new.unspent) result }
        ensures err { OnErr result (self.new.unspent ≡ self.old.unspent) }
        ensures undo { IfOk result
            (λ undo. LeadsBack undo block.now.txs self.old.unspent self.new.unspent) }
        ensures kept { IfOk result (λ undo. places + length undo ≤ self.new.room) }
        ensures fits { IfOk result (λ undo. places + length undo < 2 ^ 64) }
        ensures room { OnErr result (self.old.room ≤ self.new.room) }
        ensures unpaid { result ≡ Err Memory →
            Touches self.old.unspent block.now.txs ⊎ (self.old.room < places) }
    {
        let mut undo = changes_of(self, block)?;
        self.reserve(places_for(undo.changes.len(), places)?)?;
        self.exchange(&mut undo);
        Ok(undo)
    }

    /// Connects a block: applies its transactions to the UTXO set, in order. Returns the undo
    /// record for `disconnect`. Each transaction must have fewer than 2^32 outputs; one that meets
    /// its rules has.
    ///
    /// A coinbase only creates its outputs. Any other transaction first spends its inputs. The
    /// first fault that is met is returned: `Fault::NoInput` if an input's output isn't unspent (an
    /// output of an earlier transaction of the block is; one that an earlier input spent isn't),
    /// `Fault::Overspent` if the outputs of a transaction are worth more than its inputs,
    /// `Fault::Remade` if an output that it creates is already unspent. Or it fails with
    /// `Fault::Memory`. After an error the UTXO set is unchanged.
    pub fn connect(&mut self, block: &SoundBlock) -> Result<Undo, Fault>
        requires { All (λ tx. length tx.outputs < 2 ^ 32) block.now.txs }
        ensures exact { Tells (spend self.old.unspent block.now.txs)
            (λ _. self.new.unspent) result }
        ensures err { OnErr result (self.new.unspent ≡ self.old.unspent) }
        ensures undo { IfOk result
            (λ undo. LeadsBack undo block.now.txs self.old.unspent self.new.unspent) }
        // There is room for disconnecting the block.
        ensures kept { IfOk result (λ undo. length undo ≤ self.new.room) }
        // Nothing is allocated before the block spends or creates an output.
        ensures unpaid { result ≡ Err Memory → Touches self.old.unspent block.now.txs }
    {
        self.connect_with_room(block, 0)
    }

    /// Disconnects a block, given its undo record. The UTXO set is again what it was before the
    /// block.
    ///
    /// Fails only with `Fault::Memory`. The error gives the undo record back, and the UTXO set is
    /// unchanged.
    pub fn disconnect(&mut self, block: &SoundBlock, undo: Undo) -> Result<(), (Undo, Fault)>
        ensures ok { OnOk result
            ((before : Unspent) → LeadsBack undo block.now.txs before self.old.unspent →
            self.new.unspent ≡ before) }
        ensures err { IfErr result
            (λ back. (back.0 ≡ undo) × (back.1 ≡ Memory) × (self.new.unspent ≡ self.old.unspent)) }
        // It succeeds if there is room for the outpoints of the record.
        ensures enough { length undo ≤ self.old.room → IsOk result }
    {
        let mut undo = undo;
        match self.reserve(undo.changes.len()) {
            Ok(()) => {
                self.exchange(&mut undo);
                Ok(())
            }
            Err(fault) => Err((undo, fault)),
        }
    }
}
