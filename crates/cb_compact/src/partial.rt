ghost use Rattle.std.specs.Prelude.{◌≡◌, ◌≢◌, ◌⊎◌, ◌++◌, ◌∷◌, [], length, IfErr, IfOk, IsOkUnless, OnOk};
ghost use Rattle.cb_base.specs.declared.fault.Fault.TheVariants.{Memory, WrongCount};
ghost use Rattle.cb_base.specs.DoubleHash.{double_hash};
ghost use Rattle.cb_block.specs.TxText.{tx_text};
ghost use Rattle.cb_block.specs.Blocks.{texts};
ghost use Rattle.cb_block.specs.Soundness.{names};
ghost use Rattle.cb_compact.specs.Placing.{IsFilled};
ghost use Rattle.cb_compact.specs.Slots.{filled, missing};

use crate::named_tx::NamedTx;
use cb_base::{Fault, Hash256, Shared};
use cb_block::{Block, Header, SoundBlock, Tx, Txs, sound_by};
use std::alloc::Global;
use std::marker::Model;

/// The result of checking a rebuilt block, in which no transaction is missing.
#[derive(Drop)]
pub enum Filled {
    /// The block. It is sound.
    Sound(SoundBlock),
    /// The transactions aren't sound under the header. A candidate had the short id of another
    /// transaction, or the sender sent a bad block.
    Wrong,
}

/// The result of rebuilding a compact block from the transactions that are at hand.
#[derive(Drop)]
pub enum Placed {
    /// No transaction is missing. The block was checked.
    Whole(Filled),
    /// The places that are missing: no candidate fits, or several do. The partial block has what is
    /// there.
    Missing(Vec<u64>, Partial),
    /// Two short ids of the compact block are equal.
    Repeat,
}

/// A block of which some transactions are missing. Contracts see its header and its slots: for each
/// place a transaction or none.
#[derive(Drop)]
pub struct Partial {
    alloc: Global,
    header: Header,
    slots: Vec<Option<NamedTx>>,
    lacking: usize,
}

impl Model for Partial {
    ghost use Rattle.std.specs.Prelude.{◌≡◌, length};
    ghost use Rattle.cb_compact.specs.Slots as slotting;

    ghost Value = { slotting.Unfilled };

    ghost view = { λ partial. record { header = partial.header; slots = partial.slots.items } };

    ghost invariant = { λ partial. partial.lacking
        ≡ length (slotting.missing 0 partial.slots.items) };
}

/// The transactions of a block, in order, and their txids.
#[derive(Drop)]
struct NamedTxs {
    txs: Vec<Shared<Tx>>,
    txids: Vec<Hash256>,
}

impl NamedTxs {
    /// Adds a transaction and its txid.
    fn push(&mut self, named: NamedTx) -> Result<(), Fault>
        ensures txs { OnOk result (self.new.txs.items ≡ self.old.txs.items ++ named ∷ []) }
        ensures txids { OnOk result
            (self.new.txids.items ≡ self.old.txids.items ++ double_hash (tx_text named) ∷ []) }
        ensures memory { IsOkUnless result Memory }
    {
        let (tx, txid) = named.into_parts();
        self.txs.push(tx)?;
        self.txids.push(txid)?;
        Ok(())
    }
}

/// All transactions: those of the slots, and the given ones in the empty slots, in order. Only the
/// given ones are hashed.
fn fill_in(
    alloc: Global,
    slots: Vec<Option<NamedTx>>,
    given: &[Shared<Tx>],
) -> Result<NamedTxs, Fault>
    requires { length given.now ≡ length (missing 0 slots.items) }
    ensures txs { IfOk result (λ listed. listed.txs.items ≡ filled slots.items given.now) }
    ensures names { IfOk result (λ listed. listed.txids.items ≡ names (texts listed.txs.items)) }
    ensures memory { IsOkUnless result Memory }
{
    let mut listed = NamedTxs {
        txs: Vec::with_capacity(alloc, slots.len())?,
        txids: Vec::with_capacity(alloc, slots.len())?,
    };
    let mut used = 0;
    for slot in slots {
        if let Some(named) = slot {
            listed.push(named)?;
            continue;
        }
        let tx = given[used].clone()?;
        let named = NamedTx::new(alloc, tx)?;
        listed.push(named)?;
        used += 1;
    }
    Ok(listed)
}

/// Checks the block whose slots are all taken.
pub(crate) fn whole(
    alloc: Global,
    header: Header,
    slots: Vec<Option<NamedTx>>,
) -> Result<Filled, Fault>
    requires { missing 0 slots.items ≡ [] }
    ensures filled { IfOk result (IsFilled header (filled slots.items [])) }
    ensures memory { IsOkUnless result Memory }
{
    let listed = fill_in(alloc, slots, &[])?;
    judge(alloc, header, listed)
}

/// Checks whether these transactions are sound under the header.
fn judge(alloc: Global, header: Header, listed: NamedTxs) -> Result<Filled, Fault>
    requires { listed.txids.items ≡ names (texts listed.txs.items) }
    ensures filled { IfOk result (IsFilled header listed.txs.items) }
    ensures memory { IsOkUnless result Memory }
{
    let NamedTxs { txs, txids } = listed;
    let txs = Txs::new(txs);
    let block = Shared::new(alloc, Block { header, txs })?;
    match sound_by(alloc, block, txids) {
        Ok(sound) => Ok(Filled::Sound(sound)),
        Err((back, fault)) => {
            drop(back);
            if fault == Fault::Memory {
                return Err(Fault::Memory);
            }
            Ok(Filled::Wrong)
        }
    }
}

/// What stands at a place once more.
fn copy_slot(slot: &Option<NamedTx>) -> Result<Option<NamedTx>, Fault>
    ensures equal { IfOk result (λ copy. copy ≡ slot.now) }
    ensures memory { IsOkUnless result Memory }
{
    match slot {
        Some(named) => Ok(Some(named.clone()?)),
        None => Ok(None),
    }
}

/// What stands at all places once more. Only the list takes memory.
fn copy_slots(alloc: Global, slots: &[Option<NamedTx>]) -> Result<Vec<Option<NamedTx>>, Fault>
    ensures equal { IfOk result (λ copies. copies.items ≡ slots.now) }
    ensures memory { IsOkUnless result Memory }
{
    let mut copies = Vec::with_capacity(alloc, slots.len())?;
    for slot in slots {
        copies.push(copy_slot(slot)?)?;
    }
    Ok(copies)
}

impl Partial {
    pub(crate) fn new(
        alloc: Global,
        header: Header,
        slots: Vec<Option<NamedTx>>,
        lacking: usize,
    ) -> Partial
        requires { lacking ≡ length (missing 0 slots.items) }
        ensures { result ≡ record { header = header; slots = slots.items } }
    {
        Partial {
            alloc,
            header,
            slots,
            lacking,
        }
    }

    /// The block's header.
    pub fn header(&self) -> &Header
        ensures { result.now ≡ self.now.header }
    {
        &self.header
    }

    /// How many of its transactions are missing.
    pub fn lacking(&self) -> usize
        ensures { result ≡ length (missing 0 self.now.slots) }
    {
        self.lacking
    }

    /// An equal one that shares the transactions: only its list is allocated. Fails only with
    /// `Fault::Memory`.
    pub fn copy(&self, alloc: Global) -> Result<Partial, Fault>
        ensures equal { IfOk result (λ copy. copy ≡ self.now) }
        ensures memory { IsOkUnless result Memory }
    {
        Ok(Partial {
            alloc,
            header: self.header,
            slots: copy_slots(alloc, self.slots.as_slice())?,
            lacking: self.lacking,
        })
    }

    /// Puts these transactions, in order, at the missing places and checks the block. Each of them
    /// is hashed once.
    ///
    /// Fails with `Fault::WrongCount` exactly if their number is not that of the missing places.
    /// Otherwise it fails only with `Fault::Memory`. The partial block is used up in any case.
    pub fn fill(self, txs: Vec<Shared<Tx>>) -> Result<Filled, Fault>
        ensures filled { IfOk result (IsFilled self.header (filled self.slots txs.items)) }
        ensures counted { IfOk result (λ _. length txs.items ≡ length (missing 0 self.slots)) }
        ensures refused { IfErr result
            (λ fault. ((fault ≡ WrongCount) × (length txs.items ≢ length (missing 0 self.slots)))
            ⊎ ((fault ≡ Memory) × (length txs.items ≡ length (missing 0 self.slots)))) }
    {
        if txs.len() != self.lacking {
            return Err(Fault::WrongCount);
        }
        let listed = fill_in(self.alloc, self.slots, txs.as_slice())?;
        judge(self.alloc, self.header, listed)
    }
}
