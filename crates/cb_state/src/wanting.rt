ghost use Rattle.std.specs.Prelude.{◌≡◌, ◌≤◌, [], if◌then◌else◌, length, false, IfOk, IsOk, IsOkUnless, OnOk};
ghost use Rattle.std.specs.HashSet.{contains, hasher_of};
ghost use Rattle.std.specs.List.{list_any};
ghost use Rattle.cb_base.specs.declared.fault.Fault.TheVariants.{Memory};
ghost use Rattle.cb_chain.specs.Entries.{entry_of, same};
ghost use Rattle.cb_chain.specs.Locator.{locator_of};
ghost use Rattle.cb_wire.specs.declared.inventory.Inventory.TheVariants as entry;
ghost use Rattle.cb_state.specs.Wanting.{AreNoted, IsNeed, blocks_of, is_block, is_near, is_wanted, only_block, stands_on_tip, wanted_of, with_entry, with_wanted};

use crate::entry_seed::seed_of_entries;
use crate::locator::locator_of;
use crate::state::Relay;
use cb_base::{Fault, Hash256, Seed};
use cb_wire::{Entries, Inventory, Locator};
use std::alloc::Global;
use std::collections::HashSet;

/// Which inventory entries are wanted.
#[derive(Drop)]
pub struct Need {
    /// The wanted entries, each once, in order.
    pub entries: Entries,
    /// Whether exactly one block is wanted, and its header is known and its parent is the tip.
    pub near: bool,
    /// The chain's block locator if a block is wanted, else empty.
    pub locator: Locator,
}

/// The wanted entries so far, each once, in order. The txids and block hashes among them are also
/// kept as sets.
#[derive(Drop)]
struct Wanted {
    list: Vec<Inventory>,
    txs: HashSet<Hash256, Seed>,
    blocks: HashSet<Hash256, Seed>,
}

impl Wanted {
    /// No entries so far. The sets have this seed.
    fn none_under(alloc: Global, seed: Seed) -> Wanted
        ensures list { result.list.items ≡ [] }
        ensures noted { AreNoted (contains same result.txs)
            (contains same result.blocks) result.list.items }
        // The seed decides only how long a look-up takes. No result shows it, so it is fixed here.
        ensures txs { hasher_of result.txs ≡ seed }
        ensures blocks { hasher_of result.blocks ≡ seed }
    {
        Wanted {
            list: Vec::new(alloc),
            txs: HashSet::with_hasher(alloc, seed),
            blocks: HashSet::with_hasher(alloc, seed),
        }
    }

    /// Appends a wanted transaction, unless it is listed. Fails only with `Fault::Memory`; the list
    /// is then of no use.
    fn put_tx(&mut self, txid: Hash256) -> Result<(), Fault>
        requires { AreNoted (contains same self.old.txs)
            (contains same self.old.blocks) self.old.list.items }
        ensures list { OnOk result
            (self.new.list.items ≡ with_entry self.old.list.items (entry.Tx txid)) }
        ensures noted { OnOk result
            (AreNoted (contains same self.new.txs)
            (contains same self.new.blocks) self.new.list.items) }
        ensures memory { IsOkUnless result Memory }
    {
        if self.txs.insert(txid)? {
            self.list.push(Inventory::Tx(txid))?;
        }
        Ok(())
    }

    /// Appends a wanted block, unless it is listed. Fails only with `Fault::Memory`; the list is
    /// then of no use.
    fn put_block(&mut self, hash: Hash256) -> Result<(), Fault>
        requires { AreNoted (contains same self.old.txs)
            (contains same self.old.blocks) self.old.list.items }
        ensures list { OnOk result
            (self.new.list.items ≡ with_entry self.old.list.items (entry.Block hash)) }
        ensures noted { OnOk result
            (AreNoted (contains same self.new.txs)
            (contains same self.new.blocks) self.new.list.items) }
        ensures memory { IsOkUnless result Memory }
    {
        if self.blocks.insert(hash)? {
            self.list.push(Inventory::Block(hash))?;
        }
        Ok(())
    }
}

/// The hash of the only block among the entries; `None` if there is no block or several.
fn only_block(entries: &[Inventory]) -> Option<Hash256>
    ensures { result ≡ only_block (blocks_of entries.now) }
{
    let mut only = None;
    for entry in entries {
        if let Inventory::Block(hash) = entry {
            if only.is_some() {
                return None;
            }
            only = Some(*hash);
        }
    }
    only
}

impl Relay {
    /// Returns which entries are wanted: transactions that aren't in the mempool, and blocks that
    /// are neither kept nor marked bad. Entries of other types are never wanted. Each different
    /// entry is returned once, in order.
    ///
    /// Fails only with `Fault::Memory`, and never if none is wanted.
    pub fn want(&self, entries: &Entries) -> Result<Need, Fault>
        ensures need { IfOk result (IsNeed self.now entries.now) }
        ensures memory { IsOkUnless result Memory }
        ensures none { wanted_of self.now entries.now ≡ [] → IsOk result }
    {
        let wanted = self.wanted(entries.as_slice())?;
        let near = self.is_near(wanted.as_slice());
        let locator = self.block_locator(wanted.as_slice())?;
        Ok(Need {
            entries: Entries::from_few(wanted),
            near,
            locator,
        })
    }

    /// The wanted entries, each once, in order. Fails only with `Fault::Memory`, and never if there
    /// are none.
    fn wanted(&self, entries: &[Inventory]) -> Result<Vec<Inventory>, Fault>
        ensures wanted { IfOk result (λ wanted. wanted.items ≡ wanted_of self.now entries.now) }
        ensures few { IfOk result (λ wanted. length wanted.items ≤ length entries.now) }
        ensures memory { IsOkUnless result Memory }
        ensures none { wanted_of self.now entries.now ≡ [] → IsOk result }
    {
        let seed = seed_of_entries(self.chain.ledger().seed(), entries);
        let mut wanted = Wanted::none_under(self.alloc, seed);
        for entry in entries {
            self.look_at(&mut wanted, *entry)?;
        }
        Ok(wanted.list)
    }

    /// Appends an entry if it is wanted and isn't listed. Fails only with `Fault::Memory`, and
    /// never if it isn't wanted.
    fn look_at(&self, wanted: &mut Wanted, entry: Inventory) -> Result<(), Fault>
        requires { AreNoted (contains same wanted.old.txs)
            (contains same wanted.old.blocks) wanted.old.list.items }
        ensures list { OnOk result
            (wanted.new.list.items ≡ with_wanted self.now wanted.old.list.items entry) }
        ensures noted { OnOk result
            (AreNoted (contains same wanted.new.txs)
            (contains same wanted.new.blocks) wanted.new.list.items) }
        ensures memory { IsOkUnless result Memory }
        ensures none { is_wanted self.now entry ≡ false → IsOk result }
    {
        match entry {
            Inventory::Tx(txid) => {
                if self.pool.contains(&txid) {
                    return Ok(());
                }
                wanted.put_tx(txid)
            }
            Inventory::Block(hash) => {
                if !self.chain.lacks(&hash) {
                    return Ok(());
                }
                wanted.put_block(hash)
            }
            Inventory::CompactBlock(_) => Ok(()),
            Inventory::Other(_, _) => Ok(()),
        }
    }

    /// Whether exactly one block is among the entries, and its header is known and its parent is
    /// the tip.
    fn is_near(&self, entries: &[Inventory]) -> bool
        ensures { result ≡ is_near self.now (blocks_of entries.now) }
    {
        match only_block(entries) {
            Some(hash) => self.stands_on_tip(&hash),
            None => false,
        }
    }

    /// Whether the header of this hash is known and its parent is the tip.
    fn stands_on_tip(&self, hash: &Hash256) -> bool
        ensures { result ≡ stands_on_tip self.now (entry_of self.now.tree hash.now) }
    {
        match self.chain.header(hash) {
            Some(header) => header.prev == self.chain.tip(),
            None => false,
        }
    }

    /// The chain's block locator if a block is among the entries, else empty. Fails only with
    /// `Fault::Memory`, and never without a block.
    fn block_locator(&self, entries: &[Inventory]) -> Result<Locator, Fault>
        ensures locator { IfOk result
            (λ locator. locator
            ≡ (if list_any is_block entries.now then locator_of self.now.tree else [])) }
        ensures memory { IsOkUnless result Memory }
        ensures none { list_any is_block entries.now ≡ false → IsOk result }
    {
        if !has_block(entries) {
            return Ok(Locator::from_few(Vec::new(self.alloc)));
        }
        locator_of(&self.chain)
    }
}

/// Whether a block is among the entries.
fn has_block(entries: &[Inventory]) -> bool
    ensures { result ≡ list_any is_block entries.now }
{
    entries
        .iter()
        .any(|entry| matches!(entry, Inventory::Block(_)))
}
