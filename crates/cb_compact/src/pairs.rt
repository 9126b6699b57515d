ghost use Rattle.std.specs.Prelude.{◌≡◌, ℕ, filter, map, nat_eq, IfOk, IsOkUnless};
ghost use Rattle.std.specs.HashSet.{contains, hasher_of};
ghost use Rattle.cb_base.specs.declared.fault.Fault.TheVariants.{Memory};
ghost use Rattle.cb_compact.specs.Seeding.{seed_of};
ghost use Rattle.cb_compact.specs.Slots.{is_among};
ghost use Rattle.cb_compact.specs.Matching.{pair_of, pairs_of};

use crate::id_seed::IdSeed;
use crate::named_tx::{NamedTx, Pair};
use crate::short_ids::short_id;
use cb_base::{Fault, Shared};
use cb_wire::{Listed, MOST_BLOCK_TXS};
use std::alloc::Global;
use std::collections::HashSet;
use std::marker::Model;

/// The short ids of a compact block (BIP 152), at most 16,666.
pub type ShortIds = Listed<u64, MOST_BLOCK_TXS>;

/// The pool's transactions that may fill a compact block (BIP 152): those whose short ids are among
/// the block's. Contracts see it as their list, each with its short id, in the pool's order.
///
/// It only shares the ids and the list of the pool's transactions. Nothing is hashed, looked up or
/// copied before `list`. So a caller that holds a lock on the pool makes it quickly, and does the
/// work after the lock is released. It stays the same when the pool changes.
#[derive(Drop)]
pub struct Pairs {
    txs: Shared<Vec<NamedTx>>,
    key: (u64, u64),
    ids: Shared<ShortIds>,
}

impl Model for Pairs {
    ghost use Rattle.std.specs.Prelude.{List};
    ghost use Rattle.cb_compact.specs.declared.named_tx.Pair.{Pair};

    ghost Value = { List Pair };

    ghost use Rattle.cb_compact.specs.Matching.{pairs_of};

    ghost view = { λ pairs. pairs_of pairs.key pairs.ids pairs.txs.items };
}

impl Pairs {
    /// The pairs of those transactions whose short ids under `key` are among `ids`.
    pub fn new(txs: Shared<Vec<NamedTx>>, key: (u64, u64), ids: Shared<ShortIds>) -> Pairs
        ensures { result ≡ pairs_of key ids txs.items }
    {
        Pairs { txs, key, ids }
    }

    /// Returns the pairs as a list. Each id is put once into a hash set, and the short id of each
    /// of the pool's transactions is looked up there once. No transaction is hashed or copied: the
    /// short ids follow from the known txids.
    ///
    /// Fails only with `Fault::Memory`; the pairs are then unchanged.
    pub fn list(&self, alloc: Global) -> Result<Vec<Pair>, Fault>
        ensures exact { IfOk result (λ list. list.items ≡ self.now) }
        ensures memory { IsOkUnless result Memory }
    {
        let wanted = short_id_set(alloc, self.ids.as_slice())?;
        paired(alloc, self.key, self.txs.as_slice(), &wanted)
    }

    /// Shares the same pairs. Nothing is allocated. Fails only with `Fault::Memory`, if a reference
    /// count is full.
    pub fn copy(&self) -> Result<Pairs, Fault>
        ensures same { IfOk result (λ copy. copy ≡ self.now) }
        ensures memory { IsOkUnless result Memory }
    {
        let txs = self.txs.clone()?;
        let ids = self.ids.clone()?;
        Ok(Pairs {
            txs,
            key: self.key,
            ids,
        })
    }
}

/// The hash set of these short ids. Its seed depends on all of them, so that a sender can't know it
/// before the ids are chosen. Fails only with `Fault::Memory`.
pub fn short_id_set(alloc: Global, ids: &[u64]) -> Result<HashSet<u64, IdSeed>, Fault>
    ensures ids { IfOk result
        (λ wanted. (id : ℕ) → contains nat_eq wanted id ≡ is_among id ids.now) }
    // The seed decides only how long a lookup takes. No result shows it, so it is fixed here.
    ensures seed { IfOk result (λ wanted. hasher_of wanted ≡ seed_of ids.now) }
    ensures memory { IsOkUnless result Memory }
{
    let mut wanted = HashSet::with_capacity_and_hasher(alloc, ids.len(), IdSeed::of(ids))?;
    for id in ids {
        wanted.insert(*id)?;
    }
    Ok(wanted)
}

/// The transactions whose short ids are in `wanted`, in order, each with its short id.
fn paired(
    alloc: Global,
    key: (u64, u64),
    txs: &[NamedTx],
    wanted: &HashSet<u64, IdSeed>,
) -> Result<Vec<Pair>, Fault>
    ensures pairs { IfOk result
        (λ list. list.items
        ≡ filter (λ pair. contains nat_eq wanted.now pair.id) (map (pair_of key) txs.now)) }
    ensures memory { IsOkUnless result Memory }
{
    let mut list = Vec::new(alloc);
    for named in txs {
        let id = short_id(key, &named.txid());
        if wanted.contains(&id) {
            list.push(Pair {
                id,
                tx: named.clone()?,
            })?;
        }
    }
    Ok(list)
}
