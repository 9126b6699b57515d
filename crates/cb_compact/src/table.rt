ghost use Rattle.std.specs.Prelude.{◌≡◌, List, ℕ, [], nat_eq, IfOk, IsOkUnless, MatchOption, OnOk, ⊤};
ghost use Rattle.std.specs.HashMap.{hasher_of};
ghost use Rattle.std.specs.Map.{lookup};
ghost use Rattle.cb_base.specs.declared.fault.Fault.TheVariants.{Memory};
ghost use Rattle.cb_compact.specs.Seeding.{seed_of};
ghost use Rattle.cb_compact.specs.Slots.{AreDifferent};
ghost use Rattle.cb_compact.specs.Tables.{IsTable, all_found, found_tx, one_more, with_pair};

use crate::id_seed::IdSeed;
use crate::named_tx::{NamedTx, Pair};
use cb_base::Fault;
use std::alloc::Global;
use std::collections::HashMap;

/// The candidates that have a certain short id.
#[derive(Drop)]
pub enum Found {
    Nobody,
    One(NamedTx),
    Several,
}

impl Found {
    /// Notes one more candidate.
    fn add(&mut self, tx: NamedTx)
        ensures { self.new ≡ one_more self.old tx }
    {
        *self = match self {
            Found::Nobody => Found::One(tx),
            Found::One(_) | Found::Several => Found::Several,
        };
    }

    /// The transaction, if there is exactly one candidate.
    pub(crate) fn into_tx(self) -> Option<NamedTx>
        ensures { result ≡ found_tx self }
    {
        match self {
            Found::One(tx) => Some(tx),
            Found::Nobody | Found::Several => None,
        }
    }
}

/// A table of the short ids of a compact block: the position of each in the list of ids, and what
/// was found for each, in order. With it, each pair is looked up only once.
#[derive(Drop)]
pub(crate) struct Table {
    places: HashMap<u64, usize, IdSeed>,
    found: Vec<Found>,
}

/// The table of some short ids, with nothing found yet. None if an id occurs twice.
pub(crate) fn table_of(alloc: Global, ids: &[u64]) -> Result<Option<Table>, Fault>
    ensures exact { IfOk result
        (λ table. MatchOption table (¬ AreDifferent ids.now)
        (λ table. AreDifferent ids.now × IsTable ids.now [] table)) }
    // The ids are hashed under the seed of all of them. No result shows it.
    ensures seed { IfOk result
        (λ table. MatchOption table ⊤ (λ table. hasher_of table.places ≡ seed_of ids.now)) }
    ensures memory { IsOkUnless result Memory }
{
    let mut places = HashMap::with_capacity_and_hasher(alloc, ids.len(), IdSeed::of(ids))?;
    let mut found = Vec::with_capacity(alloc, ids.len())?;
    for (place, id) in ids.iter().enumerate() {
        if places.insert(*id, place)?.is_some() {
            return Ok(None);
        }
        found.push(Found::Nobody)?;
    }
    Ok(Some(Table { places, found }))
}

impl Table {
    /// Looks up one pair.
    fn add(&mut self, pair: Pair)
        ensures places { self.new.places.entries ≡ self.old.places.entries }
        ensures found { self.new.found.items
            ≡ with_pair (lookup
            (nat_eq pair.id) self.old.places.entries) pair.tx self.old.found.items }
    {
        let Some(place) = self.places.get(&pair.id).copied() else {
            return;
        };
        if place < self.found.len() {
            self.found[place].add(pair.tx);
        }
    }

    /// Looks up all pairs. Returns what was found for each short id, in order.
    pub(crate) fn found_among(self, pairs: Vec<Pair>) -> Vec<Found>
        ensures found { (ids : List ℕ) → AreDifferent ids → IsTable ids [] self →
            result.items ≡ all_found ids pairs.items }
    {
        let mut table = self;
        for pair in pairs {
            table.add(pair);
        }
        table.found
    }
}
