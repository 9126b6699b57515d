ghost use Rattle.std.specs.Prelude.{◌≡◌, ◌⊎◌, ◌≤◌, ◌<◌, length, IsTrue};
ghost use Rattle.cb_base.specs.Seeding.{fixed_seed, seed_of_keys};
ghost use Rattle.cb_state.specs.Seeding.{hashes_text};

use cb_base::{Keys, Seed};
use cb_wire::Inventory;
use std::hash::{BuildHasher, Hasher};

/// Up to this number of entries, tables of them have the fixed seed if there is no other. Even if
/// all of them collide, their lookups cost less than a seed that is made of them.
const FEW_ENTRIES: usize = 64;

/// Whether a seed is the fixed one, which everybody knows.
fn is_fixed(seed: Seed) -> bool
    ensures { seed ≡ fixed_seed → IsTrue result }
{
    seed.build_hasher().finish() == Seed::fixed().build_hasher().finish()
}

/// The seed that is made of the hashes of all entries.
fn seed_of_many(entries: &[Inventory]) -> Seed
    ensures { result ≡ seed_of_keys (hashes_text entries.now) }
{
    let mut keys = Keys::new();
    for entry in entries {
        let hash = entry.hash();
        keys.add(hash.0.as_slice());
    }
    keys.seed()
}

/// The seed for tables of these entries, whose sender chooses their hashes: the state's own seed,
/// if nobody else knows that. Else up to 64 entries have the fixed seed, and more that of all their
/// hashes. It allocates nothing.
pub(crate) fn seed_of_entries(own: Seed, entries: &[Inventory]) -> Seed
    ensures either { (result ≡ own) ⊎ (result ≡ seed_of_keys (hashes_text entries.now)) }
    ensures few { length entries.now ≤ 64 → result ≡ own }
    ensures many { own ≡ fixed_seed → 64 < length entries.now →
        result ≡ seed_of_keys (hashes_text entries.now) }
{
    if entries.len() <= FEW_ENTRIES || !is_fixed(own) {
        return own;
    }
    seed_of_many(entries)
}
