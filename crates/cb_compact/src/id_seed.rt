ghost use Rattle.std.specs.Prelude.{◌≡◌};
ghost use Rattle.cb_compact.specs.Seeding.{seed_of};

use cb_base::{Keys, Seed};
use std::hash::{BuildHasher, FoldHasher};
use std::marker::Model;

/// The seed under which a table hashes the short ids of a compact block: that of all ids (`Keys`),
/// since the sender of the block chooses them. Contracts see a hasher that was fed the seed.
#[derive(Clone, Copy)]
pub struct IdSeed {
    seed: Seed,
}

impl Model for IdSeed {
    ghost use Rattle.std.specs.Prelude.{◌≡◌};
    ghost use Rattle.std.specs.declared.hash.FoldHasher.{FoldHasher};

    ghost Value = { FoldHasher };

    ghost view = { λ ids. ids.seed };

    ghost inverse = { λ hasher. record { seed = hasher } };
}

impl IdSeed {
    /// The seed for a table of these ids. It allocates nothing.
    #[tactic(auto, unfolding(crate::specs::Seeding::seed_of))]
    pub fn of(ids: &[u64]) -> IdSeed
        ensures { result ≡ seed_of ids.now }
    {
        let mut keys = Keys::new();
        for id in ids {
            keys.add(id.to_le_bytes().as_slice());
        }
        IdSeed { seed: keys.seed() }
    }
}

impl BuildHasher for IdSeed {
    type Hasher = FoldHasher;

    ghost build_hasher = { λ seed. seed };

    fn build_hasher(&self) -> FoldHasher {
        self.seed.build_hasher()
    }
}
