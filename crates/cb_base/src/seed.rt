ghost use Rattle.std.specs.Prelude.{◌≡◌, ◌++◌, ℕ, List, []};
ghost use Rattle.cb_base.specs.Seeding.{AreKeys, fixed_seed, seed_of, seed_of_keys};

use sha2::{Digest, Sha256};
use std::hash::{BuildHasher, FoldHasher, Hasher};
use std::marker::Model;

/// The seed under which a hash table hashes its keys. It decides how long a lookup takes, and no
/// result. Contracts see a hasher that was fed the seed.
///
/// Txids, block hashes, outpoints and short ids are chosen by who sends them. If the sender knew
/// the seed beforehand, it could choose keys that all collide in the table, so that each lookup
/// takes as long as the table is. So such a table has a seed that the sender can't know: one made
/// of all its keys (`Keys`), or of random bytes (`Seed::of`).
#[derive(Clone, Copy)]
pub struct Seed {
    hasher: FoldHasher,
}

impl Model for Seed {
    ghost use Rattle.std.specs.Prelude.{◌≡◌};
    ghost use Rattle.std.specs.declared.hash.FoldHasher.{FoldHasher};

    ghost Value = { FoldHasher };

    ghost view = { λ seed. seed.hasher };

    ghost inverse = { λ hasher. record { hasher = hasher } };
}

impl Seed {
    /// The seed that is the same everywhere. Runs under it take the same steps each time. It suits
    /// tests, and tables whose keys nobody else chooses.
    pub fn fixed() -> Seed
        ensures { result ≡ fixed_seed }
    {
        Seed {
            hasher: FoldHasher::default(),
        }
    }

    /// The seed that these bytes make, such as 32 bytes of a random source.
    #[tactic(auto, unfolding(crate::specs::Seeding::seed_of))]
    pub fn of(bytes: &[u8]) -> Seed
        ensures { result ≡ seed_of bytes.now }
    {
        let mut hasher = FoldHasher::default();
        hasher.write(bytes);
        Seed { hasher }
    }
}

impl BuildHasher for Seed {
    type Hasher = FoldHasher;

    ghost build_hasher = { λ seed. seed };

    fn build_hasher(&self) -> FoldHasher {
        self.hasher
    }
}

/// The keys of a table, from which its seed is made: the SHA-256 (FIPS 180-4) of all of them.
/// Another key makes another seed. So nobody can look for keys that collide without making the seed
/// anew for each choice. Contracts speak of the bytes of the keys, one key after the other.
#[derive(Drop)]
pub struct Keys {
    pub(crate) digest: Sha256,
}

impl Keys {
    /// No keys.
    pub fn new() -> Keys
        ensures { AreKeys result [] }
    {
        Keys {
            digest: Sha256::new(),
        }
    }

    /// Adds the bytes of a key.
    pub fn add(&mut self, key: &[u8])
        ensures { (text : List ℕ) → AreKeys self.old text → AreKeys self.new (text ++ key.now) }
    {
        self.digest.update(key);
    }

    /// The seed of these keys.
    #[tactic(auto, unfolding(crate::specs::Seeding::seed_of_keys))]
    pub fn seed(self) -> Seed
        ensures { (text : List ℕ) → AreKeys self text → result ≡ seed_of_keys text }
    {
        Seed::of(self.digest.finalize().as_slice())
    }
}
