ghost use Rattle.std.specs.Prelude.{◌≡◌, length, reverse, IfOk, IsOkUnless, string_bytes};
ghost use Rattle.std.proofs.Common.{rules};
ghost use Rattle.std.specs.Simd.{first_chunks};
ghost use Rattle.std.specs.Cmp.Rules.{hashing};
ghost use Rattle.sha2.specs.Sha256.{sha256};
ghost use Rattle.hex.specs.Hex.{encode_lower};
ghost use Rattle.cb_base.specs.declared.fault.Fault.TheVariants.{Memory};

use crate::fault::Fault;
use sha2::{Digest, Sha256};
use std::alloc::Global;
use std::hash::{Hash, Hasher};

/// A hash of 32 bytes in wire order: a txid, a block hash or a node of a Merkle tree.
#[derive(Clone, Copy, Debug, PartialEq, Eq, PartialOrd, Ord)]
pub struct Hash256(pub [u8; 32]);

impl Hash for Hash256 {
    ghost hash_input = { λ hash. first_chunks 8 4 hash.0 };

    ghost respects_eq = { Prim.search (hashing, rules) };

    /// Feeds the 32 bytes to a hash table's hasher in four writes of 8 bytes. Somebody who chooses
    /// the bytes and knows the table's seed can make hashes that all collide: a later write can
    /// take back what an earlier one did to the hasher. So a table of such hashes has a `Seed` that
    /// its sender can't know.
    fn hash<H: Hasher>(&self, state: &mut H) {
        let (words, _) = self.0.as_slice().as_chunks::<8>();
        for word in words {
            state.write(word.as_slice());
        }
    }
}

impl Hash256 {
    /// Its 32 bytes, in wire order.
    pub fn bytes(&self) -> &[u8]
        ensures bytes { result.now ≡ self.now.0 }
        ensures len { length self.now.0 ≡ 32 }
    {
        self.0.as_slice()
    }

    /// The hash as people write it: 64 digits of lower-case hex, the bytes in reverse order.
    ///
    /// Fails only with `Fault::Memory`.
    pub fn show(&self, alloc: Global) -> Result<String, Fault>
        ensures text { IfOk result (λ text. string_bytes text ≡ encode_lower (reverse self.now.0)) }
        ensures memory { IsOkUnless result Memory }
    {
        let mut bytes = self.0;
        bytes.reverse();
        match hex::encode(alloc, bytes.as_slice()) {
            Ok(text) => Ok(text),
            Err(_) => Err(Fault::Memory),
        }
    }
}

/// SHA-256 (FIPS 180-4) of the bytes.
pub fn sha(bytes: &[u8]) -> [u8; 32]
    ensures { result ≡ sha256 bytes.now }
{
    Sha256::digest(bytes)
}

ghost use Rattle.cb_base.specs.DoubleHash.{double_hash};

/// The double hash: SHA-256 of the SHA-256. It makes txids, block hashes, Merkle nodes and the
/// checksums of payloads.
pub fn dsha(bytes: &[u8]) -> Hash256
    ensures { result ≡ double_hash bytes.now }
{
    let once = sha(bytes);
    Hash256(sha(once.as_slice()))
}
