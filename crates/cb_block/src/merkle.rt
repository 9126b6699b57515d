ghost use Rattle.std.specs.Prelude.{◌≡◌, ◌+◌, ◌*◌, ◌<◌, ◌≤◌, ◌++◌, ◌↔◌, length, take, drop, vec_len, IfOk, IsOkUnless, IsTrue, Err};
ghost use Rattle.cb_base.specs.declared.fault.Fault.TheVariants.{Memory};
ghost use Rattle.cb_base.specs.DoubleHash.{double_hash};
ghost use Rattle.cb_block.specs.MerkleTree.{HasEqualPair, IsMutated, IsRoot, up};

use cb_base::{Fault, Hash256, dsha_64s, sha};
use sha2::{Digest, Sha256};
use std::alloc::Global;

/// The parent of two hashes in a Merkle tree: the double SHA-256 of both, joined.
fn hash_above(left: &Hash256, right: &Hash256) -> Hash256
    ensures { result ≡ double_hash (left.now.0 ++ right.now.0) }
{
    let mut hasher = Sha256::new();
    hasher.update(left.0.as_slice());
    hasher.update(right.0.as_slice());
    let once = hasher.finalize();
    Hash256(sha(once.as_slice()))
}

/// Two hashes, joined: what is hashed for their parent.
fn joined(left: &Hash256, right: &Hash256) -> [u8; 64]
    ensures { result ≡ left.now.0 ++ right.now.0 }
{
    let mut text = [0u8; 64];
    let (front, back) = text.split_at_mut(32);
    front.copy_from_slice(&left.0);
    back.copy_from_slice(&right.0);
    text
}

/// The parents of the four pairs from place `at` on.
fn four_above(level: &[Hash256], at: usize) -> [Hash256; 4]
    requires { at + 8 ≤ length level.now }
    ensures { result ≡ up (take 8 (drop at level.now)) }
{
    dsha_64s(
        &joined(&level[at], &level[at + 1]),
        &joined(&level[at + 2], &level[at + 3]),
        &joined(&level[at + 4], &level[at + 5]),
        &joined(&level[at + 6], &level[at + 7]),
    )
}

/// Writes the parents of a level's pairs over its front, four at a time. Returns how many: at most
/// three pairs are left.
fn raise_fours(level: &mut [Hash256]) -> usize
    ensures raised { level.new ≡ up (take (2 * result) level.old) ++ drop result level.old }
    ensures count { 2 * result ≤ length level.old }
{
    let fours = level.len() / 8;
    for i in 0..fours {
        let above = four_above(level, 8 * i);
        level[4 * i..4 * i + 4].copy_from_slice(above.as_slice());
    }
    4 * fours
}

/// Whether the two hashes of a pair are equal.
fn has_equal_pair(level: &[Hash256]) -> bool
    ensures { IsTrue result ↔ HasEqualPair level.now }
{
    for k in 0..level.len() / 2 {
        if level[2 * k] == level[2 * k + 1] {
            return true;
        }
    }
    false
}

/// Replaces a level of a Merkle tree by the level above it.
fn raise(level: &mut Vec<Hash256>)
    ensures { level.new.items ≡ up level.old.items }
{
    let len = level.len();
    let pairs = len / 2;
    let done = raise_fours(level.as_mut_slice());
    for k in done..pairs {
        let left = level[2 * k];
        let right = level[2 * k + 1];
        level[k] = hash_above(&left, &right);
    }
    if len % 2 == 1 {
        let last = level[len - 1];
        level[pairs] = hash_above(&last, &last);
    }
    level.truncate(pairs + len % 2);
}

/// Returns the Merkle root, and whether the tree is mutated, in one pass. Each level overwrites the
/// one below it, so nothing is allocated.
pub(crate) fn tree(leaves: Vec<Hash256>) -> (Hash256, bool)
    requires { 0 < vec_len leaves }
    ensures root { IsRoot leaves.items result.0 }
    ensures mutated { IsTrue result.1 ↔ IsMutated leaves.items }
{
    let mut level = leaves;
    let mut mutated = false;
    while level.len() > 1 {
        mutated |= has_equal_pair(level.as_slice());
        raise(&mut level);
    }
    (level[0], mutated)
}

/// The Merkle root of a list of at least one hash. Fails only with `Fault::Memory`. One hash never
/// fails.
pub fn root(alloc: Global, hashes: &[Hash256]) -> Result<Hash256, Fault>
    requires { 0 < length hashes.now }
    ensures root { IfOk result (λ root. IsRoot hashes.now root) }
    ensures memory { IsOkUnless result Memory }
    ensures paid { result ≡ Err Memory → 2 ≤ length hashes.now }
{
    if let [only] = hashes {
        return Ok(*only);
    }
    let (root, _) = tree(Vec::from_slice(alloc, hashes)?);
    Ok(root)
}

/// Whether some level of the Merkle tree has a pair of equal hashes (CVE-2012-2459). Fails only
/// with `Fault::Memory`. Fewer than two hashes never fail.
pub fn mutated(alloc: Global, hashes: &[Hash256]) -> Result<bool, Fault>
    ensures mutated { IfOk result (λ mutated. IsTrue mutated ↔ IsMutated hashes.now) }
    ensures memory { IsOkUnless result Memory }
    ensures paid { result ≡ Err Memory → 2 ≤ length hashes.now }
{
    if hashes.len() < 2 {
        return Ok(false);
    }
    let (_, mutated) = tree(Vec::from_slice(alloc, hashes)?);
    Ok(mutated)
}
