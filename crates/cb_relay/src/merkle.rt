ghost use Rattle.std.specs.Prelude.{◌≡◌, ◌<◌, ◌≤◌, length, map, IfErr, IfOk, IsOk, IsOkUnless, Err};
ghost use Rattle.cb_base.specs.declared.fault.Fault.TheVariants.{Memory};
ghost use Rattle.cb_relay.specs.Merkle.{HasNoTree, IsTreeOf};
ghost use Rattle.cb_relay.specs.Shapes.{hash_of};

use crate::shapes::CbHash;
use cb_base::{Fault, Hash256};
use cb_block::{mutated, root};
use std::alloc::Global;

/// The Merkle root, and the mark: 1 if the tree is mutated (CVE-2012-2459), else 0.
#[derive(Clone, Copy)]
pub struct Root {
    pub root: Hash256,
    pub mark: u32,
}

/// The hashes that C gave. Fails only with `Fault::Memory`, and never without hashes.
pub fn hashes_of(alloc: Global, hashes: &[CbHash]) -> Result<Vec<Hash256>, Fault>
    ensures same { IfOk result (λ list. list.items ≡ map hash_of hashes.now) }
    ensures memory { IsOkUnless result Memory }
    ensures unpaid { length hashes.now ≡ 0 → IsOk result }
{
    let mut list = Vec::with_capacity(alloc, hashes.len())?;
    for hash in hashes {
        let bytes = hash.bytes;
        list.push(Hash256(bytes))?;
    }
    Ok(list)
}

/// The root and the mark of at least one hash. One hash needs no memory.
fn tree_of(alloc: Global, hashes: &[Hash256]) -> Result<Root, Fault>
    requires { 0 < length hashes.now }
    ensures told { IfOk result (λ told. IsTreeOf hashes.now told.root told.mark) }
    ensures failed { IfErr result (λ fault. (fault ≡ Memory) × (2 ≤ length hashes.now)) }
{
    let root = root(alloc, hashes)?;
    let mark = u32::from(mutated(alloc, hashes)?);
    Ok(Root { root, mark })
}

/// The Merkle root of hashes, and whether the tree is mutated. Fails with `Fault::Empty` without
/// hashes, and with `Fault::Memory` only if there are two or more.
pub fn merkle_root(alloc: Global, hashes: &[CbHash]) -> Result<Root, Fault>
    ensures told { IfOk result (λ told. (0 < length hashes.now)
        × IsTreeOf (map hash_of hashes.now) told.root told.mark) }
    ensures failed { IfErr result (HasNoTree hashes.now) }
{
    match hashes {
        [] => Err(Fault::Empty),
        [only] => {
            let bytes = only.bytes;
            tree_of(alloc, &[Hash256(bytes)])
        }
        _ => {
            let list = hashes_of(alloc, hashes)?;
            tree_of(alloc, list.as_slice())
        }
    }
}
