ghost use Rattle.std.specs.Prelude.{◌≡◌, ◌<◌, ◌^◌, length, map};
ghost use Rattle.cb_base.specs.DoubleHash.{double_hash};
ghost use Rattle.cb_base.specs.SipHash.{siphash_2_4};
ghost use Rattle.cb_block.specs.declared.header.Header.{Header};
ghost use Rattle.cb_relay.specs.Merkle.{HasNoTree, IsTreeOf};
ghost use Rattle.cb_relay.specs.Shapes.{hash_of};
ghost use Rattle.cb_relay.specs.Whole.{IsHeaderOf, IsNoHeader, IsNoTx, IsTxOf};
ghost use Rattle.cb_c.specs.Status.{Answers};
ghost use Rattle.cb_compact.specs.ShortIds.{key_of, short_id_of};
ghost use Rattle.cb_block.specs.declared.tx.Tx.{Tx};

use crate::status::status;
use cb_base::{Hash256, dsha, sip24};
use cb_compact::short_id;
use cb_relay::{CbHash, CbKey, block_hash, merkle_root, whole_header};
use std::alloc::Global;

/// The double SHA-256 of the bytes.
#[unsafe(no_mangle)]
pub extern "C" fn cbrelay_sha256d(bytes: &[u8], hash: &mut CbHash)
    ensures { hash_of hash.new ≡ double_hash bytes.now }
{
    let once = dsha(bytes).0;
    hash.bytes = once;
}

/// The txid of the transaction that is all of these bytes. After a fault `txid` is unchanged.
#[unsafe(no_mangle)]
pub extern "C" fn cbrelay_txid(alloc: Global, tx: &[u8], txid: &mut CbHash) -> u32
    ensures { Answers result
        (((read : Tx) × IsTxOf tx.now read) × (hash_of txid.new ≡ double_hash tx.now))
        (λ fault. IsNoTx tx.now fault × (txid.new ≡ txid.old)) }
{
    match cb_relay::txid(alloc, tx) {
        Ok(name) => {
            let bytes = name.0;
            txid.bytes = bytes;
            0
        }
        Err(fault) => status(fault),
    }
}

/// The hash of the block whose header is all of these bytes. After a fault `hash` is unchanged.
#[unsafe(no_mangle)]
pub extern "C" fn cbrelay_block_hash(header: &[u8], hash: &mut CbHash) -> u32
    ensures { Answers result
        (((read : Header) × IsHeaderOf header.now read)
        × (hash_of hash.new ≡ double_hash header.now))
        (λ fault. IsNoHeader header.now fault × (hash.new ≡ hash.old)) }
{
    match block_hash(header) {
        Ok(name) => {
            let bytes = name.0;
            hash.bytes = bytes;
            0
        }
        Err(fault) => status(fault),
    }
}

/// The Merkle root of hashes; `mutated` is 1 if the tree is mutated (CVE-2012-2459), else 0. After
/// a fault both are unchanged.
#[unsafe(no_mangle)]
pub extern "C" fn cbrelay_merkle_root(
    alloc: Global,
    hashes: &[CbHash],
    root: &mut CbHash,
    mutated: &mut u32,
) -> u32
    ensures { Answers result
        ((0 < length hashes.now)
        × IsTreeOf (map hash_of hashes.now) (hash_of root.new) mutated.new)
        (λ fault. HasNoTree hashes.now fault × (root.new ≡ root.old)
        × (mutated.new ≡ mutated.old)) }
{
    match merkle_root(alloc, hashes) {
        Ok(told) => {
            let bytes = told.root.0;
            root.bytes = bytes;
            *mutated = told.mark;
            0
        }
        Err(fault) => status(fault),
    }
}

/// SipHash-2-4 of the bytes under a key.
#[unsafe(no_mangle)]
pub extern "C" fn cbrelay_sip24(key: &CbKey, bytes: &[u8]) -> u64
    ensures { result ≡ siphash_2_4 key.now.k0 key.now.k1 bytes.now }
{
    sip24(key.k0, key.k1, bytes)
}

/// The key of short ids under the header that is all of these bytes and a nonce (BIP 152). After a
/// fault `key` is unchanged.
#[unsafe(no_mangle)]
pub extern "C" fn cbrelay_short_id_key(header: &[u8], nonce: u64, key: &mut CbKey) -> u32
    ensures { Answers result
        ((read : Header) × IsHeaderOf header.now read
        × ((key.new.k0, key.new.k1) ≡ key_of read nonce))
        (λ fault. IsNoHeader header.now fault × (key.new ≡ key.old)) }
{
    match whole_header(header) {
        Ok(read) => {
            let (k0, k1) = cb_compact::key(&read, nonce);
            key.k0 = k0;
            key.k1 = k1;
            0
        }
        Err(fault) => status(fault),
    }
}

/// The short id of a txid under a key (BIP 152, version 1).
#[unsafe(no_mangle)]
pub extern "C" fn cbrelay_short_id(key: &CbKey, txid: &CbHash) -> u64
    ensures same { result ≡ short_id_of (key.now.k0, key.now.k1) (hash_of txid.now) }
    ensures low { result < 2 ^ 48 }
{
    let bytes = txid.bytes;
    short_id((key.k0, key.k1), &Hash256(bytes))
}
