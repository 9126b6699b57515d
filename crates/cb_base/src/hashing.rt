//! SHA-256 twice over, of four messages at a time.
ghost use Rattle.std.specs.Prelude.{◌≡◌, ℕ, ◌+◌, ◌<◌, ◌≤◌, ◌/◌, List, [], ◌∷◌, length, take, IfOk, IsOk, IsOkUnless, vec_capacity, vec_len};
ghost use Rattle.sha2.specs.Sha256.{digest_bytes, final_hash, hash_after, initial_hash_256, padded_message, sha256};
ghost use Rattle.cb_base.specs.DoubleHash.{double_hash};
ghost use Rattle.cb_base.specs.declared.fault.Fault.TheVariants.{Memory};
ghost use Rattle.cb_base.specs.Lanes.{HasWholeBlocks, TakesBlock, lane};

use crate::blocks::{block_at, block_words, has_block};
use crate::compression::{choose_state, compress, compress_padding};
use crate::fault::Fault;
use crate::hash::{Hash256, dsha};
use crate::padding::{pad, second_of_80};
use std::simd::u32x4;

/// The initial hash value (5.3.3) in all lanes.
fn initial_state() -> [u32x4; 8]
    ensures { (k : ℕ) → k < 4 → lane k result ≡ initial_hash_256 }
{
    [
        u32x4::splat(0x6a09_e667),
        u32x4::splat(0xbb67_ae85),
        u32x4::splat(0x3c6e_f372),
        u32x4::splat(0xa54f_f53a),
        u32x4::splat(0x510e_527f),
        u32x4::splat(0x9b05_688c),
        u32x4::splat(0x1f83_d9ab),
        u32x4::splat(0x5be0_cd19),
    ]
}

/// The states after block `i` of each message. A message that has no block `i` keeps its state.
fn absorb_block(
    state: [u32x4; 8],
    first: &[u8],
    second: &[u8],
    third: &[u8],
    fourth: &[u8],
    i: usize,
) -> [u32x4; 8]
    requires first { HasWholeBlocks first.now }
    requires second { HasWholeBlocks second.now }
    requires third { HasWholeBlocks third.now }
    requires fourth { HasWholeBlocks fourth.now }
    ensures first { TakesBlock first.now i (lane 0 state) (lane 0 result) }
    ensures second { TakesBlock second.now i (lane 1 state) (lane 1 result) }
    ensures third { TakesBlock third.now i (lane 2 state) (lane 2 result) }
    ensures fourth { TakesBlock fourth.now i (lane 3 state) (lane 3 result) }
{
    let a = block_at(first, i);
    let b = block_at(second, i);
    let c = block_at(third, i);
    let d = block_at(fourth, i);
    let words = block_words(a, b, c, d);
    let next = compress(state, words);
    let going = u32x4::from_array([
        has_block(first, i),
        has_block(second, i),
        has_block(third, i),
        has_block(fourth, i),
    ]);
    choose_state(going, next, state)
}

/// The greatest number of blocks that one of four texts has.
fn most_blocks(first: &[u8], second: &[u8], third: &[u8], fourth: &[u8]) -> usize
    ensures first { length first.now / 64 ≤ result }
    ensures second { length second.now / 64 ≤ result }
    ensures third { length third.now / 64 ≤ result }
    ensures fourth { length fourth.now / 64 ≤ result }
{
    let one = first.len().max(second.len());
    let other = third.len().max(fourth.len());
    one.max(other) / 64
}

/// The hash values of four padded messages.
fn absorb(first: &[u8], second: &[u8], third: &[u8], fourth: &[u8]) -> [u32x4; 8]
    requires first { HasWholeBlocks first.now }
    requires second { HasWholeBlocks second.now }
    requires third { HasWholeBlocks third.now }
    requires fourth { HasWholeBlocks fourth.now }
    ensures first { lane 0 result ≡ hash_after initial_hash_256 first.now (length first.now / 64) }
    ensures second { lane 1 result
        ≡ hash_after initial_hash_256 second.now (length second.now / 64) }
    ensures third { lane 2 result ≡ hash_after initial_hash_256 third.now (length third.now / 64) }
    ensures fourth { lane 3 result
        ≡ hash_after initial_hash_256 fourth.now (length fourth.now / 64) }
{
    let most = most_blocks(first, second, third, fourth);
    let mut state = initial_state();
    for i in 0..most {
        let after = absorb_block(state, first, second, third, fourth, i);
        state = after;
    }
    state
}

/// The hash values of four hashes: each is one block, the hash and its padding.
fn hash_again(state: [u32x4; 8]) -> [u32x4; 8]
    ensures { (k : ℕ) → k < 4 → (m : List ℕ) → lane k state ≡ final_hash initial_hash_256 m
        → lane k result ≡ final_hash initial_hash_256 (sha256 m) }
{
    let [a, b, c, d, e, f, g, h] = state;
    let mark = u32x4::splat(0x8000_0000);
    let zero = u32x4::splat(0);
    let bits = u32x4::splat(256);
    let words = [
        a, b, c, d, e, f, g, h, mark, zero, zero, zero, zero, zero, zero, bits,
    ];
    compress(initial_state(), words)
}

/// The hash value in one lane, as bytes.
#[inline(always)]
fn digest(state: &[u32x4; 8], k: usize) -> Hash256
    requires { k < 4 }
    ensures { result.0 ≡ digest_bytes (lane k state.now) 8 }
{
    let mut out = [0u8; 32];
    for i in 0..8 {
        let lanes = state[i].to_array();
        let word = lanes[k];
        out[4 * i..4 * i + 4].copy_from_slice(&word.to_be_bytes());
    }
    Hash256(out)
}

/// The double hashes of four messages, from their hash values.
fn finish(state: [u32x4; 8]) -> [Hash256; 4]
    ensures { (a b c d : List ℕ) → lane 0 state ≡ final_hash initial_hash_256 a
        → lane 1 state ≡ final_hash initial_hash_256 b
        → lane 2 state ≡ final_hash initial_hash_256 c
        → lane 3 state ≡ final_hash initial_hash_256 d
        → result ≡ double_hash a ∷ double_hash b ∷ double_hash c ∷ double_hash d ∷ [] }
{
    let again = hash_again(state);
    let first = digest(&again, 0);
    let second = digest(&again, 1);
    let third = digest(&again, 2);
    let fourth = digest(&again, 3);
    [first, second, third, fourth]
}

/// The double hashes of four texts of 64 bytes, such as pairs of hashes in a Merkle tree.
pub fn dsha_64s(
    first: &[u8; 64],
    second: &[u8; 64],
    third: &[u8; 64],
    fourth: &[u8; 64],
) -> [Hash256; 4]
    ensures { result ≡ double_hash first.now ∷ double_hash second.now ∷ double_hash third.now
        ∷ double_hash fourth.now ∷ [] }
{
    let words = block_words(first, second, third, fourth);
    let once = compress(initial_state(), words);
    let state = compress_padding(once);
    finish(state)
}

/// The double hashes of four texts of 80 bytes, such as block headers.
pub fn dsha_80s(
    first: &[u8; 80],
    second: &[u8; 80],
    third: &[u8; 80],
    fourth: &[u8; 80],
) -> [Hash256; 4]
    ensures { result ≡ double_hash first.now ∷ double_hash second.now ∷ double_hash third.now
        ∷ double_hash fourth.now ∷ [] }
{
    let words = block_words(&first[..64], &second[..64], &third[..64], &fourth[..64]);
    let once = compress(initial_state(), words);
    let a = second_of_80(first);
    let b = second_of_80(second);
    let c = second_of_80(third);
    let d = second_of_80(fourth);
    let ends = block_words(&a, &b, &c, &d);
    let state = compress(once, ends);
    finish(state)
}

/// The double hashes of four padded messages. They may have different numbers of blocks: a message
/// that has ended waits for the longest one.
fn dsha_padded(first: &[u8], second: &[u8], third: &[u8], fourth: &[u8]) -> [Hash256; 4]
    requires first { HasWholeBlocks first.now }
    requires second { HasWholeBlocks second.now }
    requires third { HasWholeBlocks third.now }
    requires fourth { HasWholeBlocks fourth.now }
    ensures { (a b c d : List ℕ) → first.now ≡ padded_message a → second.now ≡ padded_message b
        → third.now ≡ padded_message c → fourth.now ≡ padded_message d
        → result ≡ double_hash a ∷ double_hash b ∷ double_hash c ∷ double_hash d ∷ [] }
{
    let state = absorb(first, second, third, fourth);
    finish(state)
}

/// Whether it takes fewer instructions to hash texts of these lengths side by side. A block of four
/// lanes takes as many as one and a half blocks of a single text.
fn gains_by_lanes(first: usize, second: usize, third: usize, fourth: usize) -> bool {
    let (a, b, c, d) = (first / 64, second / 64, third / 64, fourth / 64);
    let most = a.max(b).max(c.max(d));
    (most + 1).saturating_mul(3) / 2 < a.saturating_add(b).saturating_add(c).saturating_add(d) + 4
}

/// The double hashes of four texts, which are hashed side by side: padding is appended to them.
/// They still stand in front of it, after an error too.
///
/// Fails only with `Fault::Memory`, and never if each has a free capacity of 72 bytes.
fn dsha_by_lanes(
    first: &mut Vec<u8>,
    second: &mut Vec<u8>,
    third: &mut Vec<u8>,
    fourth: &mut Vec<u8>,
) -> Result<[Hash256; 4], Fault>
    ensures hashes { IfOk result (λ hashes. hashes ≡ double_hash first.old.items
        ∷ double_hash second.old.items ∷ double_hash third.old.items
        ∷ double_hash fourth.old.items ∷ []) }
    ensures memory { IsOkUnless result Memory }
    ensures first { take (length first.old.items) first.new.items ≡ first.old.items }
    ensures second { take (length second.old.items) second.new.items ≡ second.old.items }
    ensures third { take (length third.old.items) third.new.items ≡ third.old.items }
    ensures fourth { take (length fourth.old.items) fourth.new.items ≡ fourth.old.items }
    ensures full { vec_len first.old + 72 ≤ vec_capacity first.old
        → vec_len second.old + 72 ≤ vec_capacity second.old
        → vec_len third.old + 72 ≤ vec_capacity third.old
        → vec_len fourth.old + 72 ≤ vec_capacity fourth.old → IsOk result }
{
    pad(first)?;
    pad(second)?;
    pad(third)?;
    pad(fourth)?;
    Ok(dsha_padded(
        first.as_slice(),
        second.as_slice(),
        third.as_slice(),
        fourth.as_slice(),
    ))
}

/// The double hashes of four texts. They are hashed side by side if that takes fewer instructions:
/// then padding is appended to them, and taken off again. The texts are the same after the call,
/// after an error too.
///
/// Fails only with `Fault::Memory`, and never if each has a free capacity of 72 bytes.
pub fn dsha_four(
    first: &mut Vec<u8>,
    second: &mut Vec<u8>,
    third: &mut Vec<u8>,
    fourth: &mut Vec<u8>,
) -> Result<[Hash256; 4], Fault>
    ensures hashes { IfOk result (λ hashes. hashes ≡ double_hash first.old.items
        ∷ double_hash second.old.items ∷ double_hash third.old.items
        ∷ double_hash fourth.old.items ∷ []) }
    ensures memory { IsOkUnless result Memory }
    ensures first { first.new.items ≡ first.old.items }
    ensures second { second.new.items ≡ second.old.items }
    ensures third { third.new.items ≡ third.old.items }
    ensures fourth { fourth.new.items ≡ fourth.old.items }
    ensures full { vec_len first.old + 72 ≤ vec_capacity first.old
        → vec_len second.old + 72 ≤ vec_capacity second.old
        → vec_len third.old + 72 ≤ vec_capacity third.old
        → vec_len fourth.old + 72 ≤ vec_capacity fourth.old → IsOk result }
{
    let (a, b, c, d) = (first.len(), second.len(), third.len(), fourth.len());
    if !gains_by_lanes(a, b, c, d) {
        return Ok([
            dsha(first.as_slice()),
            dsha(second.as_slice()),
            dsha(third.as_slice()),
            dsha(fourth.as_slice()),
        ]);
    }
    let hashes = dsha_by_lanes(first, second, third, fourth);
    first.truncate(a);
    second.truncate(b);
    third.truncate(c);
    fourth.truncate(d);
    hashes
}
