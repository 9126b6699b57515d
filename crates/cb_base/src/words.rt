//! The operations of SHA-256 (FIPS 180-4, 4.1.2) on four words at a time, lane by lane.
ghost use Rattle.std.specs.Prelude.{◌≡◌, ℕ, ◌<◌, ◌/◌, ◌^◌, bit_and, bit_xor, slice_index};
ghost use Rattle.std.specs.Int.{w32, bit_not, rotate_right};
ghost use Rattle.sha2.specs.Sha256.{add32, big_sigma0, big_sigma1, ch, maj, small_sigma0, small_sigma1};

use std::simd::prelude::*;

/// The sums modulo 2^32.
#[inline(always)]
pub(crate) fn add(x: u32x4, y: u32x4) -> u32x4
    ensures { (k : ℕ) → k < 4 → slice_index result k ≡ add32 (slice_index x k) (slice_index y k) }
{
    x + y
}

/// The bits that are 1 in exactly one of the two.
#[inline(always)]
fn xor(x: u32x4, y: u32x4) -> u32x4
    ensures { (k : ℕ) → k < 4 → slice_index result k ≡ bit_xor (slice_index x k) (slice_index y k) }
{
    x ^ y
}

/// The bits that are 1 in both.
#[inline(always)]
fn and(x: u32x4, y: u32x4) -> u32x4
    ensures { (k : ℕ) → k < 4 → slice_index result k ≡ bit_and (slice_index x k) (slice_index y k) }
{
    x & y
}

/// All bits the other way round.
#[inline(always)]
fn not(x: u32x4) -> u32x4
    ensures { (k : ℕ) → k < 4 → slice_index result k ≡ bit_not w32 (slice_index x k) }
{
    !x
}

/// The bits `by` places further to the right, with zeros on the left.
#[inline(always)]
fn shift_right(x: u32x4, by: u32) -> u32x4
    requires { by < 32 }
    ensures { (k : ℕ) → k < 4 → slice_index result k ≡ slice_index x k / 2 ^ by }
{
    x >> u32x4::splat(by)
}

/// The bits `by` places further to the right. Those that leave on the right come in on the left.
#[inline(always)]
fn rotate_right(x: u32x4, by: u32) -> u32x4
    requires { (0 < by) × (by < 32) }
    ensures { (k : ℕ) → k < 4 → slice_index result k ≡ rotate_right w32 (slice_index x k) by }
{
    (x >> u32x4::splat(by)) | (x << u32x4::splat(32 - by))
}

/// The function Σ0. Each rotation is made within the one before: that takes fewer copies.
#[inline(always)]
pub(crate) fn big_sigma0(x: u32x4) -> u32x4
    ensures { (k : ℕ) → k < 4 → slice_index result k ≡ big_sigma0 (slice_index x k) }
{
    let inner = rotate_right(x, 9);
    let near = xor(x, inner);
    let middle = rotate_right(near, 11);
    let far = xor(x, middle);
    rotate_right(far, 2)
}

/// The function Σ1.
#[inline(always)]
pub(crate) fn big_sigma1(x: u32x4) -> u32x4
    ensures { (k : ℕ) → k < 4 → slice_index result k ≡ big_sigma1 (slice_index x k) }
{
    let inner = rotate_right(x, 14);
    let near = xor(x, inner);
    let middle = rotate_right(near, 5);
    let far = xor(x, middle);
    rotate_right(far, 6)
}

/// The function σ0.
#[inline(always)]
pub(crate) fn small_sigma0(x: u32x4) -> u32x4
    ensures { (k : ℕ) → k < 4 → slice_index result k ≡ small_sigma0 (slice_index x k) }
{
    let inner = rotate_right(x, 11);
    let near = xor(x, inner);
    let both = rotate_right(near, 7);
    let third = shift_right(x, 3);
    xor(both, third)
}

/// The function σ1.
#[inline(always)]
pub(crate) fn small_sigma1(x: u32x4) -> u32x4
    ensures { (k : ℕ) → k < 4 → slice_index result k ≡ small_sigma1 (slice_index x k) }
{
    let inner = rotate_right(x, 2);
    let near = xor(x, inner);
    let both = rotate_right(near, 17);
    let third = shift_right(x, 10);
    xor(both, third)
}

/// The function Ch: the bits of `y` where `x` has a 1, else those of `z`.
#[inline(always)]
pub(crate) fn ch(x: u32x4, y: u32x4, z: u32x4) -> u32x4
    ensures { (k : ℕ) → k < 4 →
        slice_index result k ≡ ch (slice_index x k) (slice_index y k) (slice_index z k) }
{
    let chosen = and(x, y);
    let flipped = not(x);
    let others = and(flipped, z);
    xor(chosen, others)
}

/// The function Maj: the bits that most of the three have.
#[inline(always)]
pub(crate) fn maj(x: u32x4, y: u32x4, z: u32x4) -> u32x4
    ensures { (k : ℕ) → k < 4 →
        slice_index result k ≡ maj (slice_index x k) (slice_index y k) (slice_index z k) }
{
    let near = xor(x, y);
    let far = xor(y, z);
    let both = and(near, far);
    xor(y, both)
}

/// In each lane the word of `next` if `going` has a 1 there, or the word of `past` if it has a 0.
#[inline(always)]
pub(crate) fn choose(going: u32x4, next: u32x4, past: u32x4) -> u32x4
    ensures goes { (k : ℕ) → k < 4 → slice_index going k ≡ 1 →
        slice_index result k ≡ slice_index next k }
    ensures rests { (k : ℕ) → k < 4 → slice_index going k ≡ 0 →
        slice_index result k ≡ slice_index past k }
{
    going.simd_eq(u32x4::splat(1)).select(next, past)
}
