//! The blocks of four messages, as vectors of words.
ghost use Rattle.std.specs.Prelude.{◌≡◌, ℕ, ◌+◌, ◌*◌, ◌/◌, ◌<◌, ◌≤◌, length, take, drop};
ghost use Rattle.sha2.specs.Sha256.{IsWindow, schedule, word_at};
ghost use Rattle.cb_base.specs.Lanes.{HasWholeBlocks, lane};

use std::simd::u32x4;

/// The word in four bytes of a block, the highest byte first.
#[inline(always)]
fn word_at(block: &[u8], at: usize) -> u32
    requires { at + 4 ≤ length block.now }
    ensures { result ≡ word_at block.now at }
{
    u32::from_be_bytes([block[at], block[at + 1], block[at + 2], block[at + 3]])
}

/// The 16 words of each of four blocks of 64 bytes, one block in each lane.
#[inline(always)]
pub(crate) fn block_words(first: &[u8], second: &[u8], third: &[u8], fourth: &[u8]) -> [u32x4; 16]
    requires first { length first.now ≡ 64 }
    requires second { length second.now ≡ 64 }
    requires third { length third.now ≡ 64 }
    requires fourth { length fourth.now ≡ 64 }
    ensures first { IsWindow (lane 0 result) (schedule first.now 48) 16 }
    ensures second { IsWindow (lane 1 result) (schedule second.now 48) 16 }
    ensures third { IsWindow (lane 2 result) (schedule third.now 48) 16 }
    ensures fourth { IsWindow (lane 3 result) (schedule fourth.now 48) 16 }
{
    let mut words = [u32x4::splat(0); 16];
    for i in 0..16 {
        words[i] = u32x4::from_array([
            word_at(first, 4 * i),
            word_at(second, 4 * i),
            word_at(third, 4 * i),
            word_at(fourth, 4 * i),
        ]);
    }
    words
}

/// Block `i` of a text, or its last block if it has no block `i`.
pub(crate) fn block_at(text: &[u8], i: usize) -> &[u8]
    requires { HasWholeBlocks text.now }
    ensures len { length result.now ≡ 64 }
    ensures there { i < length text.now / 64 → result.now ≡ take 64 (drop (i * 64) text.now) }
{
    let last = text.len() / 64 - 1;
    if i > last {
        return &text[last * 64..last * 64 + 64];
    }
    &text[i * 64..i * 64 + 64]
}

/// 1 if the text has a block `i`, else 0.
pub(crate) fn has_block(text: &[u8], i: usize) -> u32
    ensures there { i < length text.now / 64 → result ≡ 1 }
    ensures ended { length text.now / 64 ≤ i → result ≡ 0 }
{
    if i < text.len() / 64 { 1 } else { 0 }
}
