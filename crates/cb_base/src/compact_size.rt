ghost use Rattle.std.specs.Prelude.{◌≡◌, ℕ, ◌+◌, ◌^◌, ◌<◌, ◌≤◌, List, ◌++◌, length, OnOk, OnErr, IsOkUnless, vec_len, vec_capacity};
ghost use Rattle.cb_base.specs.CompactSize.{compact_text};
ghost use Rattle.cb_base.specs.declared.fault.Fault.TheVariants.{Memory};

use crate::fault::Fault;

/// Appends a number to `out` as a CompactSize, Bitcoin's variable-length integer: 1, 3, 5 or 9
/// bytes, as few as the number needs.
///
/// Fails only with `Fault::Memory`, and only if the free capacity of `out` is too small. `out` then
/// has the bytes it had.
#[tactic(auto, unfolding(crate::specs::CompactSize::compact_text))]
pub fn put_compact(out: &mut Vec<u8>, number: u64) -> Result<(), Fault>
    ensures ok { OnOk result (out.new.items ≡ out.old.items ++ compact_text number) }
    ensures err { OnErr result (out.new.items ≡ out.old.items) }
    ensures memory { IsOkUnless result Memory }
    ensures full { OnErr result
        (vec_capacity out.old < vec_len out.old + length (compact_text number)) }
    ensures capacity { vec_capacity out.old ≤ vec_capacity out.new }
{
    if number < 253 {
        out.push(number as u8)?;
    } else if number < 0x1_0000 {
        let [low, high] = (number as u16).to_le_bytes();
        out.extend_from_slice(&[253, low, high])?;
    } else if number < 0x1_0000_0000 {
        let [a, b, c, d] = (number as u32).to_le_bytes();
        out.extend_from_slice(&[254, a, b, c, d])?;
    } else {
        let [a, b, c, d, e, f, g, h] = number.to_le_bytes();
        out.extend_from_slice(&[255, a, b, c, d, e, f, g, h])?;
    }
    Ok(())
}

/// The encoding is unique and prefix-free. If the CompactSizes of two numbers, each followed by any
/// bytes, are the same bytes, then the numbers are equal, and so are the bytes that follow. The
/// function does nothing: its contract is a theorem.
pub fn one_spelling()
    ensures { (m n : ℕ) (x y : List ℕ) → m < 2 ^ 64 → n < 2 ^ 64 →
        compact_text m ++ x ≡ compact_text n ++ y
        → (m ≡ n) × (x ≡ y) }
{}
