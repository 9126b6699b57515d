ghost use Rattle.std.specs.Prelude.{◌≡◌, ◌+◌, ◌<◌, ◌++◌, drop, length, take, OnErr, OnOk, IsOkUnless, vec_capacity, vec_len};
ghost use Rattle.sha2.specs.Sha256.{padded_message, padding};
ghost use Rattle.cb_base.specs.declared.fault.Fault.TheVariants.{Memory};

use crate::fault::Fault;

/// The zeros of a padding are at most 63.
const ZEROS: [u8; 64] = [0; 64];

/// Appends the padding of SHA-256 (FIPS 180-4, 5.1.1) to a message: the byte 0x80, zeros, and the
/// length in bits. The result has whole blocks of 64 bytes.
///
/// Fails only with `Fault::Memory`, and only if the free capacity is less than 72 bytes, the
/// longest padding. The message still stands in front then.
pub(crate) fn pad(text: &mut Vec<u8>) -> Result<(), Fault>
    ensures ok { OnOk result (text.new.items ≡ padded_message text.old.items) }
    ensures memory { IsOkUnless result Memory }
    ensures kept { take (length text.old.items) text.new.items ≡ text.old.items }
    ensures full { OnErr result (vec_capacity text.old < vec_len text.old + 72) }
{
    let len = text.len();
    let bits = (len as u64).wrapping_mul(8);
    text.reserve(72)?;
    text.push_reserved(0x80);
    text.extend_from_slice(&ZEROS[..(119 - len % 64) % 64])?;
    text.extend_from_slice(&bits.to_be_bytes())?;
    Ok(())
}

/// The second of the two blocks of a message of 80 bytes: its last 16 bytes and the padding.
pub(crate) fn second_of_80(text: &[u8; 80]) -> [u8; 64]
    ensures { result ≡ drop 64 text.now ++ padding 80 }
{
    let [high, low] = 640u16.to_be_bytes();
    let mut block = [0u8; 64];
    block[16] = 0x80;
    block[62] = high;
    block[63] = low;
    block[..16].copy_from_slice(&text[64..]);
    block
}
