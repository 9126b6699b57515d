ghost use Rattle.std.specs.Prelude.{◌≡◌, ◌^◌, ◌<◌, ◌++◌, length};
ghost use Rattle.std.specs.Int.{w64, to_le_bytes};
ghost use Rattle.cb_block.specs.BlockText.{header_text};
ghost use Rattle.cb_compact.specs.ShortIds.{key_of, short_id_of};

use cb_base::{Hash256, sha, sip24};
use cb_block::Header;

/// The bytes that are hashed for the key: the header's 80 and the nonce's 8.
fn key_text(header: &Header, nonce: u64) -> [u8; 88]
    ensures { result ≡ header_text header.now ++ to_le_bytes w64 nonce }
{
    let mut text = [0; 88];
    let (front, back) = text.split_at_mut(80);
    front.copy_from_slice(&header.text());
    back.copy_from_slice(&nonce.to_le_bytes());
    text
}

/// The SipHash key of the short ids (BIP 152): the first two little-endian words of the SHA-256 of
/// the header's 80 bytes and the nonce's 8. It allocates nothing.
pub fn key(header: &Header, nonce: u64) -> (u64, u64)
    ensures { result ≡ key_of header.now nonce }
{
    let hash = sha(&key_text(header, nonce));
    let (words, _) = hash.as_slice().as_chunks::<8>();
    (u64::from_le_bytes(words[0]), u64::from_le_bytes(words[1]))
}

/// The short id of a txid under a key: the low six bytes of its SipHash-2-4 (BIP 152, version 1).
/// So it is below 2^48. It allocates nothing.
pub fn short_id(key: (u64, u64), txid: &Hash256) -> u64
    ensures same { result ≡ short_id_of key txid.now }
    ensures low { result < 2 ^ 48 }
{
    sip24(key.0, key.1, &txid.0) % (1 << 48)
}
