ghost use Rattle.std.specs.Prelude.{◌≡◌, ◌↔◌, ◌++◌, ℕ, ◌^◌, ◌*◌, ◌≤◌, ◌<◌, List, [], ◌∷◌, length, slice_index, All, IfOk, IsTrue, MatchResult, Ok, Err};
ghost use Rattle.cb_base.specs.CompactSize.{Gives};
ghost use Rattle.cb_base.specs.DoubleHash.{double_hash};
ghost use Rattle.cb_base.specs.Reading.{Reads};
ghost use Rattle.cb_base.specs.declared.fault.Fault.TheVariants.{BadWork};
ghost use Rattle.cb_block.specs.BlockReading.{header_at};
ghost use Rattle.cb_block.specs.BlockText.{IsHeader, header_text};
ghost use Rattle.cb_block.specs.Work.{HasWork, little_endian};
ghost use Rattle.cb_block.specs.declared.header.Header.{Header};

use crate::tx_reading::read_hash;
use cb_base::{Cursor, Fault, Hash256, dsha, dsha_80s};

/// The bits of every header of the network: the target of regtest in compact form.
pub const BITS: u32 = 0x207f_ffff;

/// A block header. Its hash is the block hash.
#[derive(Clone, Copy, Debug, PartialEq, Eq)]
pub struct Header {
    pub version: i32,
    /// The hash of the previous block.
    pub prev: Hash256,
    /// The Merkle root over the txids of the block's transactions.
    pub root: Hash256,
    /// Unix time in seconds.
    pub time: u32,
    /// The target in compact form.
    pub bits: u32,
    pub nonce: u32,
}

impl Header {
    /// Its serialisation of 80 bytes.
    #[tactic(auto, unfolding(crate::specs::BlockText::header_text))]
    pub fn text(&self) -> [u8; 80]
        ensures bytes { result ≡ header_text self.now }
        // Each number fits its field, and each hash has 32 bytes.
        ensures fits { IsHeader self.now }
    {
        let mut text = [0u8; 80];
        let (version, rest) = text.split_at_mut(4);
        version.copy_from_slice(&self.version.to_le_bytes());
        let (prev, rest) = rest.split_at_mut(32);
        prev.copy_from_slice(&self.prev.0);
        let (root, rest) = rest.split_at_mut(32);
        root.copy_from_slice(&self.root.0);
        let (time, rest) = rest.split_at_mut(4);
        time.copy_from_slice(&self.time.to_le_bytes());
        let (bits, nonce) = rest.split_at_mut(4);
        bits.copy_from_slice(&self.bits.to_le_bytes());
        nonce.copy_from_slice(&self.nonce.to_le_bytes());
        text
    }

    /// The block hash: the double SHA-256 of the 80 bytes.
    pub fn hash(&self) -> Hash256
        ensures { result ≡ double_hash (header_text self.now) }
    {
        dsha(&self.text())
    }
}

/// The block hashes of four headers, hashed side by side. That takes less than half the
/// instructions of four calls of `Header::hash`.
pub fn hashes_of_four(
    first: &Header,
    second: &Header,
    third: &Header,
    fourth: &Header,
) -> [Hash256; 4]
    ensures { result ≡ double_hash (header_text first.now) ∷ double_hash (header_text second.now)
        ∷ double_hash (header_text third.now) ∷ double_hash (header_text fourth.now) ∷ [] }
{
    dsha_80s(&first.text(), &second.text(), &third.text(), &fourth.text())
}

/// Reads a header. After an error the cursor may have advanced.
#[tactic(auto, unfolding(crate::specs::BlockReading::header_at))]
fn header_or_fault(cursor: &mut Cursor) -> Result<Header, Fault>
    ensures { Gives (header_at cursor.old) result cursor.new }
{
    let version = cursor.i32()?;
    let prev = read_hash(cursor)?;
    let root = read_hash(cursor)?;
    let time = cursor.u32()?;
    let bits = cursor.u32()?;
    let nonce = cursor.u32()?;
    Ok(Header {
        version,
        prev,
        root,
        time,
        bits,
        nonce,
    })
}

/// Decodes the header at the front. Returns it with a cursor at the bytes after it.
fn header_of(bytes: &[u8]) -> Result<(Header, Cursor<'_>), Fault>
    ensures exact { MatchResult result (λ read. header_at bytes.now ≡ Ok (read.0, read.1))
        (λ fault. header_at bytes.now ≡ Err fault) }
    ensures bytes { (i : ℕ) → slice_index bytes.now i < 256 }
{
    let mut cursor = Cursor::new(bytes);
    let header = header_or_fault(&mut cursor)?;
    Ok((header, cursor))
}

/// Reads a header: the next 80 bytes. Fails with `Fault::Truncated` if fewer are left. The cursor
/// then stays where it was.
pub fn read_header<'a>(cursor: &mut Cursor<'a>) -> Result<Header, Fault>
    ensures exact { Reads (header_at cursor.old) cursor.old result cursor.new }
    // On success, the bytes began with the header's serialisation.
    ensures found { IfOk result
        (λ header. IsHeader header × (cursor.old ≡ header_text header ++ cursor.new)) }
    // The serialisation of any header is read, whatever bytes follow it.
    ensures only { (header : Header) (rest : List ℕ) → IsHeader header →
        cursor.old ≡ header_text header ++ rest
        → (result ≡ Ok header) × (cursor.new ≡ rest) }
{
    let left = cursor.left();
    let bytes = cursor.take(left)?;
    match header_of(bytes) {
        Ok((header, rest)) => {
            *cursor = rest;
            Ok(header)
        }
        Err(fault) => {
            *cursor = Cursor::new(bytes);
            Err(fault)
        }
    }
}

fn are_zero(bytes: &[u8]) -> bool
    ensures { IsTrue result ↔ All (λ byte. byte ≡ 0) bytes.now }
{
    bytes.iter().all(|byte| *byte == 0)
}

/// Whether the hash, as a little-endian number, is at most the target of regtest: 7fffff followed
/// by 29 zero bytes.
fn meets_target(hash: &[u8]) -> bool
    requires { length hash.now ≡ 32 }
    ensures { IsTrue result ↔ (little_endian hash.now ≤ 8388607 * 256 ^ 29) }
{
    let (low, top) = hash.split_at(29);
    let high = u32::from_le_bytes([top[0], top[1], top[2], 0]);
    if high == 0x7f_ffff {
        return are_zero(low);
    }
    high < 0x7f_ffff
}

/// Checks the proof of work of a header whose hash is known. Fails with `Fault::BadWork` if the
/// bits aren't those of regtest (`BITS`) or if the hash is above their target.
pub fn check_hashed_header(header: &Header, hash: &Hash256) -> Result<(), Fault>
    requires { hash.now ≡ double_hash (header_text header.now) }
    ensures { MatchResult result (λ _. HasWork header.now)
        (λ fault. (fault ≡ BadWork) × (¬ HasWork header.now)) }
{
    if header.bits == BITS && meets_target(hash.0.as_slice()) {
        return Ok(());
    }
    Err(Fault::BadWork)
}

/// Checks the proof of work of a header and returns its hash. Fails with `Fault::BadWork` if the
/// bits aren't those of regtest (`BITS`) or if the hash is above their target.
pub fn hash_with_work(header: &Header) -> Result<Hash256, Fault>
    ensures { MatchResult result
        (λ hash. (hash ≡ double_hash (header_text header.now)) × HasWork header.now)
        (λ fault. (fault ≡ BadWork) × (¬ HasWork header.now)) }
{
    if header.bits != BITS {
        return Err(Fault::BadWork);
    }
    let hash = header.hash();
    if !meets_target(hash.0.as_slice()) {
        return Err(Fault::BadWork);
    }
    Ok(hash)
}

/// Checks the proof of work of a header. Fails with `Fault::BadWork` if the bits aren't those of
/// regtest (`BITS`) or if the hash is above their target.
pub fn check_header(header: &Header) -> Result<(), Fault>
    ensures { MatchResult result (λ _. HasWork header.now)
        (λ fault. (fault ≡ BadWork) × (¬ HasWork header.now)) }
{
    hash_with_work(header)?;
    Ok(())
}
