ghost use Rattle.std.specs.Prelude.{◌≡◌, ℕ, ◌^◌, ◌<◌, ◌↔◌, ◌++◌, List, length, slice_index, IfOk, MatchResult, Ok, Err};
ghost use Rattle.std.specs.Int.{w8, w16, w32, w64};
ghost use Rattle.cb_base.specs.CompactSize.{BeginsLonger, Gives, compact_at, compact_text, wanted};
ghost use Rattle.cb_base.specs.declared.fault.Fault.TheVariants.{NotShortest, Truncated};
ghost use Rattle.cb_base.specs.Reading.{Reads, ReadsBy, bytes_at, number_at, port_at, signed_at};

use crate::fault::Fault;
use std::marker::Model;

/// Reads a byte slice from its front. Contracts see the bytes that are left.
///
/// A read fails with `Fault::Truncated` if too few bytes are left. A failed read leaves the cursor
/// where it was.
#[derive(Drop)]
pub struct Cursor<'a> {
    rest: &'a [u8],
}

impl<'a> Model for Cursor<'a> {
    ghost use Rattle.std.specs.Prelude.{ℕ, List};

    ghost Value = { List ℕ };

    ghost view = { λ cursor. cursor.rest.now };
}

impl<'a> Cursor<'a> {
    /// A cursor at the beginning of the slice.
    pub fn new(bytes: &'a [u8]) -> Cursor<'a>
        ensures { result ≡ bytes.entry.now }
    {
        Cursor { rest: bytes }
    }

    /// How many bytes are left.
    pub fn left(&self) -> usize
        ensures { result ≡ length self.now }
    {
        self.rest.len()
    }

    /// Reads the next `n` bytes.
    pub fn take(&mut self, n: usize) -> Result<&'a [u8], Fault>
        ensures { ReadsBy (λ bytes. bytes.now) (bytes_at n self.old) self.old result self.new }
    {
        let bytes = self.rest;
        if bytes.len() < n {
            return Err(Fault::Truncated);
        }
        let (front, rest) = bytes.split_at(n);
        self.rest = rest;
        Ok(front)
    }

    /// Reads one byte.
    pub fn u8(&mut self) -> Result<u8, Fault>
        ensures { Reads (number_at w8 self.old) self.old result self.new }
    {
        let bytes = self.take(1)?;
        Ok(bytes[0])
    }

    /// Reads a little-endian number of two bytes.
    pub fn u16(&mut self) -> Result<u16, Fault>
        ensures { Reads (number_at w16 self.old) self.old result self.new }
    {
        let bytes = self.take(2)?;
        Ok(u16::from_le_bytes([bytes[0], bytes[1]]))
    }

    /// Reads a big-endian number of two bytes, as the port of a network address is sent.
    pub fn u16_big(&mut self) -> Result<u16, Fault>
        ensures { Reads (port_at self.old) self.old result self.new }
    {
        let bytes = self.take(2)?;
        Ok(u16::from_be_bytes([bytes[0], bytes[1]]))
    }

    /// Reads a little-endian number of four bytes.
    pub fn u32(&mut self) -> Result<u32, Fault>
        ensures { Reads (number_at w32 self.old) self.old result self.new }
    {
        let bytes = self.take(4)?;
        Ok(u32::from_le_bytes([bytes[0], bytes[1], bytes[2], bytes[3]]))
    }

    /// Reads a little-endian number of four bytes in two's complement.
    pub fn i32(&mut self) -> Result<i32, Fault>
        ensures { Reads (signed_at w32 self.old) self.old result self.new }
    {
        Ok(self.u32()?.cast_signed())
    }

    /// Reads a little-endian number of eight bytes.
    pub fn u64(&mut self) -> Result<u64, Fault>
        ensures { Reads (number_at w64 self.old) self.old result self.new }
    {
        let bytes = self.take(8)?;
        Ok(u64::from_le_bytes([
            bytes[0], bytes[1], bytes[2], bytes[3], bytes[4], bytes[5], bytes[6], bytes[7],
        ]))
    }

    /// Reads a little-endian number of eight bytes in two's complement.
    pub fn i64(&mut self) -> Result<i64, Fault>
        ensures { Reads (signed_at w64 self.old) self.old result self.new }
    {
        Ok(self.u64()?.cast_signed())
    }

    /// Reads a CompactSize: 1, 3, 5 or 9 bytes. Fails with `Fault::NotShortest` if the number has a
    /// shorter encoding, and with `Fault::Truncated` if bytes are missing.
    pub fn compact(&mut self) -> Result<u64, Fault>
        ensures exact { Reads (compact_at self.old) self.old result self.new }
        // On success, the bytes began with the shortest encoding of the number.
        ensures found { IfOk result (λ number. self.old ≡ compact_text number ++ self.new) }
        // The shortest encoding of any number below 2^64 is read, whatever bytes follow it.
        ensures only { (number : ℕ) (rest : List ℕ) → number < 2 ^ 64 →
            self.old ≡ compact_text number ++ rest
            → (result ≡ Ok number) × (self.new ≡ rest) }
        ensures longer { (result ≡ Err NotShortest) ↔ BeginsLonger self.old }
        ensures short { (result ≡ Err Truncated) ↔ (length self.old < wanted self.old) }
    {
        let (number, rest) = compact_of(self.rest)?;
        self.rest = rest;
        Ok(number)
    }

    /// Reads a CompactSize. After an error the cursor may have advanced.
    #[tactic(auto, unfolding(crate::specs::CompactSize::compact_at, crate::specs::CompactSize::wide_at))]
    fn compact_or_fault(&mut self) -> Result<u64, Fault>
        ensures { Gives (compact_at self.old) result self.new }
    {
        let first = self.u8()?;
        if first < 253 {
            return Ok(u64::from(first));
        }
        let (number, least) = match first {
            253 => (u64::from(self.u16()?), 253),
            254 => (u64::from(self.u32()?), 0x1_0000),
            _ => (self.u64()?, 0x1_0000_0000),
        };
        if number < least {
            return Err(Fault::NotShortest);
        }
        Ok(number)
    }
}

/// Decodes the CompactSize at the front. Returns it with the bytes after it.
fn compact_of(bytes: &[u8]) -> Result<(u64, &[u8]), Fault>
    ensures exact { MatchResult result (λ read. compact_at bytes.now ≡ Ok (read.0, read.1.now))
        (λ fault. compact_at bytes.now ≡ Err fault) }
    ensures bytes { (i : ℕ) → slice_index bytes.now i < 256 }
{
    let mut cursor = Cursor::new(bytes);
    let number = cursor.compact_or_fault()?;
    Ok((number, cursor.rest))
}
