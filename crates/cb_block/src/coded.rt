//! What is read from bytes and written to them, alone or in lists.
use crate::size::{compact_size, input_size, output_size, tx_size};
use crate::tx::{Tx, TxIn, TxOut};
use crate::tx_reading::{read_hash, read_input, read_output, read_tx};
use crate::tx_writing::{put_input, put_output, put_tx};
use cb_base::{Cursor, Fault, Hash256, Shared, put_compact};
use std::alloc::Global;

/// A value that is read from bytes and written to them, alone or as an item of a list.
pub trait Coded: Drop {
    ghost use Rattle.std.specs.Prelude.{◌≡◌, ℕ, ◌+◌, ◌-◌, ◌^◌, ◌<◌, ◌≤◌, List, ◌++◌, length, min, OnOk, OnErr, IsOkUnless, vec_capacity, vec_len};
    ghost use Rattle.cb_base.specs.Reading.{Read};
    ghost use Rattle.cb_base.specs.declared.fault.Fault.TheVariants.{Memory};
    ghost use Rattle.cb_block.specs.TxReading.{GivesInMemory};
    ghost use Rattle.cb_block.specs.TxWriting.{Extends};

    /// The bytes that are written.
    ghost text: { Self → List ℕ };

    /// The definition of reading one value.
    ghost item_at: { List ℕ → Read Self };

    /// Each number is in the range of its field, and each hash has 32 bytes.
    ghost is_kept: { Self → Type 0 };

    ghost LEAST: { ℕ };

    /// The least number of bytes of a value, by which a count of too many is told.
    const LEAST: u32;

    /// Reads one value. After an error the cursor may stand anywhere.
    fn read(alloc: Global, cursor: &mut Cursor) -> Result<Self, Fault>
        ensures { GivesInMemory (item_at cursor.old) result cursor.new };

    /// Appends the value to `out`. Fails only with `Fault::Memory`, and only if the free capacity
    /// is smaller than its text; `out` may then end with a part of it.
    fn put(&self, out: &mut Vec<u8>) -> Result<(), Fault>
        ensures ok { OnOk result (out.new.items ≡ out.old.items ++ text self.now) }
        ensures err { OnErr result (Extends out.old.items out.new.items) }
        ensures memory { IsOkUnless result Memory }
        ensures full { OnErr result
            (vec_capacity out.old < vec_len out.old + length (text self.now)) }
        ensures capacity { vec_capacity out.old ≤ vec_capacity out.new }
        ensures kept { OnOk result (is_kept self.now) };

    /// The length of the text in bytes, or 2^64 - 1 if it is longer.
    fn text_size(&self) -> u64
        ensures size { result ≡ min (length (text self.now)) (2 ^ 64 - 1) }
        ensures kept { is_kept self.now };
}

impl Coded for Hash256 {
    ghost use Rattle.std.specs.Prelude.{◌≡◌, length};
    ghost use Rattle.cb_block.specs.TxReading.{hash_at};

    ghost text = { λ hash. hash.0 };

    ghost item_at = { hash_at };

    ghost is_kept = { λ hash. length hash.0 ≡ 32 };

    ghost LEAST = { 32 };

    const LEAST: u32 = 32;

    fn read(_alloc: Global, cursor: &mut Cursor) -> Result<Hash256, Fault> {
        read_hash(cursor)
    }

    fn put(&self, out: &mut Vec<u8>) -> Result<(), Fault> {
        out.extend_from_slice(self.bytes())?;
        Ok(())
    }

    fn text_size(&self) -> u64 {
        self.bytes().len() as u64
    }
}

/// A number in a list is a CompactSize. It has 1 to 9 bytes; `LEAST` is the least.
impl Coded for u64 {
    ghost use Rattle.std.specs.Prelude.{◌<◌, ◌^◌};
    ghost use Rattle.cb_base.specs.CompactSize.{compact_at, compact_text};

    ghost text = { compact_text };

    ghost item_at = { compact_at };

    ghost is_kept = { λ number. number < 2 ^ 64 };

    ghost LEAST = { 1 };

    const LEAST: u32 = 1;

    fn read(_alloc: Global, cursor: &mut Cursor) -> Result<u64, Fault> {
        cursor.compact()
    }

    fn put(&self, out: &mut Vec<u8>) -> Result<(), Fault> {
        put_compact(out, *self)
    }

    fn text_size(&self) -> u64 {
        compact_size(*self)
    }
}

impl Coded for TxIn {
    ghost use Rattle.cb_block.specs.TxReading.{input_at};
    ghost use Rattle.cb_block.specs.TxText.{IsInput, input_text};

    ghost text = { input_text };

    ghost item_at = { input_at };

    ghost is_kept = { IsInput };

    ghost LEAST = { 41 };

    const LEAST: u32 = 41;

    fn read(alloc: Global, cursor: &mut Cursor) -> Result<TxIn, Fault> {
        read_input(alloc, cursor)
    }

    fn put(&self, out: &mut Vec<u8>) -> Result<(), Fault> {
        put_input(out, self)
    }

    fn text_size(&self) -> u64 {
        input_size(self)
    }
}

impl Coded for TxOut {
    ghost use Rattle.cb_block.specs.TxReading.{output_at};
    ghost use Rattle.cb_block.specs.TxText.{IsOutput, output_text};

    ghost text = { output_text };

    ghost item_at = { output_at };

    ghost is_kept = { IsOutput };

    ghost LEAST = { 9 };

    const LEAST: u32 = 9;

    fn read(alloc: Global, cursor: &mut Cursor) -> Result<TxOut, Fault> {
        read_output(alloc, cursor)
    }

    fn put(&self, out: &mut Vec<u8>) -> Result<(), Fault> {
        put_output(out, self)
    }

    fn text_size(&self) -> u64 {
        output_size(self)
    }
}

impl Coded for Shared<Tx> {
    ghost use Rattle.cb_block.specs.TxReading.{tx_at};
    ghost use Rattle.cb_block.specs.TxText.{IsTx, tx_text};

    ghost text = { tx_text };

    ghost item_at = { tx_at };

    ghost is_kept = { IsTx };

    ghost LEAST = { 10 };

    const LEAST: u32 = 10;

    fn read(alloc: Global, cursor: &mut Cursor) -> Result<Shared<Tx>, Fault> {
        Ok(Shared::new(alloc, read_tx(alloc, cursor)?)?)
    }

    fn put(&self, out: &mut Vec<u8>) -> Result<(), Fault> {
        put_tx(out, self)
    }

    fn text_size(&self) -> u64 {
        tx_size(self)
    }
}
