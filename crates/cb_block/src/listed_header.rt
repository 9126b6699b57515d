//! A header as it stands in `headers`: its 80 bytes and a count of 0 transactions.
ghost use Rattle.std.specs.Prelude.{◌≡◌, ◌+◌, ◌-◌, ◌^◌, ◌<◌, ◌≤◌, ◌++◌, length, min, IsOkUnless, OnOk, OnErr, vec_capacity, vec_len};
ghost use Rattle.cb_base.specs.CompactSize.{Gives};
ghost use Rattle.cb_base.specs.declared.fault.Fault.TheVariants.{Memory};
ghost use Rattle.cb_block.specs.TxWriting.{Extends};
ghost use Rattle.cb_block.specs.BlockReading.{listed_header_at};
ghost use Rattle.cb_block.specs.BlockText.{IsHeader, listed_header_text};

use crate::coded::Coded;
use crate::header::{Header, read_header};
use cb_base::{Cursor, Fault, put_compact};
use std::alloc::Global;

impl Coded for Header {
    ghost use Rattle.cb_block.specs.BlockReading.{listed_header_at};
    ghost use Rattle.cb_block.specs.BlockText.{IsHeader, listed_header_text};

    ghost text = { listed_header_text };

    ghost item_at = { listed_header_at };

    ghost is_kept = { IsHeader };

    ghost LEAST = { 81 };

    const LEAST: u32 = 81;

    fn read(_alloc: Global, cursor: &mut Cursor) -> Result<Header, Fault> {
        read_listed_header(cursor)
    }

    fn put(&self, out: &mut Vec<u8>) -> Result<(), Fault> {
        put_listed_header(out, self)
    }

    fn text_size(&self) -> u64 {
        listed_header_size(self)
    }
}

/// Reads a header of `headers`: 80 bytes and a count of transactions. Fails with `Fault::BadBool`
/// if the count isn't 0.
#[tactic(auto, unfolding(crate::specs::BlockReading::listed_header_at))]
fn read_listed_header(cursor: &mut Cursor) -> Result<Header, Fault>
    ensures { Gives (listed_header_at cursor.old) result cursor.new }
{
    let header = read_header(cursor)?;
    let count = cursor.compact()?;
    if count == 0 {
        Ok(header)
    } else {
        Err(Fault::BadBool)
    }
}

#[tactic(auto, unfolding(crate::specs::BlockText::listed_header_text), using(crate::proofs::Appends::appends))]
fn put_listed_header(out: &mut Vec<u8>, header: &Header) -> Result<(), Fault>
    ensures ok { OnOk result (out.new.items ≡ out.old.items ++ listed_header_text header.now) }
    ensures err { OnErr result (Extends out.old.items out.new.items) }
    ensures memory { IsOkUnless result Memory }
    ensures full { OnErr result
        (vec_capacity out.old < vec_len out.old + length (listed_header_text header.now)) }
    ensures capacity { vec_capacity out.old ≤ vec_capacity out.new }
    ensures kept { IsHeader header.now }
{
    out.extend_from_slice(&header.text())?;
    put_compact(out, 0)
}

#[tactic(auto, unfolding(crate::specs::BlockText::listed_header_text, cb_base::specs::CompactSize::compact_text))]
fn listed_header_size(header: &Header) -> u64
    ensures size { result ≡ min (length (listed_header_text header.now)) (2 ^ 64 - 1) }
    ensures kept { IsHeader header.now }
{
    header.text().as_slice().len() as u64 + 1
}
