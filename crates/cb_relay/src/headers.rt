ghost use Rattle.std.specs.Prelude.{◌≡◌, IfErr, IfOk};
ghost use Rattle.cb_block.specs.Work.{HasWork};
ghost use Rattle.cb_block.specs.declared.header.Header.{Header};
ghost use Rattle.cb_relay.specs.Shapes.{header_of};
ghost use Rattle.cb_relay.specs.Whole.{IsHeaderOf, IsNoHeader, IsNoWork};

use crate::shapes::{CbHash, CbHeader};
use cb_base::{Cursor, Fault, Hash256};
use cb_block::{Header, check_header, read_header};

/// Reads the header that is all of these bytes. Fails with `Fault::Truncated` below 80 bytes and
/// with `Fault::Trailing` above.
pub fn whole_header(bytes: &[u8]) -> Result<Header, Fault>
    ensures found { IfOk result (IsHeaderOf bytes.now) }
    ensures refused { IfErr result (IsNoHeader bytes.now) }
{
    let mut cursor = Cursor::new(bytes);
    let header = read_header(&mut cursor)?;
    if cursor.left() > 0 {
        return Err(Fault::Trailing);
    }
    Ok(header)
}

/// Checks the proof of work of the header that is all of these bytes, for regtest. Fails as
/// `whole_header` does, then with `Fault::BadWork`.
pub fn check_work(bytes: &[u8]) -> Result<(), Fault>
    ensures fine { IfOk result
        (λ _. (header : Header) × IsHeaderOf bytes.now header × HasWork header) }
    ensures refused { IfErr result (IsNoWork bytes.now) }
{
    let header = whole_header(bytes)?;
    match check_header(&header) {
        Ok(()) => Ok(()),
        Err(fault) => Err(fault),
    }
}

/// The fields of a header, as C has them.
pub fn header_fields(header: &Header) -> CbHeader
    ensures { header_of result ≡ header.now }
{
    let prev = header.prev.0;
    let root = header.root.0;
    CbHeader {
        version: header.version,
        prev: CbHash { bytes: prev },
        root: CbHash { bytes: root },
        time: header.time,
        bits: header.bits,
        nonce: header.nonce,
    }
}

/// The header with the fields that C gave.
pub fn header_from_fields(fields: &CbHeader) -> Header
    ensures { result ≡ header_of fields.now }
{
    let prev = fields.prev.bytes;
    let root = fields.root.bytes;
    Header {
        version: fields.version,
        prev: Hash256(prev),
        root: Hash256(root),
        time: fields.time,
        bits: fields.bits,
        nonce: fields.nonce,
    }
}
