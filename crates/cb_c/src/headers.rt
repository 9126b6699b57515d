ghost use Rattle.std.specs.Prelude.{◌≡◌};
ghost use Rattle.cb_block.specs.BlockText.{header_text};
ghost use Rattle.cb_block.specs.Work.{HasWork};
ghost use Rattle.cb_block.specs.declared.header.Header.{Header};
ghost use Rattle.cb_relay.specs.Shapes.{header_of};
ghost use Rattle.cb_relay.specs.Whole.{IsHeaderOf, IsNoHeader, IsNoWork};
ghost use Rattle.cb_c.specs.Giving.{IsGiven};
ghost use Rattle.cb_c.specs.Status.{Answers};

use crate::giving::give;
use crate::status::status;
use cb_relay::{CbHeader, check_work, header_fields, header_from_fields, whole_header};

/// Reads the header that is all of these bytes. After a fault `fields` is unchanged.
#[unsafe(no_mangle)]
pub extern "C" fn cbrelay_header_read(header: &[u8], fields: &mut CbHeader) -> u32
    ensures { Answers result
        (IsHeaderOf header.now (header_of fields.new))
        (λ fault. IsNoHeader header.now fault × (fields.new ≡ fields.old)) }
{
    match whole_header(header) {
        Ok(read) => {
            *fields = header_fields(&read);
            0
        }
        Err(fault) => status(fault),
    }
}

/// Writes the 80 bytes of a header.
#[unsafe(no_mangle)]
pub extern "C" fn cbrelay_header_write(header: &CbHeader, out: &mut [u8], len: &mut usize) -> u32
    ensures { IsGiven (header_text (header_of header.now)) out.old out.new len.new result }
{
    let text = header_from_fields(header).text();
    give(text.as_slice(), out, len)
}

/// Checks the proof of work, for regtest, of the header that is all of these bytes.
#[unsafe(no_mangle)]
pub extern "C" fn cbrelay_header_check(header: &[u8]) -> u32
    ensures { Answers result
        ((read : Header) × IsHeaderOf header.now read × HasWork read)
        (IsNoWork header.now) }
{
    match check_work(header) {
        Ok(()) => 0,
        Err(fault) => status(fault),
    }
}
