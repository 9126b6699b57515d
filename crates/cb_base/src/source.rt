ghost use Rattle.std.specs.Prelude.{◌≡◌, ℕ, ◌≤◌, ◌||◌, Bool, List, Option, IfSome, length, false, is_none};
ghost use Rattle.cb_base.specs.Bytes.{SourceGives};

use crate::sink::TRIES;
use std::io::{ErrorKind, Read};

/// A reader that remembers whether a read has failed.
pub trait Source {
    /// The bytes that are still to be read, if they are known.
    ghost remaining: { Self → Option (List ℕ) };

    /// Whether a read has failed.
    ghost has_failed: { Self → Bool };

    /// Reads into the buffer and returns how many bytes it got, or None if the read failed. It gets
    /// 0 bytes only at the end of the input, or if the buffer is empty.
    fn read(&mut self, buffer: &mut [u8]) -> Option<usize>
        ensures given { IfSome result (λ n. n ≤ length buffer.new) }
        ensures bytes { SourceGives (remaining self.old) (remaining self.new) result buffer.new }
        ensures failed { has_failed self.new ≡ (has_failed self.old || is_none result) };

    /// Whether a read has returned None.
    fn failed(&self) -> bool
        ensures { result ≡ has_failed self.now };
}

/// A source over any reader. A read that was interrupted is tried again, up to `TRIES` tries in
/// all.
#[derive(Drop)]
pub struct In<R> {
    reader: R,
    failed: bool,
}

impl<R> In<R> {
    /// A source over `reader` that hasn't failed.
    pub fn new(reader: R) -> In<R>
        ensures reader { result.reader ≡ reader }
        ensures failed { result.failed ≡ false }
    {
        In {
            reader,
            failed: false,
        }
    }
}

impl<R: Read> Source for In<R> {
    ghost remaining = { λ source. R.remaining source.reader };

    ghost has_failed = { λ source. source.failed };

    fn read(&mut self, buffer: &mut [u8]) -> Option<usize> {
        let given = read_again(&mut self.reader, buffer);
        if given.is_none() {
            self.failed = true;
        }
        given
    }

    fn failed(&self) -> bool {
        self.failed
    }
}

/// Reads once, and again while the read is interrupted. None if a read failed, or was interrupted
/// `TRIES` times.
fn read_again<R: Read>(reader: &mut R, buffer: &mut [u8]) -> Option<usize>
    ensures given { IfSome result (λ n. n ≤ length buffer.new) }
    ensures bytes { SourceGives (R.remaining reader.old)
        (R.remaining reader.new) result buffer.new }
{
    for _ in 0..TRIES {
        match reader.read(buffer) {
            Ok(n) => return Some(n),
            Err(error) => {
                if error.kind() != ErrorKind::Interrupted {
                    return None;
                }
            }
        }
    }
    None
}
