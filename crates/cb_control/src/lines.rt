//! Cutting the bytes of a source into lines.

ghost use Rattle.std.specs.Prelude.{◌≡◌, ◌⊎◌, ◌<◌, ◌^◌, true, [], length, vec_len, IsOkUnless, IfOk, IfErr, OnErr, position, ◌==◌};
ghost use Rattle.std.specs.Io.KnownBytes.{prepend_known, Consumes, IsAtEnd};
ghost use Rattle.std.specs.Str.Lines.{strip_carriage_return};
ghost use Rattle.std.specs.Bool.{OnFalse, OnTrue};
ghost use Rattle.cb_control.specs.Lines.{Cutting, Moves, NextLine};
ghost use Rattle.cb_control.specs.declared.ending.Halt.TheVariants.{Memory, ReadFailed};

use crate::ending::Halt;
use cb_base::Source;
use std::alloc::Global;
use std::marker::Model;

/// The size of a read, in bytes.
const BLOCK_LEN: usize = 65_536;

/// Cuts the bytes of a source into lines. It reads in blocks and keeps the bytes that it has read
/// ahead.
///
/// For the prover its value is the current line and the bytes that were read ahead.
#[derive(Drop)]
pub struct LineReader {
    line: Vec<u8>,
    block: Vec<u8>,
    filled: usize,
    used: usize,
}

impl Model for LineReader {
    ghost use Rattle.std.specs.Prelude.{◌<◌, ◌≤◌, drop, take, vec_len};
    ghost use Rattle.cb_control.specs.Lines.{Cutting};

    ghost Value = { Cutting };

    ghost view = { λ reader.
        record {
          line = reader.line.items;
          ahead = drop reader.used (take reader.filled reader.block.items);
        } };

    ghost invariant = { λ reader. (reader.used ≤ reader.filled)
        × (reader.filled ≤ vec_len reader.block) × (0 < vec_len reader.block) };
}

impl LineReader {
    ghost use Rattle.cb_control.specs.Lines.{Cutting};

    /// A reader that has read nothing. Fails only with `Halt::Memory`.
    pub fn new(alloc: Global) -> Result<LineReader, Halt>
        ensures empty { IfOk result (λ reader. reader ≡ record { line = []; ahead = [] }) }
        ensures memory { IsOkUnless result Memory }
    {
        Ok(LineReader {
            line: Vec::new(alloc),
            block: empty_block(alloc)?,
            filled: 0,
            used: 0,
        })
    }

    /// The line that `advance` found, without its line ending.
    pub fn line(&self) -> &[u8]
        ensures { result.now ≡ self.now.line }
    {
        self.line.as_slice()
    }

    /// Goes to the next line. Returns false if there is none.
    ///
    /// A line ends with LF or CR LF. The last line needs no ending. Fails with `Halt::Memory` if an
    /// allocation fails, and with `Halt::ReadFailed` if a read fails.
    pub fn advance<R: Source>(&mut self, source: &mut R) -> Result<bool, Halt>
        ensures next { IfOk result (λ found. NextLine found
            (prepend_known self.old.ahead (R.remaining source.old))
            (prepend_known self.new.ahead (R.remaining source.new)) self.new.line) }
        ensures err { IfErr result
            (λ halt. (halt ≡ Memory) ⊎ ((halt ≡ ReadFailed) × (R.has_failed source.new ≡ true))) }
    {
        self.start_line();
        // Each block without an LF makes the line longer. So the loop ends, at the latest when
        // memory runs out.
        while !self.take_ahead()? {
            if !self.read_ahead(source)? {
                return Ok(!self.line.is_empty());
            }
        }
        self.end_line();
        Ok(true)
    }

    /// Empties the line.
    fn start_line(&mut self)
        ensures { self.new ≡ record self.old { line = [] } }
    {
        self.line.clear();
    }

    /// Removes one CR from the end of the line, if it has one.
    fn end_line(&mut self)
        ensures { self.new ≡ record self.old { line = strip_carriage_return self.old.line } }
    {
        let length = self.line.len();
        if length > 0 && self.line[length - 1] == b'\r' {
            self.line.truncate(length - 1);
        }
    }

    /// Moves the bytes that were read ahead to the line, up to the first LF, which is dropped.
    /// Returns whether there was an LF. Fails only with `Halt::Memory`.
    fn take_ahead(&mut self) -> Result<bool, Halt>
        ensures moves { IfOk result (λ found. Moves found self.old self.new) }
        ensures room { IfOk result (λ found. length self.new.line < 2 ^ 63) }
        ensures memory { IsOkUnless result Memory }
    {
        let (filled, _) = self.block.split_at(self.filled);
        let (_, ahead) = filled.split_at(self.used);
        match first_feed(ahead) {
            Some(place) => {
                let (front, _) = ahead.split_at(place);
                self.line.extend_from_slice(front)?;
                self.used += place + 1;
                Ok(true)
            }
            None => {
                self.line.extend_from_slice(ahead)?;
                self.used = self.filled;
                Ok(false)
            }
        }
    }

    /// Reads the next block, when nothing is left of the last one. Returns false at the end of the
    /// source. Fails only with `Halt::ReadFailed`.
    fn read_ahead<R: Source>(&mut self, source: &mut R) -> Result<bool, Halt>
        requires { self.old.ahead ≡ [] }
        ensures read { IfOk result
            (λ more. Consumes (R.remaining source.old) (R.remaining source.new) self.new.ahead) }
        ensures line { self.new.line ≡ self.old.line }
        ensures more { IfOk result (λ more. OnTrue more (0 < length self.new.ahead)) }
        ensures end { IfOk result
            (λ more. OnFalse more ((self.new.ahead ≡ []) × IsAtEnd (R.remaining source.new))) }
        ensures failed { IsOkUnless result ReadFailed }
        ensures marked { OnErr result (R.has_failed source.new ≡ true) }
    {
        match source.read(self.block.as_mut_slice()) {
            Some(count) => {
                self.filled = count;
                self.used = 0;
                Ok(count > 0)
            }
            None => Err(Halt::ReadFailed),
        }
    }
}

/// A buffer of 65,536 bytes. Fails only with `Halt::Memory`.
fn empty_block(alloc: Global) -> Result<Vec<u8>, Halt>
    ensures length { IfOk result (λ block. vec_len block ≡ 65536) }
    ensures memory { IsOkUnless result Memory }
{
    Ok(vec![in alloc; 0; BLOCK_LEN]?)
}

/// The index of the first LF.
fn first_feed(bytes: &[u8]) -> Option<usize>
    ensures { result ≡ position (λ byte. byte == 10) bytes.now }
{
    bytes.iter().position(|byte| *byte == b'\n')
}
