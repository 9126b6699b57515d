//! The command `decode`: prints the items of a stream of P2P messages, one per line.

ghost use Rattle.std.specs.Prelude.{◌≡◌, ◌⊎◌, ℕ, List, [], ◌++◌, ◌%◌, length, ⊤, IsOk, IfOk, IfErr, IsOkUnless, OnOk, MatchOption, None, string_bytes, Ok, true, false};
ghost use Rattle.std.specs.Io.KnownBytes.{Appends};
ghost use Rattle.hex.specs.Hex.{decode_of};
ghost use Rattle.cb_control.specs.declared.ending.Halt.TheVariants.{Memory, WriteFailed};
ghost use Rattle.cb_control.specs.Ending.{HasCause};
ghost use Rattle.cb_commands.specs.Report.{Decodes, IsNotHex, ReportsKnown, rest_text, not_hex_text, stream_status};

use crate::printed::{push_fault, push_items};
use cb_base::{Fault, Sink, Source};
use cb_control::{Halt, LineReader, Status, write_all};
use cb_wire::{Assembler, Item};
use hex::FromHexError;
use std::alloc::Global;
use std::marker::Model;

/// Prints the items of a stream of P2P messages. Each line of the input is a piece of the stream in
/// hex.
///
/// A fault of the stream is printed once; the lines after it print nothing. A line that isn't hex
/// is printed by its number and ends the run. Otherwise the last line tells how many bytes are left
/// after the last whole envelope.
///
/// Returns `Status::Success`, or `Status::RunFailed` for a fault of the stream or a line that isn't
/// hex. Fails if memory runs out, a read or a write fails, or there are too many lines.
pub fn decode<R: Source, W: Sink>(
    alloc: Global,
    reader: &mut R,
    writer: &mut W,
) -> Result<Status, Halt>
    // For a reader and a writer whose bytes are known: the status, and what is printed for the
    // whole input.
    ensures report { IfOk result
        (ReportsKnown (R.remaining reader.old) (W.contents writer.old) (W.contents writer.new)) }
    // For every reader and writer: the status, and why a run ends early.
    ensures status { IfOk result
        (λ status. (status ≡ Status.Success) ⊎ (status ≡ Status.RunFailed)) }
    ensures halts { IfErr result
        (HasCause (R.remaining reader.old) (R.has_failed reader.new) (W.has_failed writer.new)) }
{
    let mut lines = LineReader::new(alloc)?;
    let mut decoding = Decoding::new(alloc);
    for number in 1..u64::MAX {
        if !lines.advance(reader)? {
            print_rest(alloc, decoding.rest_len(), writer)?;
            return Ok(decoding.status());
        }
        match decoding.line(lines.line())? {
            Some(text) => write_all(writer, text.as_bytes())?,
            None => {
                print_not_hex(alloc, number, writer)?;
                return Ok(Status::RunFailed);
            }
        }
    }
    Err(Halt::TooManyLines)
}

/// Prints how many bytes are left over.
fn print_rest<W: Sink>(alloc: Global, rest: usize, writer: &mut W) -> Result<(), Halt>
    ensures text { OnOk result
        (Appends (W.contents writer.old) (W.contents writer.new) (rest_text rest)) }
    ensures err { IfErr result
        (λ halt. (halt ≡ Memory) ⊎ ((halt ≡ WriteFailed) × (W.has_failed writer.new ≡ true))) }
{
    let text = format!(in alloc; "rest {rest}\n")?;
    write_all(writer, text.as_bytes())
}

/// Prints that the line with this number isn't hex.
fn print_not_hex<W: Sink>(alloc: Global, number: u64, writer: &mut W) -> Result<(), Halt>
    ensures text { OnOk result
        (Appends (W.contents writer.old) (W.contents writer.new) (not_hex_text number)) }
    ensures err { IfErr result
        (λ halt. (halt ≡ Memory) ⊎ ((halt ≡ WriteFailed) × (W.has_failed writer.new ≡ true))) }
{
    let text = format!(in alloc; "line {number} not hex\n")?;
    write_all(writer, text.as_bytes())
}

/// A stream that is decoded piece by piece. Contracts see the bytes left after the last whole
/// envelope, and the stream's fault.
#[derive(Drop)]
pub struct Decoding {
    alloc: Global,
    assembler: Assembler,
    fault: Option<Fault>,
}

impl Model for Decoding {
    ghost use Rattle.std.specs.Prelude.{◌≡◌};
    ghost use Rattle.cb_commands.specs.Report.{Decoded};

    ghost Value = { Decoded };

    ghost view = { λ decoding.
        record { rest = decoding.assembler.rest; fault = decoding.assembler.fault } };

    ghost invariant = { λ decoding. decoding.fault ≡ decoding.assembler.fault };
}

impl Decoding {
    ghost use Rattle.cb_commands.specs.Report.{Decoded};

    /// A stream of which no byte came yet.
    pub fn new(alloc: Global) -> Decoding
        ensures { result ≡ record { rest = []; fault = None } }
    {
        Decoding {
            alloc,
            assembler: Assembler::new(alloc),
            fault: None,
        }
    }

    /// Decodes the piece whose hex is this line. Returns what is printed for it, or `None` if the
    /// line isn't hex; the stream is then unchanged. Fails only with `Halt::Memory`.
    pub fn line(&mut self, line: &[u8]) -> Result<Option<String>, Halt>
        // The text continues what was printed for all bytes before.
        ensures hex { IfOk result
            (λ printed. MatchOption printed (IsNotHex line.now)
            (λ text. (piece : List ℕ) × (decode_of line.now ≡ Ok piece)
            × ((bytes out : List ℕ) → Decodes bytes out self.old →
            Decodes (bytes ++ piece) (out ++ string_bytes text) self.new))) }
        ensures not_hex { IfOk result
            (λ printed. MatchOption printed (self.new ≡ self.old) (λ text. ⊤)) }
        ensures memory { IsOkUnless result Memory }
        // A line of odd length needs no memory.
        ensures odd { length line.now % 2 ≡ 1 → IsOk result }
    {
        match hex::decode(self.alloc, line) {
            Ok(piece) => Ok(Some(self.piece(piece.as_slice())?)),
            Err(FromHexError::OutOfMemory) => Err(Halt::Memory),
            Err(_) => Ok(None),
        }
    }

    /// Decodes the next piece. Returns what is printed for it. Fails only with `Halt::Memory`.
    fn piece(&mut self, piece: &[u8]) -> Result<String, Halt>
        ensures printed { IfOk result (λ text. (bytes out : List ℕ) → Decodes bytes out self.old →
            Decodes (bytes ++ piece.now) (out ++ string_bytes text) self.new) }
        ensures memory { IsOkUnless result Memory }
    {
        let told = self.fault.is_some();
        let fed = self.assembler.feed(piece).map_err(Halt::of_memory)?;
        self.fault = fed.fault;
        let mut text = String::new(self.alloc);
        push_items(self.alloc, &mut text, fed.items.as_slice())?;
        if !told {
            push_fault(&mut text, fed.fault)?;
        }
        Ok(text)
    }

    /// How many bytes are left after the last whole envelope.
    pub fn rest_len(&self) -> usize
        ensures { result ≡ length self.now.rest }
    {
        self.assembler.rest_len()
    }

    /// The status of a run that ends now.
    pub fn status(&self) -> Status
        ensures { result ≡ stream_status self.now.fault }
    {
        match self.fault {
            Some(_) => Status::RunFailed,
            None => Status::Success,
        }
    }
}
