//! The command `sim`: runs the crew's core, one act per line.

ghost use Rattle.std.specs.Prelude.{◌≡◌, ◌⊎◌, true, IfOk, IfErr, OnOk};
ghost use Rattle.std.specs.Io.KnownBytes.{Appends};
ghost use Rattle.cb_control.specs.declared.ending.Halt.TheVariants.{Memory, WriteFailed};
ghost use Rattle.cb_control.specs.Ending.{HasCause};
ghost use Rattle.cb_commands.specs.SimInput.{SimulatesKnown};
ghost use Rattle.cb_commands.specs.SimRun.{final_text, status_of};

use crate::sim::{Flow, Simulation};
use cb_base::{Sink, Source};
use cb_control::{Halt, LineReader, write_all};
use std::alloc::Global;

/// Runs the crew's core from the lines of the input, and prints the report at the end. Returns the
/// exit status: 0; 2 if an act was refused; 3 if a line couldn't be read or there was none.
///
/// What a line prints is written before the next line is read. A line that can't be read ends the
/// run, and no report is printed. Fails if memory runs out, a read or a write fails, or there are
/// too many lines.
pub fn simulate<R: Source, W: Sink>(
    alloc: Global,
    reader: &mut R,
    writer: &mut W,
) -> Result<u8, Halt>
    // For a reader and a writer whose bytes are known: the status, and what is printed for the
    // whole input.
    ensures report { IfOk result
        (SimulatesKnown (R.remaining reader.old) (W.contents writer.old) (W.contents writer.new)) }
    // For every reader and writer: the status, and why a run ends early.
    ensures status { IfOk result (λ status. (status ≡ 0) ⊎ ((status ≡ 2) ⊎ (status ≡ 3))) }
    ensures halts { IfErr result
        (HasCause (R.remaining reader.old) (R.has_failed reader.new) (W.has_failed writer.new)) }
{
    let mut lines = LineReader::new(alloc)?;
    let mut simulation = Simulation::new(alloc);
    for _ in 1..u64::MAX {
        if !lines.advance(reader)? {
            return report(alloc, simulation, writer);
        }
        let mut text = String::new(alloc);
        let flow = simulation
            .line(lines.line(), &mut text)
            .map_err(Halt::of_memory)?;
        write_all(writer, text.as_bytes())?;
        if flow == Flow::Stop {
            return report(alloc, simulation, writer);
        }
    }
    Err(Halt::TooManyLines)
}

/// Prints the report, and returns the exit status.
fn report<W: Sink>(alloc: Global, simulation: Simulation, writer: &mut W) -> Result<u8, Halt>
    ensures text { OnOk result
        (Appends (W.contents writer.old) (W.contents writer.new) (final_text simulation.stage)) }
    ensures status { IfOk result
        (λ status. status ≡ status_of simulation.stage simulation.refused) }
    ensures err { IfErr result
        (λ halt. (halt ≡ Memory) ⊎ ((halt ≡ WriteFailed) × (W.has_failed writer.new ≡ true))) }
{
    let mut text = String::new(alloc);
    let status = simulation.finish(&mut text).map_err(Halt::of_memory)?;
    write_all(writer, text.as_bytes())?;
    Ok(status)
}
