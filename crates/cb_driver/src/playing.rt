//! Playing a script, line by line.
ghost use Rattle.std.specs.Prelude.{◌≡◌, IfOk, IfErr, vec_len};
ghost use Rattle.cb_control.specs.Ending.{HasCause};
ghost use Rattle.cb_driver.specs.Playing.{PlaysKnown};

use crate::nodes::Nodes;
use cb_base::{Sink, Source};
use cb_control::{Halt, Host, LineReader, Refusal, Tally, read_script_order, write_outcome};
use std::alloc::Global;

/// How the playing of a script ended.
#[derive(Clone, Copy, PartialEq, Eq)]
pub enum Played {
    /// All lines were played.
    Whole(Tally),
    /// A line couldn't be read.
    Unreadable,
}

/// Plays a script with these nodes; `count` tells how many there are. What became of a line is
/// printed before the next line is read: nothing if it was done. A line that can't be read is
/// printed by its number, and ends the script.
///
/// Fails if memory runs out, a read or a write fails, or there are too many lines.
pub fn play<N: Host, R: Source, W: Sink>(
    alloc: Global,
    nodes: &mut Nodes<N>,
    count: u16,
    reader: &mut R,
    writer: &mut W,
) -> Result<Played, Halt>
    requires count { count ≡ vec_len nodes.old.list }
    // For a reader and a writer whose bytes are known: what is printed for the whole script.
    ensures plays { IfOk result (PlaysKnown count (R.remaining reader.old) (W.contents writer.old)
        (W.contents writer.new)) }
    ensures count { vec_len nodes.new.list ≡ vec_len nodes.old.list }
    // For every reader and writer: why a run ends early.
    ensures halts { IfErr result
        (HasCause (R.remaining reader.old) (R.has_failed reader.new) (W.has_failed writer.new)) }
{
    let mut lines = LineReader::new(alloc)?;
    let mut tally = Tally::good();
    for number in 1..u64::MAX {
        if !lines.advance(reader)? {
            return Ok(Played::Whole(tally));
        }
        let read = read_script_order(alloc, lines.line(), count)?;
        match read {
            Some(order) => {
                let outcome = nodes.obey(order)?;
                write_outcome(alloc, number, outcome, writer)?;
                tally = tally.after(outcome);
            }
            None => {
                write_outcome(alloc, number, Some(Refusal::Unreadable), writer)?;
                return Ok(Played::Unreadable);
            }
        }
    }
    Err(Halt::TooManyLines)
}
