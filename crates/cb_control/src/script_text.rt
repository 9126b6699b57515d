//! What a script's user is told of its lines.
ghost use Rattle.std.specs.Prelude.{◌≡◌, Err, IfErr, OnOk};
ghost use Rattle.std.specs.Io.KnownBytes.{Appends};
ghost use Rattle.cb_control.specs.declared.ending.Halt.TheVariants.{Memory};
ghost use Rattle.cb_control.specs.Outcomes.{LacksOrFails, good, outcome_text, status_of, tally_after, tally_audited};

use crate::ending::{Halt, Status};
use crate::output::write_all;
use crate::refusal::Refusal;
use cb_base::Sink;
use std::alloc::Global;

/// Prints what became of the line with this number: nothing if it was done, else the number and why
/// it was refused.
pub fn write_outcome<W: Sink>(
    alloc: Global,
    number: u64,
    outcome: Option<Refusal>,
    writer: &mut W,
) -> Result<(), Halt>
    ensures text { OnOk result
        (Appends (W.contents writer.old) (W.contents writer.new) (outcome_text number outcome)) }
    ensures err { IfErr result (LacksOrFails (W.has_failed writer.new)) }
    // The text is made before anything is written.
    ensures starved { result ≡ Err Memory → writer.new ≡ writer.old }
{
    let Some(refusal) = outcome else {
        return Ok(());
    };
    let text = format!(in alloc; "{number} {refusal}\n")?;
    write_all(writer, text.as_bytes())
}

/// How a run stands: what decides about its exit status.
#[derive(Clone, Copy, PartialEq, Eq)]
pub struct Tally {
    /// A node refused something.
    pub refused: bool,
    /// Something failed: a slot or a socket, a wait, or an audit.
    pub failed: bool,
}

impl Tally {
    /// A run in which all went well so far.
    pub fn good() -> Tally
        ensures { result ≡ good }
    {
        Tally {
            refused: false,
            failed: false,
        }
    }

    /// After one more line.
    pub fn after(self, outcome: Option<Refusal>) -> Tally
        ensures { result ≡ tally_after self outcome }
    {
        let Some(refusal) = outcome else {
            return self;
        };
        match refusal.status() {
            Status::Refused => Tally {
                refused: true,
                ..self
            },
            _ => Tally {
                failed: true,
                ..self
            },
        }
    }

    /// After the audit of a node.
    pub fn audited(self, agrees: bool) -> Tally
        ensures { result ≡ tally_audited self agrees }
    {
        let failed = self.failed || !agrees;
        Tally { failed, ..self }
    }

    /// The exit status of a run that ends now: 3 if something failed, else 2 if something was
    /// refused, else 0.
    pub fn status(self) -> u8
        ensures { result ≡ status_of self }
    {
        if self.failed {
            3
        } else if self.refused {
            2
        } else {
            0
        }
    }
}
