//! The core of a crew, run from lines of text. The first line has the sizes of the crew; each
//! further line is an act.

ghost use Rattle.std.specs.Prelude.{◌≡◌, ℕ, List, ◌++◌, false, IsOk, IfOk, OnOk, IsOkUnless, string_bytes};
ghost use Rattle.cb_base.specs.declared.fault.Fault.TheVariants.{Memory};
ghost use Rattle.cb_crew.specs.declared.act.Act.{Act};
ghost use Rattle.cb_crew.specs.CrewModel.{IsEnabled, Machine, TakesMemory};
ghost use Rattle.cb_commands.specs.SimLine.{TellsAct};
ghost use Rattle.cb_commands.specs.SimRun.{DoesLine, final_text, refusal_text, status_of, unreadable_text};

mod read;
mod report;

use cb_base::Fault;
use cb_crew::System;
use std::alloc::Global;
use std::marker::Model;

/// Whether a run goes on after a line.
#[derive(Clone, Copy, Debug, PartialEq, Eq)]
pub enum Flow {
    /// The run goes on with the next line.
    Next,
    /// The line can't be read, or an earlier one couldn't. The run is over.
    Stop,
}

/// The stage of a run.
#[derive(Drop)]
enum RunStage {
    /// The line with the crew's sizes hasn't come yet.
    Opening,
    /// The crew is made, and lines with acts come.
    Running(System),
    /// A line couldn't be read. The run is over.
    Unreadable,
}

/// A run of the crew's core over lines of text. Lines are counted from 1.
#[derive(Drop)]
pub struct Simulation {
    alloc: Global,
    stage: RunStage,
    lines: u64,
    refused: bool,
}

impl Model for Simulation {
    ghost use Rattle.cb_commands.specs.SimRun.{SimState};

    ghost Value = { SimState };

    ghost view = { λ a. record { lines = a.lines; stage = a.stage; refused = a.refused } };
}

impl Simulation {
    /// A run before its first line.
    pub fn new(alloc: Global) -> Simulation
        ensures { result ≡ record { lines = 0; stage = RunStage.Opening; refused = false } }
    {
        Simulation {
            alloc,
            stage: RunStage::Opening,
            lines: 0,
            refused: false,
        }
    }

    /// Does the next line, given without its line end. Appends to `out` what is printed for it:
    /// nothing, or that its act is refused, or that the line can't be read. Returns whether the run
    /// goes on.
    ///
    /// Fails only with `Fault::Memory`.
    pub fn line(&mut self, text: &[u8], out: &mut String) -> Result<Flow, Fault>
        ensures does { IfOk result
            (λ flow. (printed : List ℕ) × (string_bytes out.new ≡ string_bytes out.old ++ printed)
            × DoesLine text.now self.old flow printed self.new) }
        ensures memory { IsOkUnless result Memory }
        // Two kinds of lines need no memory: a line after the run is over, and a possible Claim,
        // Take or Give.
        ensures over { self.old.stage ≡ RunStage.Unreadable → IsOk result }
        ensures calm { (m : Machine) (act : Act) → self.old.stage ≡ RunStage.Running m →
            TellsAct text.now act → IsEnabled m.capacity m.crew act → (TakesMemory act → ⊥) →
            IsOk result }
    {
        self.lines = self.lines.saturating_add(1);
        let line = self.lines;
        match &mut self.stage {
            RunStage::Opening => match read::read_sizes(text) {
                Some(sizes) => {
                    let system = System::new(
                        self.alloc,
                        sizes.peers,
                        sizes.handlers,
                        sizes.capacity,
                    )?;
                    self.stage = RunStage::Running(system);
                    Ok(Flow::Next)
                }
                None => self.unreadable(out),
            },
            RunStage::Running(system) => match read::read_act(text) {
                Some(act) => match system.apply(act) {
                    Ok(()) => Ok(Flow::Next),
                    Err(Fault::NotEnabled) => {
                        self.refused = true;
                        print_refusal(line, out)?;
                        Ok(Flow::Next)
                    }
                    Err(fault) => Err(fault),
                },
                None => self.unreadable(out),
            },
            RunStage::Unreadable => Ok(Flow::Stop),
        }
    }

    /// Prints that the current line can't be read, and ends the run.
    fn unreadable(&mut self, out: &mut String) -> Result<Flow, Fault>
        ensures stop { IfOk result
            (λ flow. (flow ≡ Flow.Stop)
            × (string_bytes out.new ≡ string_bytes out.old ++ unreadable_text self.old.lines)) }
        ensures stage { self.new
            ≡ record {
              lines = self.old.lines;
              stage = RunStage.Unreadable;
              refused = self.old.refused;
            } }
        ensures memory { IsOkUnless result Memory }
    {
        let line = self.lines;
        self.stage = RunStage::Unreadable;
        writeln!(out, "{line} unreadable")?;
        Ok(Flow::Stop)
    }

    /// Ends the run: appends the report to `out` and returns the exit status. The status is 0, or 2
    /// if an act was refused. If a line couldn't be read, or no line came, there is no report and
    /// the status is 3.
    ///
    /// Fails only with `Fault::Memory`.
    pub fn finish(self, out: &mut String) -> Result<u8, Fault>
        ensures text { OnOk result
            (string_bytes out.new ≡ string_bytes out.old ++ final_text self.stage) }
        ensures status { IfOk result (λ status. status ≡ status_of self.stage self.refused) }
        ensures memory { IsOkUnless result Memory }
        ensures over { self.stage ≡ RunStage.Unreadable → IsOk result }
    {
        match &self.stage {
            RunStage::Opening => {
                writeln!(out, "1 unreadable")?;
                Ok(3)
            }
            RunStage::Running(system) => {
                report::write(system, out)?;
                Ok(if self.refused { 2 } else { 0 })
            }
            RunStage::Unreadable => Ok(3),
        }
    }
}

/// Prints that the act of this line is refused.
fn print_refusal(line: u64, out: &mut String) -> Result<(), Fault>
    ensures text { OnOk result (string_bytes out.new ≡ string_bytes out.old ++ refusal_text line) }
    ensures memory { IsOkUnless result Memory }
{
    writeln!(out, "{line} {}", Fault::NotEnabled)?;
    Ok(())
}
