//! Counting the lines of a log that are dropped.
ghost use Rattle.std.specs.Prelude.{◌≡◌, ◌+◌, ◌-◌, ◌^◌, ◌⊎◌, ℕ, List, Bool, [], ◌∷◌, min, sum};
ghost use Rattle.cb_pipes.specs.declared.log_line.LogLine.{LogLine};
ghost use Rattle.cb_pipes.specs.Logging.{Gets, dropped_in, left_of, told_by};

use crate::log_line::LogLine;

/// Where lines of a log wait until they are written.
pub trait Lane {
    ghost use Rattle.std.specs.Prelude.{◌≡◌, true, false, List, Option, [], ◌∷◌};
    ghost use Rattle.cb_pipes.specs.Logging.{Gets};
    ghost use Rattle.cb_pipes.specs.declared.log_line.LogLine.{LogLine};

    /// The lines that it took, the first one first, if they are known.
    ghost held: { Self → Option (List LogLine) };

    /// From the first state to the second it refused this line.
    ghost refused: { Self → Self → LogLine → Type 0 };

    /// Takes a line, or refuses it since it has no room. Returns whether it took it.
    fn take(&mut self, line: LogLine) -> bool
        ensures taken { result ≡ true → Gets (held self.old) (held self.new) (line ∷ []) }
        ensures kept { result ≡ false → Gets (held self.old) (held self.new) [] }
        ensures refused { result ≡ false → refused self.old self.new line };
}

/// How many lines were dropped since the last one that was taken.
#[derive(Clone, Copy)]
pub struct Losses {
    /// Their number; `u64::MAX` if there are more.
    pub dropped: u64,
}

impl Losses {
    /// None was dropped.
    pub fn none() -> Losses
        ensures { result.dropped ≡ 0 }
    {
        Losses { dropped: 0 }
    }
}

/// Gives a lane a line. The line tells how many were dropped since the last one that the lane took.
/// If the lane has no room, the line is dropped, and counts as one more.
pub fn offer<L: Lane>(lane: &mut L, losses: &mut Losses, stamp: String, text: String)
    ensures { (line : LogLine) × (line.stamp ≡ stamp) × (line.text ≡ text)
        × (line.dropped ≡ losses.old.dropped)
        × (((losses.new.dropped ≡ 0)
        × Gets (L.held lane.old) (L.held lane.new) (line ∷ []))
        ⊎ ((losses.new.dropped ≡ min (losses.old.dropped + 1) (2 ^ 64 - 1))
        × Gets (L.held lane.old) (L.held lane.new) [] × L.refused lane.old lane.new line)) }
{
    let dropped = losses.dropped;
    let line = LogLine {
        stamp,
        dropped,
        text,
    };
    if lane.take(line) {
        losses.dropped = 0;
    } else {
        losses.dropped = dropped.saturating_add(1);
    }
}

/// A law: of lines of which some are dropped, each dropped one is counted by the next that goes
/// out, and by no other. So what all tell, with what is left to be told, is how many were dropped.
#[tactic(auto, using(crate::proofs::Counting::counted_once))]
pub fn dropped_lines_are_counted_once()
    ensures { (outcomes : List Bool) →
        sum (told_by 0 outcomes) + left_of 0 outcomes ≡ dropped_in outcomes }
{}
