ghost use Rattle.std.specs.Prelude.{◌≡◌, ◌≤◌};

use std::rt::Clock;
use std::time::Instant;

/// The time since a process began. It never goes back.
#[derive(Drop)]
pub struct Stopwatch {
    /// `None` if the clock couldn't be read. Then it stands still.
    start: Option<Instant>,
    last: u64,
}

impl Stopwatch {
    /// A stopwatch that begins now.
    pub fn start<C: Clock>(clock: &C) -> Stopwatch {
        Stopwatch {
            start: Instant::now(clock).ok(),
            last: 0,
        }
    }

    /// How many milliseconds have passed.
    pub fn millis<C: Clock>(&mut self, clock: &C) -> u64
        ensures grows { self.old.last ≤ result }
        ensures last { result ≡ self.new.last }
    {
        if let Some(start) = &self.start {
            if let Ok(passed) = start.elapsed(clock) {
                let millis = u64::try_from(passed.as_millis()).unwrap_or(u64::MAX);
                self.last = self.last.max(millis);
            }
        }
        self.last
    }
}
