//! How often a kind of lines is logged.
ghost use Rattle.std.specs.Prelude.{◌≡◌, ◌-◌, ◌≤◌, ◌<◌, ◌↔◌, true, false, IfOk};
ghost use Rattle.cb_pipes.specs.Pacing.{HasRoom, counts_at, new_pace, told_at, with_other};

use crate::last_second::{SECOND, keep_last_second};
use std::alloc::{AllocError, Global};
use std::marker::Model;

/// How many lines of the kind are logged in a second at most, besides the one that counts the
/// others.
const MOST: usize = 19;

/// How often lines of one kind are logged: 19 within a second, and one that tells how many others
/// there were. Contracts see when those of the last second were logged, how many others there were
/// since such a line, and when one is due.
#[derive(Drop)]
pub struct LogRate {
    /// When the lines of the last second before the latest question were logged, in milliseconds.
    times: Vec<u64>,
    /// How many others there were. `u64::MAX` if there were more.
    others: u64,
    /// When they are told.
    due: u64,
}

impl Model for LogRate {
    ghost use Rattle.std.specs.Prelude.{◌≤◌, length, vec_capacity};
    ghost use Rattle.cb_pipes.specs.Pacing.{PaceState};

    ghost Value = { PaceState };

    ghost view = { λ pace.
        record { times = pace.times.items; others = pace.others; due = pace.due } };

    ghost invariant = { λ pace. (length pace.times.items ≤ 19) × (19 ≤ vec_capacity pace.times) };
}

impl LogRate {
    /// Nothing was logged yet. Fails only for lack of memory.
    pub fn new(alloc: Global) -> Result<LogRate, AllocError>
        ensures { IfOk result (λ pace. pace ≡ new_pace) }
    {
        Ok(LogRate {
            times: Vec::with_capacity(alloc, MOST)?,
            others: 0,
            due: 0,
        })
    }

    /// Whether a line may be logged at this time, which is never earlier than one before. If not,
    /// it is one of the others.
    pub fn admits(&mut self, now: u64) -> bool
        ensures room { (result ≡ true) ↔ HasRoom self.old.times now }
        ensures told { result ≡ true → self.new ≡ told_at self.old now }
        ensures counted { result ≡ false → self.new ≡ counts_at self.old now }
    {
        keep_last_second(&mut self.times, now);
        if self.times.len() >= MOST {
            self.count(now);
            return false;
        }
        self.times.push_reserved(now);
        true
    }

    /// One more of the others.
    fn count(&mut self, now: u64)
        ensures { self.new ≡ with_other self.old now }
    {
        if self.others == 0 {
            self.due = now.saturating_add(SECOND);
        }
        self.others = self.others.saturating_add(1);
    }

    /// How many others are to be told at this time; 0 if none. They are told then.
    pub fn take_due(&mut self, now: u64) -> u64
        ensures due { self.old.due ≤ now → result ≡ self.old.others }
        ensures early { now < self.old.due → result ≡ 0 }
        ensures left { self.new.others ≡ self.old.others - result }
        ensures same { (self.new.times ≡ self.old.times) × (self.new.due ≡ self.old.due) }
    {
        if self.due <= now { self.take_rest() } else { 0 }
    }

    /// How many others haven't been told yet. They are told then.
    pub fn take_rest(&mut self) -> u64
        ensures all { result ≡ self.old.others }
        ensures none { self.new.others ≡ 0 }
        ensures same { (self.new.times ≡ self.old.times) × (self.new.due ≡ self.old.due) }
    {
        let others = self.others;
        self.others = 0;
        others
    }
}
