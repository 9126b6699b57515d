//! Who is let in.
ghost use Rattle.std.specs.Prelude.{◌≡◌, ◌≢◌, ◌↔◌, ◌≤◌, ℕ, List, ◌∷◌, ◌++◌, [], true, false, IsSome, IsTrue, IfOk, Ok, OnErr, count_by};
ghost use Rattle.cb_process.specs.Doors.{AreLetIn, AtMostTen, MayEnter, Recall, is_of, recent};
ghost use Rattle.cb_process.specs.declared.doors.Admission.{Admission};

use cb_pipes::{Dated, keep_last_second};
use std::alloc::{AllocError, Global};
use std::marker::Model;
use std::net::IpAddr;

/// How many connections of one address are let in at most within any 1,000 milliseconds.
const MOST_A_SECOND: usize = 10;

/// A connection that was let in.
#[derive(Clone, Copy)]
pub struct Admission {
    host: IpAddr,
    at: u64,
}

impl Admission {
    /// Whether it is of this host.
    fn is_of(&self, host: IpAddr) -> bool
        ensures { result ≡ is_of host self.now }
    {
        self.host == host
    }
}

impl Dated for Admission {
    ghost time = { λ admission. admission.at };

    fn time(&self) -> u64 {
        self.at
    }
}

/// The connections that were let in within the last second before the latest question, in their
/// order. Contracts see the list.
#[derive(Drop)]
pub struct Doors {
    entries: Vec<Admission>,
}

impl Model for Doors {
    ghost use Rattle.std.specs.Prelude.{List};
    ghost use Rattle.cb_process.specs.declared.doors.Admission.{Admission};

    ghost Value = { List Admission };

    ghost view = { λ doors. doors.entries.items };
}

impl Doors {
    /// Nobody was let in. Allocates nothing.
    pub fn new(alloc: Global) -> Doors
        ensures { result ≡ [] }
    {
        Doors {
            entries: Vec::new(alloc),
        }
    }

    /// Whether a connection from this host is let in at this time, while so many of its connections
    /// last and `most` may: fewer than `most` last, and fewer than 10 were let in within the last
    /// second. With no `most` each is let in. Fails only for lack of memory; the connection isn't
    /// let in then.
    pub fn let_in(
        &mut self,
        most: Option<u16>,
        host: IpAddr,
        lasting: usize,
        now: u64,
    ) -> Result<bool, AllocError>
        ensures exact { IfOk result
            (λ enters. IsTrue enters ↔ MayEnter self.old most host lasting now) }
        ensures noted { result ≡ Ok true → IsSome most
            → self.new ≡ recent now self.old ++ (record { host = host; at = now }) ∷ [] }
        ensures refused { result ≡ Ok false → self.new ≡ recent now self.old }
        ensures memory { OnErr result (self.new ≡ recent now self.old) }
        // After any connections that were let in, if the time doesn't go back: they are recalled.
        ensures recalls { (before : List Admission) (last : ℕ) → Recall self.old before last
            → last ≤ now → AreLetIn before → IsSome most → result ≡ Ok true
            → Recall self.new ((record { host = host; at = now }) ∷ before) now
            × AreLetIn ((record { host = host; at = now }) ∷ before) }
        ensures still { (before : List Admission) (last : ℕ) → Recall self.old before last
            → last ≤ now → IsSome most → result ≢ Ok true → Recall self.new before now }
    {
        let Some(most) = most else {
            return Ok(true);
        };
        self.forget(now);
        if lasting >= usize::from(most) || self.count(host) >= MOST_A_SECOND {
            return Ok(false);
        }
        self.entries.push(Admission { host, at: now })?;
        Ok(true)
    }

    /// Forgets those that weren't let in within the last second.
    fn forget(&mut self, now: u64)
        ensures { self.new ≡ recent now self.old }
    {
        keep_last_second(&mut self.entries, now);
    }

    /// How many of the entries are of this host.
    fn count(&self, host: IpAddr) -> usize
        ensures { result ≡ count_by (is_of host) self.now }
    {
        let mut count = 0;
        for entry in self.entries.as_slice() {
            if entry.is_of(host) {
                count += 1;
            }
        }
        count
    }
}

/// Promises that of connections which were let in (`Doors::let_in`), at most 10 of one host were
/// within any 1,000 milliseconds.
pub fn at_most_ten()
    ensures { (all : List Admission) → AreLetIn all → AtMostTen all }
{}
