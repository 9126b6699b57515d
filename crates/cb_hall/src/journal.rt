ghost use Rattle.std.specs.Prelude.{◌≡◌, ◌↔◌, ◌⊎◌, ◌^◌, ◌<◌, ◌≤◌, ◌++◌, ◌∷◌, [], IfErr, IfOk, IsErrOf, IsOkUnless, OnErr, OnOk};
ghost use Rattle.cb_base.specs.declared.fault.Fault.TheVariants.{JournalFull, Memory};
ghost use Rattle.cb_hall.specs.Journal.{Again, BeginsWith, IsBounded, IsPast, MovesOn, Notes, new_journal};
ghost use Rattle.cb_hall.specs.Replica.{IsFit, Leads, Steps, heard};

use crate::answer::Answer;
use crate::copying::copy_entries;
use crate::entry::Entry;
use crate::replica::{MOST_CALLS, Replica};
use cb_base::{Fault, Seed};
use std::alloc::Global;
use std::marker::Model;

/// The most entries of a journal.
pub const JOURNAL_ENTRIES: usize = 1_000_000;

/// The most bytes that a journal's entries count for, unless there is only one entry.
pub const JOURNAL_WEIGHT: u64 = 64_000_000;

/// A journal: the log of the hall's calls. It holds the calls that were granted, the state before
/// them (the base) and the state after them (the latest). All earlier calls lead to the base. Its
/// model is these three.
///
/// A journal is bounded, so it starts over from time to time: the latest state becomes the base,
/// and the entries are dropped.
pub struct Journal {
    alloc: Global,
    base: Replica,
    entries: Vec<Entry>,
    // The bytes that the entries count for.
    weight: u64,
    latest: Replica,
}

impl Model for Journal {
    ghost use Rattle.cb_hall.specs.Journal.{IsJournal, JournalState};

    ghost Value = { JournalState };

    ghost view = { λ journal.
        record { base = journal.base; entries = journal.entries.items; latest = journal.latest } };

    ghost invariant = { λ journal. IsJournal journal.base journal.entries.items journal.weight
        journal.latest };
}

impl Drop for Journal {
    fn drop(self) {
        let Journal {
            alloc: _,
            base: _,
            entries: _,
            weight: _,
            latest: _,
        } = self;
    }
}

impl Journal {
    /// A journal without calls. The tables of its states have this seed, which changes no result.
    /// Fails only with `Fault::Memory`.
    pub fn with_seed(alloc: Global, seed: Seed) -> Result<Journal, Fault>
        ensures new { IfOk result (λ journal. journal ≡ new_journal) }
        ensures memory { IsOkUnless result Memory }
    {
        Ok(Journal {
            alloc,
            base: Replica::with_seed(alloc, seed)?,
            entries: Vec::new(alloc),
            weight: 0,
            latest: Replica::with_seed(alloc, seed)?,
        })
    }

    /// The calls since the base, in order.
    pub fn entries(&self) -> &[Entry]
        ensures entries { result.now ≡ self.now.entries }
        ensures past { IsPast self.now.base self.now.entries self.now.latest }
        ensures bounded { IsBounded self.now.entries }
    {
        self.entries.as_slice()
    }

    /// The state before the entries.
    pub fn base(&self) -> &Replica
        ensures { result.now ≡ self.now.base }
    {
        &self.base
    }

    /// The state after the entries.
    pub fn latest(&self) -> &Replica
        ensures { result.now ≡ self.now.latest }
    {
        &self.latest
    }

    /// Applies a call to the latest state and logs it. The call must be one that can come next: an
    /// opened connection must be the next one of one of the peers. Returns the answer, if the
    /// call has one. If the journal has 1,000,000 entries, or they would count for more than
    /// 64,000,000 bytes with the new one, it starts over and holds the new entry alone.
    ///
    /// Fails with `Fault::JournalFull` exactly if 2^62 calls were granted, and with
    /// `Fault::Memory`. The journal is then unchanged.
    pub fn note(&mut self, entry: Entry) -> Result<Option<Answer>, Fault>
        requires { IsFit self.old.latest.connections entry }
        ensures ok { IfOk result (λ told. Notes self.old entry told self.new) }
        ensures full { IsErrOf result JournalFull ↔ (2 ^ 62 ≤ self.old.latest.entries) }
        ensures err { OnErr result (self.new ≡ self.old) }
        ensures kinds { IfErr result (λ fault. (fault ≡ JournalFull) ⊎ (fault ≡ Memory)) }
    {
        if self.latest.entries() >= MOST_CALLS {
            return Err(Fault::JournalFull);
        }
        if self.entries.len() >= JOURNAL_ENTRIES {
            return self.begin_with(entry);
        }
        let weight = entry.weight().saturating_add(self.weight);
        if weight > JOURNAL_WEIGHT {
            return self.begin_with(entry);
        }
        self.entries.reserve(1)?;
        let told = self.latest.apply(&entry)?;
        self.entries.push_reserved(entry);
        self.weight = weight;
        Ok(told)
    }

    /// Starts the journal over with a call. Fails only with `Fault::Memory`; the journal is then
    /// unchanged.
    fn begin_with(&mut self, entry: Entry) -> Result<Option<Answer>, Fault>
        requires fit { IsFit self.old.latest.connections entry }
        requires few { self.old.latest.entries < 2 ^ 62 }
        ensures ok { IfOk result (λ told. BeginsWith self.old entry told self.new) }
        ensures err { OnErr result (self.new ≡ self.old) }
        ensures memory { IsOkUnless result Memory }
    {
        let mut entries = Vec::with_capacity(self.alloc, 1)?;
        let weight = entry.weight();
        let (base, told) = apply_to_one(&mut self.latest, &entry)?;
        entries.push_reserved(entry);
        self.base = base;
        self.entries = entries;
        self.weight = weight;
        Ok(told)
    }

    /// Takes a checkpoint: the latest state becomes the base and all entries are dropped. Fails
    /// only with `Fault::Memory`; the journal is then unchanged.
    pub fn checkpoint(&mut self) -> Result<(), Fault>
        ensures ok { OnOk result
            (self.new ≡ record { base = self.old.latest; entries = []; latest = self.old.latest }) }
        ensures err { OnErr result (self.new ≡ self.old) }
        ensures memory { IsOkUnless result Memory }
    {
        self.base = self.latest.copy()?;
        self.entries = Vec::new(self.alloc);
        self.weight = 0;
        Ok(())
    }

    /// Applies the oldest call to the base and takes it out of the journal. Returns it with its
    /// answer, if it has one; `None` if the journal has no call.
    ///
    /// Fails only with `Fault::Memory`; the journal is then unchanged.
    pub fn advance(&mut self) -> Result<Option<(Entry, Option<Answer>)>, Fault>
        ensures ok { IfOk result (λ moved. MovesOn self.old moved self.new) }
        ensures err { OnErr result (self.new ≡ self.old) }
        ensures memory { IsOkUnless result Memory }
    {
        if self.entries.is_empty() {
            return Ok(None);
        }
        let told = self.base.apply(&self.entries[0])?;
        let entry = self.entries.remove(0);
        self.weight -= entry.weight();
        Ok(Some((entry, told)))
    }

    /// Replays the entries from the base. Returns an equal journal whose latest state was computed
    /// by the replay, and the answers to the questions among the entries, in order.
    ///
    /// Fails only with `Fault::Memory`.
    pub fn again(&self) -> Result<(Journal, Vec<Answer>), Fault>
        ensures same { IfOk result (λ made. made.0 ≡ self.now) }
        ensures answers { IfOk result
            (λ made. Leads self.now.base self.now.entries made.1.items self.now.latest) }
        ensures memory { IsOkUnless result Memory }
    {
        let entries = copy_entries(self.alloc, self.entries.as_slice())?;
        let base = self.base.copy()?;
        let (latest, answers) = self.replayed()?;
        let journal = Journal {
            alloc: self.alloc,
            base,
            entries,
            weight: self.weight,
            latest,
        };
        Ok((journal, answers))
    }

    /// The state that the entries lead to from the base, and the answers to their questions, in
    /// order. Fails only with `Fault::Memory`.
    fn replayed(&self) -> Result<(Replica, Vec<Answer>), Fault>
        ensures same { IfOk result (λ made. made.0 ≡ self.now.latest) }
        ensures answers { IfOk result
            (λ made. Leads self.now.base self.now.entries made.1.items self.now.latest) }
        ensures memory { IsOkUnless result Memory }
    {
        let mut replica = self.base.copy()?;
        let mut answers = Vec::new(self.alloc);
        for entry in &self.entries {
            apply_again(&mut replica, entry, &mut answers)?;
        }
        Ok((replica, answers))
    }
}

/// Applies an entry. Returns a copy of the state before it, and the answer. Fails only with
/// `Fault::Memory`; the replica is then unchanged.
fn apply_to_one(replica: &mut Replica, entry: &Entry) -> Result<(Replica, Option<Answer>), Fault>
    requires fit { IsFit replica.old.connections entry.now }
    requires few { replica.old.entries < 2 ^ 62 }
    ensures before { IfOk result (λ made. made.0 ≡ replica.old) }
    ensures ok { IfOk result (λ made. Steps replica.old entry.now made.1 replica.new) }
    ensures err { OnErr result (replica.new ≡ replica.old) }
    ensures memory { IsOkUnless result Memory }
{
    let before = replica.copy()?;
    let told = replica.apply(entry)?;
    Ok((before, told))
}

/// Applies an entry and pushes the answer if the entry is a question. Fails only with
/// `Fault::Memory`.
fn apply_again(replica: &mut Replica, entry: &Entry, answers: &mut Vec<Answer>) -> Result<(), Fault>
    requires fit { IsFit replica.old.connections entry.now }
    requires few { replica.old.entries < 2 ^ 62 }
    ensures ok { OnOk result
        (Again replica.old entry.now answers.old.items replica.new answers.new.items) }
    ensures memory { IsOkUnless result Memory }
{
    let told = replica.apply(entry)?;
    push_heard(answers, entry, told)
}

/// Pushes the answer if the entry is a question. Fails only with `Fault::Memory`.
fn push_heard(answers: &mut Vec<Answer>, entry: &Entry, told: Option<Answer>) -> Result<(), Fault>
    ensures pushed { OnOk result (answers.new.items ≡ answers.old.items ++ heard entry.now told) }
    ensures memory { IsOkUnless result Memory }
{
    if let Entry::Asked(_, _) = entry {
        if let Some(answer) = told {
            answers.push(answer)?;
        }
    }
    Ok(())
}
