ghost use Rattle.std.specs.Prelude.{◌≡◌, ℕ, ◌+◌, ◌*◌, ◌≤◌, ◌<◌, ◌^◌, List, [], ◌∷◌, true, false, Bool, None, IfOk, IsOk, IsOkUnless, OnErr, OnOk};
ghost use Rattle.cb_base.specs.declared.fault.Fault.TheVariants.{Memory};
ghost use Rattle.cb_peer_state.specs.Event.{ends_at_once};
ghost use Rattle.cb_peer_state.specs.Fetching.{has};
ghost use Rattle.cb_peer_state.specs.Outcomes.{Answers};
ghost use Rattle.cb_peer_state.specs.Session.{is_light, spares, takes_no_memory};
ghost use Rattle.cb_peer_state.specs.State.{is_closed, is_fetching};
ghost use Rattle.cb_trace.specs.Fold.{entry_step};
ghost use Rattle.cb_trace.specs.Kept.{KeepsHistory, StillKeeps};

use crate::asking::questions_asked;
use cb_base::{Fault, Hash256, Seed};
use cb_hall::Question;
use cb_peer::{CloseReason, Event, Peer, Session, Settings, State};
use cb_peer_state::Outgoing;
use std::alloc::Global;
use std::marker::Model;
use std::mem;

/// The entry, counted from 1, that ends every trace.
pub(crate) const LAST_ENTRY: u64 = 1 << 62;

/// A checkpoint is due at this many entries.
const ENTRIES_KEPT: usize = 65_000;

/// A checkpoint is due when the entries hold more bytes than this.
const BYTES_KEPT: u64 = 8_000_000;

/// How many bytes an entry takes, about, beside those that it holds.
const ENTRY_BYTES: u64 = 256;

/// One entry of a trace: an event that the session was given, and whether it lacked the memory for
/// it (starved).
#[derive(Drop)]
pub struct TraceEntry {
    pub event: Event,
    pub starved: bool,
}

/// Numbers of entries: all, the inputs (items, a fault of the stream, its end), and the answers of
/// the hall.
#[derive(Clone, Copy, PartialEq, Eq)]
pub struct Counts {
    pub entries: u64,
    pub items: u64,
    pub told: u64,
}

impl Counts {
    ghost use Rattle.cb_trace.specs.Trace.{AreCounts, counts_with};

    /// The numbers with one more entry.
    fn with(&self, event: &Event) -> Counts
        requires { AreCounts self.now }
        ensures { result ≡ counts_with self.now event.now }
    {
        Counts {
            entries: self.entries + 1,
            items: self.items + u64::from(event.is_input()),
            told: self.told + u64::from(event.is_answer()),
        }
    }
}

/// The trace of a connection: a session and the log of the events that it was given since its last
/// checkpoint.
///
/// A checkpoint is a snapshot of the session that lets earlier entries go. A trace stands for all
/// events since the beginning. Its base is the session after the entries that were dropped, and
/// their numbers are kept. Contracts see the settings, the base, the numbers before it, the entries
/// since, the session after them, the numbers of all entries, and the room for more entries.
pub struct Trace {
    alloc: Global,
    settings: Settings,
    base: Session,
    before: Counts,
    entries: Vec<TraceEntry>,
    /// How many bytes the entries hold; `u64::MAX` if that is more.
    held: u64,
    session: Session,
    total: Counts,
}

impl Model for Trace {
    ghost use Rattle.std.specs.Prelude.{◌≡◌, ◌-◌, ◌^◌, min, vec_len, vec_capacity};
    ghost use Rattle.cb_trace.specs.Trace.{TraceView, IsTrace, held_of};

    ghost Value = { TraceView };

    ghost view = { λ trace.
        record {
          settings = trace.settings;
          base = trace.base;
          before = trace.before;
          entries = trace.entries.items;
          session = trace.session;
          total = trace.total;
          room = vec_capacity trace.entries
              - vec_len trace.entries;
        } };

    ghost invariant = { λ trace. IsTrace
        (record {
          settings = trace.settings;
          base = trace.base;
          before = trace.before;
          entries = trace.entries.items;
          session = trace.session;
          total = trace.total;
          room = vec_capacity trace.entries
              - vec_len trace.entries;
        })
        × (trace.held ≡ min (held_of trace.entries.items) (2 ^ 64 - 1)) };
}

impl Drop for Trace {
    fn drop(self) {
        let Trace {
            alloc: _,
            settings: _,
            base: _,
            before: _,
            entries: _,
            held: _,
            session: _,
            total: _,
        } = self;
    }
}

impl Trace {
    ghost use Rattle.std.specs.Prelude.{◌-◌, min, length};
    ghost use Rattle.cb_peer_state.specs.Session.{openings};
    ghost use Rattle.cb_peer_state.specs.declared.event.Event.TheVariants as events;
    ghost use Rattle.cb_trace.specs.Trace.{AskedLast, Grows, HandsOut, IsOpen, IsShed, NeedsBase, Readied, Rests, StandsFor, TraceSteps, TraceView, asked_from, base_account, held_of, is_due, weight_of};

    /// A trace without entries and with room for one, and the messages that open its session. The
    /// table of the session's wanted blocks has this seed, which changes no result.
    ///
    /// Fails only with `Fault::Memory`.
    pub fn with_seed(
        alloc: Global,
        settings: Settings,
        seed: Seed,
    ) -> Result<(Trace, Vec<Outgoing>), Fault>
        ensures settings { IfOk result (λ made. made.0.settings ≡ settings) }
        ensures history { IfOk result (λ made. StandsFor made.0 []) }
        // No entry was dropped.
        ensures keeps { IfOk result (λ made. KeepsHistory made.0) }
        ensures room { IfOk result (λ made. 1 ≤ made.0.room) }
        ensures messages { IfOk result (λ made. made.1.items ≡ openings settings) }
        ensures memory { IsOkUnless result Memory }
    {
        let (session, messages) = Session::with_seed(alloc, settings, seed)?;
        let base = session.copy(alloc)?;
        let entries = Vec::with_capacity(alloc, 1)?;
        let none = Counts {
            entries: 0,
            items: 0,
            told: 0,
        };
        let trace = Trace {
            alloc,
            settings,
            base,
            before: none,
            entries,
            held: 0,
            session,
            total: none,
        };
        Ok((trace, messages))
    }

    /// The settings of the session.
    pub fn settings(&self) -> Settings
        ensures { result ≡ self.now.settings }
    {
        self.settings
    }

    /// How far the session is.
    pub fn state(&self) -> State
        ensures { result ≡ self.now.session.state }
    {
        self.session.state()
    }

    /// How many blocks the session has in flight: requested and not received yet.
    pub fn in_flight(&self) -> usize
        ensures { result ≡ length self.now.session.fetch.flight }
    {
        self.session.in_flight()
    }

    /// Whether the session has this block in flight.
    pub fn is_in_flight(&self, hash: &Hash256) -> bool
        ensures { result ≡ has self.now.session.fetch.flight hash.now }
    {
        self.session.is_in_flight(hash)
    }

    /// Whether the session has blocks in flight or wanted.
    pub fn is_fetching(&self) -> bool
        ensures { result ≡ is_fetching self.now.session.fetch }
    {
        self.session.is_fetching()
    }

    /// What the peer told about itself.
    pub fn peer(&self) -> Peer
        ensures { result ≡ self.now.session.peer }
    {
        self.session.peer()
    }

    /// The tip that the peer was told last.
    pub fn told_tip(&self) -> Option<Hash256>
        ensures { result ≡ self.now.session.marks.tip }
    {
        self.session.told_tip()
    }

    /// Whether headers were requested because something was unknown, and weren't answered yet.
    pub fn seeks(&self) -> bool
        ensures { result ≡ self.now.session.unknown }
    {
        self.session.seeks()
    }

    /// The entries since the base, in order.
    pub fn entries(&self) -> &[TraceEntry]
        ensures entries { result.now ≡ self.now.entries }
        // They are the last of a history that the trace stands for.
        ensures history { (history : List TraceEntry) × StandsFor self.now history }
    {
        self.entries.as_slice()
    }

    /// The numbers of the entries before the base, which were dropped.
    pub fn before(&self) -> Counts
        ensures { result ≡ self.now.before }
    {
        self.before
    }

    /// The numbers of all entries since the beginning.
    pub fn total(&self) -> Counts
        ensures { result ≡ self.now.total }
    {
        self.total
    }

    /// Takes a checkpoint if one is due, and makes room for two more entries. Returns false if
    /// there is no memory for one of these; the entry `NoMemory` then ends the session.
    ///
    /// A checkpoint is due if no question is open and there are 65,000 entries or more, or they
    /// hold more than 8,000,000 bytes. A checkpoint allocates only while blocks are being
    /// downloaded or a block is being rebuilt.
    pub fn ready(&mut self) -> bool
        requires { IsOpen self.old }
        ensures readied { Readied self.old self.new result }
        // Entries are dropped only by a checkpoint that is due.
        ensures keeps { StillKeeps self.old self.new }
        // It takes no memory if there is room already, unless a checkpoint is due and blocks are
        // being downloaded or rebuilt.
        ensures roomy { 2 ≤ self.old.room → result ≡ false →
            (is_due self.old ≡ true) × NeedsBase self.old.session }
    {
        if !self.rest() {
            self.starve();
            return false;
        }
        if self.reserve() {
            return true;
        }
        self.starve();
        false
    }

    /// Ends the session for lack of memory, with the entry `NoMemory`.
    fn starve(&mut self)
        requires going { IsOpen self.old }
        ensures grows { Grows self.old self.new
            (record { event = events.NoMemory; starved = false }) }
        ensures closed { is_closed self.new.session.state ≡ true }
    {
        let _silent = self.put(Event::NoMemory);
    }

    /// Takes a checkpoint if one is due: the current session becomes the base, and the entries are
    /// dropped. Returns false if there is no memory for it; nothing changes then.
    fn rest(&mut self) -> bool
        ensures rests { result ≡ true → Rests self.old self.new }
        ensures room { self.old.room ≤ self.new.room }
        ensures same { result ≡ false → self.new ≡ self.old }
        ensures due { result ≡ false → is_due self.old ≡ true }
        ensures needs { result ≡ false → NeedsBase self.old.session }
    {
        if !self.is_due() {
            return true;
        }
        let Ok(base) = self.session.copy(self.alloc) else {
            return false;
        };
        self.base = base;
        self.before = self.total;
        self.entries.clear();
        self.held = 0;
        true
    }

    /// Drops the entries of a trace whose session is over, if they take more than `most` bytes
    /// (`weight_of`). The session is the base then, and all numbers stay. Otherwise nothing
    /// changes. Returns how many bytes the entries take now.
    ///
    /// Never fails: the copy of a session that is over takes no memory.
    pub fn shed(&mut self, most: u64) -> u64
        requires over { is_closed self.old.session.state ≡ true }
        requires few { most < 2 ^ 64 - 1 }
        ensures kept { weight_of self.old ≤ most → self.new ≡ self.old }
        ensures shed { most < weight_of self.old → IsShed self.old self.new }
        ensures weight { result ≡ weight_of self.new }
        ensures most { result ≤ most }
    {
        let weight = self.weight();
        if weight <= most {
            return weight;
        }
        self.drop_entries();
        0
    }

    /// Takes a checkpoint, and hands out what it drops: for each answer since the base, in order,
    /// the question that was open before it; and the entries, which have the answers.
    ///
    /// Fails only with `Fault::Memory`; nothing changes then.
    pub fn hand_out(&mut self) -> Result<(Vec<Option<Question>>, Vec<TraceEntry>), Fault>
        requires { self.old.session.pending ≡ None }
        ensures asked { IfOk result
            (λ made. made.0.items ≡ asked_from (base_account self.old) self.old.entries) }
        ensures entries { IfOk result (λ made. made.1.items ≡ self.old.entries) }
        ensures hands { OnOk result (HandsOut self.old self.new) }
        ensures err { OnErr result (self.new ≡ self.old) }
        ensures memory { IsOkUnless result Memory }
    {
        let asked = self.asked(self.alloc)?;
        let base = self.session.copy(self.alloc)?;
        let room = Vec::with_capacity(self.alloc, 2)?;
        self.base = base;
        self.before = self.total;
        self.held = 0;
        let entries = mem::replace(&mut self.entries, room);
        Ok((asked, entries))
    }

    /// Drops the entries of a trace whose session is over. That is the base then.
    fn drop_entries(&mut self)
        requires { is_closed self.old.session.state ≡ true }
        ensures { IsShed self.old self.new }
    {
        let Ok(last) = self.session.copy(self.alloc) else {
            unreachable!()
        };
        self.base = last;
        self.before = self.total;
        self.entries = Vec::new(self.alloc);
        self.held = 0;
    }

    /// How many bytes the entries take; `u64::MAX` if that is more.
    pub fn weight(&self) -> u64
        ensures { result ≡ min (weight_of self.now) (2 ^ 64 - 1) }
    {
        let entries = self.entries.len() as u64;
        self.held
            .saturating_add(entries.saturating_mul(ENTRY_BYTES))
    }

    /// Whether a checkpoint is due.
    fn is_due(&self) -> bool
        ensures { result ≡ is_due self.now }
    {
        !self.session.is_waiting() && (self.entries.len() >= ENTRIES_KEPT || self.held > BYTES_KEPT)
    }

    /// Makes room for two more entries. Returns whether there is room.
    fn reserve(&mut self) -> bool
        ensures same { self.new ≡ record self.old { room = self.new.room } }
        ensures room { result ≡ true → 2 ≤ self.new.room }
        ensures refused { result ≡ false → self.new ≡ self.old }
        ensures roomy { 2 ≤ self.old.room → result ≡ true }
    {
        self.entries.reserve(2).is_ok()
    }

    /// Gives the session an event and logs it. Returns the messages to send, in order, and the
    /// question to ask the hall after that. If the session lacks memory, the entry is starved and
    /// nothing is sent.
    #[inline(always)]
    pub fn step(&mut self, event: Event) -> (Vec<Outgoing>, Option<Question>)
        requires going { IsOpen self.old }
        requires ready { 2 ≤ self.old.room }
        ensures { TraceSteps self.old self.new event result.0.items result.1 }
    {
        self.put(event)
    }

    /// Logs an event and gives it to the session. An event that doesn't end the session at once
    /// leaves room for one more entry.
    #[inline(always)]
    fn put(&mut self, event: Event) -> (Vec<Outgoing>, Option<Question>)
        requires going { IsOpen self.old }
        requires spare { ends_at_once event ≡ false → 2 ≤ self.old.room }
        ensures { TraceSteps self.old self.new event result.0.items result.1 }
    {
        let heard = hear(self.alloc, &mut self.session, self.total.entries, &event);
        let starved = heard.is_err();
        self.total = self.total.with(&event);
        self.held = self.held.saturating_add(event.held());
        self.entries.push_reserved(TraceEntry { event, starved });
        match heard {
            Ok(made) => made,
            Err(_) => (Vec::new(self.alloc), None),
        }
    }

    /// For each answer of the hall since the base, in order, the question that was open before it,
    /// found by replaying the entries.
    ///
    /// Fails only with `Fault::Memory`.
    pub fn asked(&self, alloc: Global) -> Result<Vec<Option<Question>>, Fault>
        ensures asked { IfOk result
            (λ asked. asked.items ≡ asked_from (base_account self.now) self.now.entries) }
        ensures memory { IsOkUnless result Memory }
        // They are the last of the history that the trace stands for.
        ensures last { IfOk result
            (λ asked. (history : List TraceEntry) → StandsFor self.now history →
            AskedLast self.now.settings history self.now.before.told asked.items) }
    {
        let mut session = self.base.copy(alloc)?;
        questions_asked(alloc, &mut session, self.before.entries, self.entries())
    }
}

/// Gives a session the event of the entry after `before` others. Returns the messages to send, in
/// order, and the question to ask the hall after that.
///
/// Fails only if the session lacks memory for it, which closes it.
fn hear(
    alloc: Global,
    session: &mut Session,
    before: u64,
    event: &Event,
) -> Result<(Vec<Outgoing>, Option<Question>), Fault>
    requires going { is_closed session.old.state ≡ false }
    requires few { before < 2 ^ 62 }
    ensures ok { IfOk result
        (λ made. Answers
        (entry_step before session.old
        (record { event = event.now; starved = false })) session.new made.0.items made.1) }
    ensures err { OnErr result
        (Answers (entry_step before session.old
        (record { event = event.now; starved = true })) session.new [] None) }
    ensures calm { takes_no_memory event.now ≡ true → IsOk result }
    ensures silent { spares session.old event.now ≡ true →
        (entry_step before session.old (record { event = event.now; starved = false })).messages
        ≡ [] → is_light
        (entry_step before session.old (record { event = event.now; starved = false })).question
        ≡ true → IsOk result }
{
    if before + 1 == LAST_ENTRY {
        return Ok(session.close(alloc, CloseReason::TraceFull));
    }
    session.step(alloc, event)
}
