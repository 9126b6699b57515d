ghost use Rattle.std.specs.Prelude.{◌≡◌, ◌≤◌, ◌^◌, [], List, IfOk, IsOkUnless, MatchOption, OnOk, Some, drop, length, map};
ghost use Rattle.cb_base.specs.declared.fault.Fault.TheVariants.{Memory};
ghost use Rattle.cb_hall.specs.Connections.{Slots};
ghost use Rattle.cb_audit.specs.Comparing.{AreFew, HasCome, Seen};
ghost use Rattle.cb_audit.specs.Counting.{granted};
ghost use Rattle.cb_audit.specs.Heard.{ArePlaced, IsDifference, IsHeard, IsSplit, IsSplitWithTrace, seen_more, skip_of, start_of};
ghost use Rattle.cb_audit.specs.Order.{AreInOrder};
ghost use Rattle.cb_audit.specs.Turns.{turns_in};
ghost use Rattle.cb_audit.specs.Turns as view;

use crate::audited::{Audited, find, is_before};
use crate::counting::{earlier, granted};
use crate::place::Place;
use crate::turns::{Turn, Turns};
use cb_base::Fault;
use cb_hall::{Answer, Connections, Question};
use cb_state::Connection;
use std::alloc::Global;

/// How far the comparison of the journal with all traces is.
#[derive(Drop)]
pub(crate) struct Heard {
    /// One place for each trace.
    pub(crate) places: Vec<Place>,
    /// The first connection without a trace that asked something.
    pub(crate) stranger: Option<Connection>,
}

/// A connection whose turns differ, and the first place that does, counted from 0 at the
/// connection's first answer.
#[derive(Clone, Copy)]
pub(crate) struct Difference {
    pub(crate) connection: Connection,
    pub(crate) place: u64,
}

impl Heard {
    /// Before the journal. Fails only with `Fault::Memory`.
    pub(crate) fn new(
        alloc: Global,
        kept: &Connections,
        audited: &[Audited],
    ) -> Result<Heard, Fault>
        ensures first { IfOk result
            (λ made. IsHeard kept.now audited.now (λ _. []) made.places.items made.stranger) }
        ensures memory { IsOkUnless result Memory }
    {
        Ok(Heard {
            places: first_places(alloc, kept, audited)?,
            stranger: None,
        })
    }

    /// Compares one more question of the journal and its answer. Fails only with `Fault::Memory`.
    pub(crate) fn hear(
        &mut self,
        alloc: Global,
        audited: &[Audited],
        turns: &[Turns],
        connection: Connection,
        question: &Question,
        answer: &Answer,
    ) -> Result<(), Fault>
        requires order { AreInOrder audited.now }
        requires turns { turns.now ≡ map (λ one. turns_in one.trace) audited.now }
        requires long { length self.old.places.items ≡ length audited.now }
        ensures ok { OnOk result ((kept : Slots) (seen : Seen) →
            IsHeard kept audited.now seen self.old.places.items self.old.stranger →
            IsHeard kept audited.now
            (seen_more seen connection
            (record { question = Some question.now; answer = answer.now }))
            self.new.places.items self.new.stranger) }
        ensures long { length self.new.places.items ≡ length audited.now }
        ensures memory { IsOkUnless result Memory }
    {
        let Some(at) = find(audited, connection) else {
            self.stranger = earlier(self.stranger, Some(connection));
            return Ok(());
        };
        let place = self.places[at].after(alloc, turns[at].as_slice(), question, answer)?;
        self.places[at] = place;
        Ok(())
    }

    /// The first difference, once the journal has no more entries.
    pub(crate) fn first_difference(
        &self,
        kept: &Connections,
        audited: &[Audited],
        turns: &[Turns],
    ) -> Option<Difference>
        requires order { AreInOrder audited.now }
        requires turns { turns.now ≡ map (λ one. turns_in one.trace) audited.now }
        requires long { length self.now.places.items ≡ length audited.now }
        ensures { (seen : Seen) → AreFew kept.now audited.now seen →
            IsHeard kept.now audited.now seen self.now.places.items self.now.stranger →
            IsSplit kept.now audited.now seen result }
    {
        let found = first_with_trace(audited, turns, self.places.as_slice());
        let Some(connection) = self.stranger else {
            return found;
        };
        // A connection without a trace was told nothing: its first question differs.
        let stranger = Difference {
            connection,
            place: granted(kept, connection),
        };
        match found {
            Some(difference) if is_before(difference.connection, connection) => Some(difference),
            _ => Some(stranger),
        }
    }
}

/// The places of all traces before the journal. Fails only with `Fault::Memory`.
fn first_places(alloc: Global, kept: &Connections, audited: &[Audited]) -> Result<Vec<Place>, Fault>
    ensures long { IfOk result (λ places. length places.items ≡ length audited.now) }
    ensures placed { IfOk result
        (λ places. ArePlaced kept.now audited.now (λ _. []) places.items) }
    ensures memory { IsOkUnless result Memory }
{
    let mut places = Vec::with_capacity(alloc, audited.len())?;
    for one in audited {
        places.push(Place::first(kept, one))?;
    }
    Ok(places)
}

/// The difference between one trace and what was seen of its connection, if there is one.
fn compared(one: &Audited, turns: &[Turn], place: Place) -> Option<Difference>
    ensures { (kept : Slots) (seen : List view.Turn) →
        HasCome (start_of kept one.now) (skip_of kept one.now) turns.now seen place.skip place.next
        place.differs →
        granted kept one.now.connection ≤ 2 ^ 62 → one.now.trace.total.told ≤ 2 ^ 62 →
        length seen ≤ 2 ^ 62 →
        MatchOption result
        (drop (skip_of kept one.now) seen ≡ drop (start_of kept one.now) turns.now)
        (IsDifference kept one.now turns.now seen) }
{
    let index = place.end(turns)?;
    let trace = one.trace();
    // No effect when it runs: it tells the prover that the dropped answers are some of all.
    let _ = trace.entries();
    Some(Difference {
        connection: one.connection(),
        place: trace.before().told.saturating_add(index),
    })
}

/// The first difference among the connections with a trace.
fn first_with_trace(audited: &[Audited], turns: &[Turns], places: &[Place]) -> Option<Difference>
    requires order { AreInOrder audited.now }
    requires turns { turns.now ≡ map (λ one. turns_in one.trace) audited.now }
    requires long { length places.now ≡ length audited.now }
    ensures { (kept : Slots) (seen : Seen) → AreFew kept audited.now seen →
        ArePlaced kept audited.now seen places.now →
        IsSplitWithTrace kept audited.now seen result }
{
    for at in 0..audited.len() {
        let found = compared(&audited[at], turns[at].as_slice(), places[at]);
        if found.is_some() {
            return found;
        }
    }
    None
}
