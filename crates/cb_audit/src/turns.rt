//! The questions and answers of a trace.
ghost use Rattle.std.specs.Prelude.{◌≡◌, ◌↔◌, ◌<◌, ◌^◌, ◌-◌, IfOk, IsOkUnless, IsTrue, Some, map, slice_get};
ghost use Rattle.cb_base.specs.declared.fault.Fault.TheVariants.{Memory};
ghost use Rattle.cb_audit.specs.Turns.{answers_in, paired, turns_in};

use crate::audited::Audited;
use crate::same::Same;
use crate::same_answers::same_answer;
use cb_base::Fault;
use cb_hall::{Answer, Question};
use cb_peer::Event;
use cb_trace::{Trace, TraceEntry};
use std::alloc::Global;
use std::marker::Model;

/// An answer of a trace and the question that was open before it, if any.
#[derive(Drop)]
pub(crate) struct Turn<'a> {
    question: Option<Question>,
    answer: &'a Answer,
}

impl<'a> Model for Turn<'a> {
    ghost use Rattle.cb_audit.specs.Turns as turns;

    ghost Value = { turns.Turn };

    ghost view = { λ turn. record { question = turn.question; answer = turn.answer.now } };
}

impl<'a> Turn<'a> {
    /// Whether it is this question with this answer. Fails only with `Fault::Memory`.
    fn is(&self, alloc: Global, question: &Question, answer: &Answer) -> Result<bool, Fault>
        ensures exact { IfOk result (λ same. IsTrue same ↔
            (self.now ≡ record { question = Some question.now; answer = answer.now })) }
        ensures memory { IsOkUnless result Memory }
    {
        match &self.question {
            Some(asked) if asked.same(question) => same_answer(alloc, self.answer, answer),
            _ => Ok(false),
        }
    }
}

/// Whether the turn of this place is there, and is this question with this answer. Fails only with
/// `Fault::Memory`.
pub(crate) fn is_turn_at(
    alloc: Global,
    turns: &[Turn],
    place: u64,
    question: &Question,
    answer: &Answer,
) -> Result<bool, Fault>
    ensures exact { IfOk result (λ same. IsTrue same ↔ (slice_get turns.now place
        ≡ Some (record { question = Some question.now; answer = answer.now }))) }
    ensures within { IfOk result (λ same. IsTrue same → place < 2 ^ 64 - 1) }
    ensures memory { IsOkUnless result Memory }
{
    if place >= turns.len() as u64 {
        return Ok(false);
    }
    turns[place as usize].is(alloc, question, answer)
}

/// Each answer among the entries with the question of the same place. Fails only with
/// `Fault::Memory`.
fn paired<'a>(
    alloc: Global,
    asked: Vec<Option<Question>>,
    entries: &'a [TraceEntry],
) -> Result<Vec<Turn<'a>>, Fault>
    ensures exact { IfOk result
        (λ turns. turns.items ≡ paired asked.items (answers_in entries.now)) }
    ensures memory { IsOkUnless result Memory }
{
    let mut turns = Vec::new(alloc);
    let mut questions = asked.into_iter();
    for entry in entries {
        let Event::Told(answer) = &entry.event else {
            continue;
        };
        let Some(question) = questions.next() else {
            return Ok(turns);
        };
        turns.push(Turn { question, answer })?;
    }
    Ok(turns)
}

/// The answers of a trace since its base, each with its question. Its model is the list.
#[derive(Drop)]
pub(crate) struct Turns<'a> {
    list: Vec<Turn<'a>>,
}

impl<'a> Model for Turns<'a> {
    ghost use Rattle.std.specs.Prelude.{List};
    ghost use Rattle.cb_audit.specs.Turns as turns;

    ghost Value = { List turns.Turn };

    ghost view = { λ turns. turns.list.items };
}

impl<'a> Turns<'a> {
    /// Replays a trace. Fails only with `Fault::Memory`.
    fn of(alloc: Global, trace: &'a Trace) -> Result<Turns<'a>, Fault>
        ensures exact { IfOk result (λ turns. turns ≡ turns_in trace.now) }
        ensures memory { IsOkUnless result Memory }
    {
        let asked = trace.asked(alloc)?;
        Ok(Turns {
            list: paired(alloc, asked, trace.entries())?,
        })
    }

    /// The turns, in order.
    pub(crate) fn as_slice(&self) -> &[Turn<'a>]
        ensures { result.now ≡ self.now }
    {
        self.list.as_slice()
    }
}

/// The turns of each trace, in order. Fails only with `Fault::Memory`.
pub(crate) fn all_turns<'a, 'b>(
    alloc: Global,
    audited: &'a [Audited<'b>],
) -> Result<Vec<Turns<'a>>, Fault>
    ensures exact { IfOk result
        (λ all. all.items ≡ map (λ one. turns_in one.trace) audited.now) }
    ensures memory { IsOkUnless result Memory }
{
    let mut all = Vec::with_capacity(alloc, audited.len())?;
    for one in audited {
        all.push(Turns::of(alloc, one.trace())?)?;
    }
    Ok(all)
}
