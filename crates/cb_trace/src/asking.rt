//! Replays the entries of a trace to find the question that each of its answers answered.
ghost use Rattle.std.specs.Prelude.{◌≡◌, ◌⊎◌, ◌+◌, ◌≤◌, ◌<◌, ◌^◌, [], None, IfOk, IsOkUnless, length};
ghost use Rattle.cb_base.specs.declared.fault.Fault.TheVariants.{Memory};
ghost use Rattle.cb_peer_state.specs.Questions.{pending_question};
ghost use Rattle.cb_trace.specs.Fold.{entry_step};
ghost use Rattle.cb_trace.specs.Trace.{asked_from};

use crate::trace::{LAST_ENTRY, TraceEntry};
use cb_base::Fault;
use cb_hall::Question;
use cb_peer::{CloseReason, Session};
use std::alloc::Global;

/// Replays entries in a session without an open question, after `before` earlier entries. Returns,
/// for each answer of the hall among them, in order, the question that was open before it.
///
/// Fails only with `Fault::Memory`.
pub(crate) fn questions_asked(
    alloc: Global,
    session: &mut Session,
    before: u64,
    entries: &[TraceEntry],
) -> Result<Vec<Option<Question>>, Fault>
    requires few { before + length entries.now ≤ 2 ^ 62 }
    requires free { session.old.pending ≡ None }
    ensures asked { IfOk result
        (λ asked. asked.items
        ≡ asked_from
        (record { session = session.old; count = before; sent = []; replies = [] }) entries.now) }
    ensures memory { IsOkUnless result Memory }
{
    let mut asked = Vec::new(alloc);
    let mut pending = None;
    let mut count = before;
    for entry in entries {
        if entry.event.is_answer() {
            asked.push(copy_of(alloc, &pending)?)?;
        }
        let question = play(alloc, session, count, entry)?;
        pending = pending_after(session, pending, question);
        count += 1;
    }
    Ok(asked)
}

/// A copy of the question, if there is one. Fails only with `Fault::Memory`.
fn copy_of(alloc: Global, question: &Option<Question>) -> Result<Option<Question>, Fault>
    ensures same { IfOk result (λ copy. copy ≡ question.now) }
    ensures memory { IsOkUnless result Memory }
{
    match question {
        None => Ok(None),
        Some(question) => Ok(Some(question.copy(alloc)?)),
    }
}

/// The question that is open now: the one that the last step asked, or the one that was open before
/// if the step left the session waiting.
fn pending_after(
    session: &Session,
    before: Option<Question>,
    asked: Option<Question>,
) -> Option<Question>
    requires { (asked ≡ pending_question session.now)
        ⊎ ((asked ≡ None) × (before ≡ pending_question session.now)) }
    ensures { result ≡ pending_question session.now }
{
    match asked {
        Some(question) => Some(question),
        None => { if session.is_waiting() { before } else { None } }
    }
}

/// Replays one entry after `before` earlier ones. A starved entry ends the session, as it did the
/// first time. Returns the question that the session asks.
///
/// Fails only with `Fault::Memory`.
fn play(
    alloc: Global,
    session: &mut Session,
    before: u64,
    entry: &TraceEntry,
) -> Result<Option<Question>, Fault>
    requires few { before < 2 ^ 62 }
    ensures same { IfOk result
        (λ asked. session.new ≡ (entry_step before session.old entry.now).session) }
    ensures asked { IfOk result
        (λ asked. asked ≡ (entry_step before session.old entry.now).question) }
    ensures memory { IsOkUnless result Memory }
{
    if session.state().is_closed() {
        return Ok(None);
    }
    if before + 1 == LAST_ENTRY {
        let (_silent, question) = session.close(alloc, CloseReason::TraceFull);
        return Ok(question);
    }
    if entry.starved {
        let (_silent, question) = session.close(alloc, CloseReason::Memory);
        return Ok(question);
    }
    let (_sent, question) = session.step(alloc, &entry.event)?;
    Ok(question)
}
