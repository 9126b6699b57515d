//! Gives a session an event that begins something new, and asks the hall all that it asks then.
ghost use Rattle.std.specs.Prelude.{◌≡◌, ◌≤◌, ◌<◌, [], true, List, None, Some, IfOk, IsOkUnless, OnErr, OnOk};
ghost use Rattle.cb_base.specs.declared.fault.Fault.TheVariants.{Memory};
ghost use Rattle.cb_peer_state.specs.Event.{begins, kind_of};
ghost use Rattle.cb_trace.specs.Trace.{IsOpen};
ghost use Rattle.cb_session.specs.Conversation.{AnswerOf, IsAnswered, IsPending, beat_in, input_in, left_of, open_question};
ghost use Rattle.cb_net_node.specs.Talks.{Breaks, Sends, Steps, StepsInto, moment};

use crate::transit::Transit;
use cb_base::Fault;
use cb_hall::{Badge, Question};
use cb_peer::Event;
use cb_trace::{Oracle, Trace};
use std::alloc::Global;

/// Gives the session an event that begins something new: input from the peer, or a tick. Asks the
/// hall all that the session asks then, until no question is open. All that it sends is put on its
/// way, behind what is there.
///
/// Fails only with `Fault::Memory`. The event was given then, but some of what the session sent may
/// be lost, and a question may still be open.
pub fn exchange<H: Oracle>(
    alloc: Global,
    trace: &mut Trace,
    hall: &mut H,
    badge: &mut Badge,
    event: Event,
    out: &mut Transit,
) -> Result<(), Fault>
    requires going { IsOpen trace.old }
    requires room { 2 ≤ trace.old.room }
    requires free { trace.old.session.pending ≡ None }
    requires begins { begins (kind_of event) ≡ true }
    ensures ok { OnOk result (Sends H.told (moment trace.old hall.old badge.old)
        (moment trace.new hall.new badge.new) (input_in event) (beat_in event) out.old out.new) }
    ensures answered { OnOk result (IsAnswered trace.new) }
    ensures err { OnErr result (Breaks H.told (moment trace.old hall.old badge.old)
        (moment trace.new hall.new badge.new) (input_in event) (beat_in event)) }
    ensures memory { IsOkUnless result Memory }
{
    let mut next = step_into(alloc, trace, event, out)?;
    while let Some(question) = next {
        if trace.state().is_closed() {
            return Ok(());
        }
        next = answer_into(alloc, trace, hall, badge, question, out)?;
    }
    Ok(())
}

/// Asks the hall the open question, and gives the session the answer. Returns the next question.
/// Fails only with `Fault::Memory`.
fn answer_into<H: Oracle>(
    alloc: Global,
    trace: &mut Trace,
    hall: &mut H,
    badge: &mut Badge,
    question: Question,
    out: &mut Transit,
) -> Result<Option<Question>, Fault>
    requires stands { open_question trace.old ≡ Some question }
    ensures ok { OnOk result (Sends H.told (moment trace.old hall.old badge.old)
        (moment trace.new hall.new badge.new) [] [] out.old out.new) }
    ensures asks { IfOk result (λ asked. IsPending trace.new asked) }
    ensures fewer { OnOk result (left_of trace.new < left_of trace.old) }
    ensures err { OnErr result (Breaks H.told (moment trace.old hall.old badge.old)
        (moment trace.new hall.new badge.new) [] []) }
    ensures memory { IsOkUnless result Memory }
{
    if !trace.ready() {
        return Err(Fault::Memory);
    }
    let event = ask_hall(hall, badge, question);
    step_into(alloc, trace, event, out)
}

/// Asks the hall a session's question. Returns the outcome as an event: the answer, `HallFull` or
/// `NoMemory`.
fn ask_hall<H: Oracle>(hall: &mut H, badge: &mut Badge, question: Question) -> Event
    ensures { AnswerOf H.told H.refused hall.old badge.old hall.new badge.new question result }
{
    match hall.ask(badge, question) {
        Ok(answer) => Event::Told(answer),
        Err(fault) if fault == Fault::JournalFull => Event::HallFull,
        Err(_) => Event::NoMemory,
    }
}

/// Gives the session an event, and puts what it sends on its way. Returns the question that it
/// asks. Fails only with `Fault::Memory`.
fn step_into(
    alloc: Global,
    trace: &mut Trace,
    event: Event,
    out: &mut Transit,
) -> Result<Option<Question>, Fault>
    requires going { IsOpen trace.old }
    requires room { 2 ≤ trace.old.room }
    ensures ok { IfOk result (λ asked. StepsInto trace.old trace.new event asked out.old out.new) }
    ensures err { OnErr result (Steps trace.old trace.new event) }
    ensures memory { IsOkUnless result Memory }
{
    let (messages, question) = trace.step(event);
    out.send(alloc, messages)?;
    Ok(question)
}
