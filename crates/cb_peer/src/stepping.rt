//! How a session handles an event. What it does with an item and with an answer is in
//! `receiving` and `replying`.
ghost use Rattle.std.specs.Prelude.{◌≡◌, [], true, false, IfOk, IsOk, IsOkUnless, OnErr};
ghost use Rattle.cb_base.specs.declared.fault.Fault.TheVariants.{Memory};
ghost use Rattle.cb_hall.specs.declared.answer.Answer.TheVariants as answers;
ghost use Rattle.cb_peer_state.specs.declared.event.Event.TheVariants as events;
ghost use Rattle.cb_peer_state.specs.declared.session_state.SessionState.{SessionState};
ghost use Rattle.cb_peer_state.specs.declared.state.CloseReason.TheVariants as reasons;
ghost use Rattle.cb_peer_state.specs.declared.state.State.TheVariants as states;
ghost use Rattle.cb_peer_state.specs.Event.{ends_at_once};
ghost use Rattle.cb_peer_state.specs.Outcomes.{Answers, IsLightOutcome, Makes};
ghost use Rattle.cb_peer_state.specs.Receiving.{Outcome};
ghost use Rattle.cb_peer_state.specs.Replying.{answered, replied};
ghost use Rattle.cb_peer_state.specs.Session.{arrives, closes, for_item, is_light, open_step, probed, spares, told, weighs_at};
ghost use Rattle.cb_peer_state.specs.State.{bare, over};

use crate::receiving::process;
use crate::replying::reply;
use cb_base::{Fault, Shared};
use cb_hall::{Answer, Question};
use cb_peer_state::{
    CloseReason, Event, NextQuestion, Outgoing, Pending, Reaction, SessionState, Settings, Stage,
    State,
};
use cb_wire::Item;
use std::alloc::Global;

/// An item or a tick asks the hall for admission. It is ignored while a question is open.
pub(crate) fn arrive(
    session: &mut SessionState,
    alloc: Global,
    item: Option<Shared<Item>>,
) -> (Vec<Outgoing>, Option<Question>)
    ensures { Answers
        (arrives session.old.pending session.old item) session.new result.0.items result.1 }
{
    if session.pending.is_some() {
        return (Vec::new(alloc), None);
    }
    session.pending = Some(Pending {
        item,
        stage: Stage::Admit,
    });
    (Vec::new(alloc), Some(Question::Admit))
}

/// Sends a `ping` once the handshake is complete (BIP 31), whether or not a question is open.
pub(crate) fn probe(
    session: &mut SessionState,
    alloc: Global,
) -> Result<(Vec<Outgoing>, Option<Question>), Fault>
    ensures ok { IfOk result
        (λ made. Answers (probed session.old) session.new made.0.items made.1) }
    ensures err { OnErr result (session.new ≡ over reasons.Memory session.old) }
    ensures memory { IsOkUnless result Memory }
    ensures silent { (probed session.old).messages ≡ [] → IsOk result }
{
    if !session.state.is_ready() {
        return Ok((Vec::new(alloc), None));
    }
    let settings = session.settings;
    match session.ping(alloc) {
        Ok(sent) => Ok((sent, None)),
        Err(_) => Err(starve(session, alloc, settings)),
    }
}

/// Handles the hall's answer. A session ignores an answer that doesn't fit its open question.
pub(crate) fn hear_answer(
    session: &mut SessionState,
    alloc: Global,
    answer: &Answer,
) -> Result<(Vec<Outgoing>, Option<Question>), Fault>
    ensures ok { IfOk result
        (λ made. Answers
        (told session.old.pending session.old answer.now) session.new made.0.items made.1) }
    ensures err { OnErr result (session.new ≡ over reasons.Memory session.old) }
    ensures memory { IsOkUnless result Memory }
    ensures calm { answer.now ≡ answers.Kicked → IsOk result }
    ensures silent { spares session.old (events.Told answer.now) ≡ true →
        (told session.old.pending session.old answer.now).messages ≡ [] →
        is_light (told session.old.pending session.old answer.now).question ≡ true → IsOk result }
{
    let Some(pending) = session.pending.take() else {
        return Ok((Vec::new(alloc), None));
    };
    if !pending.is_met_by(answer) {
        session.pending = Some(pending);
        return Ok((Vec::new(alloc), None));
    }
    follow(session, alloc, pending, answer)
}

/// Handles an answer that fits. Its question is no longer open.
fn follow(
    session: &mut SessionState,
    alloc: Global,
    pending: Pending,
    answer: &Answer,
) -> Result<(Vec<Outgoing>, Option<Question>), Fault>
    ensures ok { IfOk result
        (λ made. Answers
        (for_item pending.item
        (answered session.old pending.item pending.stage answer.now))
        session.new made.0.items made.1) }
    ensures err { OnErr result (session.new ≡ over reasons.Memory session.old) }
    ensures memory { IsOkUnless result Memory }
    ensures calm { answer.now ≡ answers.Kicked → IsOk result }
    ensures silent { weighs_at session.old pending.item pending.stage answer.now ≡ false →
        IsLightOutcome (answered session.old pending.item pending.stage answer.now) → IsOk result }
{
    let Pending { item, stage } = pending;
    let settings = session.settings;
    match react(session, alloc, &item, &stage, answer) {
        Ok(reaction) => Ok(open_next(session, item, reaction)),
        Err(_) => Err(starve(session, alloc, settings)),
    }
}

/// Handles an answer to the question asked for an item, and the end of the item. Fails only with
/// `Fault::Memory`.
#[tactic(auto, unfolding(cb_peer_state::specs::Replying::answered))]
fn react(
    session: &mut SessionState,
    alloc: Global,
    item: &Option<Shared<Item>>,
    stage: &Stage,
    answer: &Answer,
) -> Result<Reaction, Fault>
    ensures ok { IfOk result
        (λ made. Makes (answered session.old item.now stage.now answer.now)
        item.now session.new made.messages.items made.next) }
    ensures memory { IsOkUnless result Memory }
    ensures calm { answer.now ≡ answers.Kicked → IsOk result }
    ensures silent { weighs_at session.old item.now stage.now answer.now ≡ false →
        IsLightOutcome (answered session.old item.now stage.now answer.now) → IsOk result }
{
    let reaction = handle(session, alloc, item, stage, answer)?;
    session.resume(alloc, reaction)
}

/// Handles an answer to the question asked for an item. Fails only with `Fault::Memory`.
#[tactic(auto, unfolding(cb_peer_state::specs::Replying::replied))]
fn handle(
    session: &mut SessionState,
    alloc: Global,
    item: &Option<Shared<Item>>,
    stage: &Stage,
    answer: &Answer,
) -> Result<Reaction, Fault>
    ensures ok { IfOk result
        (λ made. Makes (replied session.old item.now stage.now answer.now)
        item.now session.new made.messages.items made.next) }
    ensures memory { IsOkUnless result Memory }
    ensures calm { answer.now ≡ answers.Kicked → IsOk result }
    ensures silent { weighs_at session.old item.now stage.now answer.now ≡ false →
        IsLightOutcome (replied session.old item.now stage.now answer.now) → IsOk result }
{
    match stage {
        Stage::Admit => match answer {
            Answer::Go => process(session, alloc, item),
            _ => reply(session, alloc, item, stage, answer),
        },
        Stage::About(_) | Stage::Match | Stage::Give(_) | Stage::Wanted | Stage::Fresh => {
            reply(session, alloc, item, stage, answer)
        }
    }
}

/// Opens the next question for the item, if there is one. Returns the messages and that question.
fn open_next(
    session: &mut SessionState,
    item: Option<Shared<Item>>,
    reaction: Reaction,
) -> (Vec<Outgoing>, Option<Question>)
    ensures { (outcome : Outcome) →
        Makes outcome item session.old reaction.messages.items reaction.next →
        Answers (for_item item outcome) session.new result.0.items result.1 }
{
    let Reaction { messages, next } = reaction;
    let Some(NextQuestion { stage, question }) = next else {
        session.pending = None;
        return (messages, None);
    };
    session.pending = Some(Pending { item, stage });
    (messages, Some(question))
}

/// Ends the session, which was given these settings, because memory ran out.
#[cold]
pub(crate) fn starve(session: &mut SessionState, alloc: Global, settings: Settings) -> Fault
    ensures over { session.new ≡ bare settings (states.Closed reasons.Memory) }
    ensures memory { result ≡ Memory }
{
    *session = SessionState::bare(alloc, settings, State::Closed(CloseReason::Memory));
    Fault::Memory
}

/// The reason with which an event ends a session at once.
#[tactic(auto, unfolding(cb_peer_state::specs::Session::open_step))]
pub(crate) fn end_of(event: &Event) -> CloseReason
    requires { ends_at_once event.now ≡ true }
    ensures { (s : SessionState) → open_step s event.now ≡ closes result s }
{
    match event {
        Event::Broken(_) => CloseReason::BadStream,
        Event::NoMemory => CloseReason::Memory,
        Event::HallFull => CloseReason::HallFull,
        Event::WriteFault => CloseReason::WriteFault,
        Event::ReaderEnd => CloseReason::Bye,
        Event::Said(_) | Event::Tick | Event::Probe | Event::Told(_) => unreachable!(),
    }
}
