ghost use Rattle.std.specs.Prelude.{◌≡◌, ◌∷◌, ◌++◌, [], List, None, Some, IfOk, IsOk, IsOkUnless, OnErr, OnOk};
ghost use Rattle.cb_base.specs.declared.fault.Fault.TheVariants.{Memory};
ghost use Rattle.cb_block.specs.declared.header.Header.{Header};
ghost use Rattle.cb_peer_state.specs.declared.stage.Stage.TheVariants as stages;
ghost use Rattle.cb_peer_state.specs.Outcomes.{as_list};
ghost use Rattle.cb_peer_state.specs.Receiving.{last_hash};

use crate::outgoing::Outgoing;
use crate::stage::{Stage, Subject};
use cb_base::{Fault, Hash256};
use cb_block::Header;
use cb_hall::Question;
use cb_wire::Locator;
use std::alloc::Global;

/// The next question to the hall, and how far the session is with the item then.
#[derive(Drop)]
pub struct NextQuestion {
    /// The stage that the item is at with it.
    pub stage: Stage,
    /// The question.
    pub question: Question,
}

/// The result of handling a message or an answer, beside the changed session: the messages to send,
/// in order, and the next question, if any.
#[derive(Drop)]
pub struct Reaction {
    /// The messages to send.
    pub messages: Vec<Outgoing>,
    /// The next question.
    pub next: Option<NextQuestion>,
}

impl Reaction {
    /// Sends these messages and asks nothing.
    pub fn sends(messages: Vec<Outgoing>) -> Reaction
        ensures messages { result.messages.items ≡ messages.items }
        ensures next { result.next ≡ None }
    {
        Reaction {
            messages,
            next: None,
        }
    }

    /// Sends nothing and asks nothing.
    pub fn nothing(alloc: Global) -> Reaction
        ensures messages { result.messages.items ≡ [] }
        ensures next { result.next ≡ None }
    {
        Reaction::sends(Vec::new(alloc))
    }

    /// Sends nothing and asks the hall this question about the item.
    pub fn about(alloc: Global, subject: Subject, question: Question) -> Reaction
        ensures messages { result.messages.items ≡ [] }
        ensures next { result.next ≡
            Some (record { stage = stages.About subject; question = question }) }
    {
        Reaction {
            messages: Vec::new(alloc),
            next: Some(NextQuestion {
                stage: Stage::About(subject),
                question,
            }),
        }
    }
}

/// A list of one message. Fails only with `Fault::Memory`.
pub fn one_message(alloc: Global, message: Outgoing) -> Result<Vec<Outgoing>, Fault>
    ensures messages { IfOk result (λ made. made.items ≡ message ∷ []) }
    ensures memory { IsOkUnless result Memory }
{
    let mut made = Vec::with_capacity(alloc, 1)?;
    made.push_reserved(message);
    Ok(made)
}

/// Appends a message, if there is one. Fails only with `Fault::Memory`, and never if there is none.
/// The list is then unchanged.
pub fn push_some(messages: &mut Vec<Outgoing>, message: Option<Outgoing>) -> Result<(), Fault>
    ensures messages { OnOk result (messages.new.items ≡ messages.old.items ++ as_list message) }
    ensures memory { IsOkUnless result Memory }
    ensures err { OnErr result (messages.new.items ≡ messages.old.items) }
    ensures none { message ≡ None → IsOk result }
{
    match message {
        None => Ok(()),
        Some(message) => {
            messages.push(message)?;
            Ok(())
        }
    }
}

/// A locator of one hash. Fails only with `Fault::Memory`.
pub fn locator_of(alloc: Global, hash: Hash256) -> Result<Locator, Fault>
    ensures locator { IfOk result (λ locator. locator ≡ hash ∷ []) }
    ensures memory { IsOkUnless result Memory }
{
    let mut list = Vec::with_capacity(alloc, 1)?;
    list.push_reserved(hash);
    Ok(Locator::from_few(list))
}

/// The hash of the last header, or `None` if there is none.
pub fn hash_of_last(headers: &[Header]) -> Option<Hash256>
    ensures none { headers.now ≡ [] → result ≡ None }
    ensures some { (first : Header) (others : List Header) → headers.now ≡ first ∷ others →
        result ≡ Some (last_hash first others) }
{
    match headers.last() {
        None => None,
        Some(header) => Some(header.hash()),
    }
}
