//! How a session handles the hall's answers about compact blocks (BIP 152).
ghost use Rattle.std.specs.Prelude.{◌≡◌, [], false, Option, None, Some, IfOk, IfSome, IsOk, IsOkUnless};
ghost use Rattle.cb_base.specs.declared.fault.Fault.TheVariants.{BadWork, Memory};
ghost use Rattle.cb_chain.specs.Entries.{block_hash};
ghost use Rattle.cb_wire.specs.declared.item.Item.{Item};
ghost use Rattle.cb_peer_state.specs.Outcomes.{IsLightOutcome, Makes};
ghost use Rattle.cb_peer_state.specs.Questions.{short_in, sought_for};
ghost use Rattle.cb_peer_state.specs.Session.{weighs_child, weighs_short};
ghost use Rattle.cb_peer_state.specs.Replying.{excerpt_answered, given_told, pairs_told, short_told};

use cb_base::{Fault, Shared};
use cb_block::Header;
use cb_compact::{Pairs, Rebuilt, ShortIds, rebuild};
use cb_hall::{Question, Sought};
use cb_peer_state::{
    CloseReason, NextQuestion, Reaction, SessionState, Stage, asking_txs, is_orphan, one_message,
    push_some, send_excerpt,
};
use cb_state::{Excerpt, Heads, Taken};
use cb_wire::{HeaderAndShortIds, Item, Message};
use std::alloc::Global;

/// The compact block that an item brought, if it did.
pub(crate) fn short_in(item: &Option<Shared<Item>>) -> Option<&HeaderAndShortIds>
    ensures none { result ≡ None → short_in item.now ≡ None }
    ensures some { IfSome result (λ short. short_in item.now ≡ Some short.now) }
{
    let Some(shared) = item else {
        return None;
    };
    let Item::Good(bounded) = &**shared else {
        return None;
    };
    let Message::CmpctBlock(short) = bounded.message() else {
        return None;
    };
    Some(short)
}

/// Handles the hall's answer about the header of a compact block. One without work ends the
/// session. For an unknown parent headers are requested, if they may be. If the block isn't
/// missing, it is no longer in flight. Else the mempool is searched for its transactions.
///
/// Fails only with `Fault::Memory`, and never for a header without work.
#[tactic(auto, unfolding(cb_peer_state::specs::Replying::short_told))]
pub(crate) fn hear_short_heads(
    session: &mut SessionState,
    alloc: Global,
    short: &HeaderAndShortIds,
    heads: &Heads,
) -> Result<Reaction, Fault>
    ensures ok { (item : Option Item) → short_in item ≡ Some short.now → IfOk result
        (λ made. Makes (short_told session.old (block_hash short.now.header) heads.now)
        item session.new made.messages.items made.next) }
    ensures memory { IsOkUnless result Memory }
    ensures calm { heads.now.refused ≡ Some BadWork → IsOk result }
    ensures silent { IsLightOutcome
        (short_told session.old (block_hash short.now.header) heads.now) → IsOk result }
{
    if heads.refused == Some(Fault::BadWork) {
        return Ok(session.end_by(alloc, CloseReason::BadBlock));
    }
    let messages = session.search(alloc, is_orphan(heads.refused), &heads.locator)?;
    if heads.lack.as_slice().is_empty() {
        session.fetch.land(&short.header.hash());
        return session.end(alloc, messages);
    }
    let question = Question::Match(sought_for(alloc, short)?);
    Ok(Reaction {
        messages,
        next: Some(NextQuestion {
            stage: Stage::Match,
            question,
        }),
    })
}

/// What is looked for in the mempool: the transactions with these short ids. Fails only with
/// `Fault::Memory`.
fn sought_for(alloc: Global, short: &HeaderAndShortIds) -> Result<Shared<Sought>, Fault>
    ensures sought { IfOk result (λ sought. sought ≡ sought_for (Some short.now)) }
    ensures memory { IsOkUnless result Memory }
{
    let ids = Vec::from_slice(alloc, short.txs.ids())?;
    let ids = Shared::new(alloc, ShortIds::from_few(ids))?;
    Ok(Shared::new(
        alloc,
        Sought {
            header: short.header,
            nonce: short.nonce,
            ids,
        },
    )?)
}

/// Handles the transactions of the mempool that have a compact block's short ids. They are looked
/// through here, outside the hall. The block is given to the hall, or what it lacks is requested,
/// or it is requested whole. A prefilled transaction past the block's end ends the session.
///
/// Fails only with `Fault::Memory`, and never for an item that brought no compact block.
#[tactic(auto, unfolding(cb_peer_state::specs::Replying::pairs_told))]
pub(crate) fn hear_pairs(
    session: &mut SessionState,
    alloc: Global,
    item: &Option<Shared<Item>>,
    pairs: &Pairs,
) -> Result<Reaction, Fault>
    ensures ok { IfOk result
        (λ made. Makes (pairs_told session.old item.now pairs.now)
        item.now session.new made.messages.items made.next) }
    ensures memory { IsOkUnless result Memory }
    ensures silent { weighs_short (short_in item.now) ≡ false → IsOk result }
{
    let Some(short) = short_in(item) else {
        return Ok(Reaction::nothing(alloc));
    };
    match rebuild(alloc, short, pairs) {
        Ok(Rebuilt::Sound(block)) => session.give(alloc, block),
        Ok(Rebuilt::Lacking(partial, request)) => {
            let messages = one_message(alloc, asking_txs(request))?;
            session.compact.partial = Some(partial);
            session.end(alloc, messages)
        }
        Ok(Rebuilt::Useless) => { session.fall_back(alloc, short.header.hash(), short.header.prev) }
        Err(fault) if fault == Fault::Memory => Err(fault),
        Err(_) => Ok(session.end_by(alloc, CloseReason::BadMessage)),
    }
}

/// Handles the result of a rebuilt block, which has this header. A refused one isn't held against
/// the peer. If its parent is unknown it waits for it, or headers are requested. Fails only with
/// `Fault::Memory`.
#[tactic(auto, unfolding(cb_peer_state::specs::Replying::given_told))]
pub(crate) fn hear_given(
    session: &mut SessionState,
    alloc: Global,
    header: &Header,
    taken: &Taken,
) -> Result<Reaction, Fault>
    ensures ok { (item : Option Item) → IfOk result
        (λ made. Makes (given_told session.old header.now taken.now.refused taken.now.locator)
        item session.new made.messages.items made.next) }
    ensures memory { IsOkUnless result Memory }
    ensures silent { weighs_child session.old (Some header.now) taken.now.refused ≡ false →
        IsLightOutcome (given_told session.old header.now taken.now.refused taken.now.locator) →
        IsOk result }
{
    if is_orphan(taken.refused) {
        return session.end_orphaned(alloc, Some(*header), &taken.locator);
    }
    session.end(alloc, Vec::new(alloc))
}

/// Answers `getblocktxn`: sends the transactions, or the block if it lies deep. A request for a
/// place past the block's end ends the session. Fails only with `Fault::Memory`.
#[tactic(auto, unfolding(cb_peer_state::specs::Replying::excerpt_answered))]
pub(crate) fn answer_places(
    session: &mut SessionState,
    alloc: Global,
    excerpt: &Excerpt,
) -> Result<Reaction, Fault>
    ensures ok { (item : Option Item) → IfOk result
        (λ made. Makes (excerpt_answered session.old excerpt.now)
        item session.new made.messages.items made.next) }
    ensures memory { IsOkUnless result Memory }
    ensures silent { IsLightOutcome (excerpt_answered session.old excerpt.now) → IsOk result }
{
    if let Excerpt::Refused(_) = excerpt {
        return Ok(session.end_by(alloc, CloseReason::BadRequest));
    }
    let mut messages = Vec::new(alloc);
    push_some(&mut messages, send_excerpt(alloc, excerpt)?)?;
    session.end(alloc, messages)
}
