//! How a session handles the messages of compact blocks (BIP 152).
ghost use Rattle.std.specs.Prelude.{◌≡◌, Option, false, IfOk, IsOk, IsOkUnless};
ghost use Rattle.cb_base.specs.declared.fault.Fault.TheVariants.{Memory};
ghost use Rattle.cb_wire.specs.declared.item.Item.{Item};
ghost use Rattle.cb_wire.specs.declared.item.Item.TheVariants.{Good};
ghost use Rattle.cb_wire.specs.declared.message.Message.TheVariants as messages;
ghost use Rattle.cb_peer_state.specs.Outcomes.{IsLightOutcome, Makes};
ghost use Rattle.cb_peer_state.specs.Session.{weighs_ready};
ghost use Rattle.cb_peer_state.specs.Receiving.{in_ready, short_heard, txs_heard};

use cb_base::Fault;
use cb_compact::{Filled, check_places, complete};
use cb_hall::{Question, Request};
use cb_peer_state::{CloseReason, Reaction, SessionState, Subject};
use cb_wire::{BlockTransactions, BlockTransactionsRequest, HeaderAndShortIds, HeaderList};
use std::alloc::Global;

/// Handles `cmpctblock`: notes its block as the last heard of from the peer and asks the hall about
/// its header. If a prefilled transaction has a place past the block's end, the session ends. Fails
/// only with `Fault::Memory`, and never where the session ends.
#[tactic(auto, unfolding(cb_peer_state::specs::Receiving::short_heard))]
pub(crate) fn hear_short(
    session: &mut SessionState,
    alloc: Global,
    short: &HeaderAndShortIds,
) -> Result<Reaction, Fault>
    ensures ok { IfOk result
        (λ made. Makes (short_heard session.old short.now)
        (Some (Good (messages.CmpctBlock short.now))) session.new made.messages.items made.next) }
    ensures memory { IsOkUnless result Memory }
    ensures silent { IsLightOutcome (short_heard session.old short.now) → IsOk result }
{
    if check_places(&short.txs).is_err() {
        return Ok(session.end_by(alloc, CloseReason::BadMessage));
    }
    let mut headers = Vec::with_capacity(alloc, 1)?;
    headers.push_reserved(short.header);
    session.marks.heard = Some(short.header.hash());
    Ok(Reaction::about(
        alloc,
        Subject::Headers,
        Question::Headers(HeaderList::from_few(headers)),
    ))
}

/// Handles `getblocktxn`: asks the hall for the transactions at the requested places. Fails only
/// with `Fault::Memory`.
#[tactic(auto, unfolding(cb_peer_state::specs::Receiving::in_ready))]
pub(crate) fn ask_places(
    session: &SessionState,
    alloc: Global,
    request: &BlockTransactionsRequest,
) -> Result<Reaction, Fault>
    ensures ok { IfOk result
        (λ made. Makes (in_ready session.now (messages.GetBlockTxn request.now))
        (Some (Good (messages.GetBlockTxn request.now))) session.now
        made.messages.items made.next) }
    ensures memory { IsOkUnless result Memory }
{
    let differences = request.differences.copy(alloc)?;
    Ok(Reaction::about(
        alloc,
        Subject::Places,
        Question::Serve(Request::Places(request.block, differences)),
    ))
}

/// Handles `blocktxn`: completes the block that is being rebuilt and gives it to the hall. If the
/// completed block isn't sound, it is requested whole. If not as many transactions came as were
/// missing, the session ends. Transactions of another block are ignored. Fails only with
/// `Fault::Memory`.
#[tactic(auto, unfolding(cb_peer_state::specs::Receiving::txs_heard))]
pub(crate) fn hear_txs(
    session: &mut SessionState,
    alloc: Global,
    given: &BlockTransactions,
) -> Result<Reaction, Fault>
    ensures ok { (item : Option Item) → IfOk result
        (λ made. Makes (txs_heard session.old given.now)
        item session.new made.messages.items made.next) }
    ensures memory { IsOkUnless result Memory }
    ensures silent { weighs_ready session.old (messages.BlockTxn given.now) ≡ false →
        IsLightOutcome (txs_heard session.old given.now) → IsOk result }
{
    if !session.compact.is_partial(&given.block) {
        return session.end(alloc, Vec::new(alloc));
    }
    let Some(partial) = session.compact.partial.take() else {
        return session.end(alloc, Vec::new(alloc));
    };
    let before = partial.header().prev;
    match complete(alloc, partial, given) {
        Ok(Filled::Sound(block)) => session.give(alloc, block),
        Ok(Filled::Wrong) => session.fall_back(alloc, given.block, before),
        Err(Fault::Memory) => Err(Fault::Memory),
        Err(_) => Ok(session.end_by(alloc, CloseReason::BadMessage)),
    }
}
