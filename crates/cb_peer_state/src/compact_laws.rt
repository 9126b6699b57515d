//! What holds for every session that is sent compact blocks, or sends them (BIP 152). Each law is
//! the contract of a function that does nothing, or only calls the law that it rests on.
ghost use Rattle.std.specs.Prelude.{◌≡◌, ◌≤◌, ◌+◌, ◌%◌, ◌^◌, ℕ, true, false, List, None, Some, Ok, length};
ghost use Rattle.std.specs.List.{list_any};
ghost use Rattle.cb_block.specs.declared.block.Block.{Block};
ghost use Rattle.cb_chain.specs.Entries.{block_hash, same};
ghost use Rattle.cb_compact.specs.Honest.{AreOwn};
ghost use Rattle.cb_compact.specs.Slots.{AreDifferent, Unfilled};
ghost use Rattle.cb_compact.specs.declared.named_tx.Pair.{Pair};
ghost use Rattle.cb_compact.specs.declared.partial.Filled.TheVariants.{Wrong};
ghost use Rattle.cb_hall.specs.declared.answer.Answer.{Answer};
ghost use Rattle.cb_hall.specs.declared.answer.Answer.TheVariants as answers;
ghost use Rattle.cb_hall.specs.declared.question.Question.TheVariants as questions;
ghost use Rattle.cb_hall.specs.declared.question.ToldBefore.{ToldBefore};
ghost use Rattle.cb_wire.specs.declared.block_transactions.BlockTransactions.{BlockTransactions};
ghost use Rattle.cb_wire.specs.declared.compact_block.HeaderAndShortIds.{HeaderAndShortIds};
ghost use Rattle.cb_compact.specs.Completing.{completed_of};
ghost use Rattle.cb_compact.specs.HonestMessages.{IsHonestMessage};
ghost use Rattle.cb_compact.specs.Places.{has_places};
ghost use Rattle.cb_compact.specs.Rebuilding.{rebuilt_of};
ghost use Rattle.cb_compact.specs.declared.rebuilding.Rebuilt.TheVariants.{Useless};
ghost use Rattle.cb_state.specs.declared.accepting.Heads.{Heads};
ghost use Rattle.cb_state.specs.declared.news.News.{News};
ghost use Rattle.cb_peer_state.specs.Serving.{nonces_from, nonces_in};
ghost use Rattle.cb_wire.specs.declared.item.Item.TheVariants.{Good};
ghost use Rattle.cb_wire.specs.declared.message.Message.TheVariants as messages;
ghost use Rattle.cb_peer_state.specs.Compact.{Fate, IsAskedWhole, LeadsTo, Requests, Wishes, announces_block, is_compact, is_reason, is_short, matched, sent_at, txs_come};
ghost use Rattle.cb_peer_state.specs.Laws.{IsReached};
ghost use Rattle.cb_peer_state.specs.declared.event.Event.{Event};
ghost use Rattle.cb_peer_state.specs.declared.event.Event.TheVariants as events;
ghost use Rattle.cb_peer_state.specs.declared.session_state.SessionState.{SessionState};
ghost use Rattle.cb_peer_state.specs.declared.stage.Stage.TheVariants.{Match};
ghost use Rattle.cb_peer_state.specs.Questions.{is_nil, pending_question};
ghost use Rattle.cb_peer_state.specs.Session.{pending_item, step_of};
ghost use Rattle.cb_peer_state.specs.State.{is_closed, is_ready, next_nonce};

use cb_compact::{an_honest_message_is_rebuilt, what_lacks_is_asked_for};

/// A compact block of an honest sender (BIP 152) is rebuilt. If the hall has all of its
/// transactions it is given that very block. Otherwise exactly those that nothing serves are
/// requested by one `getblocktxn`, and once they come in a `blocktxn` the hall is given that very
/// block.
pub fn an_honest_block_is_rebuilt()
    ensures { (s : SessionState) (block : Block) (places : List ℕ) (message : HeaderAndShortIds)
        (heads : Heads) (pairs : List Pair) → is_ready s.state ≡ true → s.pending ≡ None →
        IsHonestMessage block places message → heads.refused ≡ None →
        is_nil heads.lack ≡ false → AreOwn block message.nonce places pairs →
        LeadsTo block message.nonce places pairs (matched s message heads pairs) }
{
    an_honest_message_is_rebuilt();
    what_lacks_is_asked_for();
}

/// A `getblocktxn` requests what a compact block lacks: it names each place at which nothing
/// stands, and no other. A step sends at most one, and only where a compact block is pending, which
/// is kept.
pub fn missing_transactions_are_requested()
    ensures { (s : SessionState) (event : Event) → Requests s (step_of s event) }
{
    what_lacks_is_asked_for();
}

/// A compact block isn't held against its peer (BIP 152). While it or its missing transactions are
/// handled, the session ends only by a kick, for a header without work, for a prefilled transaction
/// with a place past the block's end, or for more or fewer transactions than were requested. What
/// the hall says of the rebuilt block never ends it.
pub fn a_compact_block_is_not_held_against_its_peer()
    ensures { (s : SessionState) (answer : Answer) → IsReached s →
        is_short (pending_item s.pending) ≡ true → is_closed s.state ≡ false →
        is_closed (step_of s (events.Told answer)).session.state ≡ true →
        is_reason s (pending_item s.pending) answer ≡ true }
{}

/// A session rebuilds one block at a time. It is given up only if the block or its missing
/// transactions come, if a newer one is to be rebuilt whose transactions are requested, or at the
/// session's end.
pub fn one_block_is_rebuilt_at_a_time()
    ensures { (s : SessionState) (event : Event) (partial : Unfilled) →
        s.compact.partial ≡ Some partial → Fate partial s (step_of s event) }
{}

/// A block that can't be rebuilt is requested whole, by one `getdata` entry of type 2, exactly if
/// it is in flight then. At most 16 are.
pub fn a_fallback_asks_for_the_whole_block()
    ensures useless { (s : SessionState) (short : HeaderAndShortIds) (pairs : List Pair) →
        is_closed s.state ≡ false → length s.fetch.flight ≤ 16 →
        s.pending
        ≡ Some (record { item = Some (Good (messages.CmpctBlock short)); stage = Match }) →
        has_places short.txs ≡ true → rebuilt_of short pairs ≡ Useless →
        IsAskedWhole (block_hash short.header) (step_of s (events.Told (answers.Pairs pairs))) }
    ensures wrong { (s : SessionState) (given : BlockTransactions) (partial : Unfilled) →
        is_ready s.state ≡ true → s.pending ≡ None → length s.fetch.flight ≤ 16 →
        s.compact.partial ≡ Some partial →
        same (block_hash partial.header) given.block ≡ true →
        completed_of partial given ≡ Ok Wrong → IsAskedWhole given.block (txs_come s given) }
{}

/// A tip is announced by a compact block only if the hall gave its block, which is asked for
/// exactly if the peer wants compact blocks unasked (BIP 152, high-bandwidth mode). A tip that was
/// heard from the peer isn't announced to it in any form.
pub fn compact_blocks_are_announced_where_asked_for()
    ensures given { (s : SessionState) (news : News) → news.block ≡ None →
        list_any is_compact (step_of s (events.Told (answers.News news))).messages ≡ false }
    ensures asked { (s : SessionState) (told : ToldBefore) →
        pending_question s ≡ Some (questions.News told) → told.whole ≡ s.peer.wants_high }
    ensures heard { (s : SessionState) (news : News) → s.marks.heard ≡ Some news.tip →
        list_any announces_block (step_of s (events.Told (answers.News news))).messages ≡ false }
{}

/// The compact blocks that a session sends have nonces one behind another, modulo 2^64, in a step
/// and from step to step. Among 2^64 of them no two are equal.
pub fn each_compact_block_has_its_nonce()
    ensures step { (s : SessionState) (event : Event) →
        nonces_in (step_of s event).messages
        ≡ nonces_from (next_nonce s) (length (nonces_in (step_of s event).messages)) }
    ensures next { (s : SessionState) (event : Event) →
        is_closed (step_of s event).session.state ≡ false →
        next_nonce (step_of s event).session
        ≡ (next_nonce s + length (nonces_in (step_of s event).messages)) % 2 ^ 64 }
    ensures run { (s : SessionState) (events : List Event) →
        nonces_in (sent_at s events)
        ≡ nonces_from (next_nonce s) (length (nonces_in (sent_at s events))) }
    ensures different { (s : SessionState) (events : List Event) →
        length (nonces_in (sent_at s events)) ≤ 2 ^ 64 →
        AreDifferent (nonces_in (sent_at s events)) }
{}

/// After the handshake a peer is told how to announce blocks (BIP 152, `sendcmpct`) only if it
/// knows compact blocks, and only by another wish than the last one.
pub fn bandwidth_wishes_alternate()
    ensures { (s : SessionState) (event : Event) → is_ready s.state ≡ true →
        Wishes s (step_of s event) }
{}
