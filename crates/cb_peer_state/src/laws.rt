//! What holds for every session, whatever events it is given. Each law is the contract of a
//! function that does nothing.
ghost use Rattle.std.specs.Prelude.{◌≡◌, ◌<◌, ◌≤◌, ◌++◌, [], ◌∷◌, ℕ, Bool, true, false, List, Option, None, Some, length};
ghost use Rattle.std.specs.List.{list_any};
ghost use Rattle.cb_base.specs.declared.hash.Hash256.{Hash256};
ghost use Rattle.cb_block.specs.Blocks.{IsSoundBlock};
ghost use Rattle.cb_peer_state.specs.Fetching.{AreDifferent, has};
ghost use Rattle.cb_hall.specs.declared.answer.Answer.{Answer};
ghost use Rattle.cb_hall.specs.declared.answer.Answer.TheVariants as answers;
ghost use Rattle.cb_hall.specs.declared.question.GivenBlock.{GivenBlock};
ghost use Rattle.cb_hall.specs.declared.question.Question.{Question};
ghost use Rattle.cb_hall.specs.declared.question.Question.TheVariants as questions;
ghost use Rattle.cb_state.specs.declared.news.News.{News};
ghost use Rattle.cb_state.specs.declared.serving.Piece.{Piece};
ghost use Rattle.cb_peer_state.specs.Inventory.{asking_block};
ghost use Rattle.cb_peer_state.specs.Serving.{served};
ghost use Rattle.cb_wire.specs.declared.item.Item.{Item};
ghost use Rattle.cb_wire.specs.declared.message.Message.{Message};
ghost use Rattle.cb_wire.specs.declared.message.Message.TheVariants as messages;
ghost use Rattle.cb_peer_state.specs.declared.stage.Stage.TheVariants.{About};
ghost use Rattle.cb_peer_state.specs.declared.stage.Subject.{Subject};
ghost use Rattle.cb_peer_state.specs.declared.event.Event.{Event};
ghost use Rattle.cb_peer_state.specs.declared.event.Event.TheVariants.{Told};
ghost use Rattle.cb_peer_state.specs.declared.pending.Pending.{Pending};
ghost use Rattle.cb_peer_state.specs.Questions.{fits, questions_left, pending_question};
ghost use Rattle.cb_peer_state.specs.Laws.{IsReached, asks_for_block, but_headers, greets, is_following, is_headers, rebuilds, wishes_for};
ghost use Rattle.cb_peer_state.specs.Receiving.{received, sends};
ghost use Rattle.cb_peer_state.specs.Replying.{answered, news_told, txs_told, wish_told};
ghost use Rattle.cb_peer_state.specs.Session.{step_of};
ghost use Rattle.cb_peer_state.specs.declared.session_state.SessionState.{SessionState};
ghost use Rattle.cb_peer_state.specs.State.{is_closed, is_ready, next_nonce, with_peer};

/// Before the handshake is complete, a session handles only `version`, `verack` and `ping`. Any
/// other message changes nothing, sends nothing and asks nothing. `sendheaders` (BIP 130) and
/// `sendcmpct` (BIP 152) change at most what the session notes of its peer. A `ping` is answered
/// with its `pong`.
pub fn only_the_handshake_counts()
    ensures nothing { (s : SessionState) (message : Message) → is_ready s.state ≡ false →
        greets message ≡ false → wishes_for message ≡ false → received s message ≡ sends s [] }
    ensures noted { (s : SessionState) (message : Message) → is_ready s.state ≡ false →
        wishes_for message ≡ true →
        received s message ≡ sends (with_peer (received s message).session.peer s) [] }
    ensures pinged { (s : SessionState) (nonce : ℕ) → is_ready s.state ≡ false →
        received s (messages.Ping nonce) ≡ sends s (messages.Pong nonce ∷ []) }
{}

/// A session doesn't announce a tip to its peer if that tip is the last block it heard of from this
/// peer. It then sends the transactions' announcement, and at most one `sendcmpct` (BIP 152).
pub fn a_tip_is_not_told_to_its_source()
    ensures { (s : SessionState) (item : Option Item) (news : News) →
        s.marks.heard ≡ Some news.tip →
        (news_told s item news).messages
        ≡ txs_told s item news.txids ++ wish_told s news.high }
{}

/// A peer that sent no `sendheaders` (BIP 130) is sent `headers` only as the answer to its
/// `getheaders`.
pub fn headers_are_sent_where_asked_for()
    ensures { (s : SessionState) (event : Event) → s.peer.by_headers ≡ false →
        is_following event ≡ false → list_any is_headers (step_of s event).messages ≡ false }
{}

/// A `getdata` is answered with what the hall has, in order, and then one `notfound` of all that it
/// lacks (own). Each compact block has a nonce of its own (BIP 152), from the next one on. Nothing
/// else is sent then but a `getheaders`.
pub fn what_the_hall_has_is_served()
    ensures { (s : SessionState) (item : Option Item) (subject : Subject) (pieces : List Piece) →
        but_headers (answered s item (About subject) (answers.Served pieces)).messages
        ≡ served (next_nonce s) pieces }
{}

/// In every reachable session at most 16 blocks are in flight and at most 2,000 are queued. No
/// block is in flight twice, and none is queued twice. A block may be both: one that is queued goes
/// in flight when it can't be rebuilt from its compact form.
pub fn few_blocks_are_fetched()
    ensures flight { (s : SessionState) → IsReached s → length s.fetch.flight ≤ 16 }
    ensures wanted { (s : SessionState) → IsReached s → length s.fetch.wanted ≤ 2000 }
    ensures flight_once { (s : SessionState) → IsReached s → AreDifferent s.fetch.flight }
    ensures wanted_once { (s : SessionState) → IsReached s → AreDifferent s.fetch.wanted }
{}

/// A reachable session requests no block that is in flight, with one exception. A block that can't
/// be rebuilt from its compact form is requested again, alone and whole (BIP 152): at the mempool's
/// transactions for its `cmpctblock`, or at a `blocktxn` while it is being rebuilt. Nothing else is
/// sent then but a `getheaders`.
pub fn no_block_in_flight_is_asked_for()
    ensures once { (s : SessionState) (event : Event) (hash : Hash256) → IsReached s →
        rebuilds hash s event ≡ false →
        list_any (asks_for_block hash) (step_of s event).messages ≡ true →
        has s.fetch.flight hash ≡ false }
    ensures again { (s : SessionState) (event : Event) (hash : Hash256) →
        rebuilds hash s event ≡ true →
        list_any (asks_for_block hash) (step_of s event).messages ≡ true →
        but_headers (step_of s event).messages ≡ asking_block hash ∷ [] }
{}

/// A reachable session gives the hall only blocks that are sound, whether they came whole or were
/// rebuilt from a compact block: their transactions match the Merkle root (CVE-2012-2459,
/// CVE-2017-12842).
pub fn sound_blocks_are_given()
    ensures { (s : SessionState) (given : GivenBlock) → IsReached s →
        pending_question s ≡ Some (questions.GiveBlock given) → IsSoundBlock given.block }
{}

/// Each answer that fits its question leaves fewer answers to wait for, or ends the session. So the
/// questions of an item run out: it asks at most six, one for each variant of `Stage`.
pub fn questions_run_out()
    ensures fewer { (s : SessionState) (question : Question) (answer : Answer) →
        is_closed s.state ≡ false → pending_question s ≡ Some question →
        fits question answer ≡ true
        → is_closed (step_of s (Told answer)).session.state ≡ false →
        questions_left (step_of s (Told answer)).session.pending < questions_left s.pending }
    ensures few { (pending : Option Pending) → questions_left pending ≤ 6 }
{}
