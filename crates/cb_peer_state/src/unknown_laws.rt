//! What holds for every session where something is unknown, or where its peer wants no
//! transactions announced. Each law is the contract of a function that does nothing.
ghost use Rattle.std.specs.Prelude.{◌≡◌, ◌≢◌, true, false, Option, Some, None};
ghost use Rattle.std.specs.List.{list_any};
ghost use Rattle.cb_base.specs.declared.fault.Fault.TheVariants.{NoParent};
ghost use Rattle.cb_block.specs.declared.header.Header.{Header};
ghost use Rattle.cb_chain.specs.Entries.{block_hash};
ghost use Rattle.cb_peer_state.specs.Fetching.{is_fetched};
ghost use Rattle.cb_hall.specs.declared.answer.Answer.{Answer};
ghost use Rattle.cb_hall.specs.declared.answer.Answer.TheVariants as answers;
ghost use Rattle.cb_wire.specs.declared.version.Version.{Version};
ghost use Rattle.cb_state.specs.declared.accepting.Taken.{Taken};
ghost use Rattle.cb_wire.specs.declared.message.Message.TheVariants as messages;
ghost use Rattle.cb_peer_state.specs.declared.event.Event.{Event};
ghost use Rattle.cb_peer_state.specs.declared.event.Event.TheVariants.{Told};
ghost use Rattle.cb_peer_state.specs.declared.pending.Pending.{Pending};
ghost use Rattle.cb_peer_state.specs.declared.session_state.SessionState.{SessionState};
ghost use Rattle.cb_peer_state.specs.declared.state.State.TheVariants.{Start};
ghost use Rattle.cb_peer_state.specs.Laws.{IsReached, asks_for_headers};
ghost use Rattle.cb_peer_state.specs.Receiving.{received};
ghost use Rattle.cb_peer_state.specs.Resuming.{IsKept};
ghost use Rattle.cb_peer_state.specs.Session.{step_of};
ghost use Rattle.cb_peer_state.specs.State.{is_closed, remembers};
ghost use Rattle.cb_peer_state.specs.Seeking.{Answered, announces_tx, finds_unknown, given_header};

/// A reachable session that has requested headers for something unknown requests none for anything
/// else that is unknown: the parent of a header or a block, or an announced block. It doesn't
/// either while it remembers a header (`headers_are_requested_from_what_is_remembered`).
pub fn headers_are_requested_once_for_what_is_unknown()
    ensures { (s : SessionState) (answer : Answer) → IsReached s → s.unknown ≡ true →
        s.resume_from ≡ None → finds_unknown answer ≡ true →
        list_any asks_for_headers (step_of s (Told answer)).messages ≡ false }
{}

/// A request for what is unknown is waited for until it is answered, or the session is over: by a
/// `headers` whose first headers have a known parent, or an empty one. A probe gives it up.
pub fn what_is_requested_is_waited_for()
    ensures { (s : SessionState) (event : Event) → s.unknown ≡ true →
        is_closed (step_of s event).session.state ≡ false →
        (step_of s event).session.unknown ≡ false → Answered s event }
{}

/// A block that came before its parent isn't dropped if that is in flight or wanted. It is in
/// flight or wanted itself then, or the header before it is remembered or headers are requested
/// from it. A session that remembers a header queues none.
pub fn a_block_waits_for_its_parent()
    ensures { (s : SessionState) (pending : Pending) (header : Header) (taken : Taken) →
        is_closed s.state ≡ false → s.pending ≡ Some pending →
        given_header pending.item pending.stage ≡ Some header → taken.refused ≡ Some NoParent →
        remembers s ≡ false → is_fetched s.fetch header.prev ≡ true →
        IsKept (block_hash header) (Some header.prev) (step_of s (Told (answers.Taken taken))) }
{}

/// A peer whose first `version` said that it wants no transactions to be announced (BIP 37) is sent
/// no `inv` of a transaction. A later `version` changes nothing.
pub fn a_peer_that_said_no_is_told_no_transactions()
    ensures none { (s : SessionState) (event : Event) → s.peer.relays ≡ false →
        list_any announces_tx (step_of s event).messages ≡ false }
    ensures first { (s : SessionState) (version : Version) → s.state ≡ Start →
        is_closed (received s (messages.Version version)).session.state ≡ false →
        (received s (messages.Version version)).session.peer.relays ≡ version.relay }
    ensures later { (s : SessionState) (version : Version) → s.state ≢ Start →
        (received s (messages.Version version)).session ≡ s }
{}
