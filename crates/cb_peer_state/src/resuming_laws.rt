//! What holds for every session whose wanted blocks are too many for its queue. Each law is the
//! contract of a function that does nothing.
ghost use Rattle.std.specs.Prelude.{◌≡◌, ◌∷◌, true, false, List, None, Option, Some};
ghost use Rattle.cb_base.specs.declared.hash.Hash256.{Hash256};
ghost use Rattle.cb_block.specs.declared.header.Header.{Header};
ghost use Rattle.cb_peer_state.specs.Fetching.{has, wants_none};
ghost use Rattle.cb_hall.specs.declared.answer.Answer.TheVariants as answers;
ghost use Rattle.cb_state.specs.declared.accepting.Heads.{Heads};
ghost use Rattle.cb_wire.specs.declared.item.Item.TheVariants.{Good};
ghost use Rattle.cb_wire.specs.declared.message.Message.TheVariants as messages;
ghost use Rattle.cb_peer_state.specs.Laws.{IsReached};
ghost use Rattle.cb_peer_state.specs.Resuming.{IsKept, IsWantedBy, Resumes, header_before};
ghost use Rattle.cb_peer_state.specs.declared.event.Event.{Event};
ghost use Rattle.cb_peer_state.specs.declared.event.Event.TheVariants as events;
ghost use Rattle.cb_peer_state.specs.declared.pending.Pending.{Pending};
ghost use Rattle.cb_peer_state.specs.declared.session_state.SessionState.{SessionState};
ghost use Rattle.cb_peer_state.specs.declared.stage.Stage.TheVariants.{About, Fresh};
ghost use Rattle.cb_peer_state.specs.declared.stage.Subject.TheVariants as subjects;
ghost use Rattle.cb_peer_state.specs.Replying.{is_workless};
ghost use Rattle.cb_peer_state.specs.Session.{step_of};
ghost use Rattle.cb_peer_state.specs.State.{is_closed, remembers};

/// No block is left out that a `headers` showed as missing. Once the hall has told it, the block is
/// in flight or wanted, or the session remembers a header: the one before the message's first, if
/// it remembered none. Or nothing was wanted, and headers were requested from the remembered one.
pub fn no_missing_block_is_left_out()
    ensures { (s : SessionState) (first : Header) (others : List Header) (heads : Heads)
        (hash : Hash256) → is_closed s.state ≡ false →
        s.pending ≡ Some (record {
          item = Some (Good (messages.Headers (first ∷ others)));
          stage = About subjects.Headers;
        }) → is_workless heads.refused ≡ false → has heads.lack hash ≡ true →
        IsKept hash (header_before s first) (step_of s (events.Told (answers.Heads heads))) }
{}

/// A remembered header stays until headers are requested from it, or the session is over. It is
/// requested from once nothing is wanted. Until then no other `getheaders` is sent.
pub fn headers_are_requested_from_what_is_remembered()
    ensures { (s : SessionState) (event : Event) (before : Hash256) →
        s.resume_from ≡ Some before → Resumes before (step_of s event) }
{}

/// While a header is remembered no block becomes wanted but one that can't be rebuilt from its
/// compact form. The hall's answer about wanted blocks tells which of them stay so.
pub fn nothing_joins_the_wanted_meanwhile()
    ensures { (s : SessionState) (event : Event) (hash : Hash256) → remembers s ≡ true →
        has (step_of s event).session.fetch.wanted hash ≡ true → IsWantedBy hash s event }
{}

/// Headers are requested from a remembered one as soon as nothing is wanted: where a reachable
/// session asks for news, as at the end of each item and tick, and nothing is wanted, no header is
/// remembered.
pub fn headers_are_requested_as_soon_as_nothing_is_wanted()
    ensures { (s : SessionState) (pending : Pending) → IsReached s → s.pending ≡ Some pending →
        pending.stage ≡ Fresh → wants_none s.fetch ≡ true → s.resume_from ≡ None }
{}
