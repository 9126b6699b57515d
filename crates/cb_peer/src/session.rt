ghost use Rattle.std.specs.Prelude.{◌≡◌, [], true, None, length, IfOk, IsOk, IsOkUnless, OnErr, is_some};
ghost use Rattle.cb_base.specs.declared.fault.Fault.TheVariants.{Memory};
ghost use Rattle.cb_peer_state.specs.Fetching.{has, idle};
ghost use Rattle.cb_peer_state.specs.declared.state.CloseReason.TheVariants as reasons;
ghost use Rattle.cb_peer_state.specs.Outcomes.{Answers};
ghost use Rattle.cb_peer_state.specs.Session.{closes, is_light, openings, spares, step_of, takes_no_memory};
ghost use Rattle.cb_peer_state.specs.State.{is_fetching, opening, over};

use crate::stepping::{arrive, end_of, hear_answer, probe, starve};
use cb_base::{Fault, Hash256, Seed};
use cb_hall::Question;
use cb_peer_state::{
    CloseReason, Event, Fetch, Outgoing, Peer, SessionState, Settings, State, one_message,
    our_version,
};
use std::alloc::Global;
use std::marker::Model;

/// One peer's session: a state machine that takes events and answers with messages and with a
/// question to the hall. The hall is what Bitcoin Core keeps in ChainstateManager and CTxMemPool.
///
/// Contracts see its settings, how far it is, what its peer told about itself, what the two
/// announced to each other, the blocks that it downloads, what it keeps for compact blocks, and the
/// item whose question is open.
pub struct Session {
    kept: SessionState,
}

impl Model for Session {
    ghost use Rattle.cb_peer_state.specs.declared.session_state.SessionState.{SessionState};

    ghost Value = { SessionState };

    ghost view = { λ session. session.kept };
}

impl Drop for Session {
    fn drop(self) {
        let Session { kept: _ } = self;
    }
}

impl Session {
    /// A new session, and the messages that open it: our `version` if this node made the
    /// connection, and none otherwise. The table of its wanted blocks has this seed, which changes
    /// no result.
    ///
    /// Fails only with `Fault::Memory`, and never for an inbound connection.
    pub fn with_seed(
        alloc: Global,
        settings: Settings,
        seed: Seed,
    ) -> Result<(Session, Vec<Outgoing>), Fault>
        ensures session { IfOk result (λ made. made.0 ≡ opening settings) }
        ensures messages { IfOk result (λ made. made.1.items ≡ openings settings) }
        ensures memory { IsOkUnless result Memory }
        ensures unpaid { openings settings ≡ [] → IsOk result }
    {
        let messages = if settings.inbound {
            Vec::new(alloc)
        } else {
            let version = our_version(alloc, settings.nonce, settings.time, settings.height)?;
            one_message(alloc, version)?
        };
        let mut kept = SessionState::bare(alloc, settings, State::Start);
        kept.fetch = Fetch::with_seed(alloc, seed);
        Ok((Session { kept }, messages))
    }

    /// How far the session is.
    pub fn state(&self) -> State
        ensures { result ≡ self.now.state }
    {
        self.kept.state
    }

    /// What the peer told about itself.
    pub fn peer(&self) -> Peer
        ensures { result ≡ self.now.peer }
    {
        self.kept.peer
    }

    /// Whether a question is open.
    pub fn is_waiting(&self) -> bool
        ensures { result ≡ is_some self.now.pending }
    {
        self.kept.pending.is_some()
    }

    /// How many blocks are in flight: requested and not received yet.
    pub fn in_flight(&self) -> usize
        ensures { result ≡ length self.now.fetch.flight }
    {
        self.kept.fetch.flight().len()
    }

    /// Whether this block is in flight.
    pub fn is_in_flight(&self, hash: &Hash256) -> bool
        ensures { result ≡ has self.now.fetch.flight hash.now }
    {
        self.kept.fetch.is_in_flight(hash)
    }

    /// Whether blocks are in flight or wanted.
    pub fn is_fetching(&self) -> bool
        ensures { result ≡ is_fetching self.now.fetch }
    {
        !self.kept.fetch.flight().is_empty() || !self.kept.fetch.wants_none()
    }

    /// Whether headers were requested because something was unknown, and weren't answered yet.
    pub fn seeks(&self) -> bool
        ensures { result ≡ self.now.unknown }
    {
        self.kept.unknown
    }

    /// The tip that the peer was told last.
    pub fn told_tip(&self) -> Option<Hash256>
        ensures { result ≡ self.now.marks.tip }
    {
        self.kept.marks.tip
    }

    /// An equal copy that shares the item whose question is open.
    ///
    /// Fails only with `Fault::Memory`, and never if no question is open and no block is being
    /// downloaded or rebuilt.
    pub fn copy(&self, alloc: Global) -> Result<Session, Fault>
        ensures equal { IfOk result (λ copy. copy ≡ self.now) }
        ensures memory { IsOkUnless result Memory }
        ensures unpaid { self.now.pending ≡ None → self.now.fetch ≡ idle →
            self.now.compact.partial ≡ None → IsOk result }
    {
        let kept = &self.kept;
        let pending = match &kept.pending {
            None => None,
            Some(pending) => Some(pending.copy()?),
        };
        Ok(Session {
            kept: SessionState {
                settings: kept.settings,
                state: kept.state,
                peer: kept.peer,
                marks: kept.marks,
                fetch: kept.fetch.copy(alloc)?,
                resume_from: kept.resume_from,
                unknown: kept.unknown,
                compact: kept.compact.copy(alloc)?,
                probes: kept.probes,
                pending,
            },
        })
    }

    /// Handles an event. Returns the messages to send, in order, and the question to ask the hall
    /// after that.
    ///
    /// Fails only with `Fault::Memory`; the session is then closed. A closed session ignores all
    /// events, and any session ignores an event that doesn't fit: an item or tick while a question
    /// is open, an answer that doesn't fit its open question, or a probe before the handshake is
    /// complete.
    #[tactic(auto, unfolding(cb_peer_state::specs::Session::step_of, cb_peer_state::specs::Session::open_step))]
    pub fn step(
        &mut self,
        alloc: Global,
        event: &Event,
    ) -> Result<(Vec<Outgoing>, Option<Question>), Fault>
        ensures ok { IfOk result
            (λ made. Answers (step_of self.old event.now) self.new made.0.items made.1) }
        ensures err { OnErr result (self.new ≡ over reasons.Memory self.old) }
        ensures memory { IsOkUnless result Memory }
        ensures calm { takes_no_memory event.now ≡ true → IsOk result }
        // An answer takes no memory if it doesn't fit, or if nothing is hashed for it
        // (`weighs_at`), it lists nothing missing or needed, no message is sent to it, and no
        // question but for the locator or for news follows. A probe takes none if nothing is sent.
        ensures silent { spares self.old event.now ≡ true →
            (step_of self.old event.now).messages ≡ [] →
            is_light (step_of self.old event.now).question ≡ true → IsOk result }
    {
        if self.kept.state.is_closed() {
            return Ok((Vec::new(alloc), None));
        }
        match event {
            Event::Said(item) => match item.clone() {
                Ok(shared) => Ok(arrive(&mut self.kept, alloc, Some(shared))),
                Err(_) => {
                    let settings = self.kept.settings;
                    Err(starve(&mut self.kept, alloc, settings))
                }
            },
            Event::Tick => Ok(arrive(&mut self.kept, alloc, None)),
            Event::Probe => probe(&mut self.kept, alloc),
            Event::Told(answer) => hear_answer(&mut self.kept, alloc, answer),
            Event::Broken(_)
            | Event::ReaderEnd
            | Event::NoMemory
            | Event::HallFull
            | Event::WriteFault => Ok(self.close(alloc, end_of(event))),
        }
    }

    /// Ends the session for this reason. Returns no messages and no question. Takes no memory.
    pub fn close(&mut self, alloc: Global, why: CloseReason) -> (Vec<Outgoing>, Option<Question>)
        ensures { Answers (closes why self.old) self.new result.0.items result.1 }
    {
        self.kept = SessionState::bare(alloc, self.kept.settings, State::Closed(why));
        (Vec::new(alloc), None)
    }
}
