ghost use Rattle.std.specs.Prelude.{◌≡◌, [], ◌∷◌, true, false, None, Option, IfOk, IsOk, IsOkUnless, OnErr, OnOk, option_map};
ghost use Rattle.cb_base.specs.declared.fault.Fault.TheVariants.{Memory};
ghost use Rattle.cb_peer_state.specs.Fetching.{asks_now};
ghost use Rattle.cb_wire.specs.declared.item.Item.{Item};
ghost use Rattle.cb_wire.specs.declared.message.Message.TheVariants as messages;
ghost use Rattle.cb_hall.specs.declared.question.Question.TheVariants as questions;
ghost use Rattle.cb_peer_state.specs.declared.stage.Stage.TheVariants as stages;
ghost use Rattle.cb_peer_state.specs.Outcomes.{Makes, is_light_stage};
ghost use Rattle.cb_peer_state.specs.Receiving.{Outcome, ends, falls_back, gives};
ghost use Rattle.cb_peer_state.specs.Replying.{asks_news, resuming};
ghost use Rattle.cb_peer_state.specs.State.{bare, next_nonce, next_ping, over, remembers, with_fallen, with_lacking, with_made, with_probe, with_unknown};

use crate::compact::CompactState;
use crate::fetch::Fetch;
use crate::inventory::{asking_block, asking_headers};
use crate::outgoing::Outgoing;
use crate::pending::Pending;
use crate::reaction::{NextQuestion, Reaction, locator_of, one_message};
use crate::settings::Settings;
use crate::stage::Stage;
use crate::state::{CloseReason, Marks, Peer, State};
use cb_base::{Fault, Hash256};
use cb_block::SoundBlock;
use cb_hall::{GivenBlock, Question, ToldBefore};
use cb_wire::Message;
use std::alloc::Global;

/// What is known of a peer that has sent nothing.
const STRANGER: Peer = Peer {
    version: 0,
    relays: true,
    by_headers: false,
    capable: false,
    wants_high: false,
};

/// The marks of a session in which nothing was announced.
const UNMARKED: Marks = Marks {
    heard: None,
    tip: None,
    next: 0,
};

/// What a session keeps.
pub struct SessionState {
    /// Its settings.
    pub settings: Settings,
    /// How far it is.
    pub state: State,
    /// What its peer told about itself.
    pub peer: Peer,
    /// What the two announced to each other.
    pub marks: Marks,
    /// The blocks that it downloads.
    pub fetch: Fetch,
    /// The header behind which blocks had no room among the wanted ones. Headers are requested from
    /// it once nothing is wanted.
    pub resume_from: Option<Hash256>,
    /// Whether headers were requested because something was unknown, and weren't answered yet.
    pub unknown: bool,
    /// What it keeps for compact blocks (BIP 152).
    pub compact: CompactState,
    /// How many times it sent `ping`, modulo 2^64.
    pub probes: u64,
    /// The item or tick whose question is open, if there is one.
    pub pending: Option<Pending>,
}

impl Drop for SessionState {
    fn drop(self) {
        let SessionState {
            settings: _,
            state: _,
            peer: _,
            marks: _,
            fetch: _,
            resume_from: _,
            unknown: _,
            compact: _,
            probes: _,
            pending: _,
        } = self;
    }
}

impl SessionState {
    /// A session about which only its settings and its state are known. Allocates nothing.
    pub fn bare(alloc: Global, settings: Settings, state: State) -> SessionState
        ensures { result ≡ bare settings state }
    {
        SessionState {
            settings,
            state,
            peer: STRANGER,
            marks: UNMARKED,
            fetch: Fetch::new(alloc),
            resume_from: None,
            unknown: false,
            compact: CompactState::new(),
            probes: 0,
            pending: None,
        }
    }

    /// Ends the session while it handles a message or an answer.
    pub fn end_by(&mut self, alloc: Global, why: CloseReason) -> Reaction
        ensures over { self.new ≡ over why self.old }
        ensures messages { result.messages.items ≡ [] }
        ensures next { result.next ≡ None }
    {
        *self = SessionState::bare(alloc, self.settings, State::Closed(why));
        Reaction::nothing(alloc)
    }

    /// The end of an item or a tick. Once the handshake is complete, the session asks which queued
    /// blocks are still needed if it has some and none is in flight. Otherwise it asks for news.
    ///
    /// Fails only with `Fault::Memory`, and never if it doesn't ask which blocks are needed.
    #[tactic(auto, unfolding(crate::specs::Receiving::ends))]
    pub fn end(&self, alloc: Global, messages: Vec<Outgoing>) -> Result<Reaction, Fault>
        ensures ok { (item : Option Item) →
            IfOk result (λ made. Makes
            (ends self.now messages.items) item self.now made.messages.items made.next) }
        ensures memory { IsOkUnless result Memory }
        ensures silent { is_light_stage (ends self.now messages.items).next ≡ true → IsOk result }
    {
        if !self.state.is_ready() {
            return Ok(Reaction::sends(messages));
        }
        if !self.fetch.is_due() {
            return Ok(Reaction {
                messages,
                next: Some(self.look()),
            });
        }
        let question = Question::Want(self.fetch.wanted(alloc)?);
        Ok(Reaction {
            messages,
            next: Some(NextQuestion {
                stage: Stage::Wanted,
                question,
            }),
        })
    }

    /// The question for news: what changed in the tip and the mempool since the peer was last told.
    /// The tip's block is asked for if the peer wants compact blocks unasked (BIP 152).
    pub fn look(&self) -> NextQuestion
        ensures { result ≡ record {
          stage = stages.Fresh;
          question = questions.News
              (record {
                tip = self.now.marks.tip;
                from = self.now.marks.next;
                whole = self.now.peer.wants_high;
              });
        } }
    {
        NextQuestion {
            stage: Stage::Fresh,
            question: Question::News(ToldBefore {
                tip: self.marks.tip,
                from: self.marks.next,
                whole: self.peer.wants_high,
            }),
        }
    }

    /// The nonce of the next compact block that is made for the peer (BIP 152): the salt of the
    /// settings plus the number of those made before, modulo 2^64.
    pub fn next_nonce(&self) -> u64
        ensures { result ≡ next_nonce self.now }
    {
        self.settings.salt.wrapping_add(self.compact.made)
    }

    /// Counts compact blocks that were made for the peer, modulo 2^64.
    pub fn count_made(&mut self, count: u64)
        ensures { self.new ≡ with_made count self.old }
    {
        self.compact.made = self.compact.made.wrapping_add(count);
    }

    /// Gives the hall a block that was rebuilt from a compact block. It is no longer in flight.
    ///
    /// Fails only with `Fault::Memory`, if the block can't count another owner.
    pub fn give(&mut self, alloc: Global, block: SoundBlock) -> Result<Reaction, Fault>
        ensures ok { (item : Option Item) →
            IfOk result (λ made. Makes
            (gives self.old block) item self.new made.messages.items made.next) }
        ensures memory { IsOkUnless result Memory }
    {
        self.fetch.land(&block.block().header.hash());
        let question = Question::GiveBlock(GivenBlock {
            block: block.copy()?,
            capable: self.peer.capable,
        });
        Ok(Reaction {
            messages: Vec::new(alloc),
            next: Some(NextQuestion {
                stage: Stage::Give(block),
                question,
            }),
        })
    }

    /// Requests a block whole that couldn't be rebuilt from its compact block, or queues it for
    /// download if 16 others are in flight. If the queue is full, the header before the block is
    /// remembered. Then the item ends. Fails only with `Fault::Memory`.
    #[tactic(auto, unfolding(crate::specs::Receiving::falls_back))]
    pub fn fall_back(
        &mut self,
        alloc: Global,
        hash: Hash256,
        before: Hash256,
    ) -> Result<Reaction, Fault>
        ensures ok { (item : Option Item) →
            IfOk result (λ made. Makes
            (falls_back self.old hash before) item self.new made.messages.items made.next) }
        ensures memory { IsOkUnless result Memory }
    {
        let messages = if self.put_fallen(hash, before)? {
            one_message(alloc, asking_block(alloc, hash)?)?
        } else {
            Vec::new(alloc)
        };
        self.end(alloc, messages)
    }

    /// Notes that a block couldn't be rebuilt from its compact block. Returns whether it is to be
    /// requested whole now. Fails only with `Fault::Memory`.
    fn put_fallen(&mut self, hash: Hash256, before: Hash256) -> Result<bool, Fault>
        ensures asked { IfOk result (λ now. now ≡ asks_now self.old.fetch hash) }
        ensures fallen { OnOk result (self.new ≡ with_fallen hash before self.old) }
        ensures memory { IsOkUnless result Memory }
    {
        let now = self.fetch.fall_back(hash)?;
        if !self.remembers() && !self.fetch.is_fetched(&hash) {
            self.resume_from = Some(before);
        }
        Ok(now)
    }

    /// Whether the session remembers a header behind which blocks had no room.
    pub fn remembers(&self) -> bool
        ensures { result ≡ remembers self.now }
    {
        self.resume_from.is_some()
    }

    /// A `ping` with the session's next nonce (BIP 31), which is counted. A request for what is
    /// unknown counts no more, so another may be sent.
    ///
    /// Fails only with `Fault::Memory`. The session is then unchanged.
    pub fn ping(&mut self, alloc: Global) -> Result<Vec<Outgoing>, Fault>
        ensures session { OnOk result (self.new ≡ with_unknown false (with_probe self.old)) }
        ensures messages { IfOk result
            (λ sent. sent.items ≡ messages.Ping (next_ping self.old) ∷ []) }
        ensures memory { IsOkUnless result Memory }
        ensures err { OnErr result (self.new ≡ self.old) }
    {
        let nonce = self.settings.nonce.wrapping_add(self.probes);
        let sent = one_message(alloc, Outgoing::new(Message::Ping(nonce)))?;
        self.probes = self.probes.wrapping_add(1);
        self.unknown = false;
        Ok(sent)
    }

    /// Queues missing blocks for download, behind all others and in order, as far as there is room,
    /// but for those in flight. If some had none, the header before them is remembered. While one
    /// is remembered, the queue stays as it is.
    ///
    /// Fails only with `Fault::Memory`, and never if no block is missing.
    pub fn want(&mut self, lack: &[Hash256], before: Option<Hash256>) -> Result<(), Fault>
        ensures wanted { OnOk result (self.new ≡ with_lacking lack.now before self.old) }
        ensures memory { IsOkUnless result Memory }
        ensures unpaid { lack.now ≡ [] → IsOk result }
    {
        if self.remembers() {
            return Ok(());
        }
        self.fetch.want(lack)?;
        if self.fetch.leaves_out(lack) {
            self.resume_from = before;
        }
        Ok(())
    }

    /// The end of an item or a tick. Where news are asked for next and nothing is wanted, headers
    /// are requested from the remembered one, which is forgotten.
    ///
    /// Fails only with `Fault::Memory`, and never if nothing is sent.
    #[tactic(auto, unfolding(crate::specs::Replying::resuming))]
    pub fn resume(&mut self, alloc: Global, mut reaction: Reaction) -> Result<Reaction, Fault>
        ensures ok { (outcome : Outcome) (item : Option Item) →
            Makes outcome item self.old reaction.messages.items reaction.next →
            IfOk result (λ made. Makes
            (resuming outcome) item self.new made.messages.items made.next) }
        ensures memory { IsOkUnless result Memory }
        ensures silent { (outcome : Outcome) (item : Option Item) →
            Makes outcome item self.old reaction.messages.items reaction.next →
            (resuming outcome).messages ≡ [] → IsOk result }
    {
        if !asks_news(&reaction.next) {
            return Ok(reaction);
        }
        let Some(hash) = self.resume_from else {
            return Ok(reaction);
        };
        if !self.fetch.wants_none() {
            return Ok(reaction);
        }
        let request = asking_headers(locator_of(alloc, hash)?);
        reaction.messages.push(request)?;
        self.resume_from = None;
        Ok(reaction)
    }
}

/// Whether news are asked for next.
fn asks_news(next: &Option<NextQuestion>) -> bool
    ensures { result ≡ asks_news (option_map (λ asked. asked.stage) next.now) }
{
    match next {
        None => false,
        Some(asked) => matches!(asked.stage, Stage::Fresh),
    }
}
