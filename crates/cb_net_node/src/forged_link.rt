//! A link between an honest node and one that stalls or lies.
ghost use Rattle.std.specs.Prelude.{◌≡◌, ◌⊎◌, true, false, None, Some, IfOk, IsOkUnless, OnErr, OnOk};
ghost use Rattle.cb_base.specs.declared.fault.Fault.TheVariants.{Memory};
ghost use Rattle.cb_peer_state.specs.declared.event.Event.TheVariants.{Tick};
ghost use Rattle.cb_net_node.specs.Ends.{Fails, Misses, WasClosed, with_hall};
ghost use Rattle.cb_net_node.specs.LooseLink.{IsLooseLink};
ghost use Rattle.cb_net_node.specs.Asking.{asks};
ghost use Rattle.cb_net_node.specs.Forged.{AnswersByHand, HearsNone, HearsOne, IsForged, IsOver, Misbehaves, Puts, SaysOne, Ticks, forged_way, is_same_side};

use crate::end::Start;
use crate::lies::{Misdeed, answer, opening};
use crate::loose_link::LooseLink;
use crate::side::Side;
use crate::transit::Transit;
use cb_base::Fault;
use cb_block::SoundBlock;
use cb_hall::Hall;
use cb_peer::State;
use cb_peer_state::{Outgoing, our_version, wishes};
use cb_state::Connection;
use cb_trace::Trace;
use cb_wire::{BoundedMessage, Message};
use std::alloc::Global;

/// The protocol version that a node which stalls or lies tells.
const PROTOCOL_VERSION: i32 = 70_014;

/// A link whose honest node has a session, and whose other node makes its messages by hand.
pub struct ForgedLink {
    honest: Side,
    link: LooseLink,
    /// The nonce of the other node's `version`.
    nonce: u64,
    /// What the other node does, and about which block.
    about: Option<(Misdeed, SoundBlock)>,
}

impl Drop for ForgedLink {
    fn drop(self) {
        let ForgedLink {
            honest: _,
            link: _,
            nonce: _,
            about: _,
        } = self;
    }
}

impl ForgedLink {
    /// A link whose honest node is on this side. The messages that open it are on their way.
    ///
    /// Fails only with `Fault::Memory`.
    pub fn new(alloc: Global, honest: Side, start: Start, nonce: u64) -> Result<ForgedLink, Fault>
        ensures begins { IfOk result (λ forged. IsForged honest start forged) }
        ensures memory { IsOkUnless result Memory }
    {
        let link = LooseLink::new(alloc, start)?;
        let mut made = ForgedLink {
            honest,
            link,
            nonce,
            about: None,
        };
        if made.is_dialled() {
            if let Err(fault) = made.introduce(alloc) {
                // Its destructor is called by name, or the prover would go through all its parts.
                drop(made);
                return Err(fault);
            }
        }
        Ok(made)
    }

    /// Whether the honest node is on this side.
    pub fn is_honest(&self, side: Side) -> bool
        ensures { result ≡ is_same_side side self.now.honest }
    {
        match (side, self.honest) {
            (Side::First, Side::First) | (Side::Second, Side::Second) => true,
            (Side::First, Side::Second) | (Side::Second, Side::First) => false,
        }
    }

    /// Whether the other node opened the connection.
    fn is_dialled(&self) -> bool
        ensures { result ≡ self.now.link.end.trace.settings.inbound }
    {
        self.link.trace().settings().inbound
    }

    /// What is on its way to a side.
    pub fn on_its_way(&self, side: Side) -> &Transit
        ensures { result.now ≡ forged_way self.now side }
    {
        if self.is_honest(side) {
            self.link.inbox()
        } else {
            self.link.sent()
        }
    }

    /// How far the session is.
    pub fn state(&self) -> State
        ensures { result ≡ self.now.link.end.trace.session.state }
    {
        self.link.state()
    }

    /// The session with its log.
    pub fn trace(&self) -> &Trace
        ensures trace { result.now ≡ self.now.link.end.trace }
        // What holds of every such link: what the other node took, and what is on its way to it, is
        // what the session's fold sends.
        ensures law { IsLooseLink self.now.link }
    {
        self.link.trace()
    }

    /// The connection of the session.
    pub fn connection(&self) -> Connection
        ensures { result ≡ self.now.link.end.badge.connection }
    {
        self.link.connection()
    }

    /// Gives the session a tick, unless it is over.
    ///
    /// Fails only with `Fault::Memory`. The link has ended then.
    pub fn tick(&mut self, hall: &mut Hall) -> Result<(), Fault>
        ensures ok { OnOk result (Ticks hall.old hall.new self.old.link self.new.link) }
        ensures err { OnErr result ((self.new.link.lasts ≡ false)
            × Fails asks (with_hall self.old.link.end hall.old)
            (with_hall self.new.link.end hall.new) Tick) }
        ensures others { self.new ≡ record self.old { link = self.new.link } }
        ensures memory { IsOkUnless result Memory }
    {
        let _given = self.link.tick(hall)?;
        Ok(())
    }

    /// Gives the session the message that arrives next, if there is one and the session isn't over.
    ///
    /// Fails only with `Fault::Memory`. The link has ended then.
    pub fn hear(&mut self, hall: &mut Hall) -> Result<(), Fault>
        ensures ok { OnOk result (HearsOne hall.old hall.new self.old.link self.new.link
            ⊎ HearsNone hall.old hall.new self.old.link self.new.link) }
        ensures err { OnErr result ((self.new.link.lasts ≡ false)
            × Misses asks self.old.link.end self.new.link.end hall.old hall.new) }
        ensures others { self.new ≡ record self.old { link = self.new.link } }
        ensures memory { IsOkUnless result Memory }
    {
        let _given = self.link.hear(hall)?;
        Ok(())
    }

    /// Ends the session, unless it is over. What is on its way is lost.
    ///
    /// Fails only with `Fault::Memory`. The session is over all the same.
    pub fn end(&mut self) -> Result<(), Fault>
        ensures over { IsOver self.new.link }
        ensures heard { OnOk result
            (WasClosed self.old.link.end.trace self.new.link.end.trace) }
        ensures others { self.new ≡ record self.old { link = self.new.link } }
        ensures memory { IsOkUnless result Memory }
    {
        self.link.end()
    }

    /// The other node hears the message that arrives next, and answers by hand.
    ///
    /// Fails only with `Fault::Memory`. Its answer may be lost then.
    pub fn hear_by_hand(&mut self, alloc: Global) -> Result<(), Fault>
        ensures ok { OnOk result (AnswersByHand self.old.link self.new.link) }
        ensures others { self.new ≡ record self.old { link = self.new.link } }
        ensures memory { IsOkUnless result Memory }
    {
        match self.link.take() {
            Some(heard) => self.react(alloc, heard.message()),
            None => Ok(()),
        }
    }

    /// From now on the other node does this about a block, and begins with it.
    ///
    /// Fails only with `Fault::Memory`. What it begins with may be lost then.
    pub fn misbehave(
        &mut self,
        alloc: Global,
        misdeed: Misdeed,
        block: &SoundBlock,
    ) -> Result<(), Fault>
        ensures ok { OnOk result (Misbehaves misdeed block.now self.old self.new) }
        ensures memory { IsOkUnless result Memory }
    {
        let said = opening(alloc, misdeed, block)?;
        self.turn(misdeed, block.copy()?);
        self.say(said)
    }

    /// From now on the other node does this about a block.
    fn turn(&mut self, misdeed: Misdeed, block: SoundBlock)
        ensures { self.new ≡ record self.old { about = Some (misdeed, block) } }
    {
        drop(self.about.replace((misdeed, block)));
    }

    /// The other node does what a message that it heard makes it do.
    fn react(&mut self, alloc: Global, heard: &Message) -> Result<(), Fault>
        ensures ok { OnOk result (Puts self.old.link self.new.link) }
        ensures others { self.new ≡ record self.old { link = self.new.link } }
        ensures memory { IsOkUnless result Memory }
    {
        match heard {
            Message::Version(_) => self.greet(alloc),
            Message::Verack => self.send_all(alloc, wishes(alloc, PROTOCOL_VERSION)?),
            asked => self.answer(alloc, asked),
        }
    }

    /// The other node answers a message about the block, if it does.
    fn answer(&mut self, alloc: Global, asked: &Message) -> Result<(), Fault>
        ensures ok { OnOk result (Puts self.old.link self.new.link) }
        ensures others { self.new ≡ record self.old { link = self.new.link } }
        ensures memory { IsOkUnless result Memory }
    {
        let said = match &self.about {
            Some((misdeed, block)) => answer(alloc, *misdeed, block, asked)?,
            None => None,
        };
        match said {
            Some(message) => self.say(message),
            None => Ok(()),
        }
    }

    /// The other node answers `version`.
    fn greet(&mut self, alloc: Global) -> Result<(), Fault>
        ensures ok { OnOk result (Puts self.old.link self.new.link) }
        ensures others { self.new ≡ record self.old { link = self.new.link } }
        ensures memory { IsOkUnless result Memory }
    {
        if !self.is_dialled() {
            self.introduce(alloc)?;
        }
        self.say(Message::Verack)
    }

    /// The other node sends its `version`.
    fn introduce(&mut self, alloc: Global) -> Result<(), Fault>
        ensures ok { OnOk result (Puts self.old.link self.new.link) }
        ensures others { self.new ≡ record self.old { link = self.new.link } }
        ensures memory { IsOkUnless result Memory }
    {
        let version = our_version(alloc, self.nonce, 0, 0)?;
        self.link.put(version.make(alloc)?)
    }

    /// The other node sends messages.
    fn send_all(&mut self, alloc: Global, messages: Vec<Outgoing>) -> Result<(), Fault>
        ensures ok { OnOk result (Puts self.old.link self.new.link) }
        ensures others { self.new ≡ record self.old { link = self.new.link } }
        ensures memory { IsOkUnless result Memory }
    {
        for message in messages {
            self.link.put(message.make(alloc)?)?;
        }
        Ok(())
    }

    /// The other node sends a message, if that isn't too long for an envelope.
    fn say(&mut self, message: Message) -> Result<(), Fault>
        ensures ok { OnOk result (SaysOne message self.old.link self.new.link) }
        ensures others { self.new ≡ record self.old { link = self.new.link } }
        ensures memory { IsOkUnless result Memory }
    {
        if !message.is_within_limits() {
            return Ok(());
        }
        self.link.put(BoundedMessage::new(message))
    }
}
