//! A link between two nodes.
ghost use Rattle.std.specs.Prelude.{◌≡◌, ◌⊎◌, ◌↔◌, ◌<◌, [], true, false, length, IfOk, IfSome, IsOkUnless, IsSome, OnErr, OnOk};
ghost use Rattle.std.specs.List.{slice_index_or};
ghost use Rattle.cb_base.specs.declared.fault.Fault.TheVariants.{Memory};
ghost use Rattle.cb_peer_state.specs.declared.event.Event.TheVariants.{Tick};

use crate::end::Start;
use crate::ends::Ends;
use crate::side::Side;
use cb_base::Fault;
use cb_peer::{Event, State};
use cb_state::Connection;
use cb_trace::{Oracle, Trace};
use cb_wire::BoundedMessage;
use std::alloc::Global;
use std::marker::Model;

/// A link between two nodes: their two sessions, and the messages that are on their way from one to
/// the other. Contracts see both ends, and whether the link lasts.
///
/// While it lasts, what a session was given, followed by what is on its way to it, is what its
/// neighbour's fold sends, each message once and in order. Once the link has ended, what a session
/// was given is a beginning of that. A session is given nothing else.
pub struct NetLink {
    alloc: Global,
    ends: Ends,
    lasts: bool,
}

impl Model for NetLink {
    ghost use Rattle.cb_net_node.specs.Link.{IsLink, LinkView};

    ghost Value = { LinkView };

    ghost view = { λ link. record { ends = link.ends; lasts = link.lasts } };

    ghost invariant = { λ link. IsLink (record { ends = link.ends; lasts = link.lasts }) };
}

impl Drop for NetLink {
    fn drop(self) {
        let NetLink {
            alloc: _,
            ends: _,
            lasts: _,
        } = self;
    }
}

impl NetLink {
    ghost use Rattle.cb_net_node.specs.Ends.{WasClosed};
    ghost use Rattle.cb_net_node.specs.Link.{AreBegun, AreClosed, FailsAt, GivesAt, HearsAt, IsLink, MissesAt, end_at, is_open_at};

    /// A link that begins. The messages that open the two sessions are on their way.
    ///
    /// Fails only with `Fault::Memory`.
    pub fn new(alloc: Global, first: Start, second: Start) -> Result<NetLink, Fault>
        ensures begun { IfOk result (λ link. AreBegun first second link.ends) }
        ensures lasts { IfOk result (λ link. link.lasts ≡ true) }
        ensures memory { IsOkUnless result Memory }
    {
        let ends = Ends::new(alloc, first, second)?;
        Ok(NetLink {
            alloc,
            ends,
            lasts: true,
        })
    }

    /// Gives the session at a side a tick, asks its node's hall all that it asks then, and puts
    /// what it sends on its way. Returns false if the link has ended or the session is over;
    /// nothing changes then.
    ///
    /// Fails only with `Fault::Memory`. The link has ended then.
    pub fn tick<H: Oracle>(&mut self, side: Side, hall: &mut H) -> Result<bool, Fault>
        ensures given { IfOk result (λ given. given ≡ is_open_at self.old side) }
        ensures ticks { IfOk result (λ given. given ≡ true → (self.new.lasts ≡ true)
            × GivesAt H.told side Tick self.old.ends self.new.ends hall.old hall.new) }
        ensures same { IfOk result (λ given. given ≡ false →
            (self.new ≡ self.old) × (hall.new ≡ hall.old)) }
        ensures err { OnErr result ((self.new.lasts ≡ false)
            × FailsAt H.told side Tick self.old.ends self.new.ends hall.old hall.new) }
        ensures memory { IsOkUnless result Memory }
    {
        if !self.is_open(side) {
            return Ok(false);
        }
        self.lasts = false;
        self.ends.give(self.alloc, side, hall, Event::Tick)?;
        self.lasts = true;
        Ok(true)
    }

    /// Gives the session at a side the message that arrives next, asks its node's hall all that it
    /// asks then, and puts what it sends on its way. Returns false if nothing is on its way to it,
    /// if the link has ended, or if the session is over; nothing changes then.
    ///
    /// Fails only with `Fault::Memory`. The link has ended then.
    pub fn hear<H: Oracle>(&mut self, side: Side, hall: &mut H) -> Result<bool, Fault>
        ensures heard { IfOk result (λ heard. heard ≡ true →
            (is_open_at self.old side ≡ true) × (self.new.lasts ≡ true)
            × HearsAt H.told side self.old.ends self.new.ends hall.old hall.new) }
        ensures nothing { IfOk result (λ heard. heard ≡ false →
            (is_open_at self.old side ≡ false) ⊎ ((end_at self.old.ends side).inbox ≡ [])) }
        ensures same { IfOk result (λ heard. heard ≡ false →
            (self.new ≡ self.old) × (hall.new ≡ hall.old)) }
        ensures err { OnErr result ((self.new.lasts ≡ false)
            × MissesAt H.told side self.old.ends self.new.ends hall.old hall.new) }
        ensures memory { IsOkUnless result Memory }
    {
        if !self.is_open(side) || self.waiting(side) == 0 {
            return Ok(false);
        }
        self.lasts = false;
        self.ends.hear(self.alloc, side, hall)?;
        self.lasts = true;
        Ok(true)
    }

    /// Ends the link. Each session that isn't over hears the end of its stream, and what is on its
    /// way is lost.
    ///
    /// Fails only with `Fault::Memory`. The link has ended and both sessions are over all the same.
    pub fn end(&mut self) -> Result<(), Fault>
        ensures ended { self.new.lasts ≡ false }
        ensures closed { AreClosed self.new.ends }
        ensures heard { OnOk result
            (WasClosed self.old.ends.first.trace self.new.ends.first.trace
            × WasClosed self.old.ends.second.trace self.new.ends.second.trace) }
        ensures memory { IsOkUnless result Memory }
    {
        self.lasts = false;
        self.ends.close()
    }

    /// Whether the link lasts and the session at a side isn't over.
    pub fn is_open(&self, side: Side) -> bool
        ensures { result ≡ is_open_at self.now side }
    {
        self.lasts && !self.state(side).is_closed()
    }

    /// Whether the link lasts.
    pub fn lasts(&self) -> bool
        ensures { result ≡ self.now.lasts }
    {
        self.lasts
    }

    /// How far the session at a side is.
    pub fn state(&self, side: Side) -> State
        ensures { result ≡ (end_at self.now.ends side).trace.session.state }
    {
        self.ends.at(side).state()
    }

    /// The trace of the session at a side.
    pub fn trace(&self, side: Side) -> &Trace
        ensures trace { result.now ≡ (end_at self.now.ends side).trace }
        // What holds of every link.
        ensures law { IsLink self.now }
    {
        &self.ends.at(side).trace
    }

    /// The connection at a side's node.
    pub fn connection(&self, side: Side) -> Connection
        ensures { result ≡ (end_at self.now.ends side).badge.connection }
    {
        self.ends.at(side).badge.connection()
    }

    /// How many messages are on their way to a side.
    pub fn waiting(&self, to: Side) -> usize
        ensures { result ≡ length (end_at self.now.ends to).inbox }
    {
        self.ends.at(to).inbox.len()
    }

    /// The message at a place of those on their way to a side, counted from the one that arrives
    /// next.
    pub fn message(&self, to: Side, place: usize) -> Option<&BoundedMessage>
        ensures within { IsSome result ↔ (place < length (end_at self.now.ends to).inbox) }
        ensures message { IfSome result (λ message.
            message.now ≡ slice_index_or (end_at self.now.ends to).inbox place message.now) }
    {
        self.ends.at(to).inbox.get(place)
    }
}
