//! A link between a node and a neighbour that isn't one: its messages are made by hand.
ghost use Rattle.std.specs.Prelude.{◌≡◌, ◌⊎◌, ◌++◌, ◌∷◌, [], true, false, None, IfOk, IsOkUnless, OnErr, OnOk, option_to_list};
ghost use Rattle.cb_base.specs.declared.fault.Fault.TheVariants.{Memory};
ghost use Rattle.cb_peer_state.specs.declared.event.Event.TheVariants.{Tick};
ghost use Rattle.cb_peer_state.specs.Session.{openings};
ghost use Rattle.cb_peer_state.specs.State.{is_closed};

use crate::end::{End, Start};
use crate::transit::Transit;
use cb_base::Fault;
use cb_peer::{Event, State};
use cb_state::Connection;
use cb_trace::{Oracle, Trace};
use cb_wire::BoundedMessage;
use std::alloc::Global;
use std::marker::Model;

/// A link between a node and a neighbour that isn't one. The node has a session; the neighbour's
/// messages are made by hand, and may be anything. Contracts see the node's end, what its session
/// sent that the neighbour didn't take yet, and whether the link lasts.
///
/// While it lasts, what the neighbour took, followed by what is on its way to it, is what the fold
/// of the node's session sends, each message once and in order. Once the link has ended, what it
/// took is a beginning of that.
pub struct LooseLink {
    alloc: Global,
    end: End,
    sent: Transit,
    lasts: bool,
}

impl Model for LooseLink {
    ghost use Rattle.cb_net_node.specs.LooseLink.{IsLooseLink, LooseView};

    ghost Value = { LooseView };

    ghost view = { λ link. record { end = link.end; sent = link.sent; lasts = link.lasts } };

    ghost invariant = { λ link.
        IsLooseLink (record { end = link.end; sent = link.sent; lasts = link.lasts }) };
}

impl Drop for LooseLink {
    fn drop(self) {
        let LooseLink {
            alloc: _,
            end: _,
            sent: _,
            lasts: _,
        } = self;
    }
}

impl LooseLink {
    ghost use Rattle.cb_net_node.specs.Ends.{Begins, Fails, Gives, Hears, Misses, WasClosed, with_hall};
    ghost use Rattle.cb_net_node.specs.LooseLink.{IsLooseLink, is_loose_open};

    /// A link that begins. The messages that open the session are on their way to the neighbour.
    ///
    /// Fails only with `Fault::Memory`.
    pub fn new(alloc: Global, start: Start) -> Result<LooseLink, Fault>
        ensures begins { IfOk result (λ link. Begins start link.end) }
        ensures sent { IfOk result (λ link. link.sent ≡ openings start.settings) }
        ensures lasts { IfOk result (λ link. link.lasts ≡ true) }
        ensures memory { IsOkUnless result Memory }
    {
        let (end, messages) = End::new(alloc, start)?;
        let mut sent = Transit::new(alloc);
        sent.send(alloc, messages)?;
        Ok(LooseLink {
            alloc,
            end,
            sent,
            lasts: true,
        })
    }

    /// Gives the session a tick, as `NetLink::tick` does.
    ///
    /// Fails only with `Fault::Memory`. The link has ended then.
    pub fn tick<H: Oracle>(&mut self, hall: &mut H) -> Result<bool, Fault>
        ensures given { IfOk result (λ given. given ≡ is_loose_open self.old) }
        ensures ticks { IfOk result (λ given. given ≡ true → (self.new.lasts ≡ true)
            × Gives H.told Tick self.old.end self.new.end hall.old hall.new
            self.old.sent self.new.sent) }
        ensures same { IfOk result (λ given. given ≡ false →
            (self.new ≡ self.old) × (hall.new ≡ hall.old)) }
        ensures err { OnErr result ((self.new.lasts ≡ false)
            × Fails H.told (with_hall self.old.end hall.old)
            (with_hall self.new.end hall.new) Tick) }
        ensures memory { IsOkUnless result Memory }
    {
        if !self.is_open() {
            return Ok(false);
        }
        self.lasts = false;
        self.end
            .give(self.alloc, hall, Event::Tick, &mut self.sent)?;
        self.lasts = true;
        Ok(true)
    }

    /// Gives the session the message of the neighbour that arrives next, as `NetLink::hear` does.
    ///
    /// Fails only with `Fault::Memory`. The link has ended then.
    pub fn hear<H: Oracle>(&mut self, hall: &mut H) -> Result<bool, Fault>
        ensures heard { IfOk result (λ heard. heard ≡ true →
            (is_loose_open self.old ≡ true) × (self.new.lasts ≡ true)
            × Hears H.told self.old.end self.new.end hall.old hall.new
            self.old.sent self.new.sent) }
        ensures nothing { IfOk result (λ heard. heard ≡ false →
            (is_loose_open self.old ≡ false) ⊎ (self.old.end.inbox ≡ [])) }
        ensures same { IfOk result (λ heard. heard ≡ false →
            (self.new ≡ self.old) × (hall.new ≡ hall.old)) }
        ensures err { OnErr result ((self.new.lasts ≡ false)
            × Misses H.told self.old.end self.new.end hall.old hall.new) }
        ensures memory { IsOkUnless result Memory }
    {
        if !self.is_open() || self.end.inbox.len() == 0 {
            return Ok(false);
        }
        self.lasts = false;
        self.end.hear(self.alloc, hall, &mut self.sent)?;
        self.lasts = true;
        Ok(true)
    }

    /// Puts a message of the neighbour on its way to the session, behind those that are.
    ///
    /// Fails only with `Fault::Memory`. It is lost then.
    pub fn put(&mut self, message: BoundedMessage) -> Result<(), Fault>
        ensures ok { OnOk result (self.new ≡ record self.old {
          end = record self.old.end { inbox = self.old.end.inbox ++ message ∷ [] };
        }) }
        ensures memory { IsOkUnless result Memory }
    {
        self.end.inbox.put(message)
    }

    /// Takes the message of the session that the neighbour hears next, if one is on its way to it.
    pub fn take(&mut self) -> Option<BoundedMessage>
        ensures taken { self.old.lasts ≡ true →
            self.old ≡ record self.new { sent = option_to_list result ++ self.new.sent } }
        ensures none { result ≡ None → (self.old.lasts ≡ false) ⊎ (self.old.sent ≡ []) }
        ensures over { self.old.lasts ≡ false → (result ≡ None) × (self.new ≡ self.old) }
    {
        if !self.lasts {
            return None;
        }
        self.sent.next()
    }

    /// Ends the link, as `NetLink::end` does.
    ///
    /// Fails only with `Fault::Memory`. The link has ended and the session is over all the same.
    pub fn end(&mut self) -> Result<(), Fault>
        ensures ended { self.new.lasts ≡ false }
        ensures closed { is_closed self.new.end.trace.session.state ≡ true }
        ensures nothing { (self.new.end.inbox ≡ []) × (self.new.sent ≡ []) }
        ensures heard { OnOk result (WasClosed self.old.end.trace self.new.end.trace) }
        ensures memory { IsOkUnless result Memory }
    {
        self.lasts = false;
        self.sent.clear();
        self.end.close()
    }

    /// Whether the link lasts and the session isn't over.
    pub fn is_open(&self) -> bool
        ensures { result ≡ is_loose_open self.now }
    {
        self.lasts && !self.state().is_closed()
    }

    /// Whether the link lasts.
    pub fn lasts(&self) -> bool
        ensures { result ≡ self.now.lasts }
    {
        self.lasts
    }

    /// How far the session is.
    pub fn state(&self) -> State
        ensures { result ≡ self.now.end.trace.session.state }
    {
        self.end.state()
    }

    /// The trace of the session.
    pub fn trace(&self) -> &Trace
        ensures trace { result.now ≡ self.now.end.trace }
        // What holds of every such link.
        ensures law { IsLooseLink self.now }
    {
        &self.end.trace
    }

    /// The connection at the node.
    pub fn connection(&self) -> Connection
        ensures { result ≡ self.now.end.badge.connection }
    {
        self.end.badge.connection()
    }

    /// What is on its way to the session.
    pub fn inbox(&self) -> &Transit
        ensures { result.now ≡ self.now.end.inbox }
    {
        &self.end.inbox
    }

    /// What is on its way to the neighbour.
    pub fn sent(&self) -> &Transit
        ensures { result.now ≡ self.now.sent }
    {
        &self.sent
    }
}
