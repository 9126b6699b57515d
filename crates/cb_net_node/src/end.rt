//! One end of a link.
ghost use Rattle.std.specs.Prelude.{◌≡◌, ◌≢◌, [], true, IfOk, IsOkUnless, OnErr, OnOk};
ghost use Rattle.cb_base.specs.declared.fault.Fault.TheVariants.{Memory};
ghost use Rattle.cb_peer_state.specs.Event.{begins, kind_of};
ghost use Rattle.cb_peer_state.specs.Session.{openings};
ghost use Rattle.cb_peer_state.specs.State.{is_closed};
ghost use Rattle.cb_trace.specs.Trace.{IsOpen};
ghost use Rattle.cb_session.specs.Conversation.{IsAnswered};
ghost use Rattle.cb_net_node.specs.Ends.{Begins, Closes, Fails, Gives, Hears, Misses, WasClosed, with_hall};

use crate::exchanging::exchange;
use crate::transit::Transit;
use cb_base::{Fault, Seed, Shared};
use cb_hall::Badge;
use cb_peer::{Event, Settings, State};
use cb_peer_state::Outgoing;
use cb_trace::{Oracle, Trace};
use cb_wire::Item;
use std::alloc::Global;

/// What an end of a link begins with: the badge of its connection at its node's hall, and the
/// settings of its session.
#[derive(Drop)]
pub struct Start {
    pub badge: Badge,
    pub settings: Settings,
}

/// One end of a link: its session (the trace), the badge under which the hall is asked, and the
/// messages that are on their way to it.
pub(crate) struct End {
    pub(crate) trace: Trace,
    pub(crate) badge: Badge,
    pub(crate) inbox: Transit,
}

impl Drop for End {
    fn drop(self) {
        let End {
            trace: _,
            badge: _,
            inbox: _,
        } = self;
    }
}

impl End {
    /// An end to which nothing is on its way, and the messages that open its session. Fails only
    /// with `Fault::Memory`.
    pub(crate) fn new(alloc: Global, start: Start) -> Result<(End, Vec<Outgoing>), Fault>
        ensures begins { IfOk result (λ made. Begins start made.0) }
        ensures opens { IfOk result (λ made. made.1.items ≡ openings start.settings) }
        ensures memory { IsOkUnless result Memory }
    {
        let (trace, messages) = Trace::with_seed(alloc, start.settings, Seed::fixed())?;
        let end = End {
            trace,
            badge: start.badge,
            inbox: Transit::new(alloc),
        };
        Ok((end, messages))
    }

    /// How far its session is.
    pub(crate) fn state(&self) -> State
        ensures { result ≡ self.now.trace.session.state }
    {
        self.trace.state()
    }

    /// Gives its session an event that begins something new, and asks the hall all that it asks
    /// then. What it sends is put on its way.
    ///
    /// Fails only with `Fault::Memory`. Some of what it sent may then be lost.
    pub(crate) fn give<H: Oracle>(
        &mut self,
        alloc: Global,
        hall: &mut H,
        event: Event,
        out: &mut Transit,
    ) -> Result<(), Fault>
        requires going { IsOpen self.old.trace }
        requires free { IsAnswered self.old.trace }
        requires begins { begins (kind_of event) ≡ true }
        ensures ok { OnOk result
            (Gives H.told event self.old self.new hall.old hall.new out.old out.new) }
        ensures err { OnErr result (Fails H.told (with_hall self.old hall.old)
            (with_hall self.new hall.new) event) }
        ensures inbox { self.new.inbox ≡ self.old.inbox }
        ensures memory { IsOkUnless result Memory }
    {
        if !self.trace.ready() {
            return Err(Fault::Memory);
        }
        exchange(alloc, &mut self.trace, hall, &mut self.badge, event, out)
    }

    /// Gives its session the message that arrives next, as `give` does.
    ///
    /// Fails only with `Fault::Memory`. The message may then be lost, and some of what its session
    /// sent.
    pub(crate) fn hear<H: Oracle>(
        &mut self,
        alloc: Global,
        hall: &mut H,
        out: &mut Transit,
    ) -> Result<(), Fault>
        requires going { IsOpen self.old.trace }
        requires free { IsAnswered self.old.trace }
        requires some { self.old.inbox ≢ [] }
        ensures ok { OnOk result
            (Hears H.told self.old self.new hall.old hall.new out.old out.new) }
        ensures err { OnErr result (Misses H.told self.old self.new hall.old hall.new) }
        ensures memory { IsOkUnless result Memory }
    {
        let Some(message) = self.inbox.next() else {
            unreachable!()
        };
        let item = Shared::new(alloc, Item::Good(message))?;
        self.give(alloc, hall, Event::Said(item), out)?;
        Ok(())
    }

    /// Gives its session the end of its stream, unless it is over. What is on its way to it is
    /// lost.
    ///
    /// Fails only with `Fault::Memory`. Its session is over all the same.
    pub(crate) fn close(&mut self) -> Result<(), Fault>
        ensures ok { OnOk result (WasClosed self.old.trace self.new.trace) }
        ensures closes { Closes self.old.trace self.new.trace }
        ensures closed { is_closed self.new.trace.session.state ≡ true }
        ensures badge { self.new.badge ≡ self.old.badge }
        ensures inbox { self.new.inbox ≡ [] }
        ensures memory { IsOkUnless result Memory }
    {
        self.inbox.clear();
        if self.trace.state().is_closed() {
            return Ok(());
        }
        if !self.trace.ready() {
            return Err(Fault::Memory);
        }
        let _silent = self.trace.step(Event::ReaderEnd);
        Ok(())
    }
}
