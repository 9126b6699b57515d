//! Both ends of a link.
ghost use Rattle.std.specs.Prelude.{◌≡◌, ◌≢◌, ◌++◌, [], true, IfOk, IsOkUnless, OnErr, OnOk};
ghost use Rattle.cb_base.specs.declared.fault.Fault.TheVariants.{Memory};
ghost use Rattle.cb_peer_state.specs.Event.{begins, kind_of};
ghost use Rattle.cb_trace.specs.Trace.{IsOpen};
ghost use Rattle.cb_session.specs.Conversation.{IsAnswered};
ghost use Rattle.cb_net_node.specs.Ends.{Closes, WasClosed};
ghost use Rattle.cb_net_node.specs.Link.{AreBegun, AreClosed, FailsAt, GivesAt, HearsAt, MissesAt, end_at};

use crate::end::{End, Start};
use crate::side::Side;
use cb_base::Fault;
use cb_peer::Event;
use cb_peer_state::Outgoing;
use cb_trace::Oracle;
use std::alloc::Global;

/// The two ends of a link.
pub(crate) struct Ends {
    pub(crate) first: End,
    pub(crate) second: End,
}

impl Drop for Ends {
    fn drop(self) {
        let Ends {
            first: _,
            second: _,
        } = self;
    }
}

impl Ends {
    /// Both ends, with the messages that open their sessions on their way. Fails only with
    /// `Fault::Memory`.
    pub(crate) fn new(alloc: Global, first: Start, second: Start) -> Result<Ends, Fault>
        ensures begun { IfOk result (λ ends. AreBegun first second ends) }
        ensures memory { IsOkUnless result Memory }
    {
        let (first, from_first) = End::new(alloc, first)?;
        let (second, from_second) = End::new(alloc, second)?;
        let mut ends = Ends { first, second };
        ends.open(alloc, from_first, from_second)?;
        Ok(ends)
    }

    /// Puts the messages that open both sessions on their way. Fails only with `Fault::Memory`.
    fn open(
        &mut self,
        alloc: Global,
        from_first: Vec<Outgoing>,
        from_second: Vec<Outgoing>,
    ) -> Result<(), Fault>
        ensures ok { OnOk result (self.new ≡ record self.old {
          first = record self.old.first { inbox = self.old.first.inbox ++ from_second.items };
          second = record self.old.second { inbox = self.old.second.inbox ++ from_first.items };
        }) }
        ensures memory { IsOkUnless result Memory }
    {
        self.second.inbox.send(alloc, from_first)?;
        self.first.inbox.send(alloc, from_second)?;
        Ok(())
    }

    /// The end at a side.
    pub(crate) fn at(&self, side: Side) -> &End
        ensures { result.now ≡ end_at self.now side }
    {
        match side {
            Side::First => &self.first,
            Side::Second => &self.second,
        }
    }

    /// As `End::give`, at a side. What its session sends is on its way to its neighbour.
    pub(crate) fn give<H: Oracle>(
        &mut self,
        alloc: Global,
        side: Side,
        hall: &mut H,
        event: Event,
    ) -> Result<(), Fault>
        requires going { IsOpen (end_at self.old side).trace }
        requires free { IsAnswered (end_at self.old side).trace }
        requires begins { begins (kind_of event) ≡ true }
        ensures ok { OnOk result (GivesAt H.told side event self.old self.new hall.old hall.new) }
        ensures err { OnErr result
            (FailsAt H.told side event self.old self.new hall.old hall.new) }
        ensures memory { IsOkUnless result Memory }
    {
        match side {
            Side::First => self.first.give(alloc, hall, event, &mut self.second.inbox),
            Side::Second => self.second.give(alloc, hall, event, &mut self.first.inbox),
        }
    }

    /// As `End::hear`, at a side. What its session sends is on its way to its neighbour.
    pub(crate) fn hear<H: Oracle>(
        &mut self,
        alloc: Global,
        side: Side,
        hall: &mut H,
    ) -> Result<(), Fault>
        requires going { IsOpen (end_at self.old side).trace }
        requires free { IsAnswered (end_at self.old side).trace }
        requires some { (end_at self.old side).inbox ≢ [] }
        ensures ok { OnOk result (HearsAt H.told side self.old self.new hall.old hall.new) }
        ensures err { OnErr result (MissesAt H.told side self.old self.new hall.old hall.new) }
        ensures memory { IsOkUnless result Memory }
    {
        match side {
            Side::First => self.first.hear(alloc, hall, &mut self.second.inbox),
            Side::Second => self.second.hear(alloc, hall, &mut self.first.inbox),
        }
    }

    /// Each session that isn't over hears the end of its stream. What is on its way is lost.
    ///
    /// Fails only with `Fault::Memory`. The sessions are over all the same.
    pub(crate) fn close(&mut self) -> Result<(), Fault>
        ensures closed { AreClosed self.new }
        ensures closes { Closes self.old.first.trace self.new.first.trace
            × Closes self.old.second.trace self.new.second.trace }
        ensures ok { OnOk result (WasClosed self.old.first.trace self.new.first.trace
            × WasClosed self.old.second.trace self.new.second.trace) }
        ensures memory { IsOkUnless result Memory }
    {
        let first = self.first.close();
        let second = self.second.close();
        first?;
        second
    }
}
