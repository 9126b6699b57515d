ghost use Rattle.std.specs.Prelude.{◌≡◌, ◌<◌, ◌≤◌, [], length, slice_index_or, All, IfOk, IfErr};
ghost use Rattle.cb_base.specs.declared.fault.Fault.TheVariants.{Memory};
ghost use Rattle.cb_crew.specs.Work.{IsFresh};
ghost use Rattle.cb_crew.specs.Crew.{AreHandlersOf, AreOpeningSeats, AreSidesOf, IsNewCrew, MadeNoTurn};
ghost use Rattle.cb_crew.specs.Headline.{IsFinished};

use crate::desk::Desk;
use crate::handler::Handler;
use crate::inbox::Inbox;
use crate::reader::ReaderSeat;
use crate::reader_side::ReaderSide;
use crate::ring::Ring;
use crate::work::{Fresh, Work};
use cb_base::{Fault, Shared};
use std::alloc::Global;
use std::marker::Model;
use std::sync::Wait;

/// A crew: a few handler threads that serve many peers. It has an inbox for each peer, and a desk
/// that serves that inbox. Free desks wait in the ring, the run queue. Threads share a crew by
/// reference.
pub struct Crew<W: Work> {
    pub(crate) ring: Ring<Desk<W>>,
    pub(crate) inboxes: Vec<Shared<Inbox<W::Item, Fresh<W>>>>,
    pub(crate) handlers: u16,
    /// The labels of the works with which the crew was made, one for each peer in their order.
    pub(crate) labels: Vec<u64>,
}

impl<W: Work> Model for Crew<W> {
    ghost use Rattle.cb_crew.specs.Crew.{CrewState, IsCrew};

    ghost Value = { CrewState };

    ghost view = { λ a.
        record {
          ring = a.ring;
          inboxes = a.inboxes.items;
          handlers = a.handlers;
          labels = a.labels.items;
        } };

    ghost invariant = { λ a. IsCrew
        record {
          ring = a.ring;
          inboxes = a.inboxes.items;
          handlers = a.handlers;
          labels = a.labels.items;
        } };
}

impl<W: Work> Drop for Crew<W> {
    fn drop(self) {
        let Crew {
            ring: _,
            inboxes: _,
            handlers: _,
            labels: _,
        } = self;
    }
}

impl<W: Work> Crew<W> {
    /// How many peers the crew has, 1 to 1,024.
    pub fn peers(&self) -> u16
        ensures { result ≡ length self.now.inboxes }
    {
        self.inboxes.len() as u16
    }

    /// How many handlers the crew has.
    pub fn handlers(&self) -> u16
        ensures { result ≡ self.now.handlers }
    {
        self.handlers
    }

    /// The inbox of a peer.
    pub fn inbox(&self, peer: u16) -> &Inbox<W::Item, Fresh<W>>
        requires { peer < length self.now.inboxes }
        ensures value { result.now ≡ slice_index_or self.now.inboxes peer result.now }
        ensures peer { result.now.peer ≡ peer }
    {
        &self.inboxes[usize::from(peer)]
    }
}
