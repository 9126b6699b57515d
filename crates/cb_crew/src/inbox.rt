ghost use Rattle.std.specs.Prelude.{◌≡◌, ◌≤◌, IfOk, IsOkUnless};
ghost use Rattle.cb_base.specs.declared.fault.Fault.TheVariants.{Memory};
ghost use Rattle.cb_crew.specs.Seat.{opening_seat};

use crate::queued::Opening;
use crate::reader::ReaderSeat;
use crate::rule::{Halves, InboxQueue};
use crate::taker::TakerSeat;
use cb_base::Fault;
use std::alloc::Global;
use std::marker::Model;

/// A peer's inbox: a bounded queue, shared by the reader's seat and the taker's seat. Contracts see
/// its peer, its capacity and its name. The name tells which seats belong to it.
///
/// What waits in it can change at any moment, so no contract speaks of it. At every moment the
/// queued marks are the taken marks followed by the waiting ones, in a state to which acts of the
/// crew's core lead.
pub struct Inbox<M: Drop, O: Opening + Drop> {
    peer: u16,
    pub(crate) line: InboxQueue<M, O>,
}

impl<M: Drop, O: Opening + Drop> Model for Inbox<M, O> {
    ghost use Rattle.cb_crew.specs.Seat.{InboxState, inbox_state};

    ghost Value = { InboxState };

    ghost view = { λ a. inbox_state a.peer a.line };

    ghost use Rattle.std.specs.Prelude.{◌≤◌};
    ghost use Rattle.crossbeam_queue.specs.Passes.{ruled_capacity};

    ghost invariant = { λ a. (1 ≤ ruled_capacity a.line) × (ruled_capacity a.line ≤ 1024) };
}

impl<M: Drop, O: Opening + Drop> Drop for Inbox<M, O> {
    fn drop(self) {
        let Inbox { peer: _, line: _ } = self;
    }
}

impl<M: Drop, O: Opening + Drop> Inbox<M, O> {
    /// An empty inbox of this peer with its two seats. It holds up to `capacity` items and marks.
    /// All memory that it ever needs is allocated here.
    ///
    /// Fails only with `Fault::Memory`.
    pub fn new(
        alloc: Global,
        peer: u16,
        capacity: usize,
    ) -> Result<(Inbox<M, O>, ReaderSeat<M, O>, TakerSeat<M, O>), Fault>
        requires { (1 ≤ capacity) × (capacity ≤ 1024) }
        ensures inbox { IfOk result (λ made. (made.0.peer ≡ peer) × (made.0.capacity ≡ capacity)) }
        ensures seats { IfOk result
            (λ made. (made.1 ≡ opening_seat made.0.name) × (made.2 ≡ opening_seat made.0.name)) }
        ensures memory { IsOkUnless result Memory }
    {
        let (line, mut pass) = InboxQueue::<M, O>::ruled(alloc, capacity)?;
        let taking = line.another::<Halves>(&mut pass);
        let inbox = Inbox { peer, line };
        Ok((inbox, ReaderSeat::first(pass), TakerSeat::first(taking)))
    }

    /// The peer whose inbox it is.
    pub fn peer(&self) -> u16
        ensures { result ≡ self.now.peer }
    {
        self.peer
    }

    /// How many items and marks it may hold, 1 to 1,024.
    pub fn capacity(&self) -> usize
        ensures value { result ≡ self.now.capacity }
        ensures some { 1 ≤ self.now.capacity }
        ensures limit { self.now.capacity ≤ 1024 }
    {
        self.line.capacity()
    }
}
