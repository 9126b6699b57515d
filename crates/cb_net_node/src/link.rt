//! A link of a network: its two ends, and what it was and is joined by.
ghost use Rattle.std.specs.Prelude.{◌≡◌, ◌≢◌, ◌+◌, ◌-◌, ◌^◌, ◌++◌, ◌↔◌, true, false, [], length, IfErr, IfSome, IsErrOf, IsOkUnless, IsSome, IsTrue, OnErr, OnOk, None, Ok, Some, is_some, ◌⊎◌};
ghost use Rattle.std.specs.Borrow.{sem};
ghost use Rattle.std.specs.Option.{option_copied};
ghost use Rattle.cb_base.specs.declared.fault.Fault.TheVariants.{Memory, NoMore};
ghost use Rattle.cb_net_node.specs.Lending.{LendsJoined};
ghost use Rattle.cb_net_node.specs.Links.{IsCut, IsCutAlone, IsForgotten, IsJoined, IsPresent, all_joined, counted, counted_at, end_of, next_event, number_of, one_more, present};

use crate::joined::Joined;
use crate::side::Side;
use cb_base::Fault;
use cb_net_plan::{LinkAct, LinkEvent};

/// One end of a link.
#[derive(Clone, Copy, Drop)]
pub struct LinkEnd {
    /// Its node.
    pub node: u32,
    /// The number of the far node as a peer of this one.
    pub peer: u16,
    /// How many events were put in for this end.
    events: u64,
    /// How many of the link's former connections were of the node's former halls.
    pub forgotten: usize,
}

impl LinkEnd {
    /// An end at a node, whose far node is a peer with this number.
    pub fn new(node: u32, peer: u16) -> LinkEnd
        ensures { result ≡ record { node = node; peer = peer; events = 0; forgotten = 0 } }
    {
        LinkEnd {
            node,
            peer,
            events: 0,
            forgotten: 0,
        }
    }

    /// Counts one more event, and returns its number.
    fn count(&mut self) -> u64
        ensures number { result ≡ one_more self.old.events }
        ensures counted { self.new ≡ counted self.old }
    {
        self.events = self.events.saturating_add(1);
        self.events
    }
}

/// A link between two nodes. It is joined, cut and joined again.
pub struct SimulatedLink {
    /// The number of its first end. That of the second one is higher by one.
    number: u32,
    first: LinkEnd,
    second: LinkEnd,
    /// How long a message is under way, in microseconds.
    pub latency: u64,
    /// How many times it was joined.
    generation: u64,
    /// Whether it is joined now.
    is_open: bool,
    /// What it is joined by, or was joined by last.
    joined: Option<Joined>,
    /// What it was joined by before that, in order.
    pub past: Vec<Joined>,
}

impl Drop for SimulatedLink {
    fn drop(self) {
        let SimulatedLink {
            number: _,
            first: _,
            second: _,
            latency: _,
            generation: _,
            is_open: _,
            joined: _,
            past: _,
        } = self;
    }
}

impl SimulatedLink {
    /// A link that was never joined.
    pub fn new(
        number: u32,
        first: LinkEnd,
        second: LinkEnd,
        latency: u64,
        past: Vec<Joined>,
    ) -> SimulatedLink
        ensures { result ≡ record {
          number = number;
          first = first;
          second = second;
          latency = latency;
          generation = 0;
          is_open = false;
          joined = None;
          past = past;
        } }
    {
        SimulatedLink {
            number,
            first,
            second,
            latency,
            generation: 0,
            is_open: false,
            joined: None,
            past,
        }
    }

    /// The end at a side.
    pub fn at(&self, side: Side) -> &LinkEnd
        ensures { result.now ≡ end_of self.now side }
    {
        match side {
            Side::First => &self.first,
            Side::Second => &self.second,
        }
    }

    /// Whether it is joined.
    pub fn is_open(&self) -> bool
        ensures { result ≡ self.now.is_open }
    {
        self.is_open
    }

    /// What it is joined by, if it is joined now.
    pub fn open(&self) -> Option<&Joined>
        ensures { option_copied result ≡ present self.now }
    {
        if self.is_open {
            self.joined.as_ref()
        } else {
            None
        }
    }

    /// The same, to change it.
    pub fn open_mut(&mut self) -> Option<&mut Joined>
        ensures* lends { sem 𝓛 (LendsJoined self.entry result) }
        ensures some { IsSome result ↔ (is_some (present self.old) ≡ true) }
        ensures value { IfSome result (λ joined. present self.old ≡ Some joined.now) }
    {
        if !self.is_open {
            return None;
        }
        self.joined.as_mut()
    }

    /// What it is joined by now, or was joined by last.
    pub fn last(&self) -> Option<&Joined>
        ensures { option_copied result ≡ self.now.joined }
    {
        self.joined.as_ref()
    }

    /// Whether an event is of what it is joined by now.
    pub fn is_present(&self, event: &LinkEvent) -> bool
        ensures { IsTrue result ↔ IsPresent event.now self.now }
    {
        self.is_open && event.generation == self.generation
    }

    /// The number of the end at a side.
    fn number_of(&self, side: Side) -> u32
        ensures { result ≡ number_of self.now side }
    {
        match side {
            Side::First => self.number,
            Side::Second => self.number.saturating_add(1),
        }
    }

    /// The next event of a side. The numbers of a side's events count from 1.
    pub fn event(&mut self, side: Side, act: LinkAct) -> LinkEvent
        ensures event { result ≡ next_event side act self.old }
        ensures counted { self.new ≡ counted_at side self.old }
    {
        let end = self.number_of(side);
        let number = match side {
            Side::First => self.first.count(),
            Side::Second => self.second.count(),
        };
        LinkEvent {
            end,
            number,
            generation: self.generation,
            act,
        }
    }

    /// Ends it, if it is joined: all sessions that aren't over hear the end of their streams, and
    /// what is on its way is lost.
    ///
    /// Fails only with `Fault::Memory`. It isn't joined any more all the same, and its sessions are
    /// over.
    pub fn cut(&mut self) -> Result<(), Fault>
        ensures cut { IsCut self.old self.new }
        ensures memory { IsOkUnless result Memory }
        ensures unpaid { self.old.is_open ≡ false → (result ≡ Ok tt) × (self.new ≡ self.old) }
    {
        if !self.is_open {
            return Ok(());
        }
        self.is_open = false;
        match &mut self.joined {
            Some(joined) => joined.end(),
            None => Ok(()),
        }
    }

    /// Joins it anew. What it was joined by is of the past.
    ///
    /// Fails with `Fault::NoMore` if it was joined 2^64 - 1 times, and with `Fault::Memory`. What
    /// it was and is joined by is as before then.
    pub fn join(&mut self, joined: Joined) -> Result<(), Fault>
        ensures ok { OnOk result (IsJoined joined self.old self.new) }
        ensures err { OnErr result (self.new ≡ record self.old { past = self.new.past }) }
        ensures past { OnErr result (self.new.past.items ≡ self.old.past.items) }
        ensures no_more { IsErrOf result NoMore ↔ (self.old.generation ≡ 2 ^ 64 - 1) }
        ensures kinds { IfErr result (λ fault. (fault ≡ NoMore) ⊎ (fault ≡ Memory)) }
    {
        // Its destructor is called by name, or the prover would go through all its parts.
        let Some(generation) = self.generation.checked_add(1) else {
            drop(joined);
            return Err(Fault::NoMore);
        };
        if self.past.reserve(1).is_err() {
            drop(joined);
            return Err(Fault::Memory);
        }
        if let Some(former) = self.joined.replace(joined) {
            self.past.push(former)?;
        }
        self.generation = generation;
        self.is_open = true;
        Ok(())
    }

    /// Moves what it was joined by to the past. Fails only with `Fault::Memory`; it stays then.
    fn retire(&mut self) -> Result<(), Fault>
        ensures ok { OnOk result
            (self.new ≡ record self.old { joined = None; past = self.new.past }) }
        ensures past { OnOk result (self.new.past.items ≡ all_joined self.old) }
        ensures err { OnErr result (self.new ≡ record self.old { past = self.new.past }) }
        ensures stays { OnErr result (self.new.past.items ≡ self.old.past.items) }
        ensures memory { IsOkUnless result Memory }
    {
        self.past.reserve(1)?;
        if let Some(former) = self.joined.take() {
            self.past.push(former)?;
        }
        Ok(())
    }

    /// The node of a side begins anew: its former connections are of a hall that is gone. The link
    /// is cut.
    ///
    /// Fails only with `Fault::Memory`. The link is cut all the same, and nothing that it was
    /// joined by is lost.
    pub fn forget(&mut self, side: Side) -> Result<(), Fault>
        ensures ok { OnOk result (IsForgotten side self.old self.new) }
        ensures err { OnErr result (IsCutAlone self.old self.new) }
        ensures memory { IsOkUnless result Memory }
    {
        self.cut()?;
        self.retire()?;
        let gone = self.past.len();
        match side {
            Side::First => self.first.forgotten = gone,
            Side::Second => self.second.forgotten = gone,
        }
        Ok(())
    }
}
