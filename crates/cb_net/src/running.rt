//! What is due happens, one after another, in the order of virtual time.
ghost use Rattle.std.specs.Prelude.{◌≡◌, ◌⊎◌, ◌↔◌, ◌≤◌, ◌/◌, [], IfErr, IsTrue, OnOk, Ok, Some, slice_get};
ghost use Rattle.std.specs.Option.{option_copied};
ghost use Rattle.cb_net.specs.Counting.{Counted, CountsMessage, IsPresentAt, is_honest_at, message_on, sender_of};
ghost use Rattle.cb_net.specs.Faults.{IsNetFault};
ghost use Rattle.cb_net.specs.Moments.{Relays, roles_in};

use crate::audits::side_of;
use crate::net::Net;
use crate::world::World;
use cb_base::{Fault, Hash256};
use cb_net_node::{Side, SimulatedLink, SimulatedNode, Traffic, wire_size};
use cb_net_plan::{LinkAct, LinkEvent};
use cb_wire::BoundedMessage;

/// The place of the link of an end, by its number.
fn place_of(end: u32) -> usize
    ensures { result ≡ end / 2 }
{
    (end / 2) as usize
}

impl Net {
    /// All that is due happens, and what becomes due by that, until nothing is due or the bound on
    /// the number of events is reached. Each event lowers the bound by one.
    ///
    /// Fails with `Fault::Memory`, and as a hall does.
    pub(crate) fn run(&mut self) -> Result<(), Fault>
        ensures through { OnOk result
            ((self.new.world.queue.waiting ≡ []) ⊎ (self.new.left ≡ 0)) }
        ensures relays { Relays self.old.world self.new.world }
        ensures left { self.new.left ≤ self.old.left }
        ensures others { self.new
            ≡ record self.old { world = self.new.world; left = self.new.left } }
        ensures faults { IfErr result IsNetFault }
    {
        while self.left > 0 {
            let Some(due) = self.world.queue.next() else {
                return Ok(());
            };
            self.left -= 1;
            self.world.happen(&due.event)?;
        }
        Ok(())
    }
}

impl World {
    /// An event happens, unless its connection has ended.
    #[tactic(auto, using(crate::proofs::Steps::steps))]
    fn happen(&mut self, event: &LinkEvent) -> Result<(), Fault>
        // An event of a former connection does nothing.
        ensures former { ¬ IsPresentAt event.now self.old →
            (result ≡ Ok tt) × (self.new ≡ self.old) }
        ensures relays { Relays self.old self.new }
        ensures faults { IfErr result IsNetFault }
    {
        if !self.is_present(event) {
            return Ok(());
        }
        self.happen_now(event)
    }

    /// An event of a connection that hasn't ended happens.
    #[tactic(auto, using(crate::proofs::Steps::steps))]
    fn happen_now(&mut self, event: &LinkEvent) -> Result<(), Fault>
        ensures relays { Relays self.old self.new }
        ensures faults { IfErr result IsNetFault }
    {
        let (place, side) = (place_of(event.end), side_of(event.end));
        let before = self.waiting(place, side.other());
        self.act(place, side, event.act)?;
        self.dispatch(place, side.other(), before)?;
        self.note_closed(place, side)?;
        self.note_tip_at(place, side, event.end)
    }

    /// Whether an event is of what its link is joined by now.
    fn is_present(&self, event: &LinkEvent) -> bool
        ensures { IsTrue result ↔ IsPresentAt event.now self.now }
    {
        match self.links.as_slice().get(place_of(event.end)) {
            Some(link) => link.is_present(event),
            None => false,
        }
    }

    /// How many messages are on their way to a side of the link at a place.
    pub(crate) fn waiting(&self, place: usize, to: Side) -> usize {
        match self.links.as_slice().get(place) {
            Some(link) => link.open().map_or(0, |joined| joined.waiting(to)),
            None => 0,
        }
    }

    /// A tick of a side of the link at a place, or the message that arrives there next.
    #[tactic(auto, using(crate::proofs::Steps::steps))]
    fn act(&mut self, place: usize, side: Side, act: LinkAct) -> Result<(), Fault>
        ensures relays { Relays self.old self.new }
        ensures faults { IfErr result IsNetFault }
    {
        if place >= self.links.len() {
            return Ok(());
        }
        let link = &mut self.links[place];
        let number = link.at(side).node as usize;
        if number >= self.nodes.len() {
            return Ok(());
        }
        let node = &mut self.nodes[number];
        let Some(joined) = link.open_mut() else {
            return Ok(());
        };
        match act {
            LinkAct::Tick => joined.tick(side, node.hall.as_mut()),
            LinkAct::Arrival => joined.hear(self.alloc, side, node.hall.as_mut()),
        }
    }

    /// Puts in when each of the messages to a side will arrive, from a place on. They were sent
    /// just now.
    #[tactic(auto, using(crate::proofs::Steps::steps))]
    pub(crate) fn dispatch(&mut self, place: usize, to: Side, from: usize) -> Result<(), Fault>
        ensures relays { Relays self.old self.new }
        ensures faults { IfErr result IsNetFault }
    {
        let count = self.waiting(place, to);
        for turn in from..count {
            self.post(place, to, turn)?;
        }
        Ok(())
    }

    /// Puts in when one of them will arrive: first it waits until its node's line is free, then the
    /// line takes its bytes, then it is under way. What an honest node sends is counted.
    #[tactic(auto, using(crate::proofs::Steps::steps))]
    fn post(&mut self, place: usize, to: Side, turn: usize) -> Result<(), Fault>
        ensures counts { CountsMessage place to turn self.old self.new }
        ensures relays { Relays self.old self.new }
        ensures faults { IfErr result IsNetFault }
    {
        let Some(gone) = self.send(place, to, turn) else {
            return Ok(());
        };
        if place >= self.links.len() {
            return Ok(());
        }
        let link = &mut self.links[place];
        let delay = gone.saturating_add(link.latency);
        let event = link.event(to, LinkAct::Arrival);
        self.queue.put(delay, event)
    }

    /// The node at the far side of a link sends the message at a place of those on their way to a
    /// side. Returns how long from now the last byte has left, in microseconds; `None` if there is
    /// no such message.
    #[tactic(auto, using(crate::proofs::Steps::steps, crate::proofs::Alike::counted_alike, crate::proofs::Alike::sent_alike))]
    fn send(&mut self, place: usize, to: Side, turn: usize) -> Option<u64>
        ensures counts { CountsMessage place to turn self.old self.new }
        ensures relays { Relays self.old self.new }
    {
        let message = message_in(self.links.as_slice(), place, to, turn)?;
        let sender = sender_in(self.links.as_slice(), place, to)? as usize;
        if sender >= self.nodes.len() {
            return None;
        }
        let node = &mut self.nodes[sender];
        count_sent(node, message, &mut self.traffic, &self.block);
        Some(node.send(self.queue.now(), wire_size(message), self.rate))
    }

    /// If a session closed its connection, that ends.
    #[tactic(auto, using(crate::proofs::Steps::steps))]
    fn note_closed(&mut self, place: usize, side: Side) -> Result<(), Fault>
        ensures relays { Relays self.old self.new }
        ensures faults { IfErr result IsNetFault }
    {
        let Some(far) = self.closed_on(place, side) else {
            return Ok(());
        };
        self.count_closed(far);
        self.cut(place)
    }

    /// The node at the far side of a link, if the session of this side closed its connection.
    fn closed_on(&self, place: usize, side: Side) -> Option<u32> {
        let link = self.links.as_slice().get(place)?;
        let state = link.open()?.state(side)?;
        if state.is_closed() {
            Some(link.at(side.other()).node)
        } else {
            None
        }
    }

    /// Counts a connection that a session closed by the node at its far side.
    fn count_closed(&mut self, far: u32)
        ensures { self.new ≡ record self.old { closed = self.new.closed } }
    {
        if self.is_honest(far) {
            self.closed.on_honest = self.closed.on_honest.saturating_add(1);
        } else {
            self.closed.on_liars = self.closed.on_liars.saturating_add(1);
        }
    }

    /// Whether there is a node of this number, and it is honest.
    #[tactic(auto, using(crate::proofs::Moments::honest_here, crate::proofs::Moments::honest_nowhere))]
    pub(crate) fn is_honest(&self, number: u32) -> bool
        ensures { result ≡ is_honest_at (roles_in self.now.nodes.items) number }
    {
        match self.nodes.as_slice().get(number as usize) {
            Some(node) => node.is_honest(),
            None => false,
        }
    }

    /// Cuts the link at a place, if it is joined.
    #[tactic(auto, using(crate::proofs::Steps::steps))]
    pub(crate) fn cut(&mut self, place: usize) -> Result<(), Fault>
        ensures relays { Relays self.old self.new }
        ensures faults { IfErr result IsNetFault }
    {
        if place >= self.links.len() {
            return Ok(());
        }
        let link = &mut self.links[place];
        link.cut()
    }

    /// If the node at a side of a link has a new tip, all its sessions have a tick, but the one at
    /// this end.
    #[tactic(auto, using(crate::proofs::Steps::steps))]
    fn note_tip_at(&mut self, place: usize, side: Side, but: u32) -> Result<(), Fault>
        ensures relays { Relays self.old self.new }
        ensures faults { IfErr result IsNetFault }
    {
        match self.node_at(place, side) {
            Some(number) => self.note_tip(number, Some(but)),
            None => Ok(()),
        }
    }

    /// The number of the node at a side of a link.
    fn node_at(&self, place: usize, side: Side) -> Option<u32> {
        let link = self.links.as_slice().get(place)?;
        Some(link.at(side).node)
    }

    /// If a node has a new tip, all its sessions have a tick, but the one at this end.
    #[tactic(auto, using(crate::proofs::Steps::steps))]
    pub(crate) fn note_tip(&mut self, number: u32, but: Option<u32>) -> Result<(), Fault>
        ensures relays { Relays self.old self.new }
        ensures faults { IfErr result IsNetFault }
    {
        if self.has_new_tip(number) {
            return self.tick_node(number, but);
        }
        Ok(())
    }

    /// Notes the tip of a node's hall. Returns whether it is another than before.
    #[tactic(auto, using(crate::proofs::Steps::steps, crate::proofs::Alike::noted_alike))]
    fn has_new_tip(&mut self, number: u32) -> bool
        ensures relays { Relays self.old self.new }
    {
        let place = number as usize;
        if place >= self.nodes.len() {
            return false;
        }
        let now = self.queue.now();
        let node = &mut self.nodes[place];
        node.note_tip(now, &self.block)
    }

    /// All sessions of a node have a tick, but the one at this end.
    #[tactic(auto, using(crate::proofs::Steps::steps))]
    fn tick_node(&mut self, number: u32, but: Option<u32>) -> Result<(), Fault>
        ensures relays { Relays self.old self.new }
        ensures faults { IfErr result IsNetFault }
    {
        let count = match self.nodes.as_slice().get(number as usize) {
            Some(node) => node.ends.len(),
            None => 0,
        };
        for turn in 0..count {
            self.tick_one(number, turn, but)?;
        }
        Ok(())
    }

    /// The session at one of a node's ends has a tick, unless it is this one.
    #[tactic(auto, using(crate::proofs::Steps::steps))]
    fn tick_one(&mut self, number: u32, turn: usize, but: Option<u32>) -> Result<(), Fault>
        ensures relays { Relays self.old self.new }
        ensures faults { IfErr result IsNetFault }
    {
        let Some(end) = self.end_of(number, turn) else {
            return Ok(());
        };
        if but == Some(end) {
            return Ok(());
        }
        self.tick_end(place_of(end), side_of(end))
    }

    /// One of a node's ends.
    fn end_of(&self, number: u32, turn: usize) -> Option<u32> {
        let node = self.nodes.as_slice().get(number as usize)?;
        node.ends.as_slice().get(turn).copied()
    }

    /// The session at an end has a tick at once, if the link is joined.
    #[tactic(auto, using(crate::proofs::Steps::steps))]
    pub(crate) fn tick_end(&mut self, place: usize, side: Side) -> Result<(), Fault>
        ensures relays { Relays self.old self.new }
        ensures faults { IfErr result IsNetFault }
    {
        if place >= self.links.len() {
            return Ok(());
        }
        let link = &mut self.links[place];
        if !link.is_open() {
            return Ok(());
        }
        let event = link.event(side, LinkAct::Tick);
        self.queue.put(0, event)
    }

    /// All sessions have a tick.
    #[tactic(auto, using(crate::proofs::Steps::steps))]
    pub(crate) fn tick_all(&mut self) -> Result<(), Fault>
        ensures relays { Relays self.old self.new }
        ensures faults { IfErr result IsNetFault }
    {
        for place in 0..self.links.len() {
            self.tick_end(place, Side::First)?;
            self.tick_end(place, Side::Second)?;
        }
        Ok(())
    }
}

/// The message at a place of those on their way to a side of a link.
fn message_in(
    links: &[SimulatedLink],
    place: usize,
    to: Side,
    turn: usize,
) -> Option<&BoundedMessage>
    ensures { option_copied result ≡ message_on (slice_get links.now place) to turn }
{
    let link = links.get(place)?;
    message_of(link, to, turn)
}

/// The same of the link.
#[tactic(auto, using(crate::proofs::Counted::found_on, crate::proofs::Counted::found_nothing))]
fn message_of(link: &SimulatedLink, to: Side, turn: usize) -> Option<&BoundedMessage>
    ensures { option_copied result ≡ message_on (Some link.now) to turn }
{
    link.open()?.message(to, turn)
}

/// The number of the node at the far side of a link.
fn sender_in(links: &[SimulatedLink], place: usize, to: Side) -> Option<u32>
    ensures { result ≡ sender_of (slice_get links.now place) to }
{
    let link = links.get(place)?;
    Some(link.at(to.other()).node)
}

/// Counts a message that a node sends, and notes what it tells of how the node comes to a block,
/// if the node is honest.
#[tactic(auto, using(crate::proofs::Counted::by_honest, crate::proofs::Counted::by_other))]
fn count_sent(
    node: &mut SimulatedNode,
    message: &BoundedMessage,
    traffic: &mut Traffic,
    block: &Hash256,
)
    ensures counts { Counted (Some node.old) (Some message.now) traffic.old traffic.new }
    ensures alike { node.new ≡ record node.old { way = node.new.way } }
{
    if !node.is_honest() {
        return;
    }
    traffic.count(message);
    node.way.note(message.message(), block);
}
