ghost use Rattle.std.specs.Prelude.{◌≡◌, ◌≢◌, ◌⊎◌, ◌↔◌, ◌<◌, ◌≤◌, length, IfErr, Err};
ghost use Rattle.cb_base.specs.declared.fault.Fault.TheVariants as faults;
ghost use Rattle.cb_hall.specs.Connections.{most_peers};
ghost use Rattle.cb_node.specs.declared.fault.NodeFault.TheVariants.{Memory, NoSlot};
ghost use Rattle.cb_node.specs.declared.fault.NodeFault.TheVariants as told;
ghost use Rattle.cb_node.specs.Node.{HasFinished, with_time};

use crate::crewing::sides_of;
use crate::fault::NodeFault;
use crate::listening::Listening;
use crate::opening::NodeWork;
use crate::serving::Service;
use crate::slot::{Common, Slot};
use cb_base::{Hash256, Shared};
use cb_block::SoundBlock;
use cb_crew::{Desk, Fresh, Handler, ReaderSide};
use cb_hall::{Answer, Hall, Local, Look};
use cb_peers::{NodeBytes, TICKS_A_HANDLER, finish_peers};
use cb_service::{HandlerThread, join_handlers};
use cb_session::Input;
use cb_work::{Seen, submit_and_see, tip_word};
use std::marker::{Copy, Model, Send};
use std::sync::{Mutex, Wait};
use std::thread::Threads;

/// What is left of a node that has finished.
#[derive(Drop)]
pub struct NodeEnd<R: Wait + Drop> {
    /// What Bitcoin Core keeps in ChainstateManager and CTxMemPool.
    pub hall: Shared<Mutex<Hall>>,
    /// The desks of all slots, in their order.
    pub desks: Vec<Desk<NodeWork<R>>>,
    /// What the sockets of all slots gave, for proofs alone.
    pub read: NodeBytes,
}

/// A node: slots for its peers' connections, the hall, and the threads that serve them. Contracts
/// see its crew, the settings with which it makes what it serves next, where it listens, and which
/// slots ever had a socket.
///
/// The inbound slots come first. A slot serves one connection after another, at most 256. A
/// connection is served by the lowest slot of its kind that never had a socket, or else by the
/// lowest whose latest connection was read to its end and whose inbox has room.
///
/// A write to a peer fails if its outbox is full, or if its socket took nothing for too long
/// (docs/DESIGN.md). It ends the connection.
pub struct Node<R: Wait + Drop> {
    pub(crate) service: Service<R>,
    /// What the slots share.
    pub(crate) common: Common<NodeWork<R>>,
    pub(crate) listening: Option<Listening>,
    pub(crate) slots: Vec<Slot<NodeWork<R>>>,
    /// The handlers' threads.
    pub(crate) handling: Vec<HandlerThread<NodeWork<R>>>,
    /// An empty list with room for all handlers.
    pub(crate) handlers: Vec<Handler<NodeWork<R>>>,
    /// An empty list with room for the sides of all slots.
    pub(crate) sides: Vec<ReaderSide<Input, Fresh<NodeWork<R>>>>,
}

impl<R: Wait + Drop> Model for Node<R> {
    ghost use Rattle.std.specs.Prelude.{◌≡◌, ◌≤◌, [], length, vec_capacity};
    ghost use Rattle.cb_hall.specs.Connections.{most_peers};
    ghost use Rattle.cb_node.specs.Slot.{AreSlotsOf, AreThreadsOf};
    ghost use Rattle.cb_node.specs.Node.{NodeState, node_state};

    ghost Value = { NodeState };

    ghost view = { λ node. node_state node.common.crew node.service.settings node.listening
        node.slots.items };

    ghost invariant = { λ node. AreSlotsOf node.common.crew node.slots.items
        × (node.service.settings.inbound ≤ length node.slots.items)
        × (length node.slots.items ≤ most_peers)
        × AreThreadsOf node.common.crew node.handling.items × (node.handlers.items ≡ [])
        × (length node.handling.items ≤ vec_capacity node.handlers) × (node.sides.items ≡ [])
        × (length node.slots.items ≤ vec_capacity node.sides) };
}

impl<R: Wait + Drop> Drop for Node<R> {
    fn drop(self) {
        let Node {
            service: _,
            common: _,
            listening: _,
            slots: _,
            handling: _,
            handlers: _,
            sides: _,
        } = self;
    }
}

impl<R: Threads + Wait + Copy + Send + Drop + 'static> Node<R> {
    /// The time that the `version` messages of later connections tell, in seconds since 1970.
    pub fn set_time(&mut self, time: i64)
        ensures { self.new ≡ with_time self.old time }
    {
        self.service.settings = self.service.settings.at(time);
    }

    /// Takes a transaction or a block from the node's own user. Peers are told of a new tip at once
    /// if the settings say so, and else of all by the next tick.
    ///
    /// Fails with `Fault::JournalFull` of the hall, and with `NodeFault::Memory`.
    pub fn submit(&self, local: Local) -> Result<Answer, NodeFault>
        ensures { IfErr result
            (λ fault. (fault ≡ told.Hall faults.JournalFull) ⊎ (fault ≡ Memory)) }
    {
        let seen = self.submit_in_hall(local)?;
        if let Some(tip) = seen.tip {
            self.hop(&tip);
        }
        Ok(seen.answer)
    }

    /// Takes a transaction or a block in the hall.
    fn submit_in_hall(&self, local: Local) -> Result<Seen, NodeFault>
        ensures { IfErr result
            (λ fault. (fault ≡ told.Hall faults.JournalFull) ⊎ (fault ≡ Memory)) }
    {
        let mut hall = self.service.hall.lock(&self.service.rt);
        Ok(submit_and_see(&mut *hall, local)?)
    }

    /// Has the peers told at once that lack this new tip, if the settings say so.
    fn hop(&self, tip: &Hash256) {
        if self.service.settings.prompt {
            let service = &self.service;
            service
                .links
                .tell_tip(&service.rt, &self.common.signals, tip_word(tip));
        }
    }

    /// Makes a tick of each slot's latest connection due: its session tells its peer what is new,
    /// as transactions, and tips that were passed over.
    /// A handler is woken for each 64 of them, since each that wakes goes round all slots.
    pub fn tick(&self) {
        let signals = &self.common.signals;
        let mut due = 0u32;
        for slot in self.slots.as_slice() {
            if slot.set_tick() {
                due = due.saturating_add(1);
            }
            if due >= TICKS_A_HANDLER {
                due = 0;
                signals.ring();
            }
        }
        if due > 0 {
            signals.ring();
        }
    }

    /// Kicks the latest connection that the hall opened for a slot: the one that is served, or the
    /// one that stands ready since its opening was refused. From then on each of its questions to
    /// the hall is answered `Kicked`, which ends it. A tick of the slot is due.
    ///
    /// Fails with `NodeFault::NoSlot` if the node doesn't have the slot, with `Fault::JournalFull`
    /// of the hall, and with `NodeFault::Memory`.
    pub fn kick(&self, slot: u16) -> Result<(), NodeFault>
        ensures no_slot { (result ≡ Err NoSlot) ↔ (length self.now.used ≤ slot) }
        ensures kinds { IfErr result
            (λ fault. (fault ≡ NoSlot) ⊎ (fault ≡ told.Hall faults.JournalFull)
            ⊎ (fault ≡ Memory)) }
    {
        let Some(kicked) = self.slots.get(usize::from(slot)) else {
            return Err(NodeFault::NoSlot);
        };
        self.kick_in_hall(slot)?;
        kicked.tick(&self.common.signals);
        Ok(())
    }

    /// Kicks a slot's latest connection in the hall.
    fn kick_in_hall(&self, slot: u16) -> Result<(), NodeFault>
        requires { slot < most_peers }
        ensures there { result ≢ Err NoSlot }
        ensures kinds { IfErr result
            (λ fault. (fault ≡ told.Hall faults.JournalFull) ⊎ (fault ≡ Memory)) }
    {
        Ok(self.service.hall.lock(&self.service.rt).kick(slot)?)
    }

    /// A summary of the hall.
    pub fn look(&self) -> Look {
        self.service.hall.lock(&self.service.rt).look()
    }

    /// Mines a regtest block on the hall's tip, with this mark in its coinbase. The hall doesn't
    /// change.
    ///
    /// Fails with `Fault::BadWork` or `Fault::Mutated` of the hall, and with `NodeFault::Memory`.
    pub fn mine(&self, mark: u8) -> Result<SoundBlock, NodeFault> {
        Ok(self.service.hall.lock(&self.service.rt).mine(mark)?)
    }

    /// Takes a checkpoint of the hall. Fails only with `NodeFault::Memory`.
    pub fn checkpoint(&self) -> Result<(), NodeFault>
        ensures { IfErr result (λ fault. fault ≡ Memory) }
    {
        Ok(self.service.hall.lock(&self.service.rt).checkpoint()?)
    }

    /// Ends the node. No connection is read any more; what the readers queued is served. Then all
    /// threads have returned, and all sockets are closed.
    ///
    /// Promises for each connection what `finish_peers` does (`IsHeadline`): there is one desk for
    /// each slot, in order; each session is over, and served a prefix of what its reader queued,
    /// which is what the bytes spell that its socket gave.
    #[tactic(auto, using(crate::proofs::Slots::sides_are, crate::proofs::Slots::handlers_are))]
    pub fn finish(self) -> NodeEnd<R>
        ensures { HasFinished self.crew result.read result.desks.items }
    {
        let Node {
            service,
            common,
            listening: _,
            slots,
            handling,
            handlers,
            sides,
        } = self;
        let rt = &service.rt;
        common.signals.stop();
        service.links.stop_reading(rt);
        let (sides, read) = sides_of(rt, slots, sides);
        let handlers = join_handlers(rt, handling, handlers);
        let desks = finish_peers(rt, &common.crew, sides, handlers);
        service.links.close_all(rt);
        NodeEnd {
            hall: service.into_hall(),
            desks,
            read,
        }
    }
}
