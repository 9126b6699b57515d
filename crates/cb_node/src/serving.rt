//! How a slot comes to serve a connection.
ghost use Rattle.std.specs.Prelude.{◌≡◌, ◌≢◌, ◌<◌, ◌≤◌, true, false, length, IfOk, OnErr, OnOk, Ok, Err};
ghost use Rattle.cb_hall.specs.Connections.{most_peers};
ghost use Rattle.cb_node.specs.declared.fault.NodeFault.TheVariants.{NoSlot};
ghost use Rattle.cb_node.specs.Choosing.{HasNone, IsChosen};
ghost use Rattle.cb_node.specs.Slot.{AreAlike, AreAlikeBut, AreSlotsOf, IsInboxOf, IsNew, WaitsAt, uses_of};

use crate::choosing::lowest_unused;
use crate::crewing::shared;
use crate::fault::NodeFault;
use crate::opening::NodeWork;
use crate::settings::NodeSettings;
use crate::slot::{Common, Slot};
use cb_base::{Fault, Shared};
use cb_hall::{Badge, Hall};
use cb_peers::Links;
use std::alloc::Global;
use std::marker::{Copy, Send};
use std::net::TcpStream;
use std::sync::{Mutex, Wait};
use std::thread::Threads;

/// By what a node serves connections.
pub struct Service<R: Wait + Drop> {
    /// By which it waits and starts threads.
    pub rt: R,
    /// Where it allocates.
    pub alloc: Global,
    /// What the node was started with. The time is that of the connections that are made next.
    pub settings: NodeSettings,
    /// What Bitcoin Core keeps in ChainstateManager and CTxMemPool, behind its lock.
    pub hall: Shared<Mutex<Hall>>,
    /// The connections that aren't over.
    pub links: Shared<Links>,
}

impl<R: Wait + Drop> Drop for Service<R> {
    fn drop(self) {
        let Service {
            rt: _,
            alloc: _,
            settings: _,
            hall: _,
            links: _,
        } = self;
    }
}

impl<R: Wait + Drop> Service<R> {
    /// The hall, of a node that is over.
    pub fn into_hall(self) -> Shared<Mutex<Hall>>
        ensures { result ≡ self.hall }
    {
        let Service {
            rt: _,
            alloc: _,
            settings: _,
            hall,
            links: _,
        } = self;
        hall
    }
}

impl<R: Threads + Wait + Copy + Send + Drop + 'static> Service<R> {
    /// Serves a connection by one of these slots, whose number is returned: the lowest that never
    /// had a socket, or else the lowest in which the next connection can be opened.
    ///
    /// Fails with `NodeFault::NoSlot` if there is none. No slot is used then.
    pub fn begin(
        &self,
        common: &Common<NodeWork<R>>,
        slots: &mut Vec<Slot<NodeWork<R>>>,
        first: u16,
        end: u16,
        stream: TcpStream,
    ) -> Result<u16, NodeFault>
        requires slots { AreSlotsOf common.now.crew slots.old.items }
        requires end { (end ≤ length slots.old.items)
            × (length slots.old.items ≤ most_peers) }
        ensures chosen { IfOk result (IsChosen (uses_of slots.old.items) first end) }
        ensures ok { IfOk result (λ slot. AreAlikeBut slot slots.old.items slots.new.items) }
        ensures err { OnErr result (AreAlike slots.old.items slots.new.items) }
        ensures no_slot { result ≡ Err NoSlot → HasNone (uses_of slots.old.items) false first end }
    {
        let number = self.find(common, slots, first, end)?;
        // What is written to it isn't held back.
        stream.set_nodelay(true)?;
        let (stream, time) = (shared(self.alloc, stream)?, self.settings.time);
        slots[usize::from(number)].attach(&self.rt, self.alloc, common, stream, time)?;
        Ok(number)
    }

    /// One of these slots with a connection that waits for its socket: the lowest that never had
    /// one, or else the lowest that a reader has left and in which a connection waits or can be
    /// opened.
    fn find(
        &self,
        common: &Common<NodeWork<R>>,
        slots: &mut Vec<Slot<NodeWork<R>>>,
        first: u16,
        end: u16,
    ) -> Result<u16, NodeFault>
        requires slots { AreSlotsOf common.now.crew slots.old.items }
        requires end { (end ≤ length slots.old.items)
            × (length slots.old.items ≤ most_peers) }
        ensures alike { AreAlike slots.old.items slots.new.items }
        ensures within { IfOk result (λ slot. slot < length slots.new.items) }
        ensures chosen { IfOk result (IsChosen (uses_of slots.old.items) first end) }
        ensures waits { IfOk result (WaitsAt slots.new.items) }
        ensures no_slot { result ≡ Err NoSlot → HasNone (uses_of slots.old.items) false first end }
    {
        if let Some(number) = lowest_unused(slots.as_slice(), first, end) {
            // No effect when it runs: it tells the prover that its first connection waits.
            let _ = slots[usize::from(number)].waits();
            return Ok(number);
        }
        for number in first..end {
            if self.ready(common, &mut slots[usize::from(number)])? {
                return Ok(number);
            }
        }
        Err(NodeFault::NoSlot)
    }

    /// Opens a slot's next connection, if its reader has left it and none waits there. Returns
    /// whether one waits then.
    fn ready(
        &self,
        common: &Common<NodeWork<R>>,
        slot: &mut Slot<NodeWork<R>>,
    ) -> Result<bool, NodeFault>
        requires slot { IsInboxOf common.now.crew slot.old.inbox }
        requires few { slot.old.inbox.peer < most_peers }
        ensures same { (slot.new.inbox ≡ slot.old.inbox) × (slot.new.used ≡ slot.old.used) }
        ensures waits { result ≡ Ok true → slot.new.waits ≡ true }
        ensures kinds { result ≢ Err NoSlot }
    {
        if !slot.is_left() {
            return Ok(false);
        }
        slot.settle(&self.rt);
        if slot.waits() {
            return Ok(true);
        }
        if slot.lacks_next() {
            self.prepare(slot)?;
        }
        Ok(slot.open(&self.rt, &common.crew, &common.signals))
    }

    /// Makes a slot's next connection ready to be opened.
    fn prepare(&self, slot: &mut Slot<NodeWork<R>>) -> Result<(), NodeFault>
        requires { slot.old.inbox.peer < most_peers }
        ensures same { slot.new ≡ slot.old }
        ensures kinds { result ≢ Err NoSlot }
    {
        let badge = match slot.take_badge() {
            Some(badge) => badge,
            None => self.open_in_hall(slot.number())?,
        };
        match self.connection(badge) {
            Ok(next) => {
                slot.prepare(next);
                Ok(())
            }
            Err((badge, fault)) => {
                slot.keep_badge(badge);
                Err(NodeFault::from(fault))
            }
        }
    }

    /// Opens a slot's next connection in the hall.
    fn open_in_hall(&self, number: u16) -> Result<Badge, Fault>
        requires { number < most_peers }
        ensures badge { IfOk result IsNew }
        ensures slot { IfOk result (λ badge. badge.connection.peer ≡ number) }
    {
        let mut hall = self.hall.lock(&self.rt);
        hall.open(number)
    }
}
