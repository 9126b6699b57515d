//! A queue of events in virtual time.
ghost use Rattle.std.specs.Prelude.{◌≡◌, ◌≤◌, [], length, OnErr, OnOk};
ghost use Rattle.std.specs.BinaryHeap.{IsHeap, heap_items};
ghost use Rattle.std.specs.List.{All};
ghost use Rattle.std.specs.Result.{IfErr};
ghost use Rattle.std.proofs.Props.{props};
ghost use Rattle.cb_base.specs.declared.fault.Fault.TheVariants.{Memory};
ghost use Rattle.cb_net_plan.specs.Agenda.{Agenda, IsNext, due_order, in_order, with_event};

use crate::due::{DueEvent, LinkEvent};
use cb_base::Fault;
use std::alloc::Global;
use std::cmp::Reverse;
use std::collections::BinaryHeap;
use std::marker::Model;

/// The events that are due, and the virtual time: that of the event which was taken out last.
/// Contracts see the time, and what is due in its order.
#[derive(Drop)]
pub struct Queue {
    time: u64,
    heap: BinaryHeap<Reverse<DueEvent>>,
    ghost ordered: { IsHeap (λ a b. due_order b.0 a.0) (heap_items heap) } by { Prim.hlevel props },
    ghost not_past: { All (λ due. time ≤ due.0.time) (heap_items heap) },
}

impl Model for Queue {
    ghost use Rattle.std.specs.Prelude.{map};
    ghost use Rattle.std.specs.BinaryHeap.{heap_capacity, heap_items};
    ghost use Rattle.cb_net_plan.specs.Agenda.{Agenda, in_order};

    ghost Value = { Agenda };

    ghost view = { λ queue. record {
      time = queue.time;
      waiting = in_order (map (λ due. due.0) (heap_items queue.heap));
      room = heap_capacity queue.heap;
    } };
}

impl Queue {
    /// Nothing is due, and the time is 0. Allocates nothing.
    pub fn new(alloc: Global) -> Queue
        ensures { (result.time ≡ 0) × (result.waiting ≡ []) }
    {
        Queue {
            time: 0,
            heap: BinaryHeap::new(alloc),
        }
    }

    /// The virtual time, in microseconds since the network began.
    pub fn now(&self) -> u64
        ensures { result ≡ self.now.time }
    {
        self.time
    }

    /// How many events are due.
    pub fn len(&self) -> usize
        ensures { result ≡ length self.now.waiting }
    {
        self.heap.len()
    }

    /// Puts in an event that is due so many microseconds from now, but at `u64::MAX` at the latest.
    /// Fails only for lack of memory; nothing is put in then.
    pub fn put(&mut self, delay: u64, event: LinkEvent) -> Result<(), Fault>
        ensures ok { OnOk result (self.new.waiting ≡ with_event delay event self.old) }
        ensures err { OnErr result (self.new.waiting ≡ self.old.waiting) }
        ensures full { IfErr result
            (λ fault. (fault ≡ Memory) × (self.old.room ≤ length self.old.waiting)) }
        ensures time { self.new.time ≡ self.old.time }
        ensures room { self.old.room ≤ self.new.room }
    {
        let time = self.time.saturating_add(delay);
        self.heap.push(Reverse(DueEvent { time, event }))?;
        Ok(())
    }

    /// Takes out the least of the events that are due; the time is its time then. `None` if
    /// nothing is due.
    pub fn next(&mut self) -> Option<DueEvent>
        ensures next { IsNext self.old result self.new }
        ensures room { self.new.room ≡ self.old.room }
    {
        match self.heap.pop() {
            Some(Reverse(due)) => {
                self.time = due.time;
                Some(due)
            }
            None => None,
        }
    }
}
