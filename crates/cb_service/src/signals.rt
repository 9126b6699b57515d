ghost use Rattle.std.specs.Prelude.{IsOkUnless};
ghost use Rattle.cb_base.specs.declared.fault.Fault.TheVariants.{Memory};

use crate::sleeper::Sleeper;
use cb_base::Fault;
use std::alloc::Global;
use std::sync::Wait;
use std::sync::atomic::{AtomicBool, AtomicU64, Ordering};

/// How many handlers a crew has at most.
const MOST_HANDLERS: u64 = 16;

/// In `Signals::resting` the bit of a handler that sleeps lies so many places above the one of a
/// handler that lies down.
const ASLEEP: u32 = 16;

/// How the threads of a crew wait for each other. A handler sleeps while nothing is queued, and a
/// reader while its inbox is full. No thread spins, and no sleep ends by itself.
///
/// Who queues a mark or makes a tick due (1) does that, (2) loads `resting`, and (3) wakes each
/// handler that it saw lie awake, and the first of those that it saw sleep whose bit of sleep it
/// clears itself. So what is queued wakes one sleeper, however many there are. A handler that finds
/// nothing to do (a) sets its first bit, and then does by turns two things: (b) it makes as many
/// turns as there are desks, and (c) it sets its bit of sleep, sleeps, unless it was woken since
/// its last sleep, and clears that bit. (d) It clears its first bit once a turn served something.
///
/// No wake-up is lost: some turn claims the mark's desk after (1), before all handlers sleep. All
/// these loads and stores, the ring's and the inboxes' are in one order (`SeqCst`).
///
/// - A handler that (2) saw lie awake is woken by (3), so it begins a (b) again before a sleep of
///   it lasts. One that (2) saw do neither passes (a) after (2). So each of these makes all turns
///   of a (b) after (1) before it sleeps for good.
/// - If (2) saw some sleep, one of them begins a (b) after (2): the one whose bit (3) cleared,
///   since (3) wakes it. If (3) cleared none, they were cleared since (2), by the handlers as they
///   woke, or by others who wake them.
/// - If the desk lies in the ring as such a (b) begins, a turn of it or of another handler claims
///   the desk: each claim moves it forward by a place, and none fails while it lies there.
/// - If a handler holds the desk as (1) happens, it gives it back before it sleeps. Either that is
///   before (2), so before each such (b) begins; or (2) saw it lie awake or do neither, and its own
///   (b) begins afterwards.
pub struct Signals {
    stopped: AtomicBool,
    /// A bit for each handler that lies down, and one more while it sleeps.
    resting: AtomicU64,
    /// How many handlers have asked for a bed.
    beds: AtomicU64,
    /// Where each handler sleeps.
    handlers: Vec<Sleeper>,
    /// Where each peer's reader waits for room.
    readers: Vec<Sleeper>,
}

impl Drop for Signals {
    fn drop(self) {
        let Signals {
            stopped: _,
            resting: _,
            beds: _,
            handlers: _,
            readers: _,
        } = self;
    }
}

/// Where one handler sleeps.
#[derive(Clone, Copy)]
pub(crate) struct Bed {
    number: usize,
    /// Its first bit in `Signals::resting`.
    bit: u64,
}

impl Signals {
    /// The signals of a crew with so many peers and handlers. Fails only with `Fault::Memory`.
    pub fn new(alloc: Global, peers: u16, handlers: u16) -> Result<Signals, Fault>
        ensures { IsOkUnless result Memory }
    {
        Ok(Signals {
            stopped: AtomicBool::new(false),
            resting: AtomicU64::new(0),
            beds: AtomicU64::new(0),
            handlers: sleepers(alloc, handlers)?,
            readers: sleepers(alloc, peers)?,
        })
    }

    /// Tells all threads to return, and wakes those that sleep.
    pub fn stop(&self) {
        self.stopped.store(true, Ordering::SeqCst);
        wake_all(self.handlers.as_slice());
        wake_all(self.readers.as_slice());
    }

    /// Whether all threads are told to return.
    pub fn is_stopped(&self) -> bool {
        self.stopped.load(Ordering::SeqCst)
    }

    /// Wakes a handler that sleeps, after something was queued or a tick is due, and has those look
    /// again that lie awake. While all handlers work it looks at one number, and writes none.
    pub fn ring(&self) {
        let resting = self.resting.load(Ordering::SeqCst);
        if resting == 0 {
            return;
        }
        let mut bit = 1;
        let mut has_roused = false;
        for handler in self.handlers.as_slice() {
            if resting & (bit << ASLEEP) != 0 {
                if !has_roused && self.clear_asleep(bit) {
                    handler.wake();
                    has_roused = true;
                }
            } else if resting & bit != 0 {
                handler.wake();
            }
            bit <<= 1;
        }
    }

    /// Clears the bit of sleep of the handler with this first bit. Returns whether it was set.
    fn clear_asleep(&self, bit: u64) -> bool {
        let asleep = bit << ASLEEP;
        self.resting.fetch_and(!asleep, Ordering::SeqCst) & asleep != 0
    }

    /// A bed for one more handler; `None` if all were given out.
    pub(crate) fn bed(&self) -> Option<Bed> {
        let number = self.beds.fetch_add(1, Ordering::SeqCst);
        if number >= MOST_HANDLERS || number >= self.handlers.len() as u64 {
            return None;
        }
        Some(Bed {
            number: number as usize,
            bit: 1 << number,
        })
    }

    /// A handler lies down.
    pub(crate) fn lie_down(&self, bed: Bed) {
        self.resting.fetch_or(bed.bit, Ordering::SeqCst);
    }

    /// A handler that lay down gets up.
    pub(crate) fn get_up(&self, bed: Bed) {
        self.resting.fetch_and(!bed.bit, Ordering::SeqCst);
    }

    /// A handler that lay down sleeps until it is woken. It doesn't sleep if it was woken since its
    /// last sleep.
    pub(crate) fn sleep<R: Wait>(&self, rt: &R, bed: Bed) {
        if let Some(handler) = self.handlers.get(bed.number) {
            self.resting.fetch_or(bed.bit << ASLEEP, Ordering::SeqCst);
            handler.sleep(rt);
            self.clear_asleep(bed.bit);
        }
    }

    /// Wakes a peer's reader if it waits: its inbox has room, or it is to look at a stop flag of
    /// its own.
    pub fn make_room(&self, peer: u16) {
        if let Some(reader) = self.readers.get(usize::from(peer)) {
            reader.wake();
        }
    }

    /// The reader of a peer waits until `make_room` is called for this peer, or `stop`. It doesn't
    /// wait if one of them was called since its last wait. So it looks at `is_stopped` before each
    /// wait, and at a stop flag of its own if it has one. Who sets that flag calls `make_room`.
    pub fn wait_for_room<R: Wait>(&self, rt: &R, peer: u16) {
        if let Some(reader) = self.readers.get(usize::from(peer)) {
            reader.sleep(rt);
        }
    }
}

/// So many sleepers. Fails only with `Fault::Memory`.
fn sleepers(alloc: Global, count: u16) -> Result<Vec<Sleeper>, Fault>
    ensures { IsOkUnless result Memory }
{
    let mut all = Vec::with_capacity(alloc, usize::from(count))?;
    for _ in 0..count {
        all.push(Sleeper::new(alloc)?)?;
    }
    Ok(all)
}

/// Wakes all of these.
fn wake_all(sleepers: &[Sleeper]) {
    for sleeper in sleepers {
        sleeper.wake();
    }
}
