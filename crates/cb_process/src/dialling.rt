//! Dialling peers. Each dial has a thread of its own, so an address that doesn't answer holds up
//! nobody.
ghost use Rattle.std.specs.Prelude.{◌≡◌, ◌↔◌, true, false, IsTrue, None};
ghost use Rattle.std.specs.List.{Contains};
ghost use Rattle.cb_process.specs.Dialling.{IsDialled, IsDue, IsWaiting, LastsWell, addresses_of, later, longer};

use cb_base::Shared;
use cb_control::Host;
use cb_node::connect_to;
use std::alloc::{AllocError, Global};
use std::net::{Net, SocketAddr, TcpStream};
use std::sync::atomic::{AtomicBool, Ordering};
use std::thread::JoinHandle;
use std::{mem, thread};

/// How many seconds pass at most before an address is dialled again.
const LONGEST_DELAY: u16 = 60;

/// A connection that lasted for this many milliseconds was a good one: the next delay is the
/// shortest.
const GOOD_MILLISECONDS: u64 = 60_000;

/// A dial that is under way.
#[derive(Drop)]
struct DialThread {
    thread: JoinHandle<Option<TcpStream>>,
    /// Whether the thread is about to return.
    done: Shared<AtomicBool>,
}

/// How it stands with an address.
#[derive(Drop)]
enum DialStage {
    /// It is dialled at this time, in milliseconds since the process began.
    Waits(u64),
    /// A thread dials it.
    Dials(DialThread),
    /// A connection to it lasts, in this slot, since this time.
    Lasts(u16, u64),
}

/// An address to which the node connects, and again whenever the connection ends.
#[derive(Drop)]
pub struct Target {
    /// The address.
    pub address: SocketAddr,
    /// Whether it is dialled again if no dial has succeeded yet.
    pub keeps_trying: bool,
    /// Whether a connection to it was ever made.
    pub reached: bool,
    stage: DialStage,
    /// How many seconds pass before it is dialled again.
    delay: u16,
}

impl Target {
    /// An address that is due to be dialled.
    pub fn new(address: SocketAddr, keeps_trying: bool) -> Target
        ensures { (result.address ≡ address) × (result.keeps_trying ≡ keeps_trying)
            × (result.reached ≡ false) × (result.delay ≡ 1)
            × (result.stage ≡ DialStage.Waits 0) }
    {
        Target {
            address,
            keeps_trying,
            reached: false,
            stage: DialStage::Waits(0),
            delay: 1,
        }
    }

    /// The connection to it has ended with the node. It is due to be dialled, and the delays begin
    /// anew.
    pub fn renew(&mut self)
        ensures due { (self.new.stage ≡ DialStage.Waits 0) × (self.new.delay ≡ 1) }
        ensures same { (self.new.reached ≡ self.old.reached)
            × (self.new.address ≡ self.old.address)
            × (self.new.keeps_trying ≡ self.old.keeps_trying) }
    {
        self.stage = DialStage::Waits(0);
        self.delay = 1;
    }

    /// It is due to be dialled, if it waits, and the delays begin anew then.
    pub fn hurry(&mut self)
        ensures waits { IsWaiting self.old.stage
            → (self.new.stage ≡ DialStage.Waits 0) × (self.new.delay ≡ 1) }
        ensures others { (IsWaiting self.old.stage → ⊥) → self.new ≡ self.old }
        ensures same { (self.new.reached ≡ self.old.reached)
            × (self.new.address ≡ self.old.address)
            × (self.new.keeps_trying ≡ self.old.keeps_trying) }
    {
        if matches!(&self.stage, DialStage::Waits(_)) {
            self.stage = DialStage::Waits(0);
            self.delay = 1;
        }
    }

    /// Whether a thread dials it.
    pub fn is_dialled(&self) -> bool
        ensures { IsTrue result ↔ IsDialled self.now.stage }
    {
        matches!(&self.stage, DialStage::Dials(_))
    }

    /// Whether it is due to be dialled at this time.
    pub fn is_due(&self, now: u64) -> bool
        ensures { IsTrue result ↔ IsDue self.now.stage now }
    {
        match &self.stage {
            DialStage::Waits(due) => *due <= now,
            DialStage::Dials(_) | DialStage::Lasts(_, _) => false,
        }
    }

    /// Starts the thread that dials it. Returns whether that was possible.
    pub fn dial<R: Host>(&mut self, rt: &R, alloc: Global) -> bool
        ensures dials { result ≡ true → IsDialled self.new.stage }
        ensures refused { result ≡ false → self.new ≡ self.old }
        ensures same { (self.new.reached ≡ self.old.reached)
            × (self.new.address ≡ self.old.address)
            × (self.new.keeps_trying ≡ self.old.keeps_trying)
            × (self.new.delay ≡ self.old.delay) }
    {
        match start_dial(rt, alloc, self.address) {
            Some(dial) => {
                self.stage = DialStage::Dials(dial);
                true
            }
            None => false,
        }
    }

    /// Whether a dial of it has ended.
    pub fn has_dialled(&self) -> bool
        ensures { IsTrue result → IsDialled self.now.stage }
    {
        match &self.stage {
            DialStage::Dials(dial) => dial.done.load(Ordering::SeqCst),
            DialStage::Waits(_) | DialStage::Lasts(_, _) => false,
        }
    }

    /// Waits for the end of a dial of it, if one is under way, and returns the stream if one was
    /// connected. It is due to be dialled at this time then.
    pub fn take_stream<R: Host>(&mut self, rt: &R, now: u64) -> Option<TcpStream>
        ensures due { IsDialled self.old.stage → self.new.stage ≡ DialStage.Waits now }
        ensures none { (IsDialled self.old.stage → ⊥)
            → (result ≡ None) × (self.new.stage ≡ self.old.stage) }
        ensures same { (self.new.reached ≡ self.old.reached)
            × (self.new.address ≡ self.old.address)
            × (self.new.keeps_trying ≡ self.old.keeps_trying)
            × (self.new.delay ≡ self.old.delay) }
    {
        match mem::replace(&mut self.stage, DialStage::Waits(now)) {
            DialStage::Dials(dial) => {
                let DialThread { thread, done } = dial;
                drop(done);
                thread.join(rt)
            }
            other => {
                self.stage = other;
                None
            }
        }
    }

    /// A connection to it was made at this time, in this slot.
    pub fn reach(&mut self, slot: u16, now: u64)
        ensures { (self.new.reached ≡ true) × (self.new.address ≡ self.old.address)
            × (self.new.keeps_trying ≡ self.old.keeps_trying) × (self.new.delay ≡ self.old.delay)
            × (self.new.stage ≡ DialStage.Lasts slot now) }
    {
        self.reached = true;
        self.stage = DialStage::Lasts(slot, now);
    }

    /// Whether the connection that was made at this time in this slot is to it.
    pub fn lasts_in(&self, slot: u16, since: u64) -> bool
        ensures { IsTrue result ↔ (self.now.stage ≡ DialStage.Lasts slot since) }
    {
        match &self.stage {
            DialStage::Lasts(its, made) => *its == slot && *made == since,
            DialStage::Waits(_) | DialStage::Dials(_) => false,
        }
    }

    /// The connection to it has ended, or couldn't be made. Returns how many seconds later it is
    /// dialled again. A connection that lasted for a minute lets the delays begin anew.
    pub fn put_off(&mut self, now: u64) -> u16
        ensures short { LastsWell self.old.stage now → result ≡ 1 }
        ensures delay { (LastsWell self.old.stage now → ⊥) → result ≡ self.old.delay }
        ensures next { self.new.delay ≡ longer result }
        ensures due { self.new.stage ≡ DialStage.Waits (later now result) }
        ensures same { (self.new.reached ≡ self.old.reached)
            × (self.new.address ≡ self.old.address)
            × (self.new.keeps_trying ≡ self.old.keeps_trying) }
    {
        if let DialStage::Lasts(_, since) = &self.stage {
            if now.saturating_sub(*since) >= GOOD_MILLISECONDS {
                self.delay = 1;
            }
        }
        let delay = self.delay;
        self.delay = delay.saturating_mul(2).min(LONGEST_DELAY);
        self.stage = DialStage::Waits(now.saturating_add(u64::from(delay) * 1_000));
        delay
    }
}

/// Whether one of these has this address.
pub fn is_target(targets: &[Target], address: SocketAddr) -> bool
    ensures { IsTrue result ↔ Contains (addresses_of targets.now) address }
{
    for target in targets {
        if target.address == address {
            return true;
        }
    }
    false
}

/// Starts a thread that dials this address. `None` if memory ran out, or no thread can be made.
fn start_dial<R: Host>(rt: &R, alloc: Global, address: SocketAddr) -> Option<DialThread> {
    let (done, flag) = new_flag(alloc).ok()?;
    let rt_of_thread = *rt;
    let started = thread::spawn(rt, move || {
        let (rt, flag) = (rt_of_thread, flag);
        let stream = connect_to(&rt, &address).ok();
        flag.store(true, Ordering::SeqCst);
        stream
    });
    match started {
        Ok(thread) => Some(DialThread { thread, done }),
        Err(refused) => {
            drop(refused);
            None
        }
    }
}

/// A flag that isn't set, with two owners.
fn new_flag(alloc: Global) -> Result<(Shared<AtomicBool>, Shared<AtomicBool>), AllocError> {
    let flag = Shared::new(alloc, AtomicBool::new(false))?;
    let other = flag.clone()?;
    Ok((flag, other))
}
