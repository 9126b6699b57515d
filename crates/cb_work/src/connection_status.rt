ghost use Rattle.std.specs.Prelude.{◌≡◌, false, []};
ghost use Rattle.cb_work.specs.Flags.{HasLooked};

use crate::due::ToldTip;
use crate::flags::{Beats, Flags};
use crate::traffic::{BlockPath, Brought, StepTraffic, Totals};
use cb_base::Shared;
use cb_peer_state::{CloseReason, State};
use cb_wire::Item;
use std::sync::OnceLock;
use std::sync::atomic::{AtomicBool, AtomicI64, AtomicU64, Ordering};

/// What the threads of one connection share. A handler's thread serves the connection's
/// work, a reader's thread queues what the peer sends, and the node sets ticks and looks at the
/// numbers.
pub struct ConnectionStatus {
    tick: AtomicBool,
    probe: AtomicBool,
    stop: AtomicBool,
    /// How many payload bytes lie in the connection's inbox.
    queued: AtomicU64,
    messages: AtomicU64,
    payload: AtomicU64,
    written: AtomicU64,
    sent: AtomicU64,
    pongs: AtomicU64,
    /// How many blocks were in flight after the latest step.
    flight: AtomicU64,
    /// Whether blocks were in flight or wanted after the latest step.
    fetching: AtomicBool,
    /// Whether headers of something unknown were awaited after the latest step.
    seeks: AtomicBool,
    /// The tip that the peer was told last, as `ToldTip` has it.
    told: AtomicU64,
    /// Whether the peer wants compact blocks unasked.
    high: AtomicBool,
    /// Whether nobody asked yet whether the peer was told its first tip.
    fresh: AtomicBool,
    /// The latest tip that the session brought and that wasn't taken yet, as `tip_word` has it; 0
    /// if there is none.
    brought: AtomicU64,
    full: AtomicU64,
    compact: AtomicU64,
    completed: AtomicU64,
    fallback: AtomicU64,
    saved: AtomicU64,
    /// The bytes of the block that was handed to the hall last.
    given: AtomicU64,
    /// How far the session is, as `state_code` writes it.
    state: AtomicU64,
    /// Whether the connection's socket took nothing for too long.
    still: AtomicBool,
    /// Whether memory ran out for a message that was to be spelled.
    starved: AtomicBool,
    /// Whether the time was told at which the connection was made.
    is_made: AtomicBool,
    /// That time, in seconds since 1970.
    made: AtomicI64,
    /// The item with the peer's first `version`.
    greeting: OnceLock<Shared<Item>>,
}

impl Drop for ConnectionStatus {
    fn drop(self) {
        let ConnectionStatus {
            tick: _,
            probe: _,
            stop: _,
            queued: _,
            messages: _,
            payload: _,
            written: _,
            sent: _,
            pongs: _,
            flight: _,
            fetching: _,
            seeks: _,
            told: _,
            high: _,
            fresh: _,
            brought: _,
            full: _,
            compact: _,
            completed: _,
            fallback: _,
            saved: _,
            given: _,
            state: _,
            still: _,
            starved: _,
            is_made: _,
            made: _,
            greeting: _,
        } = self;
    }
}

impl ConnectionStatus {
    /// The status of a connection that has moved nothing. No flag is set.
    pub fn new() -> ConnectionStatus {
        ConnectionStatus {
            tick: AtomicBool::new(false),
            probe: AtomicBool::new(false),
            stop: AtomicBool::new(false),
            queued: AtomicU64::new(0),
            messages: AtomicU64::new(0),
            payload: AtomicU64::new(0),
            written: AtomicU64::new(0),
            sent: AtomicU64::new(0),
            pongs: AtomicU64::new(0),
            flight: AtomicU64::new(0),
            fetching: AtomicBool::new(false),
            seeks: AtomicBool::new(false),
            told: AtomicU64::new(0),
            high: AtomicBool::new(false),
            fresh: AtomicBool::new(true),
            brought: AtomicU64::new(0),
            full: AtomicU64::new(0),
            compact: AtomicU64::new(0),
            completed: AtomicU64::new(0),
            fallback: AtomicU64::new(0),
            saved: AtomicU64::new(0),
            given: AtomicU64::new(0),
            state: AtomicU64::new(0),
            still: AtomicBool::new(false),
            starved: AtomicBool::new(false),
            is_made: AtomicBool::new(false),
            made: AtomicI64::new(0),
            greeting: OnceLock::new(),
        }
    }

    /// Tells the time at which the connection is made, in seconds since 1970. Its session's
    /// `version` has this time, if nothing came of the connection before.
    pub fn set_made(&self, time: i64) {
        self.made.store(time, Ordering::SeqCst);
        self.is_made.store(true, Ordering::SeqCst);
    }

    /// The time at which the connection was made, if it was told.
    fn made_at(&self) -> Option<i64> {
        if self.is_made.load(Ordering::SeqCst) {
            Some(self.made.load(Ordering::SeqCst))
        } else {
            None
        }
    }

    /// Makes a tick due.
    pub fn set_tick(&self) {
        self.tick.store(true, Ordering::SeqCst);
    }

    /// Makes a tick due, unless one is. Returns whether none was.
    pub fn add_tick(&self) -> bool {
        !self.tick.load(Ordering::SeqCst) && !self.tick.swap(true, Ordering::SeqCst)
    }

    /// Makes a probe due: the next tick of the work gives the session a `Probe`.
    pub fn set_probe(&self) {
        self.probe.store(true, Ordering::SeqCst);
    }

    /// Whether a tick was due, and whether a probe was. None is due afterwards.
    fn take_beats(&self) -> Beats {
        Beats {
            tick: self.tick.swap(false, Ordering::SeqCst),
            probe: self.probe.swap(false, Ordering::SeqCst),
        }
    }

    /// Tells the connection's reader to stop.
    pub fn stop(&self) {
        self.stop.store(true, Ordering::SeqCst);
    }

    /// Whether the connection's reader is told to stop.
    pub fn is_stopped(&self) -> bool {
        self.stop.load(Ordering::SeqCst)
    }

    /// Counts payload bytes that are about to be queued. Who queues an item calls it before, so
    /// that the number never falls below 0.
    pub fn add_queued(&self, bytes: u64) {
        self.queued.fetch_add(bytes, Ordering::SeqCst);
    }

    /// Takes off payload bytes that weren't queued after all.
    pub fn take_queued(&self, bytes: u64) {
        self.queued.fetch_sub(bytes, Ordering::SeqCst);
    }

    /// How many payload bytes lie in the inbox.
    pub fn queued(&self) -> u64 {
        self.queued.load(Ordering::SeqCst)
    }

    /// What the connection moved so far.
    pub fn totals(&self) -> Totals {
        Totals {
            messages: self.messages.load(Ordering::SeqCst),
            payload: self.payload.load(Ordering::SeqCst),
            written: self.written.load(Ordering::SeqCst),
            sent: self.sent.load(Ordering::SeqCst),
            full: self.full.load(Ordering::SeqCst),
            compact: self.compact.load(Ordering::SeqCst),
            completed: self.completed.load(Ordering::SeqCst),
            fallback: self.fallback.load(Ordering::SeqCst),
            saved: self.saved.load(Ordering::SeqCst),
        }
    }

    /// How many blocks were in flight after the latest step: requested from the peer, and not
    /// received yet.
    pub fn flight(&self) -> u64 {
        self.flight.load(Ordering::SeqCst)
    }

    /// Whether blocks were in flight or wanted after the latest step.
    pub fn is_fetching(&self) -> bool {
        self.fetching.load(Ordering::SeqCst)
    }

    /// Whether headers of something unknown were awaited after the latest step.
    pub fn seeks(&self) -> bool {
        self.seeks.load(Ordering::SeqCst)
    }

    /// What the peer was told of the tip, as of the latest step.
    pub fn told(&self) -> ToldTip {
        ToldTip {
            tip: self.told.load(Ordering::SeqCst),
            high: self.high.load(Ordering::SeqCst),
        }
    }

    /// Whether the peer was told its first tip since the last call.
    pub fn take_first(&self) -> bool {
        self.told.load(Ordering::SeqCst) != 0
            && self.fresh.load(Ordering::SeqCst)
            && self.fresh.swap(false, Ordering::SeqCst)
    }

    /// Notes that the session brought the hall this tip, as `tip_word` has it.
    pub fn note_brought(&self, tip: u64) {
        self.brought.store(tip, Ordering::SeqCst);
    }

    /// The latest tip that the session brought since the last call that took one, if no block is in
    /// flight or wanted; 0 if there is none. So only the last of many blocks is told of.
    pub fn take_brought(&self) -> u64 {
        if self.brought.load(Ordering::SeqCst) == 0 || self.is_fetching() {
            return 0;
        }
        self.brought.swap(0, Ordering::SeqCst)
    }

    /// How many `pong` messages were read (BIP 31).
    pub fn pongs(&self) -> u64 {
        self.pongs.load(Ordering::SeqCst)
    }

    /// The item with the peer's first `version`, once that was read.
    pub fn greeting(&self) -> Option<&Item> {
        match self.greeting.get() {
            None => None,
            Some(shared) => Some(shared),
        }
    }

    /// Keeps the item of a `version`, if none is kept. Want of an owner keeps none.
    fn keep_greeting(&self, item: &Shared<Item>) {
        if self.greeting.get().is_none()
            && let Ok(shared) = item.clone()
        {
            let _kept = self.greeting.try_set(shared);
        }
    }

    /// The connection's socket took nothing for too long: it is about to be shut.
    pub fn set_still(&self) {
        self.still.store(true, Ordering::SeqCst);
    }

    /// Memory ran out for a message that was to be spelled: the socket is about to be shut.
    pub fn set_starved(&self) {
        self.starved.store(true, Ordering::SeqCst);
    }

    /// Counts bytes that the socket took.
    pub fn add_written(&self, bytes: u64) {
        self.written.fetch_add(bytes, Ordering::SeqCst);
    }

    /// How far the session is, as its work told last. It tells why a session is over before it
    /// sets the stop flag.
    ///
    /// A socket that was shut since it took nothing, or since memory ran out for what was to be
    /// written to it, is to the session as one that the peer closed. Here such an end is a failed
    /// write, or want of memory.
    pub fn state(&self) -> State {
        match state_of(self.state.load(Ordering::SeqCst)) {
            State::Closed(CloseReason::Bye) if self.starved.load(Ordering::SeqCst) => {
                State::Closed(CloseReason::Memory)
            }
            State::Closed(CloseReason::Bye) if self.still.load(Ordering::SeqCst) => {
                State::Closed(CloseReason::WriteFault)
            }
            state => state,
        }
    }

    /// Counts what one step moved. The item's payload lies in the inbox no more.
    fn count(&self, traffic: &StepTraffic) {
        self.queued.fetch_sub(traffic.payload, Ordering::SeqCst);
        self.messages.fetch_add(traffic.messages, Ordering::SeqCst);
        self.payload.fetch_add(traffic.payload, Ordering::SeqCst);
        self.written.fetch_add(traffic.written, Ordering::SeqCst);
        self.sent.fetch_add(traffic.sent, Ordering::SeqCst);
        self.pongs.fetch_add(traffic.pongs, Ordering::SeqCst);
        self.flight.store(traffic.flight, Ordering::SeqCst);
        self.fetching.store(traffic.fetching, Ordering::SeqCst);
        self.seeks.store(traffic.seeks, Ordering::SeqCst);
        self.high.store(traffic.told.high, Ordering::SeqCst);
        self.told.store(traffic.told.tip, Ordering::SeqCst);
        if let Some(brought) = traffic.block {
            self.blocks(brought.path).fetch_add(1, Ordering::SeqCst);
            self.saved
                .fetch_add(self.saved_by(brought), Ordering::SeqCst);
        }
        self.state
            .store(state_code(traffic.state), Ordering::SeqCst);
    }

    /// Notes the size of a block that is handed to the hall: the bytes of its `block`'s payload.
    pub fn note_given(&self, size: u64) {
        self.given.store(size, Ordering::SeqCst);
    }

    /// How many bytes short ids saved of the block that was handed to the hall last.
    fn saved_by(&self, brought: Brought) -> u64 {
        let size = self.given.load(Ordering::SeqCst);
        match brought.path {
            BlockPath::Compact | BlockPath::Completed => size.saturating_sub(brought.payload),
            BlockPath::Full | BlockPath::Fallback => 0,
        }
    }

    /// The number of blocks that came this way.
    fn blocks(&self, path: BlockPath) -> &AtomicU64 {
        match path {
            BlockPath::Full => &self.full,
            BlockPath::Compact => &self.compact,
            BlockPath::Completed => &self.completed,
            BlockPath::Fallback => &self.fallback,
        }
    }
}

/// The flags of a connection over a status that other threads hold too.
///
/// An atomic word tells a contract nothing of its content, since any thread may change it. So the
/// flags keep beside it how often the tick flag and the probe flag were looked at, how often each
/// was set, and whether the stop flag was set here.
pub struct PeerFlags {
    status: Shared<ConnectionStatus>,
    looked: u64,
    found: u64,
    probes: u64,
    stopped: bool,
}

impl Drop for PeerFlags {
    fn drop(self) {
        let PeerFlags {
            status: _,
            looked: _,
            found: _,
            probes: _,
            stopped: _,
        } = self;
    }
}

impl PeerFlags {
    /// The flags over this status, which weren't looked at yet.
    pub fn new(status: Shared<ConnectionStatus>) -> PeerFlags
        ensures looks { HasLooked result.looked result.found result.probes [] }
        ensures stopped { result.stopped ≡ false }
    {
        PeerFlags {
            status,
            looked: 0,
            found: 0,
            probes: 0,
            stopped: false,
        }
    }

    /// The status.
    pub fn status(&self) -> &ConnectionStatus {
        &self.status
    }

    /// How often the tick flag and the probe flag were looked at; `u64::MAX` if that is more.
    pub fn looked(&self) -> u64
        ensures { result ≡ self.now.looked }
    {
        self.looked
    }

    /// How often the tick flag was set then; `u64::MAX` if that is more.
    pub fn found(&self) -> u64
        ensures { result ≡ self.now.found }
    {
        self.found
    }

    /// How often the probe flag was set then; `u64::MAX` if that is more.
    pub fn probes(&self) -> u64
        ensures { result ≡ self.now.probes }
    {
        self.probes
    }
}

impl Flags for PeerFlags {
    ghost use Rattle.cb_work.specs.Flags.{HasLooked};

    // The three numbers are those of the answers.
    ghost looks = { λ flags answers. HasLooked flags.looked flags.found flags.probes answers };

    ghost is_stopped = { λ flags. flags.stopped };

    fn take_beats(&mut self) -> Beats {
        let due = self.status.take_beats();
        self.looked = self.looked.saturating_add(1);
        self.found = self.found.saturating_add(u64::from(due.tick));
        self.probes = self.probes.saturating_add(u64::from(due.probe));
        due
    }

    fn made_at(&self) -> Option<i64> {
        self.status.made_at()
    }

    fn stop(&mut self) {
        self.status.stop();
        self.stopped = true;
    }

    fn keep_greeting(&mut self, item: &Shared<Item>) {
        self.status.keep_greeting(item);
    }

    fn count_traffic(&mut self, traffic: &StepTraffic) {
        self.status.count(traffic);
    }
}

/// The number that stands for how far a session is: 0 to 2 while it goes on, and from 3 on why it
/// is over.
fn state_code(state: State) -> u64 {
    match state {
        State::Start => 0,
        State::Greeted => 1,
        State::Ready => 2,
        State::Closed(reason) => reason_code(reason),
    }
}

/// The number that stands for why a session is over.
fn reason_code(reason: CloseReason) -> u64 {
    match reason {
        CloseReason::Bye => 3,
        CloseReason::BadStream => 4,
        CloseReason::BadMessage => 5,
        CloseReason::BadBlock => 6,
        CloseReason::BadRequest => 7,
        CloseReason::OldPeer => 8,
        CloseReason::SelfPeer => 9,
        CloseReason::Kicked => 10,
        CloseReason::Memory => 11,
        CloseReason::TraceFull => 12,
        CloseReason::HallFull => 13,
        CloseReason::WriteFault => 14,
    }
}

/// How far a session is for which this number stands.
fn state_of(code: u64) -> State {
    match code {
        0 => State::Start,
        1 => State::Greeted,
        2 => State::Ready,
        other => State::Closed(reason_of(other)),
    }
}

/// Why a session is over for which this number stands.
fn reason_of(code: u64) -> CloseReason {
    match code {
        3 => CloseReason::Bye,
        4 => CloseReason::BadStream,
        5 => CloseReason::BadMessage,
        6 => CloseReason::BadBlock,
        7 => CloseReason::BadRequest,
        8 => CloseReason::OldPeer,
        9 => CloseReason::SelfPeer,
        10 => CloseReason::Kicked,
        11 => CloseReason::Memory,
        12 => CloseReason::TraceFull,
        13 => CloseReason::HallFull,
        _ => CloseReason::WriteFault,
    }
}
