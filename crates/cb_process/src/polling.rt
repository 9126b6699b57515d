//! What a process does between two lines: it notes connections that ended, ends those that are
//! late, accepts and dials peers, and ticks. Each is logged. Nothing of it fails: what can't be
//! done now is tried again later.
ghost use Rattle.std.specs.Prelude.{◌<◌, IfSome};

use crate::dials::DialKind;
use crate::host::ProcessHost;
use crate::process::Process;
use crate::watch::Watch;
use crate::watching::Watched;
use cb_base::Hash256;
use cb_control::Refusal;
use cb_driver::{refusal_of, tip_of};
use cb_node::CloseReason;
use cb_pipes::{LogRate, unix_time};
use log::{Level, Log, debug, info, log_enabled, warn};
use std::net::{SocketAddr, TcpStream};

/// Why an address isn't dialled for which no thread can be made.
pub(crate) const NO_THREAD: &str = "no thread can be made";

impl<R: ProcessHost> Process<R> {
    /// Does what is due.
    pub fn poll<L: Log>(&mut self, log: &L) {
        let now = self.now();
        self.node.set_time(unix_time(&self.rt));
        self.note_ends(log, now);
        self.guard(now);
        self.admit(log, now);
        for place in (0..self.dials.len()).rev() {
            self.start_dial(log, place, now);
        }
        for place in (0..self.dials.len()).rev() {
            self.note_dial(log, place, now);
        }
        self.end_undone(now);
        self.try_all(log, now);
        tell_others(log, self.log_rate.take_due(now));
        if self.next_tick <= now {
            self.next_tick = now.saturating_add(self.tick);
            self.node.tick();
            self.note_tip(log);
        }
    }

    /// Logs the connections that ended, and lets their addresses be dialled again.
    fn note_ends<L: Log>(&mut self, log: &L, now: u64) {
        for place in (0..self.watched.len()).rev() {
            if let Some(reason) = self.ended(place) {
                let gone = self.watched.remove(place);
                self.moved = self.moved.with(gone.moved());
                if may_tell(&mut self.log_rate, log, Level::Info, now) {
                    note_end(log, &gone, gone.end_name(reason));
                }
                self.put_off(log, &gone, now);
            }
        }
    }

    /// Logs the ends of all connections: the node is about to end those that last.
    pub fn note_all_ends<L: Log>(&mut self, log: &L) {
        let now = self.now();
        self.note_ends(log, now);
        for gone in self.watched.as_slice() {
            if may_tell(&mut self.log_rate, log, Level::Info, now) {
                note_end(log, gone, "NodeEnded");
            }
        }
        tell_others(log, self.log_rate.take_rest());
    }

    /// Logs which of these addresses, which are dialled from the start, were never reached.
    pub fn note_unreached<L: Log>(&self, log: &L, starts: &[SocketAddr]) {
        for dial in self.dials.as_slice() {
            if dial.is_missed(starts) {
                let address = dial.target.address;
                warn!(log; "{address} was never reached");
            }
        }
    }

    /// Why the connection at this place of the list is over.
    fn ended(&self, place: usize) -> Option<CloseReason>
        ensures { IfSome result (λ reason. place < self.now.lasting) }
    {
        self.watched.get(place)?.ended()
    }

    /// A connection has ended: if it was to an address that is dialled, that is put off. Another
    /// one may have its slot already.
    fn put_off<L: Log>(&mut self, log: &L, gone: &Watched, now: u64) {
        for dial in self.dials.as_mut_slice() {
            let target = &mut dial.target;
            if dial.kind == DialKind::Lasting && target.lasts_in(gone.slot, gone.watch.made) {
                let (address, seconds) = (target.address, target.put_off(now));
                if may_tell(&mut self.log_rate, log, Level::Debug, now) {
                    debug!(log; "{address} is dialled again in {seconds} s");
                }
            }
        }
    }

    /// Watches a connection that was made, and logs it.
    pub(crate) fn watch<L: Log>(
        &mut self,
        log: &L,
        slot: u16,
        inbound: bool,
        address: SocketAddr,
        now: u64,
    ) {
        self.connections = self.connections.saturating_add(1);
        if may_tell(&mut self.log_rate, log, Level::Info, now) {
            let way = if inbound { "from" } else { "to" };
            info!(log; "connection {way} {address} in slot {slot}");
        }
        let link = match self.node.link(slot) {
            Ok(link) => link,
            Err(fault) => {
                warn!(log; "slot {slot} isn't watched: {fault}");
                return;
            }
        };
        let watched = Watched {
            slot,
            inbound,
            address,
            link,
            made: unix_time(&self.rt),
            watch: Watch::new(now),
            ending: None,
            kicked: false,
        };
        if self.watched.push(watched).is_err() {
            warn!(log; "slot {slot} isn't watched: memory ran out");
        }
    }

    /// Starts a dial of the address at this place of the list, if one is due. Where no thread can
    /// be made for it, the dial has failed.
    fn start_dial<L: Log>(&mut self, log: &L, place: usize, now: u64) {
        let Some(dial) = self.dials.get_mut(place) else {
            return;
        };
        let target = &mut dial.target;
        if self.off || dial.kind != DialKind::Lasting || !target.is_due(now) {
            return;
        }
        let address = target.address;
        if target.dial(&self.rt, self.alloc) {
            if may_tell(&mut self.log_rate, log, Level::Debug, now) {
                debug!(log; "dialling {address}");
            }
        } else {
            self.tell(address, Err(Refusal::Io));
            self.miss(log, place, now, NO_THREAD);
        }
    }

    /// Serves the stream that a dial of the address at this place of the list connected, if one has
    /// ended. If there is none, or it can't be served, the address is put off.
    fn note_dial<L: Log>(&mut self, log: &L, place: usize, now: u64) {
        let Some(dial) = self.dials.get_mut(place) else {
            return;
        };
        let target = &mut dial.target;
        if dial.kind != DialKind::Lasting || !target.has_dialled() {
            return;
        }
        let address = target.address;
        let stream = target.take_stream(&self.rt, now);
        if self.off {
            target.put_off(now);
            return;
        }
        let answered = stream.is_some();
        let served = self.serve(log, stream, address, now);
        self.tell(address, served);
        match served {
            Ok(slot) => {
                if let Some(dial) = self.dials.get_mut(place) {
                    dial.target.reach(slot, now);
                }
            }
            Err(refusal) => {
                let why = self.words_of(refusal, answered);
                self.miss(log, place, now, why);
            }
        }
    }

    /// No connection to the address at this place of the list was made. It is put off, or forgotten
    /// if it was never reached and an operator waits for it.
    fn miss<L: Log>(&mut self, log: &L, place: usize, now: u64, why: &str) {
        let Some(dial) = self.dials.get_mut(place) else {
            return;
        };
        let target = &mut dial.target;
        let (address, forgotten) = (target.address, !target.keeps_trying && !target.reached);
        let seconds = target.put_off(now);
        if may_tell(&mut self.log_rate, log, Level::Warn, now) {
            if forgotten {
                warn!(log; "no connection to {address}: {why}");
            } else {
                warn!(log; "no connection to {address}: {why}; again in {seconds} s");
            }
        }
        if forgotten && place < self.dials.len() {
            drop(self.dials.remove(place));
        }
    }

    /// Serves a stream that was connected to this address by a slot, whose number is returned.
    pub(crate) fn serve<L: Log>(
        &mut self,
        log: &L,
        stream: Option<TcpStream>,
        address: SocketAddr,
        now: u64,
    ) -> Result<u16, Refusal> {
        let Some(stream) = stream else {
            return Err(Refusal::Io);
        };
        let slot = self
            .node
            .serve_stream(stream)
            .map_err(|fault| refusal_of(fault))?;
        self.watch(log, slot, false, address, now);
        Ok(slot)
    }

    /// Notes what the dial came to, if an operator waits for it.
    pub(crate) fn tell(&mut self, address: SocketAddr, served: Result<u16, Refusal>) {
        if self.awaited == Some(address) {
            self.awaited = None;
            self.outcome = Some((address, served));
        }
    }

    /// Why no connection was made to an address, by whether that answered, in words.
    pub(crate) fn words_of(&self, refusal: Refusal, answered: bool) -> &'static str {
        match refusal {
            Refusal::NoSlot => self.lack_of_slots(false),
            Refusal::Memory => "memory ran out",
            Refusal::Fault(_) => "the hall refused",
            _ if answered => "a socket or a thread failed",
            _ => "it doesn't answer",
        }
    }

    /// Why no slot of a kind can serve a connection, in words.
    pub(crate) fn lack_of_slots(&self, inbound: bool) -> &'static str {
        if self.node.is_spent(inbound) {
            "all slots are used up, which restart mends"
        } else {
            "no slot is free"
        }
    }

    /// Logs the tip if it is another one than before.
    pub fn note_tip<L: Log>(&mut self, log: &L) {
        let tip = tip_of(&self.node);
        if tip.hash != self.tip {
            self.tip = tip.hash;
            self.log_tip(log, tip.height, tip.hash);
        }
    }

    /// Logs a tip.
    fn log_tip<L: Log>(&self, log: &L, height: u32, hash: Hash256) {
        match hash.show(self.alloc) {
            Ok(text) => info!(log; "tip {height} {text}"),
            Err(_) => info!(log; "tip {height}"),
        }
    }
}

/// Whether a line about a connection may be logged at this time. If it may not, it is counted.
pub fn may_tell<L: Log>(log_rate: &mut LogRate, log: &L, level: Level, now: u64) -> bool {
    log_enabled!(log; level) && log_rate.admits(now)
}

/// Logs how many lines about connections weren't logged, if any weren't.
fn tell_others<L: Log>(log: &L, others: u64) {
    if others > 0 {
        warn!(log; "{others} more lines about connections");
    }
}

/// Logs why a connection ended.
fn note_end<L: Log>(log: &L, gone: &Watched, reason: &str) {
    let (slot, address) = (gone.slot, gone.address);
    let way = if gone.inbound { "from" } else { "to" };
    info!(log; "connection {way} {address} in slot {slot} closed: {reason}");
}
