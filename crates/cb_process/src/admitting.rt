//! How peers that connect come in.
use crate::host::ProcessHost;
use crate::polling::may_tell;
use crate::process::Process;
use crate::several::count_of;
use cb_node::{IncomingConnection, NodeFault};
use log::{Level, Log, warn};
use std::net::SocketAddr;

/// How many peers are accepted between two lines at most.
const MOST_ADMITTED: u32 = 64;

/// How many milliseconds pass at least between two lines of the log which tell that a peer wasn't
/// accepted. Where descriptors have run out, each try fails.
const COMPLAINT_MILLISECONDS: u64 = 1_000;

impl<R: ProcessHost> Process<R> {
    /// Serves the peers that wait to be accepted. A peer for which no slot is free waits while the
    /// connection of another one is being ended; where none is, and none gives its place away, it
    /// is turned away.
    pub fn admit<L: Log>(&mut self, log: &L, now: u64) {
        for _ in 0..MOST_ADMITTED {
            let Some(waiting) = self.next_guest(log, now) else {
                return;
            };
            if self.node.can_admit() {
                self.let_in(log, waiting, now);
            } else if now < self.room_by || self.give_way(now) {
                self.waiting = Some(waiting);
                return;
            } else {
                let why = self.lack_of_slots(true);
                self.turn_away(log, waiting, why, now);
            }
        }
    }

    /// The peer that waits, or else the next that may come in. Those before it that may not are
    /// turned away.
    fn next_guest<L: Log>(&mut self, log: &L, now: u64) -> Option<IncomingConnection> {
        if let Some(waiting) = self.waiting.take() {
            return Some(waiting);
        }
        for _ in 0..MOST_ADMITTED {
            let waiting = match self.node.next_waiting() {
                Ok(waiting) => waiting?,
                Err(fault) => {
                    self.complain(log, now, fault);
                    return None;
                }
            };
            match self.why_refused(waiting.address, now) {
                None => return Some(waiting),
                Some(why) => self.turn_away(log, waiting, why, now),
            }
        }
        None
    }

    /// Why a peer may not come in; `None` if it may.
    fn why_refused(&mut self, address: SocketAddr, now: u64) -> Option<&'static str> {
        if self.off {
            return Some("the network is off");
        }
        let host = address.ip();
        let lasting = count_of(self.watched.as_slice(), host);
        match self
            .doors
            .let_in(self.limits.per_address, host, lasting, now)
        {
            Ok(true) => None,
            Ok(false) => Some("its address has as many as it may"),
            Err(_) => Some("memory ran out"),
        }
    }

    /// Serves a peer by a slot that is free.
    fn let_in<L: Log>(&mut self, log: &L, waiting: IncomingConnection, now: u64) {
        let IncomingConnection { stream, address } = waiting;
        match self.node.admit(stream) {
            Ok(slot) => self.watch(log, slot, true, address, now),
            Err(fault) => self.complain(log, now, fault),
        }
    }

    /// Closes the connection of a peer. Counted are those against which a limit stood.
    fn turn_away<L: Log>(&mut self, log: &L, waiting: IncomingConnection, why: &str, now: u64) {
        let address = waiting.address;
        drop(waiting);
        if !self.off {
            self.refused = self.refused.saturating_add(1);
        }
        if may_tell(&mut self.log_rate, log, Level::Warn, now) {
            warn!(log; "a peer was turned away: {why} ({address})");
        }
    }

    /// Logs that a peer wasn't accepted, unless that was logged a moment ago.
    fn complain<L: Log>(&mut self, log: &L, now: u64, fault: NodeFault) {
        if self.next_complaint <= now {
            self.next_complaint = now.saturating_add(COMPLAINT_MILLISECONDS);
            if may_tell(&mut self.log_rate, log, Level::Warn, now) {
                warn!(log; "a peer wasn't accepted: {fault}");
            }
        }
    }
}
