//! Addresses that are dialled once.
use crate::dials::DialKind;
use crate::host::ProcessHost;
use crate::polling::{NO_THREAD, may_tell};
use crate::process::Process;
use log::{Level, Log, warn};
use std::net::SocketAddr;

impl<R: ProcessHost> Process<R> {
    /// Dials the addresses that are to be dialled once, and serves what such dials connected. An
    /// address whose dial has ended is let go.
    pub(crate) fn try_all<L: Log>(&mut self, log: &L, now: u64) {
        for place in (0..self.dials.len()).rev() {
            self.start_try(log, place, now);
        }
        for place in (0..self.dials.len()).rev() {
            self.note_try(log, place, now);
        }
    }

    /// Starts the dial of the address at this place of the list, if it wasn't dialled yet.
    fn start_try<L: Log>(&mut self, log: &L, place: usize, now: u64) {
        let Some(dial) = self.dials.get_mut(place) else {
            return;
        };
        let target = &mut dial.target;
        if dial.kind != DialKind::Once || !target.is_due(now) {
            return;
        }
        if !target.dial(&self.rt, self.alloc) {
            let address = target.address;
            self.forget_try(place);
            self.note_miss(log, address, now, NO_THREAD);
        }
    }

    /// Serves the stream that the dial of the address at this place of the list connected, if that
    /// has ended.
    fn note_try<L: Log>(&mut self, log: &L, place: usize, now: u64) {
        let Some(dial) = self.dials.get_mut(place) else {
            return;
        };
        let target = &mut dial.target;
        if dial.kind != DialKind::Once || !target.has_dialled() {
            return;
        }
        let address = target.address;
        let stream = target.take_stream(&self.rt, now);
        let answered = stream.is_some();
        self.forget_try(place);
        if self.off {
            drop(stream);
        } else if let Err(refusal) = self.serve(log, stream, address, now) {
            let why = self.words_of(refusal, answered);
            self.note_miss(log, address, now, why);
        }
    }

    /// Lets the address at this place of the list go.
    fn forget_try(&mut self, place: usize) {
        if place < self.dials.len() {
            drop(self.dials.remove(place));
        }
    }

    /// Logs that no connection to an address was made.
    fn note_miss<L: Log>(&mut self, log: &L, address: SocketAddr, now: u64, why: &str) {
        if may_tell(&mut self.log_rate, log, Level::Warn, now) {
            warn!(log; "no connection to {address}: {why}");
        }
    }
}
