//! Which connections a process ends.
use crate::host::ProcessHost;
use crate::process::Process;
use crate::several::{note_all, quietest};
use crate::watch::DueAction;
use crate::watching::DisconnectReason;

/// For how many milliseconds a peer waits at most for the slot of a connection that is ended.
const ROOM_MILLISECONDS: u64 = 1_000;

impl<R: ProcessHost> Process<R> {
    /// Notes what is seen of the connections that last, ends those that are late or that the
    /// operator wants ended, and asks those for a sign of life that were silent for long.
    pub fn guard(&mut self, now: u64) {
        let able = note_all(self.watched.as_mut_slice(), &self.limits, now);
        for watched in self.watched.as_mut_slice() {
            match watched.watch.judge(&self.limits, able, now) {
                DueAction::Nothing => {}
                DueAction::Probe => {
                    watched.link.status.set_probe();
                    self.node.wake(watched.slot);
                }
                DueAction::End(cause) => watched.order(DisconnectReason::Late(cause)),
            }
            if self.off {
                watched.order(DisconnectReason::NetworkOff);
            }
        }
        self.kick_ordered(now);
    }

    /// Asks the peer of each connection whose session is ready for a `pong` (BIP 31).
    pub fn ping_all(&mut self) {
        let now = self.now();
        for watched in self.watched.as_mut_slice() {
            if watched.ask(now) {
                self.node.wake(watched.slot);
            }
        }
    }

    /// Kicks the connections that are to end. What can't be kicked now is kicked later.
    fn kick_ordered(&mut self, now: u64) {
        for watched in self.watched.as_mut_slice() {
            if watched.is_ordered() && self.node.kick(watched.slot).is_ok() {
                watched.kicked = true;
                if watched.inbound {
                    self.room_by = now.saturating_add(ROOM_MILLISECONDS);
                }
            }
        }
    }

    /// Ends the connection that gives its place away to a new peer. Returns whether there is one.
    pub fn give_way(&mut self, now: u64) -> bool {
        let Some(place) = quietest(self.alloc, self.watched.as_slice(), now) else {
            return false;
        };
        match self.watched.get_mut(place) {
            Some(watched) => {
                watched.order(DisconnectReason::GaveWay);
                self.kick_ordered(now);
                true
            }
            None => false,
        }
    }
}
