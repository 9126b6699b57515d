//! How much may wait in all outboxes of a node together.
ghost use Rattle.std.specs.Prelude.{◌≡◌, ◌↔◌, ◌+◌, ◌-◌, ◌≤◌, true, false};
ghost use Rattle.cb_peer_state.specs.Room.{HasRoom};

use std::marker::Model;

/// How many bytes the outboxes hold at most.
const MOST: u64 = 256_000_000;

/// Up to so many it doesn't matter how much one of them holds.
const CALM: u64 = 128_000_000;

/// Up to so many an outbox holds where all hold more than that.
const SHARE: u64 = 2_000_000;

/// The room of all outboxes of a node. Contracts see how many bytes they hold, 256,000,000 at most.
#[derive(Drop)]
pub struct Room {
    used: u64,
}

impl Model for Room {
    ghost use Rattle.std.specs.Prelude.{ℕ, ◌≤◌};

    ghost Value = { ℕ };

    ghost view = { λ room. room.used };

    ghost invariant = { λ room. room.used ≤ 256000000 };
}

impl Room {
    /// The room of outboxes that hold nothing.
    pub fn new() -> Room
        ensures { result ≡ 0 }
    {
        Room { used: 0 }
    }

    /// Takes room for so many bytes more in an outbox that holds so many. Returns whether there is
    /// so much. Once the outboxes hold more than half of what they may, an outbox takes up to
    /// 2,000,000: so a few don't take it from all others.
    pub fn take(&mut self, held: u64, more: u64) -> bool
        requires { (held ≤ 256000000) × (more ≤ 256000000) }
        ensures taken { (result ≡ true) ↔ HasRoom self.old held more }
        ensures more { result ≡ true → self.new ≡ self.old + more }
        ensures same { result ≡ false → self.new ≡ self.old }
    {
        let used = self.used + more;
        if used > CALM && (used > MOST || held + more > SHARE) {
            return false;
        }
        self.used = used;
        true
    }

    /// Gives room for so many bytes back.
    pub fn give(&mut self, less: u64)
        ensures { self.new ≡ self.old - less }
    {
        self.used = self.used.saturating_sub(less);
    }
}
