//! Whose place a new peer takes where all are taken.
ghost use Rattle.std.specs.Prelude.{◌≡◌, ◌+◌, ◌↔◌, ◌∷◌, ◌++◌, [], ◌≤◌, true, List, IsTrue, None, length, IfSome, option_map};
ghost use Rattle.std.specs.List.{All, HoldsAt};
ghost use Rattle.cb_process.specs.Places.{IsChoice, IsLongestQuiet, MayLeave};

/// A connection that was quiet for so many milliseconds may give its place away.
const QUIET_MILLISECONDS: u64 = 60_000;

/// A connection, as far as it matters whether it gives its place away.
#[derive(Clone, Copy)]
pub struct Guest {
    /// Whether the peer connected to the node.
    pub inbound: bool,
    /// Since when the peer is silent, in milliseconds since the process began.
    pub quiet_since: u64,
    /// How many blocks the peer gave.
    pub blocks: u64,
}

impl Guest {
    /// Whether it may give its place away.
    fn may_leave(&self, now: u64) -> bool
        ensures { IsTrue result ↔ MayLeave now self.now }
    {
        self.inbound
            && self.blocks == 0
            && self.quiet_since <= now
            && now - self.quiet_since >= QUIET_MILLISECONDS
    }
}

/// The one that was quiet longest of those that were looked at.
#[derive(Clone, Copy)]
struct Choice {
    place: usize,
    since: u64,
}

/// Which of these gives its place away to a new peer that connects, as its place in the list: of
/// those that connected to the node, gave no block and were quiet for a minute or longer, the one
/// that was quiet longest. `None` if there is no such one.
pub fn who_leaves(guests: &[Guest], now: u64) -> Option<usize>
    ensures longest { IsLongestQuiet guests.now now result }
    ensures never_dialled { IfSome result
        (λ place. HoldsAt (λ guest. guest.inbound ≡ true) guests.now place) }
{
    let mut choice = None;
    for place in 0..guests.len() {
        choice = choose(choice, place, guests[place], now);
    }
    match choice {
        Some(choice) => Some(choice.place),
        None => None,
    }
}

/// The choice after one more.
fn choose(choice: Option<Choice>, place: usize, guest: Guest, now: u64) -> Option<Choice>
    ensures { (before : List Guest) → length before ≡ place → IsChoice before now choice
        → IsChoice (before ++ guest ∷ []) now result }
{
    if !guest.may_leave(now) {
        return choice;
    }
    match choice {
        Some(choice) if choice.since <= guest.quiet_since => Some(choice),
        _ => Some(Choice {
            place,
            since: guest.quiet_since,
        }),
    }
}
