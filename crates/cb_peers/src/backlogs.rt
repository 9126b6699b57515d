ghost use Rattle.std.specs.Prelude.{IsOkUnless};
ghost use Rattle.cb_base.specs.declared.fault.Fault.TheVariants.{Memory};

use cb_base::Fault;
use cb_crew::TurnOutcome;
use std::alloc::Global;
use std::sync::atomic::{AtomicU64, Ordering};

/// What lies queued of one peer's earlier connections.
#[derive(Drop)]
struct Backlog {
    /// How many marks handlers took from the peer's inbox, over all connections.
    taken: AtomicU64,
    /// How many payload bytes lay queued when the latest connection but one was left, at most.
    left: AtomicU64,
}

/// What lies queued of the earlier connections of each peer.
///
/// A connection's own status counts the payload bytes that lie queued of it. What came to a closed
/// session is passed over, and isn't taken off there. So a peer that connects again and again could
/// have more queued than one connection's status tells. Its reader adds what its earlier
/// connections left, until a handler has taken the mark that opened the latest one.
///
/// No clause speaks of these numbers, since other threads change them.
#[derive(Drop)]
pub struct Backlogs {
    peers: Vec<Backlog>,
}

impl Backlogs {
    /// The backlogs of so many peers, from whose inboxes nothing was taken. Fails only with
    /// `Fault::Memory`.
    pub fn new(alloc: Global, peers: u16) -> Result<Backlogs, Fault>
        ensures { IsOkUnless result Memory }
    {
        let mut all = Vec::with_capacity(alloc, usize::from(peers))?;
        for _ in 0..peers {
            all.push(Backlog {
                taken: AtomicU64::new(0),
                left: AtomicU64::new(0),
            })?;
        }
        Ok(Backlogs { peers: all })
    }

    /// Counts the marks that a handler took in this turn.
    pub fn count(&self, turn: TurnOutcome) {
        let TurnOutcome::Served(peer, worked, passed) = turn else {
            return;
        };
        if let Some(backlog) = self.peers.get(usize::from(peer)) {
            let marks = u64::from(worked).saturating_add(u64::from(passed));
            backlog.taken.fetch_add(marks, Ordering::SeqCst);
        }
    }

    /// How many payload bytes lie queued of a peer's earlier connections, at most. `first` is how
    /// many marks were queued before anything of its latest connection. Once all these were taken,
    /// it is 0.
    pub fn earlier(&self, peer: u16, first: u64) -> u64 {
        match self.peers.get(usize::from(peer)) {
            Some(backlog) if backlog.taken.load(Ordering::SeqCst) < first => {
                backlog.left.load(Ordering::SeqCst)
            }
            _ => 0,
        }
    }

    /// Notes how many payload bytes lie queued as a peer's latest connection is left.
    pub fn leave(&self, peer: u16, bytes: u64) {
        if let Some(backlog) = self.peers.get(usize::from(peer)) {
            backlog.left.store(bytes, Ordering::SeqCst);
        }
    }
}
