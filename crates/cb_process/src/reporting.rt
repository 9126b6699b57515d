//! What a process tells of its connections.
use crate::host::ProcessHost;
use crate::process::Process;
use cb_base::Fault;
use cb_control::{Moved, PeerReport, StatsReport};

impl<R: ProcessHost> Process<R> {
    /// What is told of each connection that lasts. Fails only with `Fault::Memory`.
    pub fn peer_reports(&self) -> Result<Vec<PeerReport>, Fault> {
        let mut peers = Vec::with_capacity(self.alloc, self.watched.len())?;
        for watched in self.watched.as_slice() {
            peers.push(watched.report(self.alloc)?)?;
        }
        Ok(peers)
    }

    /// What an operator is told of all connections.
    pub fn stats(&mut self) -> StatsReport {
        let seconds = self.now() / 1_000;
        StatsReport {
            seconds,
            lasting: self.watched.len() as u64,
            all: self.connections,
            moved: self.moved_in_all(),
            refused: self.refused,
        }
    }

    /// What all connections moved.
    pub fn moved_in_all(&self) -> Moved {
        let mut moved = self.moved;
        for watched in self.watched.as_slice() {
            moved = moved.with(watched.moved());
        }
        moved
    }
}
