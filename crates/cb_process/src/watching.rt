//! The connections that last.

use crate::places::Guest;
use crate::watch::{Cause, Sight, Watch};
use cb_base::{Fault, Shared, copy_bytes};
use cb_control::{Greeting, Moved, PeerReport, Phase};
use cb_driver::moved_of;
use cb_node::{CloseReason, Link, State};
use cb_wire::{Item, Message};
use std::alloc::Global;
use std::net::SocketAddr;

/// Why the process ends a connection.
#[derive(Clone, Copy)]
pub enum DisconnectReason {
    /// It is late.
    Late(Cause),
    /// A new peer takes its place.
    GaveWay,
    /// The operator ends the connection to an address that is dialled.
    Disconnected,
    /// The operator has the node have no connections.
    NetworkOff,
}

impl DisconnectReason {
    /// Its name in the log.
    fn name(self) -> &'static str {
        match self {
            DisconnectReason::Late(cause) => cause.name(),
            DisconnectReason::GaveWay => "GaveWay",
            DisconnectReason::Disconnected => "Disconnected",
            DisconnectReason::NetworkOff => "NetworkOff",
        }
    }
}

/// A connection that lasts.
#[derive(Drop)]
pub struct Watched {
    /// Its slot.
    pub slot: u16,
    /// Whether the peer connected to the node.
    pub inbound: bool,
    /// Where the peer is.
    pub address: SocketAddr,
    /// What its threads share with the node.
    pub link: Shared<Link>,
    /// When it was made, in seconds since 1970.
    pub made: i64,
    /// How it stands with its peer's silence.
    pub watch: Watch,
    /// Why the process ends it, if it does.
    pub ending: Option<DisconnectReason>,
    /// Whether it was kicked for that.
    pub kicked: bool,
}

impl Watched {
    /// Why its session is over; `None` if it goes on.
    pub fn ended(&self) -> Option<CloseReason> {
        match self.link.status.state() {
            State::Closed(reason) => Some(reason),
            State::Start | State::Greeted | State::Ready => None,
        }
    }

    /// Why its session is over, in the words of the log: where it ended since it was kicked, why it
    /// was.
    pub fn end_name(&self, reason: CloseReason) -> &'static str {
        match self.ending {
            Some(ending) if reason == CloseReason::Kicked => ending.name(),
            _ => reason.name(),
        }
    }

    /// Notes what its threads tell of it now.
    pub fn note(&mut self, now: u64) {
        let status = &self.link.status;
        let totals = status.totals();
        let at_once = totals.full.wrapping_add(totals.compact);
        let behind = totals.completed.wrapping_add(totals.fallback);
        let sight = Sight {
            ready: status.state() == State::Ready,
            messages: totals.messages,
            blocks: at_once.wrapping_add(behind),
            flight: status.flight(),
            pongs: status.pongs(),
            unknown: status.seeks(),
        };
        self.watch.note(sight, now);
    }

    /// Asks its peer for a `pong`, if its session is in Ready. Returns whether it is.
    pub fn ask(&mut self, now: u64) -> bool {
        if self.link.status.state() != State::Ready {
            return false;
        }
        self.watch.probe(now);
        self.link.status.set_probe();
        true
    }

    /// It is to be ended for this, unless it is to be ended for something else already.
    pub fn order(&mut self, ending: DisconnectReason) {
        if self.ending.is_none() {
            self.ending = Some(ending);
        }
    }

    /// Whether it is to be ended and wasn't kicked yet. One whose session is over isn't kicked:
    /// another connection may have its slot already.
    pub fn is_ordered(&self) -> bool {
        self.ending.is_some() && !self.kicked && self.ended().is_none()
    }

    /// It, as far as it matters whether it gives its place away. One that is to be ended or is over
    /// has none to give, as one that the node dialled.
    pub fn guest(&self) -> Guest {
        Guest {
            inbound: self.inbound && self.ending.is_none() && self.ended().is_none(),
            quiet_since: self.watch.silent_since(),
            blocks: self.watch.latest.blocks,
        }
    }

    /// What it moved so far.
    pub fn moved(&self) -> Moved {
        moved_of(&self.link.status.totals())
    }

    /// What an operator is told of it. Fails only with `Fault::Memory`.
    pub fn report(&self, alloc: Global) -> Result<PeerReport, Fault> {
        Ok(PeerReport {
            slot: self.slot,
            generation: self.link.generation,
            inbound: self.inbound,
            address: self.address,
            phase: phase_of(self.link.status.state()),
            moved: self.moved(),
            since: self.made,
            last: self.last_heard(),
            pong: self.watch.pong,
            greeting: greeting_of(alloc, self.link.status.greeting())?,
        })
    }

    /// When its latest whole message came, in seconds since 1970, if one came.
    fn last_heard(&self) -> Option<i64> {
        let passed = self.watch.heard?.saturating_sub(self.watch.made) / 1_000;
        Some(
            self.made
                .saturating_add(i64::try_from(passed).unwrap_or(i64::MAX)),
        )
    }
}

/// How far a session is.
fn phase_of(state: State) -> Phase {
    match state {
        State::Start => Phase::Start,
        State::Greeted => Phase::Greeted,
        State::Ready => Phase::Ready,
        State::Closed(_) => Phase::Over,
    }
}

/// What a peer's first `version` tells of it, if one came. Fails only with `Fault::Memory`.
fn greeting_of(alloc: Global, item: Option<&Item>) -> Result<Option<Greeting>, Fault> {
    let Some(Item::Good(message)) = item else {
        return Ok(None);
    };
    let Message::Version(version) = message.message() else {
        return Ok(None);
    };
    Ok(Some(Greeting {
        version: version.version,
        height: version.height,
        agent: copy_bytes(alloc, version.agent.as_slice())?,
    }))
}
