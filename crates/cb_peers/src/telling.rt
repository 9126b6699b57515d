//! Who is told of a new tip at once.
ghost use Rattle.std.specs.Prelude.{IsOkUnless};
ghost use Rattle.cb_base.specs.declared.fault.Fault.TheVariants.{Memory};

use cb_base::{Fault, Shared};
use cb_service::Signals;
use cb_work::{ConnectionStatus, ToldTip, due_places};
use std::alloc::Global;

/// For how many ticks that are due one handler is woken.
pub const TICKS_A_HANDLER: u32 = 64;

/// Connections, and what the peer of each was told of the tip.
#[derive(Drop)]
pub(crate) struct ToldConnections {
    alloc: Global,
    /// As many as there are statuses.
    told: Vec<ToldTip>,
    statuses: Vec<Shared<ConnectionStatus>>,
}

impl ToldConnections {
    /// No connection.
    pub fn new(alloc: Global) -> ToldConnections {
        ToldConnections {
            alloc,
            told: Vec::new(alloc),
            statuses: Vec::new(alloc),
        }
    }

    /// One more connection. Fails only with `Fault::Memory`.
    pub fn add(&mut self, status: &Shared<ConnectionStatus>) -> Result<(), Fault>
        ensures memory { IsOkUnless result Memory }
    {
        self.told.push(status.told())?;
        self.statuses.push(status.clone()?)?;
        Ok(())
    }

    /// Makes a tick due of each connection whose peer is to be told of this tip now (`due_places`),
    /// in that order. One that is due already is passed over. Handlers are woken once for those
    /// whose peers want compact blocks unasked, and once for each 64.
    ///
    /// Fails only with `Fault::Memory`. No tick is due then.
    pub fn tick(&self, signals: &Signals, tip: u64) -> Result<(), Fault>
        ensures memory { IsOkUnless result Memory }
    {
        let places = due_places(self.alloc, tip, self.told.as_slice())?;
        let mut due = 0u32;
        let mut before = false;
        for place in places.as_slice() {
            let (Some(told), Some(status)) = (self.told.get(*place), self.statuses.get(*place))
            else {
                continue;
            };
            if due >= TICKS_A_HANDLER || (before && !told.high) {
                ring(signals, due);
                due = 0;
            }
            before = told.high;
            if status.add_tick() {
                due = due.saturating_add(1);
            }
        }
        ring(signals, due);
        Ok(())
    }
}

/// Wakes a handler if ticks are due.
fn ring(signals: &Signals, due: u32) {
    if due > 0 {
        signals.ring();
    }
}
