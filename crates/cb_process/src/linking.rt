//! Links that an operator makes and undoes.
ghost use Rattle.std.specs.Prelude.{◌≢◌, IfErr};
ghost use Rattle.cb_control.specs.declared.refusal.Refusal.TheVariants.{Unreadable};

use crate::dials::{Dial, DialKind, place_of};
use crate::host::ProcessHost;
use crate::own_address::is_own;
use crate::process::Process;
use crate::watching::DisconnectReason;
use cb_control::Refusal;
use std::net::SocketAddr;

impl<R: ProcessHost> Process<R> {
    /// Lets an operator wait for the first dial of an address. Refused as `add` is.
    pub fn connect(&mut self, address: SocketAddr) -> Result<(), Refusal>
        ensures { IfErr result (λ refusal. refusal ≢ Unreadable) }
    {
        self.aim(address, false)?;
        self.awaited = Some(address);
        Ok(())
    }

    /// Has an address dialled until it is reached, and again whenever the connection ends. Refused
    /// if it is the node's own or dialled already, or no outbound slot is free.
    pub fn add(&mut self, address: SocketAddr) -> Result<(), Refusal>
        ensures { IfErr result (λ refusal. refusal ≢ Unreadable) }
    {
        self.aim(address, true)
    }

    /// Has an address dialled once. Refused as `add` is.
    #[tactic(auto, using(crate::proofs::Refusing::already_is_known))]
    pub fn try_once(&mut self, address: SocketAddr) -> Result<(), Refusal>
        ensures { IfErr result (λ refusal. refusal ≢ Unreadable) }
    {
        self.can_dial(address)?;
        if self.is_dialled(DialKind::Once, address) {
            return Err(Refusal::Already);
        }
        self.push(Dial::new(address, DialKind::Once, false))
    }

    /// Has an address dialled. If `keeps_trying` is set, it is dialled again until it is reached.
    fn aim(&mut self, address: SocketAddr, keeps_trying: bool) -> Result<(), Refusal>
        ensures { IfErr result (λ refusal. refusal ≢ Unreadable) }
    {
        self.can_dial(address)?;
        self.push(Dial::new(address, DialKind::Lasting, keeps_trying))
    }

    /// Adds a dial. Fails only with `Refusal::Memory`.
    #[tactic(auto, using(crate::proofs::Refusing::memory_is_known))]
    fn push(&mut self, dial: Dial) -> Result<(), Refusal>
        ensures { IfErr result (λ refusal. refusal ≢ Unreadable) }
    {
        if self.dials.push(dial).is_err() {
            return Err(Refusal::Memory);
        }
        Ok(())
    }

    /// Whether there is a dial of this kind with this address.
    fn is_dialled(&self, kind: DialKind, address: SocketAddr) -> bool {
        place_of(self.dials.as_slice(), kind, address).is_some()
    }

    /// Fails with why an address isn't dialled.
    #[tactic(auto, using(crate::proofs::Refusing::no_slot_is_known, crate::proofs::Refusing::already_is_known, crate::proofs::Refusing::own_is_known, crate::proofs::Refusing::off_is_known))]
    fn can_dial(&self, address: SocketAddr) -> Result<(), Refusal>
        ensures { IfErr result (λ refusal. refusal ≢ Unreadable) }
    {
        if self.off {
            return Err(Refusal::Off);
        }
        if is_own(self.address, address) {
            return Err(Refusal::Own);
        }
        if self.is_dialled(DialKind::Lasting, address) {
            return Err(Refusal::Already);
        }
        if !self.node.can_connect() {
            return Err(Refusal::NoSlot);
        }
        Ok(())
    }

    /// Ends the connection to an address that is dialled, and dials it no more. An operator who
    /// waits for its first dial is told so. Refused if it isn't dialled; nothing was done then.
    #[tactic(auto, using(crate::proofs::Refusing::not_dialled_is_known))]
    pub fn disconnect(&mut self, address: SocketAddr) -> Result<(), Refusal>
        ensures { IfErr result (λ refusal. refusal ≢ Unreadable) }
    {
        let Some(place) = place_of(self.dials.as_slice(), DialKind::Lasting, address) else {
            return Err(Refusal::NotDialled);
        };
        self.dials[place].kind = DialKind::Undone;
        let target = &self.dials[place].target;
        for watched in self.watched.as_mut_slice() {
            if target.lasts_in(watched.slot, watched.watch.made) {
                watched.order(DisconnectReason::Disconnected);
            }
        }
        self.tell(address, Err(Refusal::NotDialled));
        Ok(())
    }

    /// Lets go of the addresses that aren't dialled any more, once no thread dials them. What those
    /// connected is closed.
    pub fn end_undone(&mut self, now: u64) {
        for place in (0..self.dials.len()).rev() {
            let Some(dial) = self.dials.get_mut(place) else {
                return;
            };
            let target = &mut dial.target;
            if dial.kind == DialKind::Undone && (!target.is_dialled() || target.has_dialled()) {
                drop(target.take_stream(&self.rt, now));
                drop(self.dials.remove(place));
            }
        }
    }

    /// Whether the node may have connections. Where it may not, all are ended, none is let in and
    /// nothing is dialled; where it may again, each address is due to be dialled. An operator who
    /// waits for the first dial of an address is told that it isn't dialled.
    pub fn switch(&mut self, on: bool) {
        self.off = !on;
        if on {
            for dial in self.dials.as_mut_slice() {
                if dial.kind == DialKind::Lasting {
                    dial.target.hurry();
                }
            }
        } else if let Some(address) = self.awaited {
            self.tell(address, Err(Refusal::Off));
            let _ = self.disconnect(address);
        }
    }
}
