//! The list of the addresses that a process dials.
ghost use Rattle.std.specs.Prelude.{◌<◌, length, IfSome};

use crate::dialling::Target;
use crate::host::ProcessHost;
use std::alloc::{AllocError, Global};
use std::net::SocketAddr;

/// How often an address is dialled.
#[derive(Clone, Copy, PartialEq, Eq)]
pub(crate) enum DialKind {
    /// Again whenever its connection ends.
    Lasting,
    /// Once.
    Once,
    /// No more, though a thread may still dial it.
    Undone,
}

/// An address that a process dials.
#[derive(Drop)]
pub(crate) struct Dial {
    /// The address, how it stands with it, and when it is dialled again.
    pub target: Target,
    pub kind: DialKind,
}

impl Dial {
    /// An address that is due to be dialled.
    pub fn new(address: SocketAddr, kind: DialKind, keeps_trying: bool) -> Dial {
        Dial {
            target: Target::new(address, keeps_trying),
            kind,
        }
    }

    /// Whether it is of this kind and has this address.
    fn is_of(&self, kind: DialKind, address: SocketAddr) -> bool {
        self.kind == kind && self.target.address == address
    }

    /// Whether its address is one of these, which are dialled from the start, and was never
    /// reached.
    pub fn is_missed(&self, starts: &[SocketAddr]) -> bool {
        self.kind == DialKind::Lasting
            && !self.target.reached
            && self.target.keeps_trying
            && starts.contains(&self.target.address)
    }
}

/// The dials of addresses that are dialled from the start. Fails only for lack of memory.
pub(crate) fn dials_of(alloc: Global, targets: Vec<Target>) -> Result<Vec<Dial>, AllocError> {
    let mut dials = Vec::with_capacity(alloc, targets.len())?;
    for target in targets {
        dials.push(Dial {
            target,
            kind: DialKind::Lasting,
        })?;
    }
    Ok(dials)
}

/// The place of the first of these dials that is of this kind and has this address.
pub(crate) fn place_of(dials: &[Dial], kind: DialKind, address: SocketAddr) -> Option<usize>
    ensures { IfSome result (λ place. place < length dials.now) }
{
    dials.iter().position(|dial| dial.is_of(kind, address))
}

/// Waits for the dials that are under way, at most a few seconds. What they connected is closed.
pub(crate) fn end_dials<R: ProcessHost>(rt: &R, dials: &mut [Dial]) {
    for dial in dials {
        drop(dial.target.take_stream(rt, 0));
    }
}
