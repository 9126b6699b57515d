//! Why an order was refused.
ghost use Rattle.std.specs.Prelude.{◌≡◌, Some};
ghost use Rattle.cb_control.specs.Refusals.{refusal_status};

use crate::ending::Status;
use cb_base::Fault;
use std::fmt;

/// Why an order was refused. Nothing was done then, but `Deed::Mine` keeps the blocks that it mined
/// before. Its words are what `Display` writes, as `no slot`, or `F18 Known` for a fault.
#[derive(Clone, Copy)]
pub enum Refusal {
    /// The text gives no order.
    Unreadable,
    /// The node refused the transaction, the block or the call.
    Fault(Fault),
    /// No slot is free, or the node doesn't have the slot, or no connection of it lasts.
    NoSlot,
    /// A socket or a thread failed.
    Io,
    /// The nodes of a script didn't come to one tip.
    NotSettled,
    /// The header of the block isn't known.
    UnknownBlock,
    /// The node connects to this address already.
    Already,
    /// The address leads to the node itself.
    Own,
    /// The node doesn't dial this address.
    NotDialled,
    /// The operator has the node have no connections.
    Off,
    /// Memory ran out.
    Memory,
}

impl Refusal {
    /// The exit status that tells of it.
    pub fn status(self) -> Status
        ensures { result ≡ refusal_status self }
    {
        match self {
            Refusal::Fault(_) => Status::Refused,
            Refusal::Memory => Status::NoMemory,
            _ => Status::RunFailed,
        }
    }
}

impl fmt::Display for Refusal {
    ghost use Rattle.cb_control.specs.Refusals.{refusal_words};

    ghost output = { λ refusal. Some (refusal_words refusal) };

    fn fmt<W: fmt::Write>(&self, f: &mut fmt::Formatter<W>) -> fmt::Result {
        match self {
            Refusal::Unreadable => write!(f, "unreadable"),
            Refusal::Fault(fault) => write!(f, "{fault}"),
            Refusal::NoSlot => write!(f, "no slot"),
            Refusal::Io => write!(f, "io"),
            Refusal::NotSettled => write!(f, "not settled"),
            Refusal::UnknownBlock => write!(f, "unknown block"),
            Refusal::Already => write!(f, "already"),
            Refusal::Own => write!(f, "own address"),
            Refusal::NotDialled => write!(f, "not dialled"),
            Refusal::Off => write!(f, "network off"),
            Refusal::Memory => write!(f, "memory"),
        }
    }
}
