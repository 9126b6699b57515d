//! Why a node, or its server of calls, can't be started.
ghost use Rattle.std.specs.Prelude.{◌≡◌};
ghost use Rattle.cb_rpc_serve.specs.Starting.{cause_text, fault_of_kind};

use std::alloc::AllocError;
use std::io::{self, ErrorKind};

/// Why a node, or its server of calls, can't be started.
#[derive(Clone, Copy)]
pub enum StartFault {
    /// Memory ran out.
    Memory,
    /// Somebody listens at this port already.
    PortInUse,
    /// The address is none of this machine's.
    NotOurs,
    /// The process may not listen there.
    NotAllowed,
    /// A socket or a thread couldn't be made, or there are no random bytes.
    NoMeans,
}

impl StartFault {
    /// Why, by the kind of the failure of a socket.
    pub fn of_kind(kind: ErrorKind) -> StartFault
        ensures { result ≡ fault_of_kind kind }
    {
        match kind {
            ErrorKind::AddrInUse => StartFault::PortInUse,
            ErrorKind::AddrNotAvailable => StartFault::NotOurs,
            ErrorKind::PermissionDenied => StartFault::NotAllowed,
            ErrorKind::OutOfMemory => StartFault::Memory,
            _ => StartFault::NoMeans,
        }
    }

    /// The cause, in words for an operator.
    pub fn cause(self) -> &'static str
        ensures { result.now ≡ cause_text self }
    {
        match self {
            StartFault::Memory => "memory ran out",
            StartFault::PortInUse => "the port is in use",
            StartFault::NotOurs => "the address isn't this machine's",
            StartFault::NotAllowed => "it isn't allowed",
            StartFault::NoMeans => "no socket or no thread can be made",
        }
    }
}

impl From<AllocError> for StartFault {
    fn from(_error: AllocError) -> StartFault {
        StartFault::Memory
    }
}

impl From<io::Error> for StartFault {
    fn from(error: io::Error) -> StartFault {
        StartFault::of_kind(error.kind())
    }
}
