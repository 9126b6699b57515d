ghost use Rattle.std.specs.Prelude.{◌≡◌};

use cb_base::Fault;
use cb_service::ThreadFault;
use std::alloc::AllocError;
use std::io::{self, ErrorKind};
use thiserror::Error;

/// Why a node refuses a call.
#[derive(Clone, Copy, Debug, PartialEq, Eq, Error)]
pub enum NodeFault {
    /// A socket failed, and this is the kind of its failure: `NotConnected` if none listens. Or no
    /// thread could be started: `Other`.
    #[error("a socket or a thread failed")]
    Io(ErrorKind),
    /// No slot is free, or the node doesn't have the slot.
    #[error("no slot")]
    NoSlot,
    /// The hall refused: what Bitcoin Core keeps in ChainstateManager and CTxMemPool.
    #[error("the hall refused: F{} {}", .0.number(), .0.name())]
    Hall(Fault),
    /// Memory ran out.
    #[error("memory ran out")]
    Memory,
}

impl From<io::Error> for NodeFault {
    ghost use Rattle.std.specs.IoError.{error_kind};
    ghost use Rattle.cb_node.specs.declared.fault.NodeFault.TheVariants.{Io};

    ghost from_gives = { λ error fault. fault ≡ Io (error_kind error) };

    fn from(error: io::Error) -> NodeFault {
        NodeFault::Io(error.kind())
    }
}

impl From<AllocError> for NodeFault {
    ghost use Rattle.cb_node.specs.declared.fault.NodeFault.TheVariants.{Memory};

    ghost from_gives = { λ _ fault. fault ≡ Memory };

    fn from(_error: AllocError) -> NodeFault {
        NodeFault::Memory
    }
}

impl From<Fault> for NodeFault {
    ghost use Rattle.cb_node.specs.Fault.{node_fault};

    ghost from_gives = { λ fault told. told ≡ node_fault fault };

    fn from(fault: Fault) -> NodeFault {
        match fault {
            Fault::Memory => NodeFault::Memory,
            other => NodeFault::Hall(other),
        }
    }
}

impl From<ThreadFault> for NodeFault {
    ghost use Rattle.std.specs.Prelude.{◌⊎◌};
    ghost use Rattle.std.specs.declared.io.ErrorKind.TheVariants.{Other};
    ghost use Rattle.cb_node.specs.declared.fault.NodeFault.TheVariants.{Io, Memory};

    ghost from_gives = { λ _ fault. (fault ≡ Io Other) ⊎ (fault ≡ Memory) };

    fn from(refusal: ThreadFault) -> NodeFault {
        match refusal {
            ThreadFault::Memory => NodeFault::Memory,
            ThreadFault::Thread => NodeFault::Io(ErrorKind::Other),
        }
    }
}
