use cb_base::Fault;
use std::alloc::AllocError;

/// Why a thread wasn't started.
#[derive(Clone, Copy)]
pub enum ThreadFault {
    /// Memory ran out.
    Memory,
    /// A thread couldn't be started.
    Thread,
}

impl From<Fault> for ThreadFault {
    /// Making what threads share fails only for lack of memory.
    fn from(_fault: Fault) -> ThreadFault {
        ThreadFault::Memory
    }
}

impl From<AllocError> for ThreadFault {
    fn from(_error: AllocError) -> ThreadFault {
        ThreadFault::Memory
    }
}
