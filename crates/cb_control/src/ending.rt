//! How a run of the program ends.

ghost use Rattle.std.specs.Prelude.{◌≡◌};

use cb_base::Fault;
use std::alloc::{AllocError, AllocFailed};

/// The exit statuses of the program, 0 to 4.
#[derive(Clone, Copy, PartialEq, Eq)]
pub enum Status {
    /// 0: all was done.
    Success,
    /// 1: the command line was refused, or asked for help or the version.
    Usage,
    /// 2: an act was refused (`sim`).
    Refused,
    /// 3: the input has a fault, or too many lines, or a read or a write failed, or an audit
    /// failed. For `serve`: the session closed for another reason than `Bye` or `Memory`.
    RunFailed,
    /// 4: an allocation failed.
    NoMemory,
}

impl Status {
    ghost use Rattle.cb_control.specs.Ending.{status_code};

    /// The exit status as a number.
    pub fn code(self) -> u8
        ensures { result ≡ status_code self }
    {
        match self {
            Status::Success => 0,
            Status::Usage => 1,
            Status::Refused => 2,
            Status::RunFailed => 3,
            Status::NoMemory => 4,
        }
    }
}

/// Why a run stops early.
#[derive(Clone, Copy, PartialEq, Eq)]
pub enum Halt {
    /// An allocation failed.
    Memory,
    /// The input has 2^64 - 2 lines or more.
    TooManyLines,
    /// A read failed.
    ReadFailed,
    /// A write failed, or took no byte.
    WriteFailed,
}

impl Halt {
    ghost use Rattle.cb_base.specs.declared.fault.Fault.TheVariants as faults;
    ghost use Rattle.cb_control.specs.Ending.{halt_status, halt_line};

    /// The halt of a call that failed with `Fault::Memory`, which is the only fault it accepts.
    pub fn of_memory(fault: Fault) -> Halt
        requires { fault ≡ faults.Memory }
        ensures { result ≡ Halt.Memory }
    {
        match fault {
            Fault::Memory => Halt::Memory,
            _ => unreachable!(),
        }
    }

    /// The exit status of the run: `NoMemory` for `Memory`, else `RunFailed`.
    pub fn status(self) -> Status
        ensures { result ≡ halt_status self }
    {
        match self {
            Halt::Memory => Status::NoMemory,
            Halt::TooManyLines | Halt::ReadFailed | Halt::WriteFailed => Status::RunFailed,
        }
    }

    /// The line for standard error. It is empty if memory ran out: only the exit status tells that.
    pub fn line(self) -> &'static str
        ensures { result.now ≡ halt_line self }
    {
        match self {
            Halt::Memory => "",
            Halt::TooManyLines => "too many lines\n",
            Halt::ReadFailed => "read failed\n",
            Halt::WriteFailed => "write failed\n",
        }
    }
}

impl From<AllocError> for Halt {
    ghost use Rattle.cb_control.specs.declared.ending.Halt.TheVariants.{Memory};

    ghost from_gives = { λ _ halt. halt ≡ Memory };

    fn from(_error: AllocError) -> Halt {
        Halt::Memory
    }
}

impl<T: Drop> From<AllocFailed<T>> for Halt {
    ghost use Rattle.cb_control.specs.declared.ending.Halt.TheVariants.{Memory};

    ghost from_gives = { λ _ halt. halt ≡ Memory };

    fn from(_error: AllocFailed<T>) -> Halt {
        Halt::Memory
    }
}
