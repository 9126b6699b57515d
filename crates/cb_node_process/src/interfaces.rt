//! Where calls and lines come to a process.
ghost use Rattle.std.specs.Prelude.{◌≡◌, ◌⊎◌, IfErr, IfOk};
ghost use Rattle.cb_control.specs.declared.ending.Halt.TheVariants.{Memory, ReadFailed};

use crate::calls::Calls;
use crate::reading::{LineQueue, start_reading};
use cb_base::Shared;
use cb_control::Halt;
use cb_pipes::Pipes;
use cb_process::{NodeOrders, Process, ProcessHost, StartFault};
use log::Log;
use std::alloc::Global;

/// What comes to a process.
#[derive(Drop)]
pub struct Interfaces {
    /// The calls, if it takes some.
    pub calls: Option<Calls>,
    /// The lines, if it reads some.
    pub arrivals: Option<LineQueue>,
}

impl Interfaces {
    /// Starts what takes calls and lines, as the orders say. Fails if calls can't be taken; the
    /// inner result fails if lines can't.
    pub fn open<R: ProcessHost, L: Log>(
        rt: R,
        alloc: Global,
        process: &Process<R>,
        orders: &NodeOrders,
        pipes: &Shared<Pipes>,
        log: &L,
    ) -> Result<Result<Interfaces, Halt>, StartFault>
        ensures { IfOk result
            (λ interfaces. IfErr interfaces (λ halt. (halt ≡ Memory) ⊎ (halt ≡ ReadFailed))) }
    {
        let calls = match &orders.rpc {
            Some(settings) => Some(Calls::start(rt, alloc, process, settings, log)?),
            None => None,
        };
        if !orders.reads_input {
            return Ok(Ok(Interfaces {
                calls,
                arrivals: None,
            }));
        }
        match start_reading(&rt, alloc, pipes) {
            Ok(arrivals) => Ok(Ok(Interfaces {
                calls,
                arrivals: Some(arrivals),
            })),
            Err(halt) => {
                end_calls(&rt, calls);
                Ok(Err(halt))
            }
        }
    }

    /// Takes nothing any more. If the process served to its end, the thread that reads lines is
    /// waited for, but not behind a call that asked for the end: it may still wait for a line then.
    pub fn close<R: ProcessHost>(self, rt: &R, served: bool) {
        let joins = served && !self.stops();
        let Interfaces { calls, arrivals } = self;
        end_calls(rt, calls);
        end_lines(rt, arrivals, joins);
    }

    /// Whether a call asked for the end.
    fn stops(&self) -> bool {
        match &self.calls {
            Some(calls) => calls.stops(),
            None => false,
        }
    }
}

/// Takes no calls any more.
fn end_calls<R: ProcessHost>(rt: &R, calls: Option<Calls>) {
    if let Some(calls) = calls {
        calls.end(rt);
    }
}

/// Takes no lines any more. Waits for the thread that reads them if `joins` is set.
fn end_lines<R: ProcessHost>(rt: &R, arrivals: Option<LineQueue>, joins: bool) {
    if joins {
        if let Some(arrivals) = arrivals {
            arrivals.join(rt);
        }
    } else {
        drop(arrivals);
    }
}
