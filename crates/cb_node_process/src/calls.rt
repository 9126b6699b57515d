//! The calls of JSON-RPC that a process answers.
use crate::calling::answer_call;
use crate::survey::Survey;
use cb_base::Shared;
use cb_pipes::Pipes;
use cb_process::{Process, ProcessHost, StartFault};
use cb_rpc_call::Call;
use cb_rpc_serve::{Asked, RpcSettings, Server};
use log::{Log, info};
use std::alloc::Global;
use std::time::Duration;

/// How many calls are answered between two lines at most.
const MOST_ANSWERED: u32 = 64;

/// Who takes calls, and what is kept between two of them.
#[derive(Drop)]
pub struct Calls {
    server: Server,
    survey: Survey,
    /// How many nodes the process had before the one that the survey is of.
    restarts: u64,
    /// Whether a call asked for the end.
    stops: bool,
}

impl Calls {
    /// Starts to take calls for this process. If that fails no thread runs for it.
    pub fn start<R: ProcessHost, L: Log>(
        rt: R,
        alloc: Global,
        process: &Process<R>,
        settings: &RpcSettings,
        log: &L,
    ) -> Result<Calls, StartFault> {
        let server = Server::start(rt, alloc, settings)?;
        let address = server.address();
        info!(log; "JSON-RPC at {address}");
        Ok(Calls {
            server,
            survey: Survey::new(alloc, process.seed()),
            restarts: process.restarts(),
            stops: false,
        })
    }

    /// Whether a call asked for the end.
    pub fn stops(&self) -> bool {
        self.stops
    }

    /// Answers the calls that wait, at most 64. None is answered behind one that asks for the end.
    pub fn answer_waiting<R: ProcessHost, L: Log>(
        &mut self,
        rt: &R,
        process: &mut Process<R>,
        pipes: &Shared<Pipes>,
        log: &L,
    ) {
        for _ in 0..MOST_ANSWERED {
            if self.stops || !self.answer_next(rt, process, pipes, log, Duration::ZERO) {
                return;
            }
        }
    }

    /// Waits so long for a call, and answers it. Returns whether one came.
    pub fn answer_next<R: ProcessHost, L: Log>(
        &mut self,
        rt: &R,
        process: &mut Process<R>,
        pipes: &Shared<Pipes>,
        log: &L,
        pause: Duration,
    ) -> bool {
        let Some(asked) = self.server.next(rt, pause) else {
            return false;
        };
        let Asked { worker, call } = asked;
        if let Call::Stop = &call {
            self.stops = true;
            pipes.ask_end();
        }
        self.follow(process);
        let told = answer_call(process, &mut self.survey, call, pipes, log);
        self.server.answer(rt, worker, told);
        true
    }

    /// Takes no calls any more, and waits for the threads that took them.
    pub fn end<R: ProcessHost>(self, rt: &R) {
        let Calls { server, survey, .. } = self;
        drop(survey);
        server.end(rt);
    }

    /// Begins the survey anew if the process has another node.
    fn follow<R: ProcessHost>(&mut self, process: &Process<R>) {
        if self.restarts != process.restarts() {
            self.restarts = process.restarts();
            self.survey = Survey::new(process.alloc(), process.seed());
        }
    }
}
