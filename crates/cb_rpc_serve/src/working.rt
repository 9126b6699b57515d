//! Threads that serve one connection after another.
use crate::conversing::converse;
use crate::request_handler::RequestHandler;
use crate::server_state::ServerState;
use cb_control::Host;
use crossbeam_channel::Sender;
use std::alloc::Global;
use std::random::RandomSource;
use std::sync::{Arc, Wait};
use std::thread;
use std::thread::JoinHandle;
use std::time::{Clock, Duration};

/// How many milliseconds pass before a connection is taken again after none could be.
const PAUSE_MILLISECONDS: u64 = 50;

/// What a worker has.
#[derive(Drop)]
pub struct Worker<R: Wait + Clock + Drop> {
    /// What all share.
    pub state: Arc<ServerState, Global>,
    /// What serves its connections.
    pub handler: RequestHandler<R>,
    /// Goes once the worker is about to return.
    pub over: Sender<(), Global>,
}

/// Starts a worker. `None` if no thread can be made.
pub fn start_worker<R: Host>(rt: &R, alloc: Global, worker: Worker<R>) -> Option<JoinHandle<()>> {
    let rt_of_thread = *rt;
    let started = thread::spawn(rt, move || {
        let (rt, worker) = (rt_of_thread, worker);
        work(&rt, alloc, worker);
    });
    match started {
        Ok(thread) => Some(thread),
        Err(refused) => {
            drop(refused);
            None
        }
    }
}

/// Serves one connection after another, until the server ends.
fn work<R: Wait + Clock + RandomSource + Drop>(rt: &R, alloc: Global, worker: Worker<R>) {
    let Worker {
        state,
        mut handler,
        over,
    } = worker;
    for _ in rt.forever() {
        if state.is_ending() {
            break;
        }
        serve_next(rt, alloc, &state, &mut handler);
    }
    drop(over);
}

/// Waits for a connection, and serves it.
fn serve_next<R: Wait + Clock + RandomSource + Drop>(
    rt: &R,
    alloc: Global,
    state: &ServerState,
    handler: &mut RequestHandler<R>,
) {
    let accepted = state.listener.accept();
    if state.is_ending() {
        return;
    }
    match accepted {
        // A connection that fails is over, and concerns nobody else.
        Ok((stream, _)) => drop(converse(rt, alloc, state, handler, &stream)),
        Err(_) => thread::sleep(rt, Duration::from_millis(PAUSE_MILLISECONDS)),
    }
}
