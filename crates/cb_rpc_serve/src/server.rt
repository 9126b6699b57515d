//! A server of calls, as the thread that answers them sees it.
use crate::asked::{Asked, CallChannel, CallOutcome};
use crate::password::Password;
use crate::request_handler::RequestHandler;
use crate::rpc::Rpc;
use crate::server_state::ServerState;
use crate::settings::RpcSettings;
use crate::start_fault::StartFault;
use crate::working::{Worker, start_worker};
use cb_control::Host;
use crossbeam_channel::{Receiver, RecvTimeoutError, Sender, bounded};
use std::alloc::{AllocError, Global};
use std::net::{IpAddr, Ipv4Addr, Ipv6Addr, SocketAddr, TcpListener, TcpStream};
use std::sync::Arc;
use std::thread::JoinHandle;
use std::time::Duration;

/// How many connections are served at once. Others wait to be accepted.
const WORKERS: usize = 16;

/// For how many seconds the end waits for the workers.
const END_SECONDS: u64 = 5;

/// For how many milliseconds a connection that wakes a worker may take.
const WAKE_MILLISECONDS: u64 = 500;

/// A server of calls. Its threads serve JSON-RPC over HTTP, and hand each call to who has the
/// server.
pub struct Server {
    state: Arc<ServerState, Global>,
    address: SocketAddr,
    /// The calls that wait to be answered.
    coming: Receiver<Asked, Global>,
    /// The ways back to the workers.
    backs: Vec<Sender<CallOutcome, Global>>,
    threads: Vec<JoinHandle<()>>,
    /// It has no sender any more once all workers are about to return.
    over: Receiver<(), Global>,
}

impl Drop for Server {
    fn drop(self) {
        let Server {
            state: _,
            address: _,
            coming: _,
            backs: _,
            threads: _,
            over: _,
        } = self;
    }
}

/// What is given to each new worker.
#[derive(Drop)]
struct Ways {
    calls: Sender<Asked, Global>,
    over: Sender<(), Global>,
}

impl Server {
    /// Listens, and starts the threads.
    pub fn start<R: Host>(
        rt: R,
        alloc: Global,
        settings: &RpcSettings,
    ) -> Result<Server, StartFault> {
        if !settings.remote && !settings.address.ip().is_loopback() {
            return Err(StartFault::NotAllowed);
        }
        let listener = TcpListener::bind(&rt, settings.address)?;
        let address = listener.local_addr()?;
        let (mut server, ways) = Server::new(alloc, listener, address)?;
        let started = server.start_all(rt, alloc, settings, &ways);
        drop(ways);
        match started {
            Ok(()) => Ok(server),
            Err(error) => {
                server.end(&rt);
                Err(error)
            }
        }
    }

    /// A server with no thread.
    fn new(
        alloc: Global,
        listener: TcpListener,
        address: SocketAddr,
    ) -> Result<(Server, Ways), AllocError> {
        let state = Arc::new(alloc, ServerState::new(listener))?;
        let (calls, coming) = bounded(alloc, WORKERS)?;
        let (over_sender, over) = bounded(alloc, 1)?;
        let server = Server {
            state,
            address,
            coming,
            backs: Vec::with_capacity(alloc, WORKERS)?,
            threads: Vec::with_capacity(alloc, WORKERS)?,
            over,
        };
        let ways = Ways {
            calls,
            over: over_sender,
        };
        Ok((server, ways))
    }

    /// Starts all workers.
    fn start_all<R: Host>(
        &mut self,
        rt: R,
        alloc: Global,
        settings: &RpcSettings,
        ways: &Ways,
    ) -> Result<(), StartFault> {
        for worker in 0..WORKERS {
            let ready = self.prepare(rt, alloc, settings, ways, worker)?;
            let Some(thread) = start_worker(&rt, alloc, ready) else {
                return Err(StartFault::NoMeans);
            };
            if self.threads.push(thread).is_err() {
                return Err(StartFault::Memory);
            }
        }
        Ok(())
    }

    /// What a worker has.
    fn prepare<R: Host>(
        &mut self,
        rt: R,
        alloc: Global,
        settings: &RpcSettings,
        ways: &Ways,
        worker: usize,
    ) -> Result<Worker<R>, AllocError> {
        let (back, answers) = bounded(alloc, 1)?;
        self.backs.push(back)?;
        let node = CallChannel {
            rt,
            worker,
            calls: ways.calls.clone()?,
            answers,
        };
        let rpc = Rpc {
            alloc,
            node,
            password: Password::new(alloc, settings.user_and_password.as_str())?,
            remote: settings.remote,
        };
        let handler = RequestHandler {
            rt,
            rpc,
            answered: 0,
        };
        Ok(Worker {
            state: Arc::try_clone(&self.state)?,
            handler,
            over: ways.over.clone()?,
        })
    }

    /// Where it listens.
    pub fn address(&self) -> SocketAddr {
        self.address
    }

    /// The next call that waits to be answered. Waits for one at most so long.
    pub fn next<R: Host>(&self, rt: &R, pause: Duration) -> Option<Asked> {
        self.coming.recv_timeout(rt, pause).ok()
    }

    /// Answers the call for which this worker waits.
    pub fn answer<R: Host>(&self, rt: &R, worker: usize, answer: CallOutcome) {
        if let Some(back) = self.backs.get(worker) {
            drop(back.send(rt, answer));
        }
    }

    /// Ends all connections and threads. Calls that wait to be answered are refused.
    ///
    /// A thread that doesn't return within 5 seconds is left behind, and cut off when the program's
    /// `main` returns.
    pub fn end<R: Host>(self, rt: &R) {
        let Server {
            state,
            address,
            coming,
            backs,
            threads,
            over,
        } = self;
        state.end();
        drop((coming, backs));
        wake_all(rt, address);
        match over.recv_timeout(rt, Duration::from_secs(END_SECONDS)) {
            Err(RecvTimeoutError::Timeout) => drop(threads),
            Ok(()) | Err(RecvTimeoutError::Disconnected) => join_all(rt, threads),
        }
    }
}

/// Waits for threads that are about to return.
fn join_all<R: Host>(rt: &R, threads: Vec<JoinHandle<()>>) {
    for thread in threads {
        thread.join(rt);
    }
}

/// Connects to the own address once for each worker, so that none waits for a connection.
fn wake_all<R: Host>(rt: &R, address: SocketAddr) {
    let address = dialled(address);
    for _ in 0..WORKERS {
        let wait = Duration::from_millis(WAKE_MILLISECONDS);
        drop(TcpStream::connect_timeout(rt, &address, wait));
    }
}

/// The address by which the own machine reaches one that it listens at.
fn dialled(address: SocketAddr) -> SocketAddr {
    let ip = match address.ip() {
        IpAddr::V4(ip) if ip.is_unspecified() => IpAddr::V4(Ipv4Addr::LOCALHOST),
        IpAddr::V6(ip) if ip.is_unspecified() => IpAddr::V6(Ipv6Addr::LOCALHOST),
        ip => ip,
    };
    SocketAddr::new(ip, address.port())
}
