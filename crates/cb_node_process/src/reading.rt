//! The thread that reads the operator's lines.
ghost use Rattle.std.specs.Prelude.{◌≡◌, ◌⊎◌, IfErr, IsOkUnless};
ghost use Rattle.cb_control.specs.declared.ending.Halt.TheVariants.{Memory, ReadFailed};

use cb_base::{In, Shared, Source};
use cb_control::{Halt, LineReader, Order, read_order};
use cb_pipes::Pipes;
use cb_process::ProcessHost;
use crossbeam_channel::{Receiver, RecvTimeoutError, Sender, bounded};
use std::alloc::Global;
use std::io::StdinLock;
use std::rt::Clock;
use std::sync::Wait;
use std::sync::atomic::{AtomicU64, Ordering};
use std::thread;
use std::thread::JoinHandle;
use std::time::Duration;

/// How many lines wait to be answered at most, and how many bytes they may have before one more is
/// read. They are many, so that the end is seen though nobody reads the answers.
const MOST_WAITING: usize = 16_384;

const MOST_BYTES: u64 = 32_000_000;

/// How many milliseconds pass until it is looked again whether the lines that wait are fewer.
const PAUSE_MILLISECONDS: u64 = 20;

/// Why standard input can't be read any more.
#[derive(Clone, Copy)]
pub enum Broken {
    /// Memory ran out.
    Memory,
    /// A read failed, or there were too many lines.
    Read,
}

impl Broken {
    /// How the process ends by it.
    pub fn halt(self) -> Halt
        ensures { (result ≡ Memory) ⊎ (result ≡ ReadFailed) }
    {
        match self {
            Broken::Memory => Halt::Memory,
            Broken::Read => Halt::ReadFailed,
        }
    }
}

/// What came from standard input.
#[derive(Drop)]
pub enum Arrival {
    /// A line that gives an order.
    Order(Order),
    /// A line that gives none.
    Unreadable,
    /// Memory ran out for a line.
    NoMemory,
    /// Nothing comes after this: the input ended, or can't be read any more.
    End(Option<Broken>),
}

impl Arrival {
    /// Whether nothing is read after it.
    fn is_last(&self) -> bool {
        match self {
            Arrival::Order(Order::Quit) | Arrival::End(_) => true,
            Arrival::Order(_) | Arrival::Unreadable | Arrival::NoMemory => false,
        }
    }
}

/// What came, and how many bytes its line has.
#[derive(Drop)]
struct Coming {
    arrival: Arrival,
    bytes: u64,
}

/// The lines that come, and the thread that reads them. It returns once it has read `quit` or the
/// end of input.
#[derive(Drop)]
pub struct LineQueue {
    /// What came and wasn't answered yet.
    coming: Receiver<Coming, Global>,
    /// How many bytes that has.
    waiting: Shared<AtomicU64>,
    thread: JoinHandle<()>,
}

impl LineQueue {
    /// Waits so long for what comes next.
    pub fn next<R: Wait + Clock>(
        &self,
        rt: &R,
        pause: Duration,
    ) -> Result<Arrival, RecvTimeoutError> {
        let Coming { arrival, bytes } = self.coming.recv_timeout(rt, pause)?;
        self.waiting.fetch_sub(bytes, Ordering::SeqCst);
        Ok(arrival)
    }

    /// Waits for the thread. It must have read `quit` or the end of input, or be about to.
    pub fn join<R: ProcessHost>(self, rt: &R) {
        let LineQueue {
            coming,
            waiting,
            thread,
        } = self;
        drop((coming, waiting));
        thread.join(rt);
    }
}

/// What the thread that reads has.
#[derive(Drop)]
struct Sending {
    sender: Sender<Coming, Global>,
    waiting: Shared<AtomicU64>,
    pipes: Shared<Pipes>,
}

/// Starts the thread that reads standard input. At the end of input, and at `quit`, it tells the
/// others that the end was asked for. Fails with `Halt::Memory`, and with `Halt::ReadFailed` if no
/// thread can be made.
pub fn start_reading<R: ProcessHost>(
    rt: &R,
    alloc: Global,
    pipes: &Shared<Pipes>,
) -> Result<LineQueue, Halt>
    ensures { IfErr result (λ halt. (halt ≡ Memory) ⊎ (halt ≡ ReadFailed)) }
{
    let (sending, coming, waiting) = ways(alloc, pipes)?;
    let rt_of_thread = *rt;
    let started = thread::spawn(rt, move || {
        let (rt, sending) = (rt_of_thread, sending);
        read_all(&rt, alloc, &sending);
        sending.pipes.ask_end();
    });
    match started {
        Ok(thread) => Ok(LineQueue {
            coming,
            waiting,
            thread,
        }),
        Err(refused) => {
            drop(refused);
            Err(Halt::ReadFailed)
        }
    }
}

/// What the thread that reads has, what comes from it, and how many bytes of it wait. Fails only
/// with `Halt::Memory`.
fn ways(
    alloc: Global,
    pipes: &Shared<Pipes>,
) -> Result<(Sending, Receiver<Coming, Global>, Shared<AtomicU64>), Halt>
    ensures { IsOkUnless result Memory }
{
    let (sender, coming) = bounded(alloc, MOST_WAITING)?;
    let waiting = Shared::new(alloc, AtomicU64::new(0))?;
    let sending = Sending {
        sender,
        waiting: waiting.clone()?,
        pipes: pipes.clone()?,
    };
    Ok((sending, coming, waiting))
}

/// Reads lines and sends what they say, until nothing comes after one, or nobody listens.
fn read_all<R: Wait + Clock + Input<Reader = StdinLock<'static>>>(
    rt: &R,
    alloc: Global,
    sending: &Sending,
) {
    let mut source = In::new(rt.reader());
    let mut lines = match LineReader::new(alloc) {
        Ok(lines) => lines,
        Err(_) => {
            let arrival = Arrival::End(Some(Broken::Memory));
            drop(sending.sender.send(rt, Coming { arrival, bytes: 0 }));
            return;
        }
    };
    for _ in 0..u64::MAX {
        wait_for_room(rt, sending);
        let arrival = next_arrival(alloc, &mut lines, &mut source);
        let (last, bytes) = (arrival.is_last(), lines.line().len() as u64);
        if last {
            sending.pipes.ask_end();
        }
        sending.waiting.fetch_add(bytes, Ordering::SeqCst);
        if sending.sender.send(rt, Coming { arrival, bytes }).is_err() || last {
            return;
        }
    }
}

/// Waits until fewer bytes wait than may.
fn wait_for_room<R: Wait + Clock>(rt: &R, sending: &Sending) {
    for _ in rt.forever() {
        if sending.waiting.load(Ordering::SeqCst) <= MOST_BYTES {
            return;
        }
        thread::sleep(rt, Duration::from_millis(PAUSE_MILLISECONDS));
    }
}

/// What the next line says.
fn next_arrival<S: Source>(alloc: Global, lines: &mut LineReader, source: &mut S) -> Arrival {
    match lines.advance(source) {
        Ok(true) => match read_order(alloc, lines.line()) {
            Ok(Some(order)) => Arrival::Order(order),
            Ok(None) => Arrival::Unreadable,
            Err(_) => Arrival::NoMemory,
        },
        Ok(false) => Arrival::End(None),
        Err(Halt::Memory) => Arrival::End(Some(Broken::Memory)),
        Err(_) => Arrival::End(Some(Broken::Read)),
    }
}
