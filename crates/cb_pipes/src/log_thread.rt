//! The thread that writes the log.
use crate::log_line::LogLine;
use crossbeam_channel::{Receiver, RecvTimeoutError, Sender, bounded};
use std::alloc::{AllocError, Global};
use std::marker::{Copy, Send};
use std::rt::Clock;
use std::sync::Wait;
use std::thread;
use std::thread::{JoinHandle, Threads};
use std::time::Duration;

/// How many lines wait to be written at most.
const MOST_WAITING: usize = 1_024;

/// For how many seconds the end of a log waits for what isn't written yet.
const END_SECONDS: u64 = 2;

/// Why a log can't be started.
#[derive(Clone, Copy)]
pub enum LogFault {
    /// Memory ran out.
    Memory,
    /// No thread can be made.
    NoThread,
}

/// The thread that writes a log's lines to standard error.
#[derive(Drop)]
pub struct LogThread {
    thread: JoinHandle<()>,
    /// It has no sender any more once the thread is about to return.
    over: Receiver<(), Global>,
}

/// What the thread has.
#[derive(Drop)]
struct LogWriter {
    lines: Receiver<LogLine, Global>,
    over: Sender<(), Global>,
}

impl LogThread {
    /// Waits until all lines are written, at most 2 seconds. If standard error takes them no more,
    /// the thread is left behind, and cut off when the program's `main` returns. There must be no
    /// log any more that goes this way.
    pub fn end<R: Threads + Wait + Clock>(self, rt: &R) {
        let LogThread { thread, over } = self;
        match over.recv_timeout(rt, Duration::from_secs(END_SECONDS)) {
            Err(RecvTimeoutError::Timeout) => drop(thread),
            Ok(()) | Err(RecvTimeoutError::Disconnected) => thread.join(rt),
        }
    }
}

/// Starts the thread that writes a log, and returns the way to it.
pub fn start_log<R: Threads + Wait + Eprint + Copy + Send + Drop + 'static>(
    rt: &R,
    alloc: Global,
) -> Result<(Sender<LogLine, Global>, LogThread), LogFault> {
    let Ok((lines, log_writer, over)) = ways(alloc) else {
        return Err(LogFault::Memory);
    };
    let rt_of_thread = *rt;
    let started = thread::spawn(rt, move || {
        let (rt, log_writer) = (rt_of_thread, log_writer);
        write_lines(&rt, alloc, &log_writer);
    });
    match started {
        Ok(thread) => Ok((lines, LogThread { thread, over })),
        Err(refused) => {
            drop(refused);
            Err(LogFault::NoThread)
        }
    }
}

/// The way to the thread, what it has, and by what it tells that it returns. Fails only for lack of
/// memory.
fn ways(
    alloc: Global,
) -> Result<(Sender<LogLine, Global>, LogWriter, Receiver<(), Global>), AllocError> {
    let (there, lines) = bounded(alloc, MOST_WAITING)?;
    let (over, ended) = bounded(alloc, 1)?;
    Ok((there, LogWriter { lines, over }, ended))
}

/// Writes lines until none comes any more. One that can't be written is dropped.
fn write_lines<R: Wait + Eprint>(rt: &R, alloc: Global, log_writer: &LogWriter) {
    for _ in rt.forever() {
        let Ok(line) = log_writer.lines.recv(rt) else {
            return;
        };
        let mut text = String::new(alloc);
        if line.print(&mut text).is_ok() {
            let _ = rt.eprint(text);
        }
    }
}
