//! Writing to a pipe that may be read by nobody.
ghost use Rattle.std.specs.Prelude.{◌≤◌, length, IfOk};

use crate::pipes::Pipes;
use cb_base::Shared;
use crossbeam_channel::{Receiver, RecvTimeoutError, Sender, bounded};
use std::alloc::{AllocError, Global};
use std::io::{self, ErrorKind, Write};
use std::marker::{Copy, Send};
use std::rt::Clock;
use std::sync::Wait;
use std::thread;
use std::thread::Threads;
use std::time::Duration;

/// How many pieces wait for the thread that writes at most.
const MOST_PIECES: usize = 64;

/// For how many milliseconds a writer waits for its thread at a time.
const LOOK_MILLISECONDS: u64 = 20;

/// How a writer waits for the pipe.
#[derive(Clone, Copy)]
pub enum Patience {
    /// For a moment; once the end was asked for, while the pipe takes something within so many
    /// milliseconds. What isn't written holds answers.
    UntilEnd(u64),
    /// While the pipe takes something within so many milliseconds.
    Always(u64),
}

impl Patience {
    /// How often it looks in vain before it gives up.
    fn looks(self) -> u64 {
        match self {
            Patience::UntilEnd(milliseconds) | Patience::Always(milliseconds) => {
                milliseconds / LOOK_MILLISECONDS
            }
        }
    }

    /// How many pieces hold answers of one that isn't written.
    fn holding(self) -> u64 {
        match self {
            Patience::UntilEnd(_) => 1,
            Patience::Always(_) => 0,
        }
    }

    /// Whether it waits for more than a moment.
    fn lasts(self, pipes: &Pipes) -> bool {
        match self {
            Patience::UntilEnd(_) => pipes.is_end_asked(),
            Patience::Always(_) => true,
        }
    }
}

/// The way to the thread that writes and back.
#[derive(Drop)]
struct PieceChannel {
    /// The pieces.
    there: Sender<Vec<u8>, Global>,
    /// For each piece that was written, or failed: whether it failed.
    back: Receiver<Option<ErrorKind>, Global>,
    /// How many pieces weren't told of yet.
    sent: u64,
    /// Why a piece failed, if one did.
    failure: Option<ErrorKind>,
}

/// The far end of a channel.
#[derive(Drop)]
struct FarEnd {
    there: Receiver<Vec<u8>, Global>,
    back: Sender<Option<ErrorKind>, Global>,
    pipes: Shared<Pipes>,
    /// How many pieces hold answers of one that isn't written.
    holding: u64,
}

/// A writer to a pipe. It writes itself, or has a thread of its own that writes, for which it waits
/// as its patience says. After a write that failed, or for which it waited in vain, each one fails.
/// The thread is left behind where it still writes then, and cut off when the program's `main`
/// returns.
#[derive(Drop)]
pub struct PipeWriter<R, P> {
    rt: R,
    alloc: Global,
    pipe: P,
    pipes: Shared<Pipes>,
    patience: Patience,
    /// `None` if it writes itself.
    channel: Option<PieceChannel>,
}

impl<R, P> PipeWriter<R, P> {
    /// A writer to this pipe that writes itself.
    pub fn plain(rt: R, alloc: Global, pipe: P, pipes: Shared<Pipes>) -> PipeWriter<R, P> {
        PipeWriter {
            rt,
            alloc,
            pipe,
            pipes,
            patience: Patience::Always(0),
            channel: None,
        }
    }
}

impl<
    R: Threads + Wait + Clock + Copy + Send + Drop + 'static,
    P: Write + Copy + Send + Drop + 'static,
> PipeWriter<R, P> {
    /// A writer to this pipe with a thread of its own. If memory ran out, or no thread can be made,
    /// it writes itself.
    pub fn threaded(
        rt: R,
        alloc: Global,
        pipe: P,
        pipes: Shared<Pipes>,
        patience: Patience,
    ) -> PipeWriter<R, P> {
        let channel = start_channel(&rt, alloc, pipe, &pipes, patience.holding());
        PipeWriter {
            rt,
            alloc,
            pipe,
            pipes,
            patience,
            channel,
        }
    }
}

impl<R: Wait + Clock, P: Write> Write for PipeWriter<R, P> {
    fn write(&mut self, piece: &[u8]) -> io::Result<usize> {
        let Some(channel) = &mut self.channel else {
            return self.pipe.write(piece);
        };
        if let Some(kind) = channel.failure {
            return Err(io::Error::from(kind));
        }
        let Ok(copy) = copy_of(self.alloc, piece) else {
            return self.pipe.write(piece);
        };
        if !copy.is_empty() {
            send(&self.rt, channel, copy, &self.pipes, self.patience);
        }
        settle(&self.rt, channel, &self.pipes, self.patience);
        match channel.failure {
            None => Ok(piece.len()),
            Some(kind) => Err(io::Error::from(kind)),
        }
    }

    fn flush(&mut self) -> io::Result<()> {
        Ok(())
    }
}

/// A copy of a piece. Fails only for lack of memory.
fn copy_of(alloc: Global, piece: &[u8]) -> Result<Vec<u8>, AllocError> {
    let mut copy = Vec::new(alloc);
    copy.extend_from_slice(piece)?;
    Ok(copy)
}

/// Gives the thread that writes a piece.
fn send<R: Wait>(
    rt: &R,
    channel: &mut PieceChannel,
    piece: Vec<u8>,
    pipes: &Pipes,
    patience: Patience,
) {
    pipes.add_waiting(patience.holding());
    match channel.there.send(rt, piece) {
        Ok(()) => channel.sent = channel.sent.saturating_add(1),
        Err(refused) => {
            drop(refused);
            channel.failure = Some(ErrorKind::BrokenPipe);
        }
    }
}

/// Waits until all pieces are written, as long as its patience says. Notes what failed.
fn settle<R: Wait + Clock>(rt: &R, channel: &mut PieceChannel, pipes: &Pipes, patience: Patience) {
    let pause = Duration::from_millis(LOOK_MILLISECONDS);
    let (mut looks, mut progress) = (0u64, pipes.progress());
    for _ in rt.forever() {
        if channel.sent == 0 || channel.failure.is_some() {
            return;
        }
        match channel.back.recv_timeout(rt, pause) {
            Ok(failure) => {
                channel.sent = channel.sent.saturating_sub(1);
                channel.failure = failure;
                looks = 0;
            }
            Err(RecvTimeoutError::Disconnected) => channel.failure = Some(ErrorKind::BrokenPipe),
            Err(RecvTimeoutError::Timeout) => {
                if !patience.lasts(pipes) {
                    return;
                }
                let reached = pipes.progress();
                looks = if reached == progress {
                    looks.saturating_add(1)
                } else {
                    0
                };
                progress = reached;
                if looks >= patience.looks() {
                    channel.failure = Some(ErrorKind::TimedOut);
                }
            }
        }
    }
}

/// Starts a thread that writes to this pipe. `None` if memory ran out, or no thread can be made.
fn start_channel<
    R: Threads + Wait + Copy + Send + Drop + 'static,
    P: Write + Copy + Send + Drop + 'static,
>(rt: &R, alloc: Global, pipe: P, pipes: &Shared<Pipes>, holding: u64) -> Option<PieceChannel> {
    let (channel, far) = ends_of(alloc, pipes, holding).ok()?;
    let rt_of_thread = *rt;
    let started = thread::spawn(rt, move || {
        let (rt, far, mut pipe) = (rt_of_thread, far, pipe);
        write_pieces(&rt, &far, &mut pipe);
    });
    match started {
        Ok(thread) => {
            drop(thread);
            Some(channel)
        }
        Err(refused) => {
            drop(refused);
            None
        }
    }
}

/// Both ends of a channel. Fails only for lack of memory.
fn ends_of(
    alloc: Global,
    pipes: &Shared<Pipes>,
    holding: u64,
) -> Result<(PieceChannel, FarEnd), AllocError> {
    let (there, arriving) = bounded(alloc, MOST_PIECES)?;
    let (back, returning) = bounded(alloc, MOST_PIECES)?;
    let channel = PieceChannel {
        there,
        back: returning,
        sent: 0,
        failure: None,
    };
    let far = FarEnd {
        there: arriving,
        back,
        pipes: pipes.clone()?,
        holding,
    };
    Ok((channel, far))
}

/// Writes what comes, and tells of each piece, until nothing comes any more.
fn write_pieces<R: Wait, P: Write>(rt: &R, far: &FarEnd, pipe: &mut P) {
    for _ in rt.forever() {
        let Ok(piece) = far.there.recv(rt) else {
            return;
        };
        let failure = write_piece(pipe, piece.as_slice(), &far.pipes);
        if failure.is_some() && far.holding > 0 {
            far.pipes.note_failure();
        }
        far.pipes.take_waiting(far.holding);
        if far.back.send(rt, failure).is_err() {
            return;
        }
    }
}

/// Writes a piece. Returns why that failed, if it did.
fn write_piece<P: Write>(pipe: &mut P, piece: &[u8], pipes: &Pipes) -> Option<ErrorKind> {
    let mut start = 0;
    for _ in 0..u64::MAX {
        if start >= piece.len() {
            return None;
        }
        match pipe.write(&piece[start..]) {
            Ok(0) => return Some(ErrorKind::WriteZero),
            Ok(count) => {
                start = start.saturating_add(count);
                pipes.note_progress();
            }
            Err(error) if error.kind() == ErrorKind::Interrupted => {}
            Err(error) => return Some(error.kind()),
        }
    }
    None
}
