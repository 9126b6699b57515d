//! The program `cbrelay`: passes its arguments and standard streams to the crate `cb_command`.
#![tactic(auto)]

use cb_base::{In, Out, Seed, Shared};
use cb_command::{
    Progress, command, names_node, refuse_for_memory, refuse_foreign, refuse_unseeded,
    with_password,
};
use cb_pipes::{Patience, PipeWriter, Pipes};
use std::alloc::{AllocError, Global};
use std::env::VarError;
use std::io::{ErrorKind, IsTerminal, Write};
use std::marker::{Copy, Send};
use std::net::{TcpListener, TcpStream};
use std::process::ExitCode;
use std::random::RandomSource;
use std::rt::{Clock, Stderr};
use std::sync::Wait;
use std::thread::Threads;

/// For how many milliseconds standard output may take nothing once the end of a node was asked for,
/// and standard error at any time.
const OUTPUT_MILLISECONDS: u64 = 2_000;

const ERRORS_MILLISECONDS: u64 = 1_000;

/// The seed of this run's tables, from the system's random source; `None` if that fails.
fn random_seed(rt: &HostRuntime) -> Option<Seed> {
    let mut bytes = [0; 32];
    match rt.fill_bytes(bytes.as_mut_slice()) {
        Ok(()) => Some(Seed::of(bytes.as_slice())),
        Err(_) => None,
    }
}

/// The words, with the password for JSON-RPC of the environment's `CBRELAY_RPC_PASSWORD` if they
/// are of a node that needs one. One that isn't UTF-8 is none.
fn whole_words(
    rt: &HostRuntime,
    alloc: Global,
    words: Vec<String>,
) -> Result<Vec<String>, AllocError> {
    if !names_node(words.as_slice()) {
        return Ok(words);
    }
    let password = match std::env::var(rt, "CBRELAY_RPC_PASSWORD") {
        Ok(password) => Some(password),
        Err(VarError::OutOfMemory) => return Err(AllocError),
        Err(_) => None,
    };
    with_password(alloc, words, password)
}

/// A writer to a pipe. If it is threaded, a thread of its own writes.
fn writer_to<
    R: Threads + Wait + Clock + Copy + Send + Drop + 'static,
    P: Write + Copy + Send + Drop + 'static,
>(
    rt: R,
    alloc: Global,
    pipe: P,
    pipes: Shared<Pipes>,
    patience: Patience,
    threaded: bool,
) -> Out<PipeWriter<R, P>> {
    if threaded {
        Out::new(PipeWriter::threaded(rt, alloc, pipe, pipes, patience))
    } else {
        Out::new(PipeWriter::plain(rt, alloc, pipe, pipes))
    }
}

/// The line that tells how far a network is, on standard error if that is a terminal.
fn progress_on(stderr: Stderr) -> Progress<Out<Stderr>> {
    if stderr.is_terminal() {
        Progress::new(Some(Out::new(stderr)))
    } else {
        Progress::new(None)
    }
}

/// Passes the arguments, standard input, standard output and standard error to `command`,
/// with a seed of this run. If a node is to run, threads write to standard output and standard
/// error.
fn main(rt: HostRuntime) -> ExitCode {
    // The proof of a call for the host needs the kinds of its sockets named here.
    let _sockets: Option<(TcpListener, TcpStream)> = None;
    let alloc = rt.alloc();
    let mut plain_errors = Out::new(rt.stderr());
    let words = match std::env::args(&rt) {
        Ok(args) => args.collect(alloc),
        Err(error) if error.kind() == ErrorKind::InvalidData => {
            return ExitCode::from(refuse_foreign(&mut plain_errors));
        }
        Err(_) => return ExitCode::from(refuse_for_memory(&mut plain_errors)),
    };
    let words: Vec<String> = match words {
        Ok(words) => words,
        Err(_) => return ExitCode::from(refuse_for_memory(&mut plain_errors)),
    };
    let Ok(words) = whole_words(&rt, alloc, words) else {
        return ExitCode::from(refuse_for_memory(&mut plain_errors));
    };
    let Some(seed) = random_seed(&rt) else {
        return ExitCode::from(refuse_unseeded(&mut plain_errors));
    };
    let Ok(pipes) = Shared::new(alloc, Pipes::new()) else {
        return ExitCode::from(refuse_for_memory(&mut plain_errors));
    };
    let of_output: Result<Shared<Pipes>, AllocError> = pipes.clone();
    let of_errors: Result<Shared<Pipes>, AllocError> = pipes.clone();
    let (Ok(of_output), Ok(of_errors)) = (of_output, of_errors) else {
        return ExitCode::from(refuse_for_memory(&mut plain_errors));
    };
    let runs_node = names_node(words.as_slice());
    let mut reader = In::new(rt.reader());
    let of_answers = Patience::UntilEnd(OUTPUT_MILLISECONDS);
    let of_messages = Patience::Always(ERRORS_MILLISECONDS);
    let mut writer = writer_to(rt, alloc, rt.stdout(), of_output, of_answers, runs_node);
    let mut errors = writer_to(rt, alloc, rt.stderr(), of_errors, of_messages, runs_node);
    let mut progress = progress_on(rt.stderr());
    let status = command(
        rt,
        alloc,
        seed,
        words,
        &pipes,
        &mut reader,
        &mut writer,
        &mut errors,
        &mut progress,
    );
    ExitCode::from(status)
}
