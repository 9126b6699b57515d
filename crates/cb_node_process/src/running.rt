//! Running a node until its operator ends it.
ghost use Rattle.std.specs.Prelude.{◌≡◌, ◌↔◌, ◌⊎◌, ◌≤◌, [], true, IfErr, IfOk, OnErr, OnOk};
ghost use Rattle.std.specs.Io.KnownBytes.{Appends};
ghost use Rattle.cb_control.specs.declared.ending.Halt.TheVariants.{WriteFailed};
ghost use Rattle.cb_control.specs.Outcomes.{LacksOrFails};
ghost use Rattle.cb_driver.specs.Auditing.{IsOfAnEnd};
ghost use Rattle.cb_process.specs.Starting.{IsDeaf, IsPlace, deaf_text};
ghost use Rattle.cb_node_process.specs.Telling.{Comes, HasRun, IsDialReply, StopsEarly, Tells, TellsAll, TellsOpening};

use crate::interfaces::Interfaces;
use crate::order_answering::{LineOutcome, obey};
use crate::reading::{Arrival, Broken, LineQueue};
use cb_base::{Seed, Shared, Sink};
use cb_control::{Halt, Refusal, Reply, Status, Verdict, write_all, write_reply};
use cb_pipes::{LogFault, PipedLog, Pipes, start_log};
use cb_process::{NodeOrders, Process, ProcessHost, StartFault, is_well};
use crossbeam_channel::RecvTimeoutError;
use log::{LevelFilter, Log, Logged, info};
use std::alloc::Global;
use std::net::SocketAddr;
use std::thread;
use std::time::Duration;

/// How many milliseconds the process waits for a line before it looks at its sockets again.
const PAUSE_MILLISECONDS: u64 = 10;

/// Runs a node. It prints `listening ADDR:PORT` once it listens, and then an answer to each line of
/// standard input, if it reads that. It answers calls of JSON-RPC, if it is to. `quit`, the end of
/// input and the call `stop` end it: all its threads return but the one that reads lines, which may
/// still wait behind `stop`, and the audit's answer is printed.
///
/// While nobody takes what was printed, as `pipes` tells, peers are served and calls are answered,
/// and no line is answered. `pipes` is told when the end is asked for, and tells which records are
/// logged.
///
/// Returns the exit status: 0; 3 if it couldn't listen, an audit said no, or an address that it was
/// to dial from the start was never reached. Where it couldn't listen and why goes to `errors`.
/// Connections, their ends and new tips are logged on standard error, by a thread of its own. The
/// node's tables have this seed, which changes no result.
///
/// Fails if memory runs out at the start, or a read or a write failed. The node has ended then.
pub fn run_node<R: ProcessHost, W: Sink, E: Sink>(
    rt: R,
    alloc: Global,
    seed: Seed,
    orders: NodeOrders,
    pipes: &Shared<Pipes>,
    writer: &mut W,
    errors: &mut E,
) -> Result<u8, Halt>
    requires handlers { (1 ≤ orders.handlers) × (orders.handlers ≤ 16) }
    // For a writer and a standard error whose bytes are known: what is printed, or that it can't
    // listen.
    ensures told { IfOk result
        (λ status. (TellsAll (IsOfAnEnd R) (W.contents writer.old) (W.contents writer.new) status
        × (errors.new ≡ errors.old))
        ⊎ (IsDeaf orders (E.contents errors.old) (E.contents errors.new) × (status ≡ 3))) }
    ensures status { IfOk result (λ status. (status ≡ 0) ⊎ (status ≡ 3)) }
    // For every writer and standard error: why it ends early.
    ensures halts { IfErr result (StopsEarly
        ((W.has_failed writer.new ≡ true) ⊎ (E.has_failed errors.new ≡ true))) }
    // Nothing else is told to `errors`.
    ensures quiet { IfErr result
        (λ halt. (errors.new ≡ errors.old) ⊎ (E.has_failed errors.new ≡ true)) }
{
    match run_logged(rt, alloc, seed, &orders, pipes, writer) {
        Ok(ended) => ended,
        Err(deaf) => tell_deaf(alloc, &orders, deaf, errors),
    }
}

/// Why a node can't be started.
#[derive(Clone, Copy)]
struct Deaf {
    /// Whether it can't listen for requests of JSON-RPC; if not, it can't for peers.
    to_calls: bool,
    fault: StartFault,
}

impl From<LogFault> for Deaf {
    fn from(fault: LogFault) -> Deaf {
        Deaf::from(match fault {
            LogFault::Memory => StartFault::Memory,
            LogFault::NoThread => StartFault::NoMeans,
        })
    }
}

impl From<StartFault> for Deaf {
    fn from(fault: StartFault) -> Deaf {
        Deaf {
            to_calls: false,
            fault,
        }
    }
}

/// Tells where the node can't listen and why. Returns the exit status.
fn tell_deaf<E: Sink>(
    alloc: Global,
    orders: &NodeOrders,
    deaf: Deaf,
    errors: &mut E,
) -> Result<u8, Halt>
    ensures told { OnOk result (IsDeaf orders.now (E.contents errors.old) (E.contents errors.new)) }
    ensures status { IfOk result (λ status. status ≡ 3) }
    ensures err { IfErr result (LacksOrFails (E.has_failed errors.new)) }
    ensures quiet { IfErr result
        (λ halt. (errors.new ≡ errors.old) ⊎ (E.has_failed errors.new ≡ true)) }
{
    if let StartFault::Memory = deaf.fault {
        return Err(Halt::Memory);
    }
    let address = place_of(orders, deaf.to_calls);
    refuse(alloc, address, deaf.fault, errors)
}

/// Where the node was to listen: for requests of JSON-RPC, or for peers.
fn place_of(orders: &NodeOrders, to_calls: bool) -> SocketAddr
    ensures { IsPlace orders.now result }
{
    match &orders.rpc {
        Some(rpc) if to_calls => rpc.address,
        _ => orders.listen,
    }
}

/// Runs a node, and the thread that writes its log. Fails if it can't be started.
fn run_logged<R: ProcessHost, W: Sink>(
    rt: R,
    alloc: Global,
    seed: Seed,
    orders: &NodeOrders,
    pipes: &Shared<Pipes>,
    writer: &mut W,
) -> Result<Result<u8, Halt>, Deaf>
    ensures { IfOk result (HasRun (IsOfAnEnd R) (W.contents writer.old) (W.contents writer.new)
        (W.has_failed writer.new)) }
{
    pipes.set_level(orders.level);
    let (of_log, (lines, thread)) = (owner_of(pipes)?, start_log(&rt, alloc)?);
    let sink = PipedLog::new(rt, alloc, lines, of_log);
    let logged = Logged::new(rt, LevelFilter::Trace, sink);
    let log = logged.with_target("cbrelay");
    let ran = run(rt, alloc, seed, orders, pipes, &log, writer);
    drop(logged);
    thread.end(&rt);
    ran
}

/// One more owner of the pipes. Fails only with `StartFault::Memory`.
fn owner_of(pipes: &Shared<Pipes>) -> Result<Shared<Pipes>, StartFault> {
    Ok(pipes.clone()?)
}

/// Tells why the node can't listen at an address. Returns the exit status.
fn refuse<E: Sink>(
    alloc: Global,
    address: SocketAddr,
    fault: StartFault,
    errors: &mut E,
) -> Result<u8, Halt>
    ensures told { OnOk result
        (Appends (E.contents errors.old) (E.contents errors.new) (deaf_text address fault)) }
    ensures status { IfOk result (λ status. status ≡ 3) }
    ensures err { IfErr result (LacksOrFails (E.has_failed errors.new)) }
    ensures quiet { IfErr result
        (λ halt. (errors.new ≡ errors.old) ⊎ (E.has_failed errors.new ≡ true)) }
{
    let words = fault.cause();
    let text = format!(in alloc; "error: can't listen at {address}: {words}\n")?;
    write_all(errors, text.as_bytes())?;
    Ok(Status::RunFailed.code())
}

/// Starts a node, answers lines and calls until the process is to end, and ends it. Fails if it
/// can't be started.
fn run<R: ProcessHost, L: Log, W: Sink>(
    rt: R,
    alloc: Global,
    seed: Seed,
    orders: &NodeOrders,
    pipes: &Shared<Pipes>,
    log: &L,
    writer: &mut W,
) -> Result<Result<u8, Halt>, Deaf>
    ensures { IfOk result (HasRun (IsOfAnEnd R) (W.contents writer.old) (W.contents writer.new)
        (W.has_failed writer.new)) }
{
    let starts = orders.connect.as_slice();
    let mut process = Process::start(rt, alloc, seed, orders)?;
    process.note_own(log, starts);
    let mut interfaces = match Interfaces::open(rt, alloc, &process, orders, pipes, log) {
        Ok(Ok(interfaces)) => interfaces,
        Ok(Err(halt)) => {
            drop(process.finish(starts));
            return Ok(Err(halt));
        }
        Err(fault) => {
            drop(process.finish(starts));
            return Err(Deaf {
                to_calls: true,
                fault,
            });
        }
    };
    let served = serve(
        &rt,
        alloc,
        &mut process,
        &mut interfaces,
        pipes,
        log,
        writer,
    );
    info!(log; "ending");
    interfaces.close(&rt, served.is_ok());
    process.note_all_ends(log);
    process.note_unreached(log, starts);
    let (end, verdict, reached) = process.finish(starts);
    drop(end);
    match served {
        Ok((broken, well)) => {
            let well = is_well(verdict, reached, well);
            Ok(tell_end(alloc, verdict, well, broken, writer))
        }
        Err(halt) => Ok(Err(halt)),
    }
}

/// Prints what the audit answers. Returns the exit status: 0 exactly if all went well.
fn tell_end<W: Sink>(
    alloc: Global,
    verdict: Verdict,
    well: bool,
    broken: Option<Broken>,
    writer: &mut W,
) -> Result<u8, Halt>
    ensures told { IfOk result (λ status.
        Tells (W.contents writer.old) (W.contents writer.new) (Reply.Audit verdict)) }
    ensures fully { IfOk result (λ status. (status ≡ 0) ↔ (well ≡ true)) }
    ensures status { IfOk result (λ status. (status ≡ 0) ⊎ (status ≡ 3)) }
    ensures halts { IfErr result (StopsEarly (W.has_failed writer.new ≡ true)) }
{
    write_reply(alloc, &Reply::Audit(verdict), writer)?;
    match broken {
        Some(broken) => Err(broken.halt()),
        None if well => Ok(Status::Success.code()),
        None => Ok(Status::RunFailed.code()),
    }
}

/// Answers lines and calls until the process is to end. Returns why standard input can't be read
/// any more, if that ends it, and whether each `restart` went well. Fails only with
/// `Halt::WriteFailed`.
fn serve<R: ProcessHost, L: Log, W: Sink>(
    rt: &R,
    alloc: Global,
    process: &mut Process<R>,
    interfaces: &mut Interfaces,
    pipes: &Shared<Pipes>,
    log: &L,
    writer: &mut W,
) -> Result<(Option<Broken>, bool), Halt>
    ensures told { IfOk result (λ served. TellsOpening (served.1 ≡ true)
        (W.contents writer.old) (W.contents writer.new)) }
    ensures failed { IfErr result
        (λ halt. (halt ≡ WriteFailed) × (W.has_failed writer.new ≡ true)) }
{
    let address = process.address();
    info!(log; "listening at {address}");
    write_reply(alloc, &Reply::Listening(address), writer)?;
    let mut well = true;
    for _ in rt.forever() {
        process.poll(log);
        heed_failure(pipes, writer)?;
        match advance(rt, process, interfaces, pipes, log) {
            LineOutcome::Silence => {}
            LineOutcome::Reply(reply) => write_reply(alloc, &reply, writer)?,
            LineOutcome::Failed(reply) => {
                well = false;
                write_reply(alloc, &reply, writer)?;
            }
            LineOutcome::End(broken) => return Ok((broken, well)),
        }
    }
    unreachable!()
}

/// Fails with `Halt::WriteFailed` if what was printed before couldn't be written: the next write
/// tells so.
fn heed_failure<W: Sink>(pipes: &Pipes, writer: &mut W) -> Result<(), Halt>
    ensures told { OnOk result (Appends (W.contents writer.old) (W.contents writer.new) []) }
    ensures failed { IfErr result
        (λ halt. (halt ≡ WriteFailed) × (W.has_failed writer.new ≡ true)) }
{
    if pipes.has_failed() && writer.write(b"").is_none() {
        return Err(Halt::WriteFailed);
    }
    Ok(())
}

/// What a moment brings. Calls that wait are answered, and one that comes soon if no line does.
fn advance<R: ProcessHost, L: Log>(
    rt: &R,
    process: &mut Process<R>,
    interfaces: &mut Interfaces,
    pipes: &Shared<Pipes>,
    log: &L,
) -> LineOutcome
    ensures { Comes result }
{
    let pause = Duration::from_millis(PAUSE_MILLISECONDS);
    let Interfaces { calls, arrivals } = interfaces;
    let Some(calls) = calls else {
        return next_response(rt, process, arrivals, pipes, log, pause);
    };
    calls.answer_waiting(rt, process, pipes, log);
    if calls.stops() {
        return LineOutcome::End(None);
    }
    let response = next_response(rt, process, arrivals, pipes, log, Duration::ZERO);
    if let LineOutcome::Silence = &response {
        calls.answer_next(rt, process, pipes, log, pause);
    }
    response
}

/// What a dial came to for which an operator waits, or what answers a line that comes in so long a
/// time. It only waits while the dial goes on, while nobody takes what was printed before, and
/// where no lines are read.
fn next_response<R: ProcessHost, L: Log>(
    rt: &R,
    process: &mut Process<R>,
    arrivals: &Option<LineQueue>,
    pipes: &Pipes,
    log: &L,
    pause: Duration,
) -> LineOutcome
    ensures { Comes result }
{
    if pipes.holds_answers() || process.awaits_dial() {
        thread::sleep(rt, pause);
        return LineOutcome::Silence;
    }
    if let Some((address, served)) = process.take_outcome() {
        return LineOutcome::Reply(dial_reply(address, served));
    }
    match arrivals {
        Some(arrivals) => answer_line(rt, process, arrivals, log, pause),
        None => {
            thread::sleep(rt, pause);
            LineOutcome::Silence
        }
    }
}

/// What answers a line that comes in so long a time.
#[tactic(auto, using(crate::proofs::Runs::order_comes))]
fn answer_line<R: ProcessHost, L: Log>(
    rt: &R,
    process: &mut Process<R>,
    arrivals: &LineQueue,
    log: &L,
    pause: Duration,
) -> LineOutcome
    ensures { Comes result }
{
    match arrivals.next(rt, pause) {
        Ok(Arrival::Order(order)) => match obey(process, order, log) {
            Ok(response) => response,
            Err(refusal) => LineOutcome::Reply(Reply::Refused(refusal)),
        },
        Ok(Arrival::Unreadable) => LineOutcome::Reply(Reply::Refused(Refusal::Unreadable)),
        Ok(Arrival::NoMemory) => LineOutcome::Reply(Reply::Refused(Refusal::Memory)),
        Ok(Arrival::End(broken)) => LineOutcome::End(broken),
        Err(RecvTimeoutError::Timeout) => LineOutcome::Silence,
        Err(RecvTimeoutError::Disconnected) => LineOutcome::End(None),
    }
}

/// What answers `connect` once its dial has ended.
fn dial_reply(address: SocketAddr, served: Result<u16, Refusal>) -> Reply
    ensures { IsDialReply result }
{
    match served {
        Ok(slot) => Reply::Connected(address, slot),
        Err(refusal) => Reply::Refused(refusal),
    }
}
