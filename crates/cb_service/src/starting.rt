ghost use Rattle.std.specs.Prelude.{◌≡◌, ◌<◌, ◌≤◌, ◌^◌, None, length, All, IfOk, IfErr};
ghost use Rattle.cb_crew.specs.declared.reader_side.ReaderSide.TheVariants.{Live};
ghost use Rattle.cb_crew.specs.Crew.{IsHandlerOf, inbox_of};
ghost use Rattle.cb_service.specs.Readers.{inbox_for, seat_for};
ghost use Rattle.cb_service.specs.Service.{HandBack, IsInboxAt, IsLeftBy, crew_of, handler_of};

use crate::handling::{AfterTurn, HandlerSetup, handle};
use crate::promises::{HandlerThread, OfCrew, OfReader, ReaderEnd, ReaderThread, join_handler};
use crate::reader::{Account, Reader, read_from};
use crate::side::CountedSide;
use crate::signals::Signals;
use crate::thread_fault::ThreadFault;
use cb_base::Shared;
use cb_crew::{Crew, Fresh, Handler, Opening, ReaderSeat, ReaderSide, Work};
use std::alloc::{AllocError, Global};
use std::marker::{Copy, PhantomData, Send};
use std::snapshot::Snapshot;
use std::sync::Wait;
use std::sync::atomic::{AtomicBool, Ordering};
use std::thread;
use std::thread::Threads;

/// A handler that got no thread, and why.
#[derive(Drop)]
pub struct NoHandler<W: Work> {
    pub handler: Handler<W>,
    pub cause: ThreadFault,
}

/// A reader's seat that got no thread, and why. The reader itself is dropped.
#[derive(Drop)]
pub struct NoReader<W: Work> {
    pub seat: ReaderSeat<W::Item, Fresh<W>>,
    pub cause: ThreadFault,
}

/// Starts a handler's thread, which may outlive the call. It returns its handler once the signals
/// tell it to stop, or once it has made all its turns.
///
/// Fails with `ThreadFault::Thread` if no thread can be made or the signals are for fewer handlers,
/// and with `ThreadFault::Memory` if memory runs out. The handler then comes back.
pub fn start_handler<
    W: Work + Send + 'static,
    H: AfterTurn + Drop + Send + 'static,
    R: Threads + Wait + Copy + Send + Drop + 'static,
>(
    rt: &R,
    alloc: Global,
    crew: Shared<Crew<W>>,
    signals: Shared<Signals>,
    setup: HandlerSetup<H>,
    handler: Handler<W>,
) -> Result<HandlerThread<W>, NoHandler<W>>
where
    W::Item: Send + 'static,
    requires budget { (1 ≤ setup.budget) × (setup.budget ≤ 64) }
    requires handler { IsHandlerOf crew handler }
    ensures started { IfOk result
        (λ thread. (crew_of thread ≡ crew) × (handler_of thread ≡ handler)) }
    ensures refused { IfErr result
        (λ back. IsHandlerOf crew back.handler × (back.handler.room ≡ handler.room)) }
{
    let Some(bed) = signals.bed() else {
        return Err(NoHandler {
            handler,
            cause: ThreadFault::Thread,
        });
    };
    let Ok((off, flag)) = new_flag(alloc) else {
        return Err(NoHandler {
            handler,
            cause: ThreadFault::Memory,
        });
    };
    let promise = OfCrew {
        crew: Snapshot::of(&*crew),
        handler: Snapshot::of(&handler),
    };
    let rt_of_thread = *rt;
    let started = thread::spawn_with(
        rt,
        promise,
        move || -> Handler<W>
            requires { IsHandlerOf crew handler × (1 ≤ setup.budget) × (setup.budget ≤ 64) }
            ensures { IsHandlerOf crew result × (result.room ≡ handler.room) }
        {
            let (rt, crew, signals, setup) = (rt_of_thread, crew, signals, setup);
            if flag.load(Ordering::SeqCst) {
                return handler;
            }
            handle(&rt, &crew, handler, &signals, &setup, bed)
        },
    );
    match started {
        Ok(thread) => Ok(thread),
        Err(refused) => {
            // The closure now only hands the handler back.
            off.store(true, Ordering::SeqCst);
            Err(NoHandler {
                handler: (refused.value)(),
                cause: ThreadFault::Thread,
            })
        }
    }
}

/// Starts a thread for each of these handlers, whose hook is a clone of the given one. If one can't
/// be started, tells all to return, and waits until those do that were; the handlers are dropped.
#[tactic(auto, using(crate::proofs::Threads::next_has))]
pub fn start_handlers<
    W: Work + Send + 'static,
    H: AfterTurn + Clone + Drop + Send + 'static,
    R: Threads + Wait + Copy + Send + Drop + 'static,
>(
    rt: &R,
    alloc: Global,
    crew: &Shared<Crew<W>>,
    signals: &Shared<Signals>,
    setup: &HandlerSetup<H>,
    handlers: Vec<Handler<W>>,
) -> Result<Vec<HandlerThread<W>>, ThreadFault>
where
    W::Item: Send + 'static,
    requires budget { (1 ≤ setup.now.budget) × (setup.now.budget ≤ 64) }
    requires handlers { All (IsHandlerOf crew.now) handlers.items }
    ensures { IfOk result (λ threads. HandBack crew.now threads.items handlers.items) }
{
    let mut threads = Vec::with_capacity(alloc, handlers.len())?;
    for handler in handlers {
        match start_one(rt, alloc, crew, signals, setup, handler) {
            Ok(thread) => threads.push_reserved(thread),
            Err(cause) => {
                signals.stop();
                return Err(joined(rt, threads, cause));
            }
        }
    }
    Ok(threads)
}

/// Starts a handler's thread. If that fails, the handler is dropped.
fn start_one<
    W: Work + Send + 'static,
    H: AfterTurn + Clone + Drop + Send + 'static,
    R: Threads + Wait + Copy + Send + Drop + 'static,
>(
    rt: &R,
    alloc: Global,
    crew: &Shared<Crew<W>>,
    signals: &Shared<Signals>,
    setup: &HandlerSetup<H>,
    handler: Handler<W>,
) -> Result<HandlerThread<W>, ThreadFault>
where
    W::Item: Send + 'static,
    requires budget { (1 ≤ setup.now.budget) × (setup.now.budget ≤ 64) }
    requires handler { IsHandlerOf crew.now handler }
    ensures { IfOk result
        (λ thread. (crew_of thread ≡ crew.now) × (handler_of thread ≡ handler)) }
{
    let setup = HandlerSetup {
        budget: setup.budget,
        hook: setup.hook.clone()?,
    };
    let (crew, signals) = (crew.clone()?, signals.clone()?);
    match start_handler(rt, alloc, crew, signals, setup, handler) {
        Ok(thread) => Ok(thread),
        Err(refused) => Err(refused.cause),
    }
}

/// Waits until these threads return. Returns the given cause.
fn joined<W: Work, R: Threads>(
    rt: &R,
    threads: Vec<HandlerThread<W>>,
    cause: ThreadFault,
) -> ThreadFault {
    for thread in threads {
        drop(join_handler(rt, thread));
    }
    cause
}

/// Starts the thread of a peer's reader, which may outlive the call. It returns the reader's side
/// and its account once the reader has read all, or was told to stop.
///
/// Fails with `ThreadFault::Thread` if no thread can be made, and with `ThreadFault::Memory` if
/// memory runs out. The seat then comes back unchanged, and the reader is dropped.
pub fn start_reader<
    W: Work + Send + 'static,
    K: Account<W::Item, Fresh<W>> + Send + 'static,
    D: Reader<W::Item, Fresh<W>, K> + Send + 'static,
    R: Threads + Wait + Copy + Send + Drop + 'static,
>(
    rt: &R,
    alloc: Global,
    crew: Shared<Crew<W>>,
    signals: Shared<Signals>,
    peer: u16,
    seat: ReaderSeat<W::Item, Fresh<W>>,
    reader: D,
) -> Result<ReaderThread<W, K>, NoReader<W>>
where
    W::Item: Send + 'static,
    requires peer { peer < length crew.inboxes }
    requires inbox { IsInboxAt crew peer seat.inbox }
    requires place { length seat.queued < 2 ^ 48 }
    ensures started { IfOk result (λ thread. ((inbox_for thread).name ≡ seat.inbox)
        × (seat_for thread ≡ seat)) }
    ensures refused { IfErr result (λ back. back.seat ≡ seat) }
{
    let Ok((off, flag)) = new_flag(alloc) else {
        return Err(NoReader {
            seat,
            cause: ThreadFault::Memory,
        });
    };
    let promise = OfReader {
        inbox: Snapshot::of(crew.inbox(peer)),
        seat: Snapshot::of(&seat),
        account: PhantomData,
    };
    let rt_of_thread = *rt;
    let started = thread::spawn_with(
        rt,
        promise,
        move || -> ReaderEnd<W::Item, Fresh<W>, K>
            requires { (peer < length crew.inboxes) × IsInboxAt crew peer seat.inbox
                × (length seat.queued < 2 ^ 48) }
            ensures { (inbox_of result.side ≡ seat.inbox)
                × IsLeftBy K.tells seat result.side result.account }
        {
            let (rt, crew, signals) = (rt_of_thread, crew, signals);
            if flag.load(Ordering::SeqCst) {
                return ReaderEnd {
                    side: CountedSide::live(seat),
                    account: None,
                };
            }
            let (side, account) = read_from(&rt, reader, crew.inbox(peer), seat, &signals);
            ReaderEnd {
                side,
                account: Some(account),
            }
        },
    );
    match started {
        Ok(thread) => Ok(thread),
        Err(refused) => {
            // The closure now only hands the seat back.
            off.store(true, Ordering::SeqCst);
            Err(NoReader {
                seat: unread_seat(rt, (refused.value)()),
                cause: ThreadFault::Thread,
            })
        }
    }
}

/// The seat of a reader that read nothing. A thread that wasn't started leaves it so, but no clause
/// can tell that: it depends on a flag that threads share. If it were otherwise, this would wait
/// for ever.
fn unread_seat<M: Drop, O: Opening + Drop, K: Drop, R: Wait>(
    rt: &R,
    end: ReaderEnd<M, O, K>,
) -> ReaderSeat<M, O>
    ensures side { end.side ≡ Live result }
    ensures account { end.account ≡ None }
    ensures place { length result.queued < 2 ^ 48 }
{
    let ReaderEnd { side, account } = end;
    match (side.into_side(), account) {
        (ReaderSide::Live(seat), None) => seat,
        _ => {
            for _ in rt.forever() {}
            unreachable!()
        }
    }
}

/// A flag that isn't set, with two owners.
fn new_flag(alloc: Global) -> Result<(Shared<AtomicBool>, Shared<AtomicBool>), AllocError> {
    let flag = Shared::new(alloc, AtomicBool::new(false))?;
    let other = flag.clone()?;
    Ok((flag, other))
}
