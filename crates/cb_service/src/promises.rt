ghost use Rattle.std.specs.Prelude.{◌≡◌, ◌≤◌, List, [], length, vec_capacity};
ghost use Rattle.cb_crew.specs.Desk.{DeskState};
ghost use Rattle.cb_crew.specs.Turn.{HandlerState};
ghost use Rattle.cb_crew.specs.Crew.{AreHandlersOf, CrewState, IsHandlerOf, inbox_of};
ghost use Rattle.cb_service.specs.Readers.{inbox_for, seat_for};
ghost use Rattle.cb_service.specs.Service.{HandBack, IsLeftBy, crew_of, handler_of};

use crate::reader::Account;
use crate::side::CountedSide;
use cb_crew::{Crew, Fresh, Handler, Inbox, Opening, ReaderSeat, Work};
use std::marker::PhantomData;
use std::snapshot::Snapshot;
use std::thread::{Promise, PromisedHandle, Threads};

/// A promise: a handler's thread returns a handler of this crew, whose list has as much room as
/// before.
#[derive(Drop)]
pub struct OfCrew<W: Work> {
    pub(crate) crew: Snapshot<Crew<W>>,
    pub(crate) handler: Snapshot<Handler<W>>,
}

impl<W: Work> Promise<Handler<W>> for OfCrew<W> {
    ghost kept_by = { λ promise handler. IsHandlerOf promise.crew.value handler
        × (handler.room ≡ promise.handler.value.room) };
}

/// How a reader's thread leaves its peer's inbox.
#[derive(Drop)]
pub struct ReaderEnd<M: Drop, O: Opening + Drop, K: Drop> {
    /// Its side of the inbox.
    pub side: CountedSide<M, O>,
    /// Its account. None if nothing was read: the side is that of its seat then.
    pub account: Option<K>,
}

/// A promise: a reader's thread returns a side of this inbox, and the account of what it queued
/// from this seat on.
#[derive(Drop)]
pub struct OfReader<W: Work, K> {
    pub(crate) inbox: Snapshot<Inbox<W::Item, Fresh<W>>>,
    pub(crate) seat: Snapshot<ReaderSeat<W::Item, Fresh<W>>>,
    pub(crate) account: PhantomData<K>,
}

impl<W: Work, K: Account<W::Item, Fresh<W>>> Promise<ReaderEnd<W::Item, Fresh<W>, K>>
    for OfReader<W, K> {
    ghost kept_by = { λ promise end. (inbox_of end.side ≡ promise.inbox.value.name)
        × IsLeftBy K.tells promise.seat.value end.side end.account };
}

/// A handler's thread.
pub type HandlerThread<W> = PromisedHandle<Handler<W>, OfCrew<W>>;

/// A reader's thread, whose account is a `K`.
pub type ReaderThread<W, K> = PromisedHandle<
    ReaderEnd<<W as Work>::Item, Fresh<W>, K>,
    OfReader<W, K>,
>;

/// Waits until a handler's thread returns, and returns its handler.
pub fn join_handler<W: Work, R: Threads>(rt: &R, thread: HandlerThread<W>) -> Handler<W>
    ensures crew { IsHandlerOf (crew_of thread) result }
    ensures room { result.room ≡ (handler_of thread).room }
{
    thread.join(rt)
}

/// Waits until all these threads return. Returns their handlers in the order of the threads, in the
/// given empty list. It takes no memory: the list must have room.
///
/// If the threads are those of all handlers of a crew, with the crew's first handler first, then
/// `Crew::finish` takes these handlers.
pub fn join_handlers<W: Work, R: Threads>(
    rt: &R,
    threads: Vec<HandlerThread<W>>,
    handlers: Vec<Handler<W>>,
) -> Vec<Handler<W>>
    requires room { (handlers.items ≡ []) × (length threads.items ≤ vec_capacity handlers) }
    ensures { (crew : CrewState) (before : List (HandlerState (DeskState W W.Item))) →
        HandBack crew threads.items before → AreHandlersOf crew before →
        AreHandlersOf crew result.items }
{
    let mut handlers = handlers;
    for thread in threads {
        handlers.push_reserved(join_handler(rt, thread));
    }
    handlers
}

/// Waits until a reader's thread returns, and returns the reader's side and its account.
pub fn join_reader<W: Work, K: Account<W::Item, Fresh<W>>, R: Threads>(
    rt: &R,
    thread: ReaderThread<W, K>,
) -> ReaderEnd<W::Item, Fresh<W>, K>
    ensures inbox { inbox_of result.side ≡ (inbox_for thread).name }
    ensures account { IsLeftBy K.tells (seat_for thread) result.side result.account }
{
    thread.join(rt)
}
