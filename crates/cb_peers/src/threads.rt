ghost use Rattle.std.specs.Prelude.{◌≡◌, ◌<◌, ◌^◌, length, IfErr, IfOk, IfSome};
ghost use Rattle.cb_crew.specs.Crew.{inbox_of};
ghost use Rattle.cb_service.specs.Readers.{inbox_for, seat_for};
ghost use Rattle.cb_service.specs.Service.{HoldsSeat, IsInboxAt, queued_by};
ghost use Rattle.cb_peers.specs.Reading.{HasQueued};

use crate::backlogs::Backlogs;
use crate::link::Link;
use crate::reading::{Left, read_connection};
use crate::socket::{SocketBytes, SocketReader};
use crate::stopping::ConnectionStop;
use cb_base::{In, Shared};
use cb_crew::{Crew, Fresh, Inbox, Opening, ReaderSeat, Work};
use cb_service::{CountedSide, NoReader, Reader, ReaderThread, Signals, ThreadFault, start_reader};
use cb_session::Input;
use std::alloc::Global;
use std::marker::{Copy, Send};
use std::net::TcpStream;
use std::sync::Wait;
use std::thread;
use std::thread::Threads;

/// What the reader of a connection does: it reads the connection's socket, and queues what the
/// stream spells in the peer's inbox. Then it ends the connection, and says that it returns.
#[derive(Drop)]
pub struct SocketReading {
    /// Where buffers and items are allocated.
    pub alloc: Global,
    /// What lies queued of the peers' earlier connections.
    pub backlogs: Shared<Backlogs>,
    /// The connection.
    pub link: Shared<Link>,
    /// The connection's socket.
    pub stream: Shared<TcpStream>,
}

impl<O: Opening + Drop> Reader<Input, O, SocketBytes> for SocketReading {
    fn read<R: Wait>(
        self,
        rt: &R,
        inbox: &Inbox<Input, O>,
        seat: &mut Option<ReaderSeat<Input, O>>,
        signals: &Signals,
    ) -> (CountedSide<Input, O>, SocketBytes)
        requires seat { HoldsSeat inbox.now.name seat.old }
        ensures inbox { inbox_of result.0 ≡ inbox.now.name }
        ensures account { IfSome seat.old
            (λ first. HasQueued result.1 first.queued (queued_by result.0)) }
    {
        let Some(seat) = seat.take() else {
            unreachable!()
        };
        let SocketReading {
            alloc,
            backlogs,
            link,
            stream,
        } = self;
        let mut source = In::new(SocketReader { stream });
        let mut stop = ConnectionStop::new(&link.status, signals);
        let left = read_connection(
            rt,
            alloc,
            &mut source,
            &mut stop,
            &link.status,
            &link.outbox,
            inbox,
            seat,
            signals,
            &backlogs,
        );
        link.leave();
        let Left { side, bytes, .. } = left;
        (side, SocketBytes::new(bytes))
    }
}

/// Starts the thread that writes what a connection's session sends. It returns once the connection
/// is over and what waits went out, or the socket takes nothing more; the connection's outbox tells
/// that it does.
///
/// Fails with `ThreadFault::Thread` if no thread can be made, and with `ThreadFault::Memory`.
fn start_writing<R: Threads + Wait + Copy + Send + Drop + 'static>(
    rt: &R,
    link: &Shared<Link>,
    stream: &Shared<TcpStream>,
) -> Result<(), ThreadFault> {
    let (owner, stream) = (link.clone()?, stream.clone()?);
    link.outbox.open(rt);
    let rt_of_thread = *rt;
    let started = thread::spawn(rt, move || {
        let (rt, link, stream) = (rt_of_thread, owner, stream);
        link.write_out(&rt, &stream);
    });
    match started {
        // Who closes the connection waits by its outbox.
        Ok(thread) => {
            drop(thread);
            Ok(())
        }
        Err(refused) => {
            drop(refused);
            link.outbox.cancel(rt);
            Err(ThreadFault::Thread)
        }
    }
}

/// Starts the threads that write and read a connection: the one writes to the socket from which the
/// other reads. If either can't be started, neither runs, and the seat comes back. Fails as
/// `start_reader` does.
pub fn start_threads<
    W: Work<Item = Input> + Send + 'static,
    R: Threads + Wait + Copy + Send + Drop + 'static,
>(
    rt: &R,
    link: &Shared<Link>,
    crew: Shared<Crew<W>>,
    signals: Shared<Signals>,
    peer: u16,
    seat: ReaderSeat<Input, Fresh<W>>,
    reading: SocketReading,
) -> Result<ReaderThread<W, SocketBytes>, NoReader<W>>
    requires peer { peer < length crew.inboxes }
    requires inbox { IsInboxAt crew peer seat.inbox }
    requires place { length seat.queued < 2 ^ 48 }
    requires link { (link.now.peer ≡ peer) × (reading.link.peer ≡ peer) }
    ensures started { IfOk result (λ thread. ((inbox_for thread).name ≡ seat.inbox)
        × (seat_for thread ≡ seat)) }
    ensures refused { IfErr result (λ back. back.seat ≡ seat) }
{
    if let Err(cause) = start_writing(rt, link, &reading.stream) {
        return Err(NoReader { seat, cause });
    }
    match start_reader(rt, reading.alloc, crew, signals, peer, seat, reading) {
        Ok(thread) => {
            // Its session may be over already. No turn of a handler would close it then.
            link.close_if_over(rt);
            Ok(thread)
        }
        Err(refused) => {
            link.outbox.close(rt);
            link.outbox.wait(rt);
            Err(refused)
        }
    }
}
