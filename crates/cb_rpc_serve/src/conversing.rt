//! Serving one connection.
use crate::connection_timer::ConnectionTimer;
use crate::request_handler::RequestHandler;
use crate::server_state::ServerState;
use http_server::{Config, Connection};
use std::alloc::Global;
use std::hash::RandomState;
use std::io;
use std::io::ErrorKind;
use std::net::TcpStream;
use std::random::RandomSource;
use std::sync::Wait;
use std::time::{Clock, Duration};

/// How many bytes a request's body may have.
const MOST_BODY_BYTES: usize = 4_000_000;

/// For how many milliseconds a read or a write may wait before it is looked whether the connection
/// takes too long.
const WAIT_MILLISECONDS: u64 = 500;

/// Serves one connection, until the peer ends it, takes too long, or the server ends.
pub fn converse<R: Wait + Clock + RandomSource + Drop>(
    rt: &R,
    alloc: Global,
    state: &ServerState,
    handler: &mut RequestHandler<R>,
    stream: &TcpStream,
) -> io::Result<()> {
    prepare(stream)?;
    let mut connection = open(rt, alloc)?;
    let mut timer = ConnectionTimer::begin(rt, handler.answered)?;
    for _ in rt.forever() {
        if !take_turn(rt, &mut connection, &mut timer, handler, stream)? {
            break;
        }
        if timer.is_late(rt, wants_write(&connection), state.is_ending())? {
            break;
        }
    }
    Ok(())
}

/// Has no call of the stream wait long.
fn prepare(stream: &TcpStream) -> io::Result<()> {
    let wait = Some(Duration::from_millis(WAIT_MILLISECONDS));
    stream.set_read_timeout(wait)?;
    stream.set_write_timeout(wait)?;
    stream.set_nodelay(true)
}

/// A connection to which nothing has come.
fn open<R: RandomSource>(rt: &R, alloc: Global) -> io::Result<Connection> {
    let config = Config {
        max_body_len: MOST_BODY_BYTES,
        ..Config::default()
    };
    Ok(Connection::new(alloc, RandomState::new(rt)?, config))
}

/// Answers what has come, and writes or reads once. Returns whether the connection goes on.
fn take_turn<R: Wait + Clock + Drop>(
    rt: &R,
    connection: &mut Connection,
    timer: &mut ConnectionTimer,
    handler: &mut RequestHandler<R>,
    stream: &TcpStream,
) -> io::Result<bool> {
    answer(connection, handler);
    timer.note_answers(rt, handler.answered)?;
    if is_done(connection) {
        return Ok(false);
    }
    if wants_write(connection) {
        if moves(write(connection, stream))? {
            timer.note_write(rt)?;
        }
    } else if moves(read(connection, stream))? {
        timer.note_read(rt)?;
    }
    Ok(true)
}

/// Answers the requests that have come.
fn answer<R: Wait + Clock + Drop>(connection: &mut Connection, handler: &mut RequestHandler<R>) {
    connection.advance(handler);
}

/// Whether nothing more is to be written or read.
fn is_done(connection: &Connection) -> bool {
    connection.is_done()
}

/// Whether something is to be written.
fn wants_write(connection: &Connection) -> bool {
    connection.wants_write()
}

/// Writes once.
fn write(connection: &mut Connection, stream: &TcpStream) -> io::Result<usize> {
    let mut end = stream;
    connection.write_to(&mut end)
}

/// Reads once.
fn read(connection: &mut Connection, stream: &TcpStream) -> io::Result<usize> {
    let mut end = stream;
    connection.read_from(&mut end)
}

/// Whether bytes moved. One that only waits in vain doesn't fail.
fn moves(moved: io::Result<usize>) -> io::Result<bool> {
    match moved {
        Ok(count) => Ok(count > 0),
        Err(error) => match error.kind() {
            ErrorKind::WouldBlock | ErrorKind::TimedOut | ErrorKind::Interrupted => Ok(false),
            _ => Err(error),
        },
    }
}
