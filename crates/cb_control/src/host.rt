use std::marker::{Copy, Send};
use std::net::{Net, TcpListener, TcpStream};
use std::random::RandomSource;
use std::sync::Wait;
use std::thread::Threads;
use std::time::Clock;

/// What a node and its server of calls need of their surroundings: sockets, threads, waiting, the
/// clock and random bytes.
pub trait Host: Net<Listener = TcpListener, Stream = TcpStream>
    + Threads
    + Wait
    + Clock
    + RandomSource
    + Copy
    + Send
    + Drop
    + 'static {}

impl<R> Host for R
where
    R: Net<Listener = TcpListener, Stream = TcpStream>
        + Threads
        + Wait
        + Clock
        + RandomSource
        + Copy
        + Send
        + Drop
        + 'static,
{}
