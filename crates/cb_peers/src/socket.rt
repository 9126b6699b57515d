ghost use Rattle.std.specs.Prelude.{◌≡◌, []};

use cb_base::{In, Shared};
use cb_crew::Opening;
use cb_service::Account;
use cb_session::{Input, ReadFrom};
use std::io::{self, ErrorKind, Read};
use std::marker::Model;
use std::net::{Shutdown, TcpStream};
use std::sync::{Mutex, Wait};

/// The place of a connection's socket. It is empty until the connection is made, and again once it
/// is closed.
///
/// Its lock is held for a moment only: a thread that reads or writes is an owner of the socket
/// itself. So another thread can shut the socket meanwhile, and its descriptor is given back with
/// the last owner.
#[derive(Drop)]
pub struct Socket {
    stream: Mutex<Option<Shared<TcpStream>>>,
}

impl Socket {
    /// A place without a socket.
    pub fn new() -> Socket {
        Socket {
            stream: Mutex::new(None),
        }
    }

    /// Puts the connection's socket there.
    pub fn fill<R: Wait>(&self, rt: &R, stream: Shared<TcpStream>) {
        let mut place = self.stream.lock(rt);
        *place = Some(stream);
    }

    /// One more owner of the socket. Fails if there is none.
    pub fn stream<R: Wait>(&self, rt: &R) -> io::Result<Shared<TcpStream>> {
        let place = self.stream.lock(rt);
        match &*place {
            Some(stream) => Ok(stream.clone()?),
            None => Err(io::Error::from(ErrorKind::NotConnected)),
        }
    }

    /// Shuts the socket in both directions and gives it up. Threads that read from it or write to
    /// it wake.
    pub fn close<R: Wait>(&self, rt: &R) {
        let mut place = self.stream.lock(rt);
        let stream = place.take();
        drop(place);
        if let Some(stream) = stream {
            let _ = stream.shutdown(Shutdown::Both);
        }
    }

    /// Shuts the socket for reading. A thread that reads from it wakes, and reads no more.
    pub fn stop_reading<R: Wait>(&self, rt: &R) {
        if let Ok(stream) = self.stream(rt) {
            let _ = stream.shutdown(Shutdown::Read);
        }
    }
}

/// What a connection's reader reads from: the connection's socket.
#[derive(Drop)]
pub struct SocketReader {
    /// The socket.
    pub stream: Shared<TcpStream>,
}

impl Read for SocketReader {
    fn read(&mut self, buffer: &mut [u8]) -> io::Result<usize> {
        (&*self.stream).read(buffer)
    }
}

/// The bytes that the reads of a connection's socket gave. It exists in proofs alone: it takes no
/// memory. Contracts see the bytes.
///
/// It is made of what `read_connection` left of a socket. No other code makes one that has bytes.
#[derive(Drop)]
pub struct SocketBytes {
    bytes: ReadFrom<In<SocketReader>>,
}

impl Model for SocketBytes {
    ghost use Rattle.std.specs.Prelude.{ℕ, List};

    ghost Value = { List ℕ };

    ghost view = { λ socket. socket.bytes };
}

impl SocketBytes {
    /// Nothing was read.
    pub fn nothing() -> SocketBytes
        ensures { result ≡ [] }
    {
        SocketBytes {
            bytes: ReadFrom::nothing(),
        }
    }

    /// These bytes.
    pub fn new(bytes: ReadFrom<In<SocketReader>>) -> SocketBytes
        ensures { result ≡ bytes }
    {
        SocketBytes { bytes }
    }
}

impl<O: Opening + Drop> Account<Input, O> for SocketBytes {
    ghost use Rattle.cb_peers.specs.Reading.{HasQueued};

    // What was queued is what they spell.
    ghost tells = { λ bytes before after. HasQueued bytes before after };
}
