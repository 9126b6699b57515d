//! Connecting to a peer.
use std::io;
use std::net::{Net, SocketAddr, TcpStream};
use std::time::Duration;

/// How many seconds a dial may take.
const DIAL_SECONDS: u64 = 5;

/// Connects to a peer at this address. Waits for 5 seconds at most.
pub fn connect_to<R: Net<Stream = TcpStream>>(
    rt: &R,
    address: &SocketAddr,
) -> io::Result<TcpStream> {
    TcpStream::connect_timeout(rt, address, Duration::from_secs(DIAL_SECONDS))
}
