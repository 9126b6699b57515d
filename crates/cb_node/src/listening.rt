ghost use Rattle.std.specs.Prelude.{◌≡◌, IfErr};
ghost use Rattle.cb_node.specs.Fault.{IsIo};

use crate::fault::NodeFault;
use std::io::ErrorKind;
use std::marker::Model;
use std::net::{Net, SocketAddr, TcpListener, TcpStream};
use std::sync::Wait;

/// A socket that listens for peers. Contracts see where it listens.
#[derive(Drop)]
pub struct Listening {
    listener: TcpListener,
    address: SocketAddr,
}

impl Model for Listening {
    ghost use Rattle.std.specs.declared.net.socket_addr.SocketAddr.{SocketAddr};

    ghost Value = { SocketAddr };

    ghost view = { λ listening. listening.address };
}

impl Listening {
    /// Listens at this address. Port 0 stands for any that is free.
    pub fn at<R: Net<Listener = TcpListener, Stream = TcpStream>>(
        rt: &R,
        address: SocketAddr,
    ) -> Result<Listening, NodeFault>
        ensures { IfErr result IsIo }
    {
        let listener = TcpListener::bind(rt, address)?;
        let address = listener.local_addr()?;
        Ok(Listening { listener, address })
    }

    /// Where it listens.
    pub fn address(&self) -> SocketAddr
        ensures { result ≡ self.now }
    {
        self.address
    }

    /// Waits for a peer.
    pub fn accept<R: Wait>(&self, rt: &R) -> Result<TcpStream, NodeFault>
        ensures { IfErr result IsIo }
    {
        for _ in rt.forever() {
            match self.listener.accept() {
                Ok((stream, _)) => return Ok(stream),
                Err(error) if is_passing(error.kind()) => {}
                Err(error) => return Err(NodeFault::from(error)),
            }
        }
        unreachable!()
    }

    /// A peer that waits to be accepted, if there is one.
    pub fn poll(&self) -> Result<Option<TcpStream>, NodeFault>
        ensures { IfErr result IsIo }
    {
        self.listener.set_nonblocking(true)?;
        let accepted = self.listener.accept();
        self.listener.set_nonblocking(false)?;
        match accepted {
            Ok((stream, _)) => Ok(Some(stream)),
            Err(error) if error.kind() == ErrorKind::WouldBlock || is_passing(error.kind()) => {
                Ok(None)
            }
            Err(error) => Err(NodeFault::from(error)),
        }
    }
}

/// Whether a failed accept tells of one peer or of a signal alone, so that another may be made.
fn is_passing(kind: ErrorKind) -> bool {
    kind == ErrorKind::Interrupted || kind == ErrorKind::ConnectionAborted
}
