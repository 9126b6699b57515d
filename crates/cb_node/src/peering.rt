//! Where a node listens, and how its peers come to be served.
ghost use Rattle.std.specs.Prelude.{◌≡◌, ◌⊎◌, ◌↔◌, ◌≤◌, true, false, None, Some, length, IfErr, IfOk, IfSome, OnErr, Ok, Err};
ghost use Rattle.std.specs.Net.Socket.{socket_port};
ghost use Rattle.std.specs.declared.io.ErrorKind.TheVariants.{NotConnected};
ghost use Rattle.cb_node.specs.Fault.{IsIo};
ghost use Rattle.cb_node.specs.declared.fault.NodeFault.TheVariants.{Io, Memory, NoSlot};
ghost use Rattle.cb_node.specs.Node.{HasNoUnused, IsServed, ListensBy, end_of, first_of, with_listens};

use crate::choosing::{has_left, lowest_unused};
use crate::connecting::connect_to;
use crate::fault::NodeFault;
use crate::listening::Listening;
use crate::node::Node;
use cb_base::Shared;
use cb_peers::Link;
use std::io::ErrorKind;
use std::marker::{Copy, Send};
use std::net::{IpAddr, Ipv4Addr, Net, SocketAddr, TcpListener, TcpStream};
use std::sync::Wait;
use std::thread::Threads;

/// A connection that a peer made and that no slot serves yet. It is closed when it is let go.
#[derive(Drop)]
pub struct IncomingConnection {
    /// Its stream.
    pub stream: TcpStream,
    /// Where the peer is.
    pub address: SocketAddr,
}

impl<
    R: Net<Listener = TcpListener, Stream = TcpStream>
        + Threads
        + Wait
        + Copy
        + Send
        + Drop
        + 'static,
> Node<R> {
    /// Listens on the loopback address, and returns the port. A node that listens already returns
    /// its port.
    pub fn listen(&mut self) -> Result<u16, NodeFault>
        ensures ok { IfOk result (λ port. ListensBy port self.old self.new) }
        ensures again { IfSome self.old.listens
            (λ at. (result ≡ Ok (socket_port at)) × (self.new ≡ self.old)) }
        ensures err { OnErr result (self.new ≡ self.old) }
        ensures kinds { IfErr result IsIo }
    {
        Ok(self.listen_at(loopback(0))?.port())
    }

    /// Listens at this address, and returns it with the port that was taken. Port 0 stands for any
    /// that is free. A node that listens already returns where it does.
    pub fn listen_at(&mut self, address: SocketAddr) -> Result<SocketAddr, NodeFault>
        ensures ok { IfOk result (λ at. self.new ≡ with_listens self.old (Some at)) }
        ensures again { IfSome self.old.listens (λ at. (result ≡ Ok at) × (self.new ≡ self.old)) }
        ensures err { OnErr result (self.new ≡ self.old) }
        ensures kinds { IfErr result IsIo }
    {
        if let Some(listening) = &self.listening {
            return Ok(listening.address());
        }
        let listening = Listening::at(&self.service.rt, address)?;
        let address = listening.address();
        self.listening = Some(listening);
        Ok(address)
    }

    /// Connects to a node at this port of the loopback address, as `connect_to` does.
    pub fn connect(&mut self, port: u16) -> Result<u16, NodeFault>
        ensures { IsServed false self.old self.new result }
    {
        self.connect_to(loopback(port))
    }

    /// Connects to a peer at this address, and serves it by an outbound slot, whose number is
    /// returned. A tick of the connection is due, so its session opens.
    ///
    /// Fails with the first of these that applies; no slot is used then:
    /// - `NodeFault::NoSlot` if no slot can serve it;
    /// - `NodeFault::Io` if a socket fails or no thread can be started;
    /// - what the hall refuses, and `NodeFault::Memory`.
    pub fn connect_to(&mut self, address: SocketAddr) -> Result<u16, NodeFault>
        ensures { IsServed false self.old self.new result }
    {
        self.look_for_slot(false)?;
        let stream = connect_to(&self.service.rt, &address)?;
        self.serve_stream(stream)
    }
}

impl<R: Threads + Wait + Copy + Send + Drop + 'static> Node<R> {
    /// Waits for a peer and serves it by an inbound slot, whose number is returned.
    ///
    /// Fails with the first of these that applies; no slot is used then:
    /// - `NodeFault::NoSlot` if no slot can serve it. A peer that waits to be accepted still waits
    ///   then (`next_waiting`).
    /// - `NodeFault::Io` if the node doesn't listen, a socket fails or no thread can be started;
    /// - what the hall refuses, and `NodeFault::Memory`.
    pub fn accept(&mut self) -> Result<u16, NodeFault>
        ensures served { IsServed true self.old self.new result }
        ensures deaf { self.old.listens ≡ None →
            (result ≡ Err NoSlot) ⊎ (result ≡ Err (Io NotConnected)) }
    {
        self.look_for_slot(true)?;
        let stream = self.next_peer()?;
        self.serve(true, stream)
    }

    /// Waits for a peer.
    fn next_peer(&self) -> Result<TcpStream, NodeFault>
        ensures deaf { self.now.listens ≡ None → result ≡ Err (Io NotConnected) }
        ensures kinds { IfErr result IsIo }
    {
        self.listening()?.accept(&self.service.rt)
    }

    /// Accepts a peer that waits, and tells where it is. Returns `None` if no peer waits. It
    /// doesn't wait for one, and uses no slot (`admit`).
    ///
    /// Fails with `NodeFault::Io` if the node doesn't listen or a socket fails.
    pub fn next_waiting(&self) -> Result<Option<IncomingConnection>, NodeFault>
        ensures deaf { self.now.listens ≡ None → result ≡ Err (Io NotConnected) }
        ensures kinds { IfErr result IsIo }
    {
        let Some(stream) = self.listening()?.poll()? else {
            return Ok(None);
        };
        let address = stream.peer_addr()?;
        Ok(Some(IncomingConnection { stream, address }))
    }

    /// Serves a peer that connected by an inbound slot, whose number is returned. Fails as `accept`
    /// does; its stream is closed then.
    pub fn admit(&mut self, peer: TcpStream) -> Result<u16, NodeFault>
        ensures { IsServed true self.old self.new result }
    {
        self.look_for_slot(true)?;
        self.serve(true, peer)
    }

    /// Serves a stream that is connected to a peer by an outbound slot, whose number is returned,
    /// as `connect_to` does. A tick of the connection is due, so its session opens.
    pub fn serve_stream(&mut self, stream: TcpStream) -> Result<u16, NodeFault>
        ensures { IsServed false self.old self.new result }
    {
        self.look_for_slot(false)?;
        let number = self.serve(false, stream)?;
        if let Some(slot) = self.slots.get(usize::from(number)) {
            slot.tick(&self.common.signals);
        }
        Ok(number)
    }

    /// Whether an outbound slot, as it seems, can serve a connection.
    pub fn can_connect(&self) -> bool
        ensures none { result ≡ false → HasNoUnused false self.now }
    {
        self.has_slot(false)
    }

    /// Whether an inbound slot, as it seems, can serve a connection.
    pub fn can_admit(&self) -> bool
        ensures none { result ≡ false → HasNoUnused true self.now }
    {
        self.has_slot(true)
    }

    /// Makes a tick of a slot's latest connection due, if the node has the slot.
    pub fn wake(&self, slot: u16) {
        if let Some(slot) = self.slots.get(usize::from(slot)) {
            slot.tick(&self.common.signals);
        }
    }

    /// What the threads of a slot's latest connection share with the node: its generation, its
    /// socket, what it moved, and how far its session is.
    ///
    /// Fails with `NodeFault::NoSlot` if the node doesn't have the slot, and with
    /// `NodeFault::Memory`.
    pub fn link(&self, slot: u16) -> Result<Shared<Link>, NodeFault>
        ensures no_slot { (result ≡ Err NoSlot) ↔ (length self.now.used ≤ slot) }
        ensures kinds { IfErr result (λ fault. (fault ≡ NoSlot) ⊎ (fault ≡ Memory)) }
    {
        match self.slots.get(usize::from(slot)) {
            Some(slot) => Ok(slot.link()?),
            None => Err(NodeFault::NoSlot),
        }
    }

    /// Whether each slot of a kind has had all its connections: the inbound ones, or the outbound
    /// ones.
    pub fn is_spent(&self, inbound: bool) -> bool {
        let first = usize::from(self.service.settings.inbound);
        let (before, behind) = self.slots.as_slice().split_at(first);
        let slots = if inbound { before } else { behind };
        !slots.is_empty() && slots.iter().all(|slot| slot.is_spent())
    }

    /// The first slot of a kind, the inbound ones or the outbound ones, and the one behind its
    /// last.
    fn kind(&self, inbound: bool) -> (u16, u16)
        ensures first { result.0 ≡ first_of inbound self.now }
        ensures end { result.1 ≡ end_of inbound self.now }
        ensures within { result.1 ≤ length self.now.used }
    {
        let (first, end) = (self.service.settings.inbound, self.slots.len() as u16);
        if inbound { (0, first) } else { (first, end) }
    }

    /// Whether a slot of a kind, as it seems, can serve a connection: it never had a socket, or its
    /// reader has returned and it hasn't had all its connections.
    fn has_slot(&self, inbound: bool) -> bool
        ensures none { result ≡ false → HasNoUnused inbound self.now }
    {
        let (first, end) = self.kind(inbound);
        match lowest_unused(self.slots.as_slice(), first, end) {
            Some(_) => true,
            None => has_left(self.slots.as_slice(), first, end),
        }
    }

    /// Fails only with `NodeFault::NoSlot`: if no slot of a kind, as it seems, can serve a
    /// connection.
    fn look_for_slot(&self, inbound: bool) -> Result<(), NodeFault>
        ensures no_slot { IfErr result (λ fault. HasNoUnused inbound self.now) }
        ensures kinds { IfErr result (λ fault. fault ≡ NoSlot) }
    {
        match self.has_slot(inbound) {
            true => Ok(()),
            false => Err(NodeFault::NoSlot),
        }
    }

    /// Serves a peer by a slot of a kind, whose number is returned.
    fn serve(&mut self, inbound: bool, stream: TcpStream) -> Result<u16, NodeFault>
        ensures { IsServed inbound self.old self.new result }
    {
        let (first, end) = self.kind(inbound);
        self.service
            .begin(&self.common, &mut self.slots, first, end, stream)
    }

    /// The socket that listens. Fails only with `NodeFault::Io`, if there is none.
    fn listening(&self) -> Result<&Listening, NodeFault>
        ensures deaf { self.now.listens ≡ None → result ≡ Err (Io NotConnected) }
        ensures kinds { IfErr result IsIo }
    {
        match &self.listening {
            Some(listening) => Ok(listening),
            None => Err(NodeFault::Io(ErrorKind::NotConnected)),
        }
    }
}

/// This port of the loopback address.
fn loopback(port: u16) -> SocketAddr {
    SocketAddr::new(IpAddr::V4(Ipv4Addr::LOCALHOST), port)
}
