//! The headline of this repository, and nothing else: what the connections of a node came to that
//! has finished. docs/DESIGN.md goes through it word by word.
ghost use Rattle.cb_node.specs.Headline.{KeepsHeadline};

use crate::node::{Node, NodeEnd};
use std::marker::{Copy, Send};
use std::net::{Net, TcpListener, TcpStream};
use std::sync::Wait;
use std::thread::Threads;

/// Ends a node, as `Node::finish` does, and promises this alone.
///
/// For any number of peers and handlers and every schedule, the items processed for a connection
/// are a prefix of those its reader queued, each once, in order, none after that connection's
/// disconnect; its session is the one-thread fold of its trace; and every block handed to the chain
/// is the only sound transaction list under its announced header.
#[tactic(auto, using(crate::proofs::Finished::headline_of))]
pub fn finish<
    R: Net<Listener = TcpListener, Stream = TcpStream>
        + Threads
        + Wait
        + Copy
        + Send
        + Drop
        + 'static,
>(node: Node<R>) -> NodeEnd<R>
    ensures { KeepsHeadline node.crew result.read result.desks.items }
{
    node.finish()
}
