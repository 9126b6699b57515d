//! Compares, for each connection, how many questions the hall granted with how many answers its
//! trace has.
ghost use Rattle.std.specs.Prelude.{◌≡◌, ◌↔◌, ◌≤◌, ◌^◌, IfSome, IsTrue, MatchOption, None};
ghost use Rattle.cb_hall.specs.Connections.{most_peers};
ghost use Rattle.cb_audit.specs.Counting.{AreEven, HasTrace, IsEarlier, IsEven, IsFirstUneven, IsFoundAmong, IsOfPeer, IsOfPeers, granted, told_by};
ghost use Rattle.cb_audit.specs.Order.{AreInOrder, trace_of};

use crate::audited::{Audited, find, is_before};
use cb_hall::{Connections, Journal, PEERS};
use cb_state::Connection;

/// How many questions of a connection were granted; 0 if there is no such connection.
pub(crate) fn granted(connections: &Connections, connection: Connection) -> u64
    ensures { result ≡ granted connections.now connection }
{
    match connections.get(connection) {
        Some(connected) => connected.count,
        None => 0,
    }
}

/// How many answers the trace of a connection has; 0 if it has no trace.
fn told(audited: &[Audited], connection: Connection) -> u64
    requires order { AreInOrder audited.now }
    ensures { result ≡ told_by (trace_of audited.now connection) }
{
    match find(audited, connection) {
        Some(place) => audited[place].trace().total().told,
        None => 0,
    }
}

/// Whether the hall granted as many questions as the connection was told answers.
fn is_even(connections: &Connections, audited: &[Audited], connection: Connection) -> bool
    requires order { AreInOrder audited.now }
    ensures { IsTrue result ↔ IsEven connections.now audited.now connection }
{
    granted(connections, connection) == told(audited, connection)
}

/// The first connection with a trace whose numbers differ.
#[tactic(auto, using(crate::proofs::Numbers::even_with_none, crate::proofs::Numbers::even_next_at, crate::proofs::Numbers::first_with_at, crate::proofs::Numbers::even_with_all))]
fn first_with_trace(connections: &Connections, audited: &[Audited]) -> Option<Connection>
    requires order { AreInOrder audited.now }
    ensures { IsFoundAmong connections.now audited.now (HasTrace audited.now) result }
{
    for one in audited {
        let connection = one.connection();
        if !is_even(connections, audited, connection) {
            return Some(connection);
        }
    }
    None
}

/// The first of a peer's connections whose numbers differ.
#[tactic(auto, using(crate::proofs::Numbers::even_up_none, crate::proofs::Numbers::even_next, crate::proofs::Numbers::first_up, crate::proofs::Numbers::even_up_all))]
fn first_of_peer(connections: &Connections, audited: &[Audited], peer: u16) -> Option<Connection>
    requires order { AreInOrder audited.now }
    ensures found { IsFoundAmong connections.now audited.now (IsOfPeer connections.now peer)
        result }
    ensures peer { IfSome result (λ connection. connection.peer ≡ peer) }
{
    for earlier in 0..connections.latest(peer) {
        let connection = Connection {
            peer,
            generation: earlier + 1,
        };
        if !is_even(connections, audited, connection) {
            return Some(connection);
        }
    }
    None
}

/// The first of the peers' connections whose numbers differ.
#[tactic(auto, using(crate::proofs::Numbers::even_below_none, crate::proofs::Numbers::even_below, crate::proofs::Numbers::first_below, crate::proofs::Numbers::even_below_all))]
fn first_known(connections: &Connections, audited: &[Audited]) -> Option<Connection>
    requires order { AreInOrder audited.now }
    ensures { IsFoundAmong connections.now audited.now (IsOfPeers connections.now most_peers)
        result }
{
    for peer in 0..PEERS {
        if let Some(connection) = first_of_peer(connections, audited, peer) {
            return Some(connection);
        }
    }
    None
}

/// The earlier of two connections, or the one that there is.
pub(crate) fn earlier(one: Option<Connection>, other: Option<Connection>) -> Option<Connection>
    ensures none { result ≡ None → (one ≡ None) × (other ≡ None) }
    ensures found { IfSome result (IsEarlier one other) }
{
    match (one, other) {
        (Some(connection), Some(rival)) => {
            if is_before(rival, connection) {
                Some(rival)
            } else {
                Some(connection)
            }
        }
        (Some(connection), None) => Some(connection),
        (None, rival) => rival,
    }
}

/// The first connection whose numbers differ. It allocates nothing.
#[tactic(auto, using(crate::proofs::Numbers::granted_few))]
pub(crate) fn first_uneven(journal: &Journal, audited: &[Audited]) -> Option<Connection>
    requires order { AreInOrder audited.now }
    ensures exact { MatchOption result (AreEven journal.now.latest.connections audited.now)
        (IsFirstUneven journal.now.latest.connections audited.now) }
    ensures few { (connection : _) →
        granted journal.now.latest.connections connection ≤ 2 ^ 62 }
{
    // No effect when they run: they tell the prover what their types keep.
    let _ = journal.entries();
    let _ = journal.latest().entries();
    let connections = journal.latest().connections();
    earlier(
        first_with_trace(connections, audited),
        first_known(connections, audited),
    )
}
