//! Compares, for each connection, how many questions the hall granted with how many answers the
//! trace of its work has. No trace is listed for it, and it allocates nothing.
ghost use Rattle.std.specs.Prelude.{◌≡◌, ◌∷◌, ◌++◌, ◌↔◌, [], None, Some, IfSome, IsTrue, MatchOption, option_copied, slice_get};
ghost use Rattle.cb_hall.specs.Connections.{most_peers};
ghost use Rattle.cb_audit.specs.Counting.{AreEven, IsEven, IsFirstUneven, IsFoundAmong, IsOfPeer, IsOfPeers};
ghost use Rattle.cb_audit.specs.Desks.{told_in, trace_of_work, traces_of, traces_of_desk, uneven_in};
ghost use Rattle.cb_audit.specs.Order.{AreInOrder};

use crate::counting::{earlier, granted};
use cb_crew::Desk;
use cb_hall::{Connections, Journal, PEERS};
use cb_peer_state::MessageSink;
use cb_state::Connection;
use cb_trace::Oracle;
use cb_work::{Flags, PeerWork};

/// How many answers a work was told, if it is the connection's.
fn told_by_work<S: MessageSink + Drop, H: Oracle + Drop, F: Flags>(
    work: &PeerWork<S, H, F>,
    connection: Connection,
) -> Option<u64>
    ensures { result ≡ told_in (trace_of_work work.now ∷ []) connection }
{
    if work.connection() == connection {
        return Some(work.trace().total().told);
    }
    None
}

/// How many answers the desk's work of a connection was told, if it has one.
fn told_at_desk<S: MessageSink + Drop, H: Oracle + Drop, F: Flags>(
    desk: &Desk<PeerWork<S, H, F>>,
    connection: Connection,
) -> Option<u64>
    ensures { result ≡ told_in (traces_of_desk desk.now) connection }
{
    for work in desk.past() {
        if let Some(told) = told_by_work(work, connection) {
            return Some(told);
        }
    }
    told_by_work(desk.work(), connection)
}

/// How many answers the work of a connection was told, if a desk has one: looks at all works.
fn told_by_search<S: MessageSink + Drop, H: Oracle + Drop, F: Flags>(
    desks: &[Desk<PeerWork<S, H, F>>],
    connection: Connection,
) -> Option<u64>
    ensures { result ≡ told_in (traces_of desks.now) connection }
{
    for desk in desks {
        if let Some(told) = told_at_desk(desk, connection) {
            return Some(told);
        }
    }
    None
}

/// The work at a place of a desk: the past ones stand in order, and the latest one behind them.
fn work_at<S: MessageSink + Drop, H: Oracle + Drop, F: Flags>(
    desk: &Desk<PeerWork<S, H, F>>,
    place: usize,
) -> Option<&PeerWork<S, H, F>>
    ensures { option_copied result ≡ slice_get (desk.now.past ++ desk.now.work ∷ []) place }
{
    let past = desk.past();
    if place == past.len() {
        return Some(desk.work());
    }
    past.get(place)
}

/// How many answers the work of a connection was told, if it stands where it normally does: at its
/// desk's place by its peer, and there by its generation.
fn told_at_place<S: MessageSink + Drop, H: Oracle + Drop, F: Flags>(
    desks: &[Desk<PeerWork<S, H, F>>],
    connection: Connection,
) -> Option<u64>
    requires order { AreInOrder (traces_of desks.now) }
    ensures { IfSome result (λ told. told_in (traces_of desks.now) connection ≡ Some told) }
{
    let desk = desks.get(usize::from(connection.peer))?;
    let place = connection.generation.checked_sub(1)?;
    let work = work_at(desk, place as usize)?;
    told_by_work(work, connection)
}

/// How many answers the work of a connection was told, if a desk has one. It looks at all works
/// only if the connection's doesn't stand where it normally does.
fn told_at<S: MessageSink + Drop, H: Oracle + Drop, F: Flags>(
    desks: &[Desk<PeerWork<S, H, F>>],
    connection: Connection,
) -> Option<u64>
    requires order { AreInOrder (traces_of desks.now) }
    ensures { result ≡ told_in (traces_of desks.now) connection }
{
    if let Some(told) = told_at_place(desks, connection) {
        return Some(told);
    }
    told_by_search(desks, connection)
}

/// Whether the hall granted as many questions as the connection was told answers.
fn is_even_at_desks<S: MessageSink + Drop, H: Oracle + Drop, F: Flags>(
    connections: &Connections,
    desks: &[Desk<PeerWork<S, H, F>>],
    connection: Connection,
) -> bool
    requires order { AreInOrder (traces_of desks.now) }
    ensures { IsTrue result ↔ IsEven connections.now (traces_of desks.now) connection }
{
    granted(connections, connection) == told_at(desks, connection).unwrap_or(0)
}

/// The connection of a work, if its numbers differ.
fn uneven_work<S: MessageSink + Drop, H: Oracle + Drop, F: Flags>(
    connections: &Connections,
    work: &PeerWork<S, H, F>,
) -> Option<Connection>
    ensures { result ≡ uneven_in connections.now (trace_of_work work.now ∷ []) }
{
    if granted(connections, work.connection()) == work.trace().total().told {
        return None;
    }
    Some(work.connection())
}

/// The first connection of a desk's works whose numbers differ.
fn uneven_at_desk<S: MessageSink + Drop, H: Oracle + Drop, F: Flags>(
    connections: &Connections,
    desk: &Desk<PeerWork<S, H, F>>,
) -> Option<Connection>
    ensures { result ≡ uneven_in connections.now (traces_of_desk desk.now) }
{
    for work in desk.past() {
        if let Some(connection) = uneven_work(connections, work) {
            return Some(connection);
        }
    }
    uneven_work(connections, desk.work())
}

/// The first connection of the desks' works whose numbers differ.
fn uneven_at<S: MessageSink + Drop, H: Oracle + Drop, F: Flags>(
    connections: &Connections,
    desks: &[Desk<PeerWork<S, H, F>>],
) -> Option<Connection>
    ensures { result ≡ uneven_in connections.now (traces_of desks.now) }
{
    for desk in desks {
        if let Some(connection) = uneven_at_desk(connections, desk) {
            return Some(connection);
        }
    }
    None
}

/// The first of a peer's connections whose numbers differ.
#[tactic(auto, using(crate::proofs::Numbers::even_up_none, crate::proofs::Numbers::even_next, crate::proofs::Numbers::first_up, crate::proofs::Numbers::even_up_all))]
fn first_of_peer_at_desks<S: MessageSink + Drop, H: Oracle + Drop, F: Flags>(
    connections: &Connections,
    desks: &[Desk<PeerWork<S, H, F>>],
    peer: u16,
) -> Option<Connection>
    requires order { AreInOrder (traces_of desks.now) }
    ensures found { IsFoundAmong connections.now (traces_of desks.now)
        (IsOfPeer connections.now peer) result }
    ensures peer { IfSome result (λ connection. connection.peer ≡ peer) }
{
    for earlier in 0..connections.latest(peer) {
        let connection = Connection {
            peer,
            generation: earlier + 1,
        };
        if !is_even_at_desks(connections, desks, connection) {
            return Some(connection);
        }
    }
    None
}

/// The first of the peers' connections whose numbers differ.
#[tactic(auto, using(crate::proofs::Numbers::even_below_none, crate::proofs::Numbers::even_below, crate::proofs::Numbers::first_below, crate::proofs::Numbers::even_below_all))]
fn first_known_at_desks<S: MessageSink + Drop, H: Oracle + Drop, F: Flags>(
    connections: &Connections,
    desks: &[Desk<PeerWork<S, H, F>>],
) -> Option<Connection>
    requires order { AreInOrder (traces_of desks.now) }
    ensures { IsFoundAmong connections.now (traces_of desks.now)
        (IsOfPeers connections.now most_peers) result }
{
    for peer in 0..PEERS {
        if let Some(connection) = first_of_peer_at_desks(connections, desks, peer) {
            return Some(connection);
        }
    }
    None
}

/// The first connection whose numbers differ.
pub(crate) fn first_uneven_at_desks<S: MessageSink + Drop, H: Oracle + Drop, F: Flags>(
    journal: &Journal,
    desks: &[Desk<PeerWork<S, H, F>>],
) -> Option<Connection>
    requires order { AreInOrder (traces_of desks.now) }
    ensures { MatchOption result (AreEven journal.now.latest.connections (traces_of desks.now))
        (IsFirstUneven journal.now.latest.connections (traces_of desks.now)) }
{
    // No effect when they run: they tell the prover what their types keep.
    let _ = journal.entries();
    let connections = journal.latest().connections();
    earlier(
        uneven_at(connections, desks),
        first_known_at_desks(connections, desks),
    )
}
