ghost use Rattle.std.specs.Prelude.{◌≡◌, ◌↔◌, ◌<◌, None, IfSome, IsTrue, length};
ghost use Rattle.cb_audit.specs.Order.{AreInOrder, IsBefore, IsTraceAt, trace_of};

use cb_state::Connection;
use cb_trace::Trace;
use std::marker::Model;

/// A connection with its trace, to be audited. A connection of the past is one too. Its model is
/// the two.
#[derive(Drop)]
pub struct Audited<'a> {
    connection: Connection,
    trace: &'a Trace,
}

impl<'a> Model for Audited<'a> {
    ghost use Rattle.cb_audit.specs.Order.{AuditedTrace};

    ghost Value = { AuditedTrace };

    ghost view = { λ audited.
        record { connection = audited.connection; trace = audited.trace.now } };
}

impl<'a> Audited<'a> {
    /// A connection with its trace.
    pub fn new(connection: Connection, trace: &'a Trace) -> Audited<'a>
        ensures { result ≡ record { connection = connection; trace = trace.now } }
    {
        Audited { connection, trace }
    }

    /// The connection.
    pub(crate) fn connection(&self) -> Connection
        ensures { result ≡ self.now.connection }
    {
        self.connection
    }

    /// Its trace.
    pub(crate) fn trace(&self) -> &Trace
        ensures { result.now ≡ self.now.trace }
    {
        self.trace
    }
}

/// Whether a connection comes before another one, in the order of peers and generations.
pub(crate) fn is_before(connection: Connection, other: Connection) -> bool
    ensures { IsTrue result ↔ IsBefore connection other }
{
    if connection.peer == other.peer {
        return connection.generation < other.generation;
    }
    connection.peer < other.peer
}

/// Whether the traces are in the order of their connections. Then no connection has two.
pub fn are_in_order(audited: &[Audited]) -> bool
    ensures { IsTrue result ↔ AreInOrder audited.now }
{
    for next in 1..audited.len() {
        let former = &audited[next - 1];
        let one = &audited[next];
        if !is_before(former.connection(), one.connection()) {
            return false;
        }
    }
    true
}

/// The place of a connection's trace, by a binary search; `None` if it has no trace.
pub(crate) fn find(audited: &[Audited], connection: Connection) -> Option<usize>
    requires order { AreInOrder audited.now }
    ensures found { IfSome result (IsTraceAt audited.now connection) }
    ensures within { IfSome result (λ place. place < length audited.now) }
    ensures none { result ≡ None → trace_of audited.now connection ≡ None }
{
    let mut low = 0;
    let mut high = audited.len();
    while low < high {
        let middle = low + (high - low) / 2;
        let other = audited[middle].connection();
        if is_before(other, connection) {
            low = middle + 1;
        } else if is_before(connection, other) {
            high = middle;
        } else {
            return Some(middle);
        }
    }
    None
}
