//! All connections that last.
use crate::limits::Limits;
use crate::places::who_leaves;
use crate::watching::Watched;
use std::alloc::Global;
use std::net::IpAddr;

/// Notes what is seen of each connection now. Returns whether one is ready and not late itself.
pub fn note_all(list: &mut [Watched], limits: &Limits, now: u64) -> bool {
    let mut able = false;
    for watched in list {
        watched.note(now);
        able |= watched.watch.is_able(limits, now);
    }
    able
}

/// How many connections from peers are of this host.
pub fn count_of(list: &[Watched], host: IpAddr) -> usize {
    let mut count = 0usize;
    for watched in list {
        if watched.inbound && watched.address.ip() == host {
            count = count.saturating_add(1);
        }
    }
    count
}

/// The place of the connection that gives its place away to a new peer. `None` if none may, or
/// memory lacks.
pub fn quietest(alloc: Global, list: &[Watched], now: u64) -> Option<usize> {
    let mut guests = Vec::with_capacity(alloc, list.len()).ok()?;
    for watched in list {
        guests.push(watched.guest()).ok()?;
    }
    who_leaves(guests.as_slice(), now)
}
