//! What is due, and when.

/// What happens at an end of a link.
#[derive(Clone, Copy, Debug, PartialEq, Eq, PartialOrd, Ord, Drop)]
pub enum LinkAct {
    /// The first message that is on its way to this end arrives.
    Arrival,
    /// Time passes for the session of this end.
    Tick,
}

/// An event at an end of a link. Events of one time are ordered by these fields, in this order.
#[derive(Clone, Copy, Debug, PartialEq, Eq, PartialOrd, Ord, Drop)]
pub struct LinkEvent {
    /// The end at which it happens.
    pub end: u32,
    /// Its number among the events of this end.
    pub number: u64,
    /// The connection of the link that it belongs to: a link that begins anew has a new one.
    pub generation: u64,
    /// What happens.
    pub act: LinkAct,
}

/// An event and its time. The one that is due first is the least.
#[derive(Clone, Copy, Debug, PartialEq, Eq, PartialOrd, Ord, Drop)]
pub struct DueEvent {
    /// The virtual time at which it happens, in microseconds since the network began.
    pub time: u64,
    /// What happens then.
    pub event: LinkEvent,
}
