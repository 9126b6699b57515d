//! What the events of a network work on.
use cb_base::{Hash256, Seed};
use cb_net_node::{SimulatedLink, SimulatedNode, Traffic};
use cb_net_plan::Queue;
use std::alloc::Global;

/// What the events of a network work on: its nodes and its links, and what is due.
pub struct World {
    pub(crate) alloc: Global,
    /// How many bytes a node sends a second.
    pub(crate) rate: u64,
    /// The seed of the halls' tables.
    pub(crate) seed: Seed,
    pub(crate) queue: Queue,
    pub(crate) nodes: Vec<SimulatedNode>,
    /// The link with the number k has the ends 2 k and 2 k + 1.
    pub(crate) links: Vec<SimulatedLink>,
    /// The block that is being relayed.
    pub(crate) block: Hash256,
    /// What the honest nodes sent since the block before.
    pub(crate) traffic: Traffic,
    pub(crate) closed: Closed,
}

impl Drop for World {
    fn drop(self) {
        let World {
            alloc: _,
            rate: _,
            seed: _,
            queue: _,
            nodes: _,
            links: _,
            block: _,
            traffic: _,
            closed: _,
        } = self;
    }
}

/// How many connections the sessions of honest nodes closed.
#[derive(Clone, Copy, Drop)]
pub struct Closed {
    /// Those to nodes that stall or lie.
    pub(crate) on_liars: u64,
    /// Those to honest nodes.
    pub(crate) on_honest: u64,
}
