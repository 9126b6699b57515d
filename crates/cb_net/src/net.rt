//! A network of nodes in virtual time.
use crate::world::World;
use cb_net_node::{Traffic, Wallet};
use cb_net_plan::{Draws, NetSettings};

/// A network of nodes that are linked, in virtual time. Everything in it follows from its settings.
pub struct Net {
    pub(crate) settings: NetSettings,
    pub(crate) world: World,
    pub(crate) draws: Draws,
    pub(crate) wallet: Wallet,
    /// How many blocks were relayed.
    pub(crate) relayed: u32,
    /// Whether the network is cut in two.
    pub(crate) is_parted: bool,
    /// What the honest nodes sent before what the world counts now.
    pub(crate) total: Traffic,
    /// How many more events may happen.
    pub(crate) left: u64,
    /// How many audits of halls that are gone said yes.
    pub(crate) yes: u64,
    /// How many said no.
    pub(crate) no: u64,
}

impl Drop for Net {
    fn drop(self) {
        let Net {
            settings: _,
            world: _,
            draws: _,
            wallet: _,
            relayed: _,
            is_parted: _,
            total: _,
            left: _,
            yes: _,
            no: _,
        } = self;
    }
}
