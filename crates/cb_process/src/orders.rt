use crate::limits::Limits;
use cb_rpc_serve::RpcSettings;
use log::LevelFilter;
use std::net::SocketAddr;

/// With what a node's process is started.
#[derive(Drop)]
pub struct NodeOrders {
    /// Where it listens. Port 0 stands for any that is free.
    pub listen: SocketAddr,
    /// The peers to which it connects, and again whenever a connection ends.
    pub connect: Vec<SocketAddr>,
    /// The number of its handler threads, 1 to 16.
    pub handlers: u16,
    /// How many milliseconds pass from tick to tick, 1 to 60,000.
    pub tick: u64,
    /// What it lets peers do.
    pub limits: Limits,
    /// Which records are logged.
    pub level: LevelFilter,
    /// Where and to whom it answers JSON-RPC, if it does.
    pub rpc: Option<RpcSettings>,
    /// Whether it reads an operator's lines.
    pub reads_input: bool,
}
