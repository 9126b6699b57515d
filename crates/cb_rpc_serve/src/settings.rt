//! Where calls are served.
use std::net::SocketAddr;

/// Where calls are served, and to whom.
#[derive(Drop)]
pub struct RpcSettings {
    /// Where it listens. Port 0 stands for any that is free.
    pub address: SocketAddr,
    /// Who may ask: `user:password`.
    pub user_and_password: String,
    /// Whether it may listen at another address than a loopback one, and be known by any name.
    pub remote: bool,
}
