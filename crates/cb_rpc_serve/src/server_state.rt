//! What the workers share.
use std::net::TcpListener;
use std::sync::atomic::{AtomicBool, Ordering};

/// What the workers share.
#[derive(Drop)]
pub struct ServerState {
    /// Where all of them take connections.
    pub listener: TcpListener,
    ending: AtomicBool,
}

impl ServerState {
    /// They take connections here.
    pub fn new(listener: TcpListener) -> ServerState {
        ServerState {
            listener,
            ending: AtomicBool::new(false),
        }
    }

    /// Whether they are to return.
    pub fn is_ending(&self) -> bool {
        self.ending.load(Ordering::SeqCst)
    }

    /// From now on they are to return.
    pub fn end(&self) {
        self.ending.store(true, Ordering::SeqCst);
    }
}
