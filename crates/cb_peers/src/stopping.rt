ghost use Rattle.std.specs.Prelude.{◌≡◌, false};

use cb_service::Signals;
use cb_session::Stop;
use cb_work::ConnectionStatus;

/// Tells a connection's reader to stop: the connection is over, or all threads are told to return.
///
/// No contract tells that the answer comes from these two flags. It can't tell what an atomic flag
/// holds, since any thread may set it.
#[derive(Drop)]
pub struct ConnectionStop<'a> {
    status: &'a ConnectionStatus,
    signals: &'a Signals,
    seen: bool,
}

impl<'a> ConnectionStop<'a> {
    /// The stop of the connection with this status. It hasn't answered yet.
    pub fn new(status: &'a ConnectionStatus, signals: &'a Signals) -> ConnectionStop<'a>
        ensures { result.seen ≡ false }
    {
        ConnectionStop {
            status,
            signals,
            seen: false,
        }
    }
}

impl<'a> Stop for ConnectionStop<'a> {
    ghost has_stopped = { λ stop. stop.seen };

    fn stopped(&mut self) -> bool {
        if !self.seen {
            self.seen = self.status.is_stopped() || self.signals.is_stopped();
        }
        self.seen
    }

    fn seen(&self) -> bool {
        self.seen
    }
}
