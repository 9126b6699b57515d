//! How a network ended.
ghost use Rattle.std.specs.Prelude.{◌≡◌};
ghost use Rattle.cb_control.specs.Ending.{status_code};
ghost use Rattle.cb_net.specs.Playing.{end_status};

use cb_base::Fault;
use cb_control::Status;
use cb_net_node::Ending;

/// How a network ended.
#[derive(Drop)]
pub enum NetEnd {
    /// It was played to its end.
    Ended(Ending),
    /// It couldn't be played on.
    Broke(Fault),
}

impl NetEnd {
    /// The status of the run: `Success` if all went well, else `Refused`.
    pub fn status(&self) -> Status
        ensures { status_code result ≡ end_status self.now }
    {
        match self {
            NetEnd::Ended(ending) if ending.is_well() => Status::Success,
            NetEnd::Ended(_) | NetEnd::Broke(_) => Status::Refused,
        }
    }
}
