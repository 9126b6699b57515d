//! Why no network can be as the words of `net` say.
ghost use Rattle.std.specs.Prelude.{Some};
ghost use Rattle.cb_net_plan.specs.NetWords.{bad_net_text};

use crate::settings::SettingsFault;
use std::fmt;

/// Why no network can be as the words of `net` say.
#[derive(Clone, Copy, Debug, PartialEq, Eq)]
pub enum BadNet {
    /// The value of `--latency` isn't two numbers.
    Latency,
    /// The value of `--part` isn't a number and two blocks.
    Part,
    /// The value of `--restart` isn't a number and a block.
    Restart,
    /// The value of `--audit` is no word that it takes.
    Audit,
    /// The settings break a rule.
    Fault(SettingsFault),
}

/// What an operator is told.
impl fmt::Display for BadNet {
    ghost output = { λ bad. Some (bad_net_text bad) };

    fn fmt<W: fmt::Write>(&self, f: &mut fmt::Formatter<W>) -> fmt::Result {
        match self {
            BadNet::Latency => write!(f, "--latency takes A..B in milliseconds, as 20..200"),
            BadNet::Part => write!(f, "--part takes N@A..B, as 500@3..5"),
            BadNet::Restart => write!(f, "--restart takes N@B, as 17@4"),
            BadNet::Audit => write!(f, "--audit takes all or none"),
            BadNet::Fault(fault) => write!(f, "{fault}"),
        }
    }
}
