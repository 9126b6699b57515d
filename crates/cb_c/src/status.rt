ghost use Rattle.std.specs.Prelude.{◌≡◌, ◌<◌};
ghost use Rattle.cb_c.specs.Status.{status_of};

use cb_base::Fault;

/// The status of an answer that has no room in the caller's buffer.
pub(crate) const TOO_SMALL: u32 = 65_536;

/// The status of a fault: its number, and for `BadTx` 256 times the rule's number more.
pub(crate) fn status(fault: Fault) -> u32
    ensures same { result ≡ status_of fault }
    ensures some { 0 < result }
{
    let rule = match fault {
        Fault::BadTx(rule) => u32::from(rule.number()),
        _ => 0,
    };
    u32::from(fault.number()) + 256 * rule
}
