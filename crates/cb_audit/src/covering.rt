//! Counts the answers that an audit compared, and those that were dropped before.
ghost use Rattle.std.specs.Prelude.{◌≡◌, ◌+◌, List, Some, length, slice_get};
ghost use Rattle.std.specs.List.{sum_by};
ghost use Rattle.cb_audit.specs.Covering.{dropped_of, left_in};
ghost use Rattle.cb_audit.specs.Order.{AuditedTrace};
ghost use Rattle.cb_audit.specs.Turns.{turns_in};

use crate::audited::Audited;
use crate::counting::granted;
use cb_hall::Connections;

/// How many answers an audit compared, of all connections.
#[derive(Clone, Copy, PartialEq, Eq)]
pub struct Compared {
    /// How many answers of the journal were compared with the traces.
    pub answers: u128,
    /// How many couldn't be compared: a checkpoint had dropped them from the hall's journal or from
    /// a trace.
    pub dropped: u128,
}

/// How many answers of a connection the journal or its trace has dropped.
fn dropped(kept: &Connections, one: &Audited) -> u64
    ensures { result ≡ dropped_of kept.now one.now }
{
    granted(kept, one.connection()).max(one.trace().before().told)
}

/// How many answers of a connection stand in both.
fn left(kept: &Connections, one: &Audited) -> u64
    ensures left { result ≡ left_in kept.now one.now }
    ensures all { one.now.trace.before.told + length (turns_in one.now.trace)
        ≡ one.now.trace.total.told }
{
    let trace = one.trace();
    // No effect when it runs: it tells the prover that the dropped answers are some of all.
    let _ = trace.entries();
    trace.total().told.saturating_sub(dropped(kept, one))
}

/// How many answers of all connections stand in both, and how many were dropped before.
pub(crate) fn covered(kept: &Connections, audited: &[Audited]) -> Compared
    ensures answers { result.answers ≡ sum_by (left_in kept.now) audited.now }
    ensures dropped { result.dropped ≡ sum_by (dropped_of kept.now) audited.now }
    ensures all { (i : _) (one : AuditedTrace) → slice_get audited.now i ≡ Some one →
        one.trace.before.told + length (turns_in one.trace) ≡ one.trace.total.told }
{
    let mut compared = Compared {
        answers: 0,
        dropped: 0,
    };
    for one in audited {
        compared.answers += u128::from(left(kept, one));
        compared.dropped += u128::from(dropped(kept, one));
    }
    compared
}
