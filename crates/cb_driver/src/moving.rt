ghost use Rattle.std.specs.Prelude.{◌≡◌};

use cb_control::Moved;
use cb_work::Totals;

/// What a connection moved, as a reply tells it: the same messages, payload bytes and blocks.
pub fn moved_of(totals: &Totals) -> Moved
    ensures came { (result.messages ≡ totals.now.messages)
        × (result.payload ≡ totals.now.payload) }
    ensures went { (result.sent ≡ totals.now.sent) × (result.written ≡ totals.now.written) }
    ensures blocks { (result.full ≡ totals.now.full) × (result.compact ≡ totals.now.compact)
        × (result.completed ≡ totals.now.completed) × (result.fallback ≡ totals.now.fallback)
        × (result.saved ≡ totals.now.saved) }
{
    Moved {
        messages: totals.messages,
        payload: totals.payload,
        sent: totals.sent,
        written: totals.written,
        full: totals.full,
        compact: totals.compact,
        completed: totals.completed,
        fallback: totals.fallback,
        saved: totals.saved,
    }
}
