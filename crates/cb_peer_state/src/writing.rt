ghost use Rattle.std.specs.Prelude.{◌≡◌, true, false, [], OnOk, IfOk, IfErr, IsOk};
ghost use Rattle.cb_wire.specs.Stream.{texts};
ghost use Rattle.cb_peer_state.specs.Writing.{EndsBy, IsOfSink, Wrote, WroteUntil};

use crate::message_sink::{MessageSink, WriteEnd};
use crate::outgoing::Outgoing;
use std::alloc::Global;

/// Writes messages one after another, and returns how many bytes were written, as far as the sink
/// tells. So no more than one of them is spelled at a time.
///
/// On success all were written. After an error, what was written is a beginning of their text.
/// `WriteFault::Memory`: an allocation failed for a message, those before it were written whole,
/// and nothing of it or behind it. `WriteFault::Io` and `WriteFault::Zero`: the sink has failed. No
/// messages make no write and can't fail.
pub fn write_out<W: MessageSink>(
    alloc: Global,
    writer: &mut W,
    messages: Vec<Outgoing>,
) -> Result<u64, WriteEnd>
    ensures ok { IfOk result
        (λ written. Wrote (W.contents writer.old) (W.contents writer.new)
        (texts messages.items) written []) }
    ensures err { IfErr result
        (λ end. WroteUntil (W.contents writer.old) (W.contents writer.new)
        messages.items end.written end.fault) }
    // A fault of the sink is its first failure, if it had none before. A fault of memory leaves
    // that as it was.
    ensures cause { IfErr result
        (λ end. EndsBy (W.failure writer.old) (W.failure writer.new) end.fault) }
    // A fault other than Memory means that the sink has failed.
    ensures failed { IfErr result (λ end. IsOfSink end.fault → W.has_failed writer.new ≡ true) }
    // On success no write failed in this call.
    ensures unfailed { OnOk result (W.failure writer.new ≡ W.failure writer.old) }
    ensures unmarked { OnOk result (W.has_failed writer.new ≡ W.has_failed writer.old) }
    ensures stays { W.has_failed writer.old ≡ true → W.has_failed writer.new ≡ true }
    // If the sink hadn't failed before, no write follows a failed one.
    ensures heeds { W.has_failed writer.old ≡ false → W.heeds_failure writer.old writer.new }
    // No messages make no write.
    ensures nothing { messages.items ≡ [] → IsOk result }
    ensures untouched { messages.items ≡ [] → writer.new ≡ writer.old }
{
    let mut written = 0u64;
    for message in messages {
        match writer.put(alloc, message) {
            Ok(taken) => written = written.saturating_add(taken.written()),
            Err(end) => {
                return Err(WriteEnd {
                    written: written.saturating_add(end.written),
                    fault: end.fault,
                });
            }
        }
    }
    Ok(written)
}
