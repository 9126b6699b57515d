ghost use Rattle.std.specs.Prelude.{◌≡◌, Option, [], true, false, OnOk, IfOk, IfErr, IsOkUnless};
ghost use Rattle.cb_base.specs.declared.fault.Fault.TheVariants as faults;
ghost use Rattle.cb_base.specs.Bytes.{first};
ghost use Rattle.cb_base.specs.declared.sink.SinkFailure.{SinkFailure};
ghost use Rattle.cb_wire.specs.Envelope.{text};
ghost use Rattle.cb_peer_state.specs.Writing.{EndsBy, IsOfSink, Wrote, WrotePart};

use crate::outgoing::Outgoing;
use crate::receipt::Receipt;
use cb_base::{Fault, Out, Sink, SinkFailure, write_all};
use std::alloc::Global;
use std::io::Write;
use thiserror::Error;

/// Why writing messages stopped.
#[derive(Clone, Copy, Debug, PartialEq, Eq, Error)]
pub enum WriteFault {
    /// A write failed.
    #[error("a write failed")]
    Io,
    /// A write of at least one byte took none.
    #[error("a write took no byte")]
    Zero,
    /// An allocation failed before anything of a message was written.
    #[error("memory ran out")]
    Memory,
}

/// How far writing messages came, and why it stopped.
#[derive(Clone, Copy, Debug, PartialEq, Eq, Error)]
#[error("{fault} behind {written} bytes")]
pub struct WriteEnd {
    /// How many bytes were written.
    pub written: u64,
    /// Why no more were written.
    pub fault: WriteFault,
}

/// Where a connection's messages go, one after another.
///
/// A sink that takes bytes spells each message at once. Another one may keep messages, and spell
/// each when its turn comes; it tells no bytes.
pub trait MessageSink: Sink {
    /// Writes the envelope of a message behind all earlier ones, and returns that it was taken,
    /// with how many bytes were written, as far as the sink can tell. A sink that keeps messages
    /// tells 0.
    ///
    /// After an error, a beginning of the envelope was written. `WriteFault::Memory`: an allocation
    /// failed, nothing was written, and the sink is unchanged. `WriteFault::Io` and
    /// `WriteFault::Zero`: the sink has failed.
    fn put(&mut self, alloc: Global, message: Outgoing) -> Result<Receipt, WriteEnd>
        ensures taken { IfOk result (λ taken. taken.message ≡ message) }
        ensures ok { IfOk result (λ taken. Wrote (Self.contents self.old) (Self.contents self.new)
            (text message) taken.written []) }
        ensures err { IfErr result
            (λ end. WrotePart (Self.contents self.old) (Self.contents self.new)
            (text message) end.written) }
        // A fault of the sink is its first failure, if it had none before. A fault of memory leaves
        // that as it was.
        ensures cause { IfErr result
            (λ end. EndsBy (Self.failure self.old) (Self.failure self.new) end.fault) }
        ensures failed { IfErr result
            (λ end. IsOfSink end.fault → Self.has_failed self.new ≡ true) }
        ensures starved { IfErr result (λ end. end.fault ≡ WriteFault.Memory →
            (end.written ≡ 0) × (self.new ≡ self.old)) }
        // On success no write failed in this call.
        ensures unfailed { OnOk result (Self.failure self.new ≡ Self.failure self.old) }
        ensures unmarked { OnOk result (Self.has_failed self.new ≡ Self.has_failed self.old) }
        ensures stays { Self.has_failed self.old ≡ true → Self.has_failed self.new ≡ true }
        // If the sink hadn't failed before, no write follows a failed one.
        ensures heeds { Self.has_failed self.old ≡ false → Self.heeds_failure self.old self.new };
}

impl<W: Write> MessageSink for Out<W> {
    fn put(&mut self, alloc: Global, message: Outgoing) -> Result<Receipt, WriteEnd> {
        spell_to(alloc, self, &message)
    }
}

/// Spells a message and writes it to a sink of bytes, as `MessageSink::put` tells.
pub fn spell_to<W: Sink>(
    alloc: Global,
    writer: &mut W,
    message: &Outgoing,
) -> Result<Receipt, WriteEnd>
    ensures taken { IfOk result (λ taken. taken.message ≡ message.now) }
    ensures ok { IfOk result (λ taken. Wrote (W.contents writer.old) (W.contents writer.new)
        (text message.now) taken.written []) }
    ensures err { IfErr result (λ end. WrotePart (W.contents writer.old) (W.contents writer.new)
        (text message.now) end.written) }
    ensures cause { IfErr result
        (λ end. EndsBy (W.failure writer.old) (W.failure writer.new) end.fault) }
    ensures failed { IfErr result (λ end. IsOfSink end.fault → W.has_failed writer.new ≡ true) }
    ensures starved { IfErr result (λ end. end.fault ≡ WriteFault.Memory →
        (end.written ≡ 0) × (writer.new ≡ writer.old)) }
    ensures unfailed { OnOk result (W.failure writer.new ≡ W.failure writer.old) }
    ensures unmarked { OnOk result (W.has_failed writer.new ≡ W.has_failed writer.old) }
    ensures stays { W.has_failed writer.old ≡ true → W.has_failed writer.new ≡ true }
    ensures heeds { W.has_failed writer.old ≡ false → W.heeds_failure writer.old writer.new }
{
    let Ok(text) = text_of(alloc, message) else {
        return Err(WriteEnd {
            written: 0,
            fault: WriteFault::Memory,
        });
    };
    match write_all(writer, text.as_slice()) {
        Ok(()) => Ok(Receipt::new(message, text.len() as u64)),
        Err(end) => Err(WriteEnd {
            written: end.taken as u64,
            fault: fault_of(end.failure),
        }),
    }
}

/// The envelope of a message. Fails only with `Fault::Memory`.
fn text_of(alloc: Global, message: &Outgoing) -> Result<Vec<u8>, Fault>
    ensures text { IfOk result (λ spelled. spelled.items ≡ text message.now) }
    ensures memory { IsOkUnless result faults.Memory }
{
    let mut spelled = Vec::new(alloc);
    message.spell(alloc, &mut spelled)?;
    Ok(spelled)
}

/// The `WriteFault` of a sink's failure.
fn fault_of(failure: SinkFailure) -> WriteFault
    ensures cause { (old new : Option SinkFailure) → new ≡ first old failure →
        EndsBy old new result }
    ensures sink { IsOfSink result }
{
    match failure {
        SinkFailure::Io => WriteFault::Io,
        SinkFailure::Zero => WriteFault::Zero,
    }
}
