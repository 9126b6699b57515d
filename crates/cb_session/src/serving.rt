ghost use Rattle.std.specs.Prelude.{◌≡◌, false, IfOk, IsOkUnless, OnErr};
ghost use Rattle.cb_base.specs.declared.fault.Fault.TheVariants.{Memory};
ghost use Rattle.cb_hall.specs.Histories.{Asks, IsRefused};
ghost use Rattle.cb_session.specs.Conversation.{origin_of, progress};
ghost use Rattle.cb_session.specs.Serving.{Serves};

use crate::conversation::Conversation;
use crate::hearing::Hearing;
use crate::reading::READ_SIZE;
use cb_base::{Fault, ReadEnd, Source};
use cb_hall::{Badge, Hall};
use cb_peer::Settings;
use cb_peer_state::MessageSink;
use cb_trace::{Oracle, Trace};
use cb_wire::Assembler;
use std::alloc::Global;

/// The result of serving a connection.
#[derive(Drop)]
pub struct Served {
    /// The trace: the session, and its events since the last checkpoint.
    pub trace: Trace,
    /// Why reading ended.
    pub read: ReadEnd,
    /// The number of bytes written, as far as the sink tells; `u64::MAX` if that is more.
    pub written: u64,
}

/// Serves one connection to its end: reads the peer's stream, gives its items to a session one
/// after the other, asks the hall what the session asks, and writes what it sends. The messages of
/// a step are written before its question is asked. The hall is what Bitcoin Core keeps in
/// ChainstateManager and CTxMemPool; `badge` is the connection's permit to ask it.
///
/// Fails only with `Fault::Memory`, before the first read. Reader, writer, hall and badge are then
/// unchanged.
pub fn serve<R: Source, W: MessageSink>(
    alloc: Global,
    reader: &mut R,
    writer: &mut W,
    hall: &mut Hall,
    badge: &mut Badge,
    settings: Settings,
) -> Result<Served, Fault>
    // The hall's calls grew by exactly the session's questions, in order. Each answer follows from
    // the state that the calls before it led to.
    ensures served { IfOk result
        (λ served. Serves (λ old had replies new has. Asks old new had has replies) IsRefused
        (origin_of settings hall.old badge.old (W.contents writer.old) (W.has_failed writer.old))
        (R.remaining reader.old) (R.remaining reader.new) (R.has_failed reader.new)
        (progress served.trace hall.new badge.new (W.contents writer.new)
        (W.has_failed writer.new) served.written) served.read) }
    // Once a write has failed, there is no other write.
    ensures heeds { W.has_failed writer.old ≡ false → W.heeds_failure writer.old writer.new }
    ensures memory { IsOkUnless result Memory }
    ensures unread { OnErr result (reader.new ≡ reader.old) }
    ensures unwritten { OnErr result (writer.new ≡ writer.old) }
    ensures unasked { OnErr result (hall.new ≡ hall.old) }
    ensures ungranted { OnErr result (badge.new ≡ badge.old) }
{
    serve_by(alloc, reader, writer, hall, badge, settings)
}

/// The same as `serve`, with any oracle instead of a hall: whatever answers a session's questions.
pub fn serve_by<R: Source, W: MessageSink, H: Oracle>(
    alloc: Global,
    reader: &mut R,
    writer: &mut W,
    hall: &mut H,
    badge: &mut Badge,
    settings: Settings,
) -> Result<Served, Fault>
    ensures served { IfOk result (λ served. Serves H.told H.refused
        (origin_of settings hall.old badge.old (W.contents writer.old) (W.has_failed writer.old))
        (R.remaining reader.old) (R.remaining reader.new) (R.has_failed reader.new)
        (progress served.trace hall.new badge.new (W.contents writer.new)
        (W.has_failed writer.new) served.written) served.read) }
    // Once a write has failed, there is no other write.
    ensures heeds { W.has_failed writer.old ≡ false → W.heeds_failure writer.old writer.new }
    ensures memory { IsOkUnless result Memory }
    ensures unread { OnErr result (reader.new ≡ reader.old) }
    ensures unwritten { OnErr result (writer.new ≡ writer.old) }
    ensures unasked { OnErr result (hall.new ≡ hall.old) }
    ensures ungranted { OnErr result (badge.new ≡ badge.old) }
{
    let mut buffer = vec![in alloc; 0u8; READ_SIZE]?;
    let (mut trace, messages) = Trace::with_seed(alloc, settings, hall.seed())?;
    let mut conversation = Conversation::new(&mut trace, writer, hall, badge, 0);
    conversation.send(alloc, messages);
    let mut assembler = Assembler::new(alloc);
    let mut hearing = Hearing {
        alloc,
        assembler: &mut assembler,
        conversation,
    };
    let read = hearing.hear_all(reader, buffer.as_mut_slice());
    let written = hearing.conversation.written();
    Ok(Served {
        trace,
        read,
        written,
    })
}
