//! The command `serve`: one peer's connection over standard input and output. The hall of the
//! connection is what Bitcoin Core keeps in ChainstateManager and CTxMemPool; the badge is the
//! connection's permit to ask it.

ghost use Rattle.std.specs.Prelude.{◌≡◌, ◌⊎◌, true, List, [], ◌∷◌, ◌++◌, OnOk, OnErr, IfSome, IsOkUnless};
ghost use Rattle.std.specs.Io.KnownBytes.{Appends};
ghost use Rattle.cb_hall.specs.Journal.{new_journal};
ghost use Rattle.cb_hall.specs.Badge.{BadgeState, first_of, fresh_badge};
ghost use Rattle.cb_peer_state.specs.State.{is_closed};
ghost use Rattle.cb_peer_state.specs.declared.state.CloseReason.{CloseReason};
ghost use Rattle.cb_peer_state.specs.declared.state.CloseReason.TheVariants as reasons;
ghost use Rattle.cb_peer_state.specs.declared.state.State.TheVariants.{Closed};
ghost use Rattle.cb_control.specs.declared.ending.Halt.TheVariants.{WriteFailed};
ghost use Rattle.cb_command.specs.Peer.{WasServed, PeerEnds, closed_text, peer_end, reason_status};

use cb_base::{Seed, Sink, Source};
use cb_control::{Halt, Status, write_all};
use cb_peer_state::MessageSink;
use cb_session::{Badge, CloseReason, Hall, Settings, State, serve};
use std::alloc::Global;

/// The session's settings. The peer made the connection. The rest is fixed, so that a run can be
/// repeated.
const SETTINGS: Settings = Settings {
    inbound: true,
    nonce: 1,
    time: 0,
    height: 0,
    salt: 0,
};

/// Serves a peer until its session is over, and prints the reason on standard error. The tables of
/// its hall have this seed.
///
/// Fails if a read or a write failed. If memory runs out, the session ends and the status says so.
pub fn serve_peer<R: Source, W: MessageSink, E: Sink>(
    alloc: Global,
    seed: Seed,
    reader: &mut R,
    writer: &mut W,
    errors: &mut E,
) -> Result<Status, Halt>
    // The connection was served to its end. Or memory ran out before the first read, and nothing
    // was read or written. In both cases the reason is printed.
    ensures { (reason : CloseReason)
        × (WasServed (R.remaining reader.old) (R.remaining reader.new) (R.has_failed reader.new)
        (W.contents writer.old) (W.contents writer.new) (W.has_failed writer.old)
        (W.has_failed writer.new) reason
        ⊎ ((reason ≡ reasons.Memory) × (reader.new ≡ reader.old) × (writer.new ≡ writer.old)))
        × PeerEnds (R.has_failed reader.new) (W.has_failed writer.new) (E.contents errors.old)
        (E.contents errors.new) (E.has_failed errors.new) reason result }
{
    let reason = connection(alloc, seed, reader, writer);
    tell_closed(errors, reason)?;
    end_of(reader, writer, reason)
}

/// Serves the connection with a hall of its own. If memory runs out before the first read, the
/// reason is `Memory`, as it is later.
fn connection<R: Source, W: MessageSink>(
    alloc: Global,
    seed: Seed,
    reader: &mut R,
    writer: &mut W,
) -> CloseReason
    ensures { WasServed (R.remaining reader.old) (R.remaining reader.new) (R.has_failed reader.new)
        (W.contents writer.old) (W.contents writer.new) (W.has_failed writer.old)
        (W.has_failed writer.new) result
        ⊎ ((result ≡ reasons.Memory) × (reader.new ≡ reader.old) × (writer.new ≡ writer.old)) }
{
    let Some((mut hall, mut badge)) = new_node(alloc, seed) else {
        return CloseReason::Memory;
    };
    let reason = converse(alloc, reader, writer, &mut hall, &mut badge);
    drop(hall);
    reason
}

/// A new hall whose tables have this seed, and the badge of its only peer, or `None` if memory runs
/// out.
fn new_node(alloc: Global, seed: Seed) -> Option<(Hall, Badge)>
    ensures hall { IfSome result (λ made. made.0 ≡ new_journal) }
    ensures badge { IfSome result (λ made. made.1 ≡ fresh_badge (first_of 0)) }
{
    let Ok((hall, badges)) = Hall::with_seed(alloc, 1, seed) else {
        return None;
    };
    let Some(badge) = last_of(badges) else {
        drop(hall);
        return None;
    };
    Some((hall, badge))
}

/// The last of the badges.
fn last_of(mut badges: Vec<Badge>) -> Option<Badge>
    ensures { IfSome result
        (λ badge. (front : List BadgeState) × (badges.items ≡ front ++ badge ∷ [])) }
{
    badges.pop()
}

/// Serves the connection with a new hall. Returns the reason why the session ended.
fn converse<R: Source, W: MessageSink>(
    alloc: Global,
    reader: &mut R,
    writer: &mut W,
    hall: &mut Hall,
    badge: &mut Badge,
) -> CloseReason
    requires hall { hall.old ≡ new_journal }
    requires badge { badge.old ≡ fresh_badge (first_of 0) }
    ensures { WasServed (R.remaining reader.old) (R.remaining reader.new) (R.has_failed reader.new)
        (W.contents writer.old) (W.contents writer.new) (W.has_failed writer.old)
        (W.has_failed writer.new) result
        ⊎ ((result ≡ reasons.Memory) × (reader.new ≡ reader.old) × (writer.new ≡ writer.old)) }
{
    match serve(alloc, reader, writer, hall, badge, SETTINGS) {
        Ok(served) => reason_of(served.trace.state()),
        Err(_) => CloseReason::Memory,
    }
}

/// Prints why the session is over, such as `closed Bye`. Fails only if the write failed.
fn tell_closed<E: Sink>(errors: &mut E, reason: CloseReason) -> Result<(), Halt>
    ensures told { OnOk result
        (Appends (E.contents errors.old) (E.contents errors.new) (closed_text reason)) }
    ensures failed { IsOkUnless result WriteFailed }
    ensures marked { OnErr result (E.has_failed errors.new ≡ true) }
{
    write_all(errors, b"closed ")?;
    write_all(errors, reason.name().as_bytes())?;
    write_all(errors, b"\n")
}

/// How the run ends. A failed read or write counts before the reason of the session.
fn end_of<R: Source, W: Sink>(reader: &R, writer: &W, reason: CloseReason) -> Result<Status, Halt>
    ensures { result ≡ peer_end (R.has_failed reader.now) (W.has_failed writer.now) reason }
{
    if reader.failed() {
        return Err(Halt::ReadFailed);
    }
    if writer.failed() {
        return Err(Halt::WriteFailed);
    }
    Ok(status_of(reason))
}

/// The reason of a session that is over.
fn reason_of(state: State) -> CloseReason
    requires { is_closed state ≡ true }
    ensures { state ≡ Closed result }
{
    match state {
        State::Closed(reason) => reason,
        State::Start | State::Greeted | State::Ready => unreachable!(),
    }
}

/// The exit status of a run whose session ended for this reason.
fn status_of(reason: CloseReason) -> Status
    ensures { result ≡ reason_status reason }
{
    match reason {
        CloseReason::Bye => Status::Success,
        CloseReason::Memory => Status::NoMemory,
        CloseReason::BadStream
        | CloseReason::BadMessage
        | CloseReason::BadBlock
        | CloseReason::BadRequest
        | CloseReason::OldPeer
        | CloseReason::SelfPeer
        | CloseReason::Kicked
        | CloseReason::TraceFull
        | CloseReason::HallFull
        | CloseReason::WriteFault => Status::RunFailed,
    }
}
