//! How a session handles its peer's messages: one arm for each message.
ghost use Rattle.std.specs.Prelude.{◌≡◌, ◌≤◌, [], ◌∷◌, List, Option, None, Some, length, false, IfOk, IsOk, IsOkUnless};
ghost use Rattle.cb_block.specs.declared.header.Header.{Header};
ghost use Rattle.cb_base.specs.declared.fault.Fault.TheVariants.{Memory};
ghost use Rattle.cb_wire.specs.declared.item.Item.{Item};
ghost use Rattle.cb_wire.specs.declared.item.Item.TheVariants.{Good};
ghost use Rattle.cb_wire.specs.declared.message.Message.TheVariants as messages;
ghost use Rattle.cb_peer_state.specs.Questions.{is_known_type, told_of};
ghost use Rattle.cb_peer_state.specs.Outcomes.{IsLightOutcome, Makes};
ghost use Rattle.cb_peer_state.specs.Session.{weighs_admitted, weighs_heard, weighs_ready};
ghost use Rattle.cb_peer_state.specs.Receiving.{brought, by_compact, given_up, gives_up, greeting, in_greeted, in_ready, in_start, introduced, processed, received};

use crate::compact_receiving::{ask_places, hear_short, hear_txs};
use cb_base::{Fault, Hash256, Shared};
use cb_block::{Block, Header, sound_of};
use cb_hall::{GivenBlock, Question, Request};
use cb_peer_state::{
    CloseReason, Fetch, Outgoing, Reaction, SessionState, Settings, State, Subject, hash_of_last,
    one_message, our_version, wishes,
};
use cb_wire::{
    CompactRelay, Entries, HeaderList, HeadersRequest, Inventory, Item, Message, Version,
};
use std::alloc::Global;

/// The oldest protocol version that a peer may speak (own).
const OLDEST_VERSION: i32 = 70_001;

/// Processes an item or a tick that the hall admitted. Fails only with `Fault::Memory`.
#[tactic(auto, unfolding(cb_peer_state::specs::Receiving::processed))]
pub fn process(
    session: &mut SessionState,
    alloc: Global,
    item: &Option<Shared<Item>>,
) -> Result<Reaction, Fault>
    ensures ok { IfOk result
        (λ made. Makes
        (processed session.old item.now) item.now session.new made.messages.items made.next) }
    ensures memory { IsOkUnless result Memory }
    // Only a block that has transactions, none of 64 bytes, and the transactions of the block that
    // is being rebuilt are hashed, both once the handshake is complete.
    ensures silent { weighs_admitted session.old item.now ≡ false →
        IsLightOutcome (processed session.old item.now) →
        IsOk result }
{
    let Some(shared) = item else {
        return session.end(alloc, Vec::new(alloc));
    };
    match &**shared {
        Item::Good(message) => receive(session, alloc, message.message()),
        Item::Damaged => session.end(alloc, Vec::new(alloc)),
        Item::Bad(_, _) => Ok(session.end_by(alloc, CloseReason::BadMessage)),
    }
}

/// Handles a message. A `ping` is answered with its `pong` at any time (BIP 31; before the
/// handshake: own).
#[tactic(auto, unfolding(cb_peer_state::specs::Receiving::received))]
#[inline(never)]
fn receive(session: &mut SessionState, alloc: Global, message: &Message) -> Result<Reaction, Fault>
    ensures ok { IfOk result
        (λ made. Makes (received session.old message.now)
        (Some (Good message.now)) session.new made.messages.items made.next) }
    ensures memory { IsOkUnless result Memory }
    ensures silent { weighs_heard session.old.state session.old message.now ≡ false →
        IsLightOutcome (received session.old message.now) → IsOk result }
{
    if let Message::Ping(nonce) = message {
        let pong = one_message(alloc, Outgoing::new(Message::Pong(*nonce)))?;
        return session.end(alloc, pong);
    }
    match session.state {
        State::Start => hear_first(session, alloc, message),
        State::Greeted => hear_greeted(session, alloc, message),
        State::Ready => hear_ready(session, alloc, message),
        State::Closed(_) => Ok(Reaction::nothing(alloc)),
    }
}

/// Handles a message before the peer's `version` has come. Anything but a `version` is ignored.
#[tactic(auto, unfolding(cb_peer_state::specs::Receiving::in_start))]
#[inline(never)]
fn hear_first(
    session: &mut SessionState,
    alloc: Global,
    message: &Message,
) -> Result<Reaction, Fault>
    ensures ok { (item : Option Item) →
        IfOk result (λ made. Makes
        (in_start session.old message.now) item session.new made.messages.items made.next) }
    ensures memory { IsOkUnless result Memory }
    ensures silent { IsLightOutcome (in_start session.old message.now) → IsOk result }
{
    match message {
        Message::Version(version) => greet(session, alloc, version),
        Message::Verack
        | Message::Ping(_)
        | Message::Pong(_)
        | Message::SendHeaders
        | Message::SendCmpct(_)
        | Message::Inv(_)
        | Message::GetData(_)
        | Message::NotFound(_)
        | Message::Headers(_)
        | Message::GetHeaders(_)
        | Message::Tx(_)
        | Message::Block(_)
        | Message::CmpctBlock(_)
        | Message::GetBlockTxn(_)
        | Message::BlockTxn(_)
        | Message::Unknown(_, _) => Ok(Reaction::nothing(alloc)),
    }
}

/// Handles the peer's `version`. The session ends if the nonce is our own, so that we are
/// connected to ourselves, or if the version is too old. Otherwise it is noted, and whether the
/// peer wants transactions to be announced (BIP 37), and the greeting is sent.
#[tactic(auto, unfolding(cb_peer_state::specs::Receiving::introduced))]
fn greet(session: &mut SessionState, alloc: Global, version: &Version) -> Result<Reaction, Fault>
    ensures ok { (item : Option Item) →
        IfOk result (λ made. Makes
        (introduced session.old version.now) item session.new made.messages.items made.next) }
    ensures memory { IsOkUnless result Memory }
    ensures silent { IsLightOutcome (introduced session.old version.now) → IsOk result }
{
    if version.nonce == session.settings.nonce {
        return Ok(session.end_by(alloc, CloseReason::SelfPeer));
    }
    if version.version < OLDEST_VERSION {
        return Ok(session.end_by(alloc, CloseReason::OldPeer));
    }
    let messages = greeting_of(alloc, session.settings)?;
    session.state = State::Greeted;
    session.peer.version = version.version;
    session.peer.relays = version.relay;
    Ok(Reaction::sends(messages))
}

/// Handles a message between the peer's `version` and its `verack`. `verack` completes the
/// handshake; `sendheaders` and `sendcmpct` are noted. Anything else is ignored.
#[tactic(auto, unfolding(cb_peer_state::specs::Receiving::in_greeted))]
#[inline(never)]
fn hear_greeted(
    session: &mut SessionState,
    alloc: Global,
    message: &Message,
) -> Result<Reaction, Fault>
    ensures ok { IfOk result
        (λ made. Makes (in_greeted session.old message.now)
        (Some (Good message.now)) session.new made.messages.items made.next) }
    ensures memory { IsOkUnless result Memory }
    ensures silent { IsLightOutcome (in_greeted session.old message.now) → IsOk result }
{
    match message {
        Message::Verack => {
            let messages = wishes(alloc, session.peer.version)?;
            session.state = State::Ready;
            Ok(Reaction {
                messages,
                ..Reaction::about(alloc, Subject::Locator, Question::Locator)
            })
        }
        Message::SendHeaders => {
            session.peer.by_headers = true;
            Ok(Reaction::nothing(alloc))
        }
        Message::SendCmpct(relay) => {
            note_compact(session, *relay);
            Ok(Reaction::nothing(alloc))
        }
        Message::Version(_)
        | Message::Ping(_)
        | Message::Pong(_)
        | Message::Inv(_)
        | Message::GetData(_)
        | Message::NotFound(_)
        | Message::Headers(_)
        | Message::GetHeaders(_)
        | Message::Tx(_)
        | Message::Block(_)
        | Message::CmpctBlock(_)
        | Message::GetBlockTxn(_)
        | Message::BlockTxn(_)
        | Message::Unknown(_, _) => Ok(Reaction::nothing(alloc)),
    }
}

/// Notes a `sendcmpct` of version 1. Another version is ignored (BIP 152).
fn note_compact(session: &mut SessionState, relay: CompactRelay)
    ensures { session.new ≡ by_compact relay session.old }
{
    if relay.version == 1 {
        session.peer.capable = true;
        session.peer.wants_high = relay.high_bandwidth;
    }
}

/// Handles a message once the handshake is complete.
#[tactic(auto, unfolding(cb_peer_state::specs::Receiving::in_ready))]
#[inline(never)]
fn hear_ready(
    session: &mut SessionState,
    alloc: Global,
    message: &Message,
) -> Result<Reaction, Fault>
    ensures ok { IfOk result
        (λ made. Makes (in_ready session.old message.now)
        (Some (Good message.now)) session.new made.messages.items made.next) }
    ensures memory { IsOkUnless result Memory }
    ensures silent { weighs_ready session.old message.now ≡ false →
        IsLightOutcome (in_ready session.old message.now) → IsOk result }
{
    match message {
        Message::SendHeaders => {
            session.peer.by_headers = true;
            session.end(alloc, Vec::new(alloc))
        }
        Message::SendCmpct(relay) => {
            note_compact(session, *relay);
            session.end(alloc, Vec::new(alloc))
        }
        Message::Headers(headers) => hear_headers(session, alloc, headers),
        Message::Inv(entries) => hear_inventory(session, alloc, entries),
        Message::GetData(entries) => ask_items(session, alloc, entries),
        Message::GetHeaders(request) => ask_after(session, alloc, request),
        Message::NotFound(entries) => {
            give_up(&mut session.fetch, entries.as_slice());
            session.end(alloc, Vec::new(alloc))
        }
        Message::Tx(tx) => Ok(Reaction::about(alloc, Subject::Tx, Question::GiveTx(tx.clone()?))),
        Message::Block(block) => bring(session, alloc, block),
        Message::CmpctBlock(short) => hear_short(session, alloc, short),
        Message::GetBlockTxn(request) => ask_places(session, alloc, request),
        Message::BlockTxn(given) => hear_txs(session, alloc, given),
        Message::Version(_)
        | Message::Verack
        | Message::Ping(_)
        | Message::Pong(_)
        | Message::Unknown(_, _) => session.end(alloc, Vec::new(alloc)),
    }
}

/// Handles `headers`: notes the last one as heard from the peer and asks the hall which blocks
/// are missing. An empty list leads to neither. It answers a request for what is unknown.
#[tactic(auto, unfolding(cb_peer_state::specs::Receiving::in_ready))]
fn hear_headers(
    session: &mut SessionState,
    alloc: Global,
    headers: &HeaderList,
) -> Result<Reaction, Fault>
    ensures ok { IfOk result
        (λ made. Makes (in_ready session.old (messages.Headers headers.now))
        (Some (Good (messages.Headers headers.now))) session.new made.messages.items made.next) }
    ensures memory { IsOkUnless result Memory }
    ensures silent { IsLightOutcome (in_ready session.old (messages.Headers headers.now)) →
        IsOk result }
{
    let Some(hash) = hash_of_last(headers.as_slice()) else {
        session.unknown = false;
        return session.end(alloc, Vec::new(alloc));
    };
    let list = headers.copy(alloc)?;
    session.marks.heard = Some(hash);
    Ok(Reaction::about(alloc, Subject::Headers, Question::Headers(list)))
}

/// Handles `inv`: asks the hall which of its transactions and blocks are wanted, if it names
/// any.
#[tactic(auto, unfolding(cb_peer_state::specs::Receiving::in_ready))]
fn hear_inventory(
    session: &mut SessionState,
    alloc: Global,
    entries: &Entries,
) -> Result<Reaction, Fault>
    ensures ok { IfOk result
        (λ made. Makes (in_ready session.old (messages.Inv entries.now))
        (Some (Good (messages.Inv entries.now))) session.new made.messages.items made.next) }
    ensures memory { IsOkUnless result Memory }
    ensures silent { IsLightOutcome (in_ready session.old (messages.Inv entries.now)) →
        IsOk result }
{
    let known = known_of(alloc, entries)?;
    if known.as_slice().is_empty() {
        return session.end(alloc, Vec::new(alloc));
    }
    Ok(Reaction::about(alloc, Subject::Inventory, Question::Want(known)))
}

/// Handles `getdata`: asks the hall for what it names. Fails only with `Fault::Memory`.
#[tactic(auto, unfolding(cb_peer_state::specs::Receiving::in_ready))]
fn ask_items(session: &SessionState, alloc: Global, entries: &Entries) -> Result<Reaction, Fault>
    ensures ok { IfOk result
        (λ made. Makes (in_ready session.now (messages.GetData entries.now))
        (Some (Good (messages.GetData entries.now))) session.now made.messages.items made.next) }
    ensures memory { IsOkUnless result Memory }
{
    let asked = entries.copy(alloc)?;
    Ok(Reaction::about(
        alloc,
        Subject::Items,
        Question::Serve(Request::Items(asked)),
    ))
}

/// Handles `getheaders`: asks the hall for the headers after its locator. Fails only with
/// `Fault::Memory`.
#[tactic(auto, unfolding(cb_peer_state::specs::Receiving::in_ready))]
fn ask_after(
    session: &SessionState,
    alloc: Global,
    request: &HeadersRequest,
) -> Result<Reaction, Fault>
    ensures ok { IfOk result
        (λ made. Makes (in_ready session.now (messages.GetHeaders request.now))
        (Some (Good (messages.GetHeaders request.now))) session.now
        made.messages.items made.next) }
    ensures memory { IsOkUnless result Memory }
{
    let locator = request.locator.copy(alloc)?;
    Ok(Reaction::about(
        alloc,
        Subject::After,
        Question::Serve(Request::After(locator, request.stop)),
    ))
}

/// Handles `block`. If it isn't sound (no transaction, one of 64 bytes, equal neighbours in its
/// Merkle tree, or another root than its header's), the session ends and the hall isn't given the
/// block. Otherwise the block is no longer in flight and goes to the hall.
///
/// Fails only with `Fault::Memory`, and never for a block without transactions or with one of 64
/// bytes.
#[tactic(auto, unfolding(cb_peer_state::specs::Receiving::brought))]
fn bring(
    session: &mut SessionState,
    alloc: Global,
    block: &Shared<Block>,
) -> Result<Reaction, Fault>
    ensures ok { IfOk result
        (λ made. Makes (brought session.old block.now)
        (Some (Good (messages.Block block.now))) session.new made.messages.items made.next) }
    ensures memory { IsOkUnless result Memory }
    ensures silent { weighs_ready session.old (messages.Block block.now) ≡ false → IsOk result }
{
    let Some(sound) = sound_of(alloc, block)? else {
        return Ok(session.end_by(alloc, CloseReason::BadBlock));
    };
    let hash = block.header.hash();
    session.marks.heard = Some(hash);
    session.fetch.land(&hash);
    if session.compact.is_partial(&hash) {
        session.compact.partial = None;
    }
    Ok(Reaction::about(
        alloc,
        Subject::Block,
        Question::GiveBlock(GivenBlock {
            block: sound,
            capable: session.peer.capable,
        }),
    ))
}

/// The answer to the peer's `version`: `verack`, and before it our `version` if the peer made the
/// connection. Fails only with `Fault::Memory`.
fn greeting_of(alloc: Global, settings: Settings) -> Result<Vec<Outgoing>, Fault>
    ensures messages { IfOk result (λ made. made.items ≡ greeting settings) }
    ensures memory { IsOkUnless result Memory }
{
    let mut made = Vec::with_capacity(alloc, 2)?;
    if settings.inbound {
        made.push(our_version(alloc, settings.nonce, settings.time, settings.height)?)?;
    }
    made.push(Outgoing::new(Message::Verack))?;
    Ok(made)
}

/// The entries that name a transaction or a block. Fails only with `Fault::Memory`, and never if
/// there is no such entry.
fn known_of(alloc: Global, entries: &Entries) -> Result<Entries, Fault>
    ensures entries { IfOk result (λ made. made ≡ told_of entries.now) }
    ensures memory { IsOkUnless result Memory }
    ensures unpaid { told_of entries.now ≡ [] → IsOk result }
{
    let made = all_known(alloc, entries.as_slice())?;
    Ok(Entries::from_few(made))
}

/// The same for a slice.
fn all_known(alloc: Global, entries: &[Inventory]) -> Result<Vec<Inventory>, Fault>
    ensures entries { IfOk result (λ made. made.items ≡ told_of entries.now) }
    ensures few { IfOk result (λ made. length made.items ≤ length entries.now) }
    ensures memory { IsOkUnless result Memory }
    ensures unpaid { told_of entries.now ≡ [] → IsOk result }
{
    let mut made = Vec::new(alloc);
    for entry in entries {
        if is_known(*entry) {
            made.push(*entry)?;
        }
    }
    Ok(made)
}

/// Whether the entry names a transaction or a block: types 1 and 2.
fn is_known(entry: Inventory) -> bool
    ensures { result ≡ is_known_type entry }
{
    match entry {
        Inventory::Tx(_) | Inventory::Block(_) => true,
        Inventory::CompactBlock(_) | Inventory::Other(_, _) => false,
    }
}

/// Blocks of a `notfound` are no longer in flight.
fn give_up(fetch: &mut Fetch, entries: &[Inventory])
    ensures { fetch.new ≡ given_up entries.now fetch.old }
{
    for entry in entries {
        give_one_up(fetch, *entry);
    }
}

/// The same for one entry.
fn give_one_up(fetch: &mut Fetch, entry: Inventory)
    ensures { fetch.new ≡ gives_up fetch.old entry }
{
    match entry {
        Inventory::Block(hash) => fetch.land(&hash),
        Inventory::CompactBlock(hash) => fetch.land(&hash),
        Inventory::Tx(_) | Inventory::Other(_, _) => {}
    }
}
