//! How a session handles the hall's answers: one arm for each kind of answer. The hall is what
//! Bitcoin Core keeps in ChainstateManager and CTxMemPool.
ghost use Rattle.std.specs.Prelude.{◌≡◌, [], ◌∷◌, ◌≤◌, None, Option, Some, filter, filter_map, false, if◌then◌else◌, length, not, IfOk, IsOk, IsOkUnless};
ghost use Rattle.std.specs.List.{list_any};
ghost use Rattle.cb_base.specs.DoubleHash.{double_hash};
ghost use Rattle.cb_chain.specs.Entries.{same};
ghost use Rattle.cb_block.specs.TxText.{tx_text};
ghost use Rattle.cb_base.specs.declared.fault.Fault.TheVariants.{BadWork, Memory};
ghost use Rattle.cb_peer_state.specs.Announcing.{telling};
ghost use Rattle.cb_peer_state.specs.Inventory.{asking_for, asking_headers};
ghost use Rattle.cb_wire.specs.declared.message.Message.TheVariants as messages;
ghost use Rattle.cb_wire.specs.declared.item.Item.{Item};
ghost use Rattle.cb_peer_state.specs.declared.stage.Stage.TheVariants as stages;
ghost use Rattle.cb_peer_state.specs.declared.stage.Subject.{Subject};
ghost use Rattle.cb_hall.specs.declared.answer.Answer.TheVariants as answers;
ghost use Rattle.cb_peer_state.specs.Outcomes.{IsLightOutcome, Makes, as_list};
ghost use Rattle.cb_peer_state.specs.Session.{weighs_answer, weighs_at, weighs_child, weighs_txids};
ghost use Rattle.cb_peer_state.specs.Receiving.{ends};
ghost use Rattle.cb_peer_state.specs.Replying.{before_first, differ, header_in, heads_for, heads_told, is_block, is_leave, is_untold, more_headers, need_told, news_told, replied, served_told, taken_told, tip_made, tip_told, tx_request, txs_told, wanted_told, wish_told};
ghost use Rattle.cb_peer_state.specs.State.{unless_remembered};

use crate::compact_replying::{answer_places, hear_given, hear_pairs, hear_short_heads, short_in};
use cb_base::{Fault, Hash256, Shared};
use cb_block::{Header, Tx};
use cb_hall::Answer;
use cb_peer_state::{
    CloseReason, Outgoing, Reaction, SessionState, Stage, announce_block, announce_tip,
    announce_txs, asking_for, asking_headers, hash_of_last, locator_of, one_message, push_some,
    served, shorts, wish,
};
use cb_state::{Heads, Need, News, Pieces, Taken, Txids};
use cb_wire::{Entries, HeaderList, Inventory, Item, Listed, Locator, Message};
use std::alloc::Global;

/// The most headers in one message. After a full message there may be more.
const MOST_HEADERS: usize = 2_000;

/// Handles an answer that fits the question asked for an item, unless it is the hall's leave to
/// process the item. Fails only with `Fault::Memory`.
#[tactic(auto, unfolding(cb_peer_state::specs::Replying::replied))]
pub fn reply(
    session: &mut SessionState,
    alloc: Global,
    item: &Option<Shared<Item>>,
    stage: &Stage,
    answer: &Answer,
) -> Result<Reaction, Fault>
    requires { is_leave stage.now answer.now ≡ false }
    ensures ok { IfOk result
        (λ made. Makes (replied session.old item.now stage.now answer.now)
        item.now session.new made.messages.items made.next) }
    ensures memory { IsOkUnless result Memory }
    ensures calm { answer.now ≡ answers.Kicked → IsOk result }
    // Only an answer that lists missing blocks or needed entries is worked through, and only a
    // compact block and a transaction beside others that are new are hashed.
    ensures silent { weighs_at session.old item.now stage.now answer.now ≡ false →
        IsLightOutcome (replied session.old item.now stage.now answer.now) → IsOk result }
{
    if let Answer::Kicked = answer {
        return Ok(session.end_by(alloc, CloseReason::Kicked));
    }
    match stage {
        Stage::Admit => Ok(Reaction::nothing(alloc)),
        Stage::About(_) => hear_about(session, alloc, item, answer),
        Stage::Match => match answer {
            Answer::Pairs(pairs) => hear_pairs(session, alloc, item, pairs),
            _ => Ok(Reaction::nothing(alloc)),
        },
        Stage::Give(block) => match answer {
            Answer::Taken(taken) => hear_given(session, alloc, &block.block().header, taken),
            _ => Ok(Reaction::nothing(alloc)),
        },
        Stage::Wanted => match answer {
            Answer::Need(need) => hear_wanted(session, alloc, need),
            _ => Ok(Reaction::nothing(alloc)),
        },
        Stage::Fresh => match answer {
            Answer::News(news) => hear_news(session, alloc, item, news),
            _ => Ok(Reaction::nothing(alloc)),
        },
    }
}

/// Handles the hall's answer about an item.
#[tactic(auto, unfolding(cb_peer_state::specs::Replying::replied))]
#[inline(never)]
fn hear_about(
    session: &mut SessionState,
    alloc: Global,
    item: &Option<Shared<Item>>,
    answer: &Answer,
) -> Result<Reaction, Fault>
    ensures ok { (subject : Subject) → IfOk result
        (λ made. Makes (replied session.old item.now (stages.About subject) answer.now)
        item.now session.new made.messages.items made.next) }
    ensures memory { IsOkUnless result Memory }
    ensures silent { (subject : Subject) →
        weighs_at session.old item.now (stages.About subject) answer.now ≡ false →
        IsLightOutcome (replied session.old item.now (stages.About subject) answer.now) →
        IsOk result }
{
    match answer {
        Answer::Heads(heads) => hear_heads(session, alloc, item, heads),
        Answer::Locator(locator) => ask_headers(session, alloc, locator),
        Answer::Need(need) => hear_need(session, alloc, need),
        Answer::TxTaken(_) => session.end(alloc, Vec::new(alloc)),
        Answer::Taken(taken) => hear_taken(session, alloc, item, taken),
        Answer::Served(pieces) => send_served(session, alloc, pieces),
        Answer::Following(headers) => send_headers(session, alloc, headers),
        Answer::Kicked => Ok(session.end_by(alloc, CloseReason::Kicked)),
        Answer::Excerpt(excerpt) => answer_places(session, alloc, excerpt),
        Answer::Go | Answer::News(_) | Answer::Pairs(_) => Ok(Reaction::nothing(alloc)),
    }
}

/// Answers `getdata`: sends what the hall has, and one `notfound` of what it lacks. Each compact
/// block has a nonce of its own (BIP 152).
#[tactic(auto, unfolding(cb_peer_state::specs::Replying::served_told))]
fn send_served(
    session: &mut SessionState,
    alloc: Global,
    pieces: &Pieces,
) -> Result<Reaction, Fault>
    ensures ok { (item : Option Item) →
        IfOk result (λ made. Makes
        (served_told session.old pieces.now) item session.new made.messages.items made.next) }
    ensures memory { IsOkUnless result Memory }
    ensures silent { IsLightOutcome (served_told session.old pieces.now) → IsOk result }
{
    let messages = if pieces.as_slice().is_empty() {
        Vec::new(alloc)
    } else {
        served(alloc, pieces, session.next_nonce())?
    };
    session.count_made(shorts(pieces));
    session.end(alloc, messages)
}

/// Answers `getheaders`.
fn send_headers(
    session: &SessionState,
    alloc: Global,
    headers: &HeaderList,
) -> Result<Reaction, Fault>
    ensures ok { (item : Option Item) →
        IfOk result (λ made. Makes
        (ends session.now
        (messages.Headers headers.now ∷ [])) item session.now made.messages.items made.next) }
    ensures memory { IsOkUnless result Memory }
{
    let message = Outgoing::new(Message::Headers(headers.copy(alloc)?));
    let messages = one_message(alloc, message)?;
    session.end(alloc, messages)
}

/// Requests the headers after a locator, at the end of an item, unless the session remembers a
/// header. Fails only with `Fault::Memory`.
fn ask_headers(session: &SessionState, alloc: Global, locator: &Locator) -> Result<Reaction, Fault>
    ensures ok { (item : Option Item) →
        IfOk result (λ made. Makes
        (ends session.now (unless_remembered session.now (asking_headers locator.now ∷ [])))
        item session.now made.messages.items made.next) }
    ensures memory { IsOkUnless result Memory }
    ensures silent { IsLightOutcome
        (ends session.now (unless_remembered session.now (asking_headers locator.now ∷ []))) →
        IsOk result }
{
    if session.remembers() {
        return session.end(alloc, Vec::new(alloc));
    }
    let messages = one_message(alloc, asking_headers(locator.copy(alloc)?))?;
    session.end(alloc, messages)
}

/// Handles the hall's answer about headers, or about the header of a compact block.
#[tactic(auto, unfolding(cb_peer_state::specs::Replying::heads_told))]
fn hear_heads(
    session: &mut SessionState,
    alloc: Global,
    item: &Option<Shared<Item>>,
    heads: &Heads,
) -> Result<Reaction, Fault>
    ensures ok { IfOk result
        (λ made. Makes (heads_told session.old item.now heads.now)
        item.now session.new made.messages.items made.next) }
    ensures memory { IsOkUnless result Memory }
    ensures calm { heads.now.refused ≡ Some BadWork → IsOk result }
    ensures silent { weighs_answer (answers.Heads heads.now) ≡ false →
        IsLightOutcome (heads_told session.old item.now heads.now) → IsOk result }
{
    match short_in(item) {
        Some(short) => hear_short_heads(session, alloc, short, heads),
        None => hear_headers(session, alloc, item, heads),
    }
}

/// Handles the result of `headers`. Blocks of accepted headers that we don't have are queued
/// for download, as far as there is room. A header without proof of work ends the session. For an
/// unknown parent headers are requested, if they may be. Any other result answers such a request.
fn hear_headers(
    session: &mut SessionState,
    alloc: Global,
    item: &Option<Shared<Item>>,
    heads: &Heads,
) -> Result<Reaction, Fault>
    ensures ok { IfOk result
        (λ made. Makes (heads_for session.old item.now None heads.now)
        item.now session.new made.messages.items made.next) }
    ensures memory { IsOkUnless result Memory }
    ensures calm { heads.now.refused ≡ Some BadWork → IsOk result }
    ensures silent { weighs_answer (answers.Heads heads.now) ≡ false →
        IsLightOutcome (heads_for session.old item.now None heads.now) → IsOk result }
{
    if heads.refused == Some(Fault::BadWork) {
        return Ok(session.end_by(alloc, CloseReason::BadBlock));
    }
    session.want(heads.lack.as_slice(), before_first(item))?;
    match heads.refused {
        None => {
            session.unknown = false;
            let messages = request_behind(session, alloc, item)?;
            session.end(alloc, messages)
        }
        Some(fault) if fault == Fault::NoParent => session.end_seeking(alloc, &heads.locator),
        Some(_) => {
            session.unknown = false;
            session.end(alloc, Vec::new(alloc))
        }
    }
}

/// Handles the result of `block`. A block already known is ignored. One whose parent is unknown
/// waits for it, or headers are requested. Any other refusal ends the session.
#[tactic(auto, unfolding(cb_peer_state::specs::Replying::taken_told))]
fn hear_taken(
    session: &mut SessionState,
    alloc: Global,
    item: &Option<Shared<Item>>,
    taken: &Taken,
) -> Result<Reaction, Fault>
    ensures ok { IfOk result
        (λ made. Makes
        (taken_told session.old (header_in item.now) taken.now.refused taken.now.locator)
        item.now session.new made.messages.items made.next) }
    ensures memory { IsOkUnless result Memory }
    ensures silent { weighs_child session.old (header_in item.now) taken.now.refused ≡ false →
        IsLightOutcome
        (taken_told session.old (header_in item.now) taken.now.refused taken.now.locator) →
        IsOk result }
{
    match taken.refused {
        None => session.end(alloc, Vec::new(alloc)),
        Some(fault) if fault == Fault::Known => session.end(alloc, Vec::new(alloc)),
        Some(fault) if fault == Fault::NoParent => {
            session.end_orphaned(alloc, header_in(item), &taken.locator)
        }
        Some(_) => Ok(session.end_by(alloc, CloseReason::BadBlock)),
    }
}

/// The header of the block that an item brought, if it did.
fn header_in(item: &Option<Shared<Item>>) -> Option<Header>
    ensures { result ≡ header_in item.now }
{
    let Some(shared) = item else {
        return None;
    };
    let Item::Good(bounded) = &**shared else {
        return None;
    };
    let Message::Block(block) = bounded.message() else {
        return None;
    };
    Some(block.header)
}

/// Handles the result of `inv`: requests the wanted transactions, and headers if a block is
/// wanted.
#[tactic(auto, unfolding(cb_peer_state::specs::Replying::need_told))]
fn hear_need(session: &mut SessionState, alloc: Global, need: &Need) -> Result<Reaction, Fault>
    ensures ok { (item : Option Item) →
        IfOk result (λ made. Makes
        (need_told session.old need.now) item session.new made.messages.items made.next) }
    ensures memory { IsOkUnless result Memory }
    ensures silent { weighs_answer (answers.Need need.now) ≡ false →
        IsLightOutcome (need_told session.old need.now) → IsOk result }
{
    let mut messages = Vec::new(alloc);
    push_some(&mut messages, requests_of_txs(alloc, &need.entries)?)?;
    let found = names_block(need.entries.as_slice());
    push_some(&mut messages, session.seek(alloc, found, &need.locator)?)?;
    session.end(alloc, messages)
}

/// Requests the queued blocks that are still needed, at most 16. One alone on top of the tip is
/// requested as a compact block (type 4, BIP 152) of a peer that knows them, others whole (type 2).
#[tactic(auto, unfolding(cb_peer_state::specs::Replying::wanted_told))]
#[inline(never)]
fn hear_wanted(session: &mut SessionState, alloc: Global, need: &Need) -> Result<Reaction, Fault>
    ensures ok { (item : Option Item) →
        IfOk result (λ made. Makes
        (wanted_told session.old need.now) item session.new made.messages.items made.next) }
    ensures memory { IsOkUnless result Memory }
    ensures silent { weighs_answer (answers.Need need.now) ≡ false →
        IsLightOutcome (wanted_told session.old need.now) → IsOk result }
{
    session.fetch.take_on(need.entries.as_slice())?;
    let compact = need.near && session.peer.capable;
    let mut messages = Vec::new(alloc);
    push_some(
        &mut messages,
        asking_for(session.fetch.flight_entries(alloc, compact)?),
    )?;
    Ok(Reaction {
        messages,
        next: Some(session.look()),
    })
}

/// Announces news: the tip and transactions. A peer that knows compact blocks is told when it is to
/// announce blocks by them (BIP 152, `sendcmpct`), and when no longer.
#[tactic(auto, unfolding(cb_peer_state::specs::Replying::news_told))]
#[inline(never)]
fn hear_news(
    session: &mut SessionState,
    alloc: Global,
    item: &Option<Shared<Item>>,
    news: &News,
) -> Result<Reaction, Fault>
    ensures ok { IfOk result
        (λ made. Makes (news_told session.old item.now news.now)
        item.now session.new made.messages.items made.next) }
    ensures memory { IsOkUnless result Memory }
    ensures silent { weighs_txids item.now news.now.txids ≡ false →
        IsLightOutcome (news_told session.old item.now news.now) → IsOk result }
{
    let mut messages = Vec::new(alloc);
    push_some(&mut messages, told_tip(session, alloc, news)?)?;
    push_some(&mut messages, told_txs(session, alloc, item, &news.txids)?)?;
    push_some(&mut messages, told_wish(session, news.high))?;
    let made = tip_made(session, news);
    session.marks.tip = Some(news.tip);
    session.marks.next = news.next;
    session.count_made(made);
    if session.peer.capable {
        session.compact.asked_high = news.high;
    }
    Ok(Reaction::sends(messages))
}

/// Whether a new tip isn't announced: there is none, or it is the last block heard of from the
/// peer.
fn is_untold(session: &SessionState, news: &News) -> bool
    ensures { result ≡ is_untold session.now news.now }
{
    news.path.as_slice().is_empty() || session.marks.heard == Some(news.tip)
}

/// The number of compact blocks made to announce a new tip.
fn tip_made(session: &SessionState, news: &News) -> u64
    ensures { result ≡ tip_made session.now news.now }
{
    if is_untold(session, news) {
        return 0;
    }
    match &news.block {
        None => 0,
        Some(_) => 1,
    }
}

/// How the peer is told that it is to announce blocks as compact blocks, or no longer, if that
/// changed.
fn told_wish(session: &SessionState, high: bool) -> Option<Outgoing>
    ensures { as_list result ≡ wish_told session.now high }
{
    if session.peer.capable && differ(high, session.compact.asked_high) {
        Some(wish(high))
    } else {
        None
    }
}

/// Whether two answers to a question differ.
fn differ(one: bool, other: bool) -> bool
    ensures { result ≡ differ one other }
{
    if one { !other } else { other }
}

/// The announcement of a new tip, unless the peer announced it: by its block as a compact block
/// where the hall gave it (BIP 152), else by headers or its hash.
fn told_tip(session: &SessionState, alloc: Global, news: &News) -> Result<Option<Outgoing>, Fault>
    ensures message { IfOk result (λ made. as_list made ≡ tip_told session.now news.now) }
    ensures memory { IsOkUnless result Memory }
    ensures silent { tip_told session.now news.now ≡ [] → IsOk result }
{
    if is_untold(session, news) {
        return Ok(None);
    }
    if let Some(block) = &news.block {
        return Ok(Some(announce_block(block, session.next_nonce())?));
    }
    announce_tip(
        alloc,
        session.peer.by_headers && !news.long,
        news.tip,
        &news.path,
    )
}

/// The request for more headers, if the message had 2,000, unless the session remembers a header.
/// Fails only with `Fault::Memory`, and never if nothing is requested.
fn request_behind(
    session: &SessionState,
    alloc: Global,
    item: &Option<Shared<Item>>,
) -> Result<Vec<Outgoing>, Fault>
    ensures messages { IfOk result
        (λ made. made.items ≡ unless_remembered session.now (more_headers item.now)) }
    ensures memory { IsOkUnless result Memory }
    ensures silent { unless_remembered session.now (more_headers item.now) ≡ [] → IsOk result }
{
    if session.remembers() {
        return Ok(Vec::new(alloc));
    }
    request_more(alloc, item)
}

/// The hash of the header before the first of a message, if the item brought headers.
fn before_first(item: &Option<Shared<Item>>) -> Option<Hash256>
    ensures { result ≡ before_first item.now }
{
    let Some(shared) = item else {
        return None;
    };
    let Item::Good(bounded) = &**shared else {
        return None;
    };
    let Message::Headers(headers) = bounded.message() else {
        return None;
    };
    match headers.as_slice().first() {
        None => None,
        Some(header) => Some(header.prev),
    }
}

/// The request for more headers, if the message had 2,000. Fails only with `Fault::Memory`.
fn request_more(alloc: Global, item: &Option<Shared<Item>>) -> Result<Vec<Outgoing>, Fault>
    ensures messages { IfOk result (λ made. made.items ≡ more_headers item.now) }
    ensures memory { IsOkUnless result Memory }
    ensures silent { more_headers item.now ≡ [] → IsOk result }
{
    let Some(shared) = item else {
        return Ok(Vec::new(alloc));
    };
    let Item::Good(bounded) = &**shared else {
        return Ok(Vec::new(alloc));
    };
    let Message::Headers(headers) = bounded.message() else {
        return Ok(Vec::new(alloc));
    };
    let list = headers.as_slice();
    if list.len() != MOST_HEADERS {
        return Ok(Vec::new(alloc));
    }
    let Some(hash) = hash_of_last(list) else {
        return Ok(Vec::new(alloc));
    };
    one_message(alloc, asking_headers(locator_of(alloc, hash)?))
}

/// The `getdata` for the transactions among the entries, if any. Fails only with `Fault::Memory`,
/// and never if there are no entries.
fn requests_of_txs(alloc: Global, entries: &Entries) -> Result<Option<Outgoing>, Fault>
    ensures message { IfOk result
        (λ made. as_list made ≡ asking_for (filter_map tx_request entries.now)) }
    ensures memory { IsOkUnless result Memory }
    ensures unpaid { entries.now ≡ [] → IsOk result }
{
    let wanted = tx_requests(alloc, entries.as_slice())?;
    Ok(asking_for(Entries::from_few(wanted)))
}

/// The `getdata` entries for the transactions among the entries. Fails only with `Fault::Memory`,
/// and never if there are no entries.
fn tx_requests(alloc: Global, entries: &[Inventory]) -> Result<Vec<Inventory>, Fault>
    ensures wanted { IfOk result (λ made. made.items ≡ filter_map tx_request entries.now) }
    ensures few { IfOk result (λ made. length made.items ≤ length entries.now) }
    ensures memory { IsOkUnless result Memory }
    ensures unpaid { entries.now ≡ [] → IsOk result }
{
    let mut wanted = Vec::new(alloc);
    for entry in entries {
        if let Inventory::Tx(_) = entry {
            wanted.push(*entry)?;
        }
    }
    Ok(wanted)
}

/// Whether an entry names a block.
fn names_block(entries: &[Inventory]) -> bool
    ensures { result ≡ list_any is_block entries.now }
{
    entries
        .iter()
        .any(|entry| matches!(entry, Inventory::Block(_)))
}

/// The announcement of the transactions, without the one that the item brought, if any are left and
/// the peer wants them announced (BIP 37). Fails only with `Fault::Memory`.
fn told_txs(
    session: &SessionState,
    alloc: Global,
    item: &Option<Shared<Item>>,
    txids: &Txids,
) -> Result<Option<Outgoing>, Fault>
    ensures message { IfOk result
        (λ made. as_list made ≡ txs_told session.now item.now txids.now) }
    ensures memory { IsOkUnless result Memory }
    ensures silent { weighs_txids item.now txids.now ≡ false →
        txs_told session.now item.now txids.now ≡ [] → IsOk result }
{
    if !session.peer.relays || txids.as_slice().is_empty() {
        return Ok(None);
    }
    let Some(shared) = item else {
        return announce_txs(alloc, txids);
    };
    let Item::Good(bounded) = &**shared else {
        return announce_txs(alloc, txids);
    };
    let Message::Tx(tx) = bounded.message() else {
        return announce_txs(alloc, txids);
    };
    told_beside(alloc, tx, txids)
}

/// The announcement of the transactions other than this one, if any. Fails only with
/// `Fault::Memory`.
fn told_beside(alloc: Global, tx: &Tx, txids: &Txids) -> Result<Option<Outgoing>, Fault>
    ensures message { IfOk result
        (λ made. as_list made
        ≡ telling (filter (λ txid. not (same (double_hash (tx_text tx.now)) txid)) txids.now)) }
    ensures memory { IsOkUnless result Memory }
{
    let brought = tx.txid(alloc)?;
    let others = without(alloc, txids, &brought)?;
    announce_all(alloc, &others)
}

/// The announcement of the transactions, if any. Fails only with `Fault::Memory`.
fn announce_all(alloc: Global, txids: &Txids) -> Result<Option<Outgoing>, Fault>
    ensures message { IfOk result (λ made. as_list made ≡ telling txids.now) }
    ensures memory { IsOkUnless result Memory }
{
    announce_txs(alloc, txids)
}

/// The txids without this one. Fails only with `Fault::Memory`.
fn without(alloc: Global, txids: &Txids, brought: &Hash256) -> Result<Txids, Fault>
    ensures others { IfOk result
        (λ others. others ≡ filter (λ txid. not (same brought.now txid)) txids.now) }
    ensures memory { IsOkUnless result Memory }
{
    let others = all_without(alloc, txids.as_slice(), brought)?;
    Ok(Listed::from_few(others))
}

/// The same for a slice. Fails only with `Fault::Memory`.
fn all_without(alloc: Global, txids: &[Hash256], brought: &Hash256) -> Result<Vec<Hash256>, Fault>
    ensures others { IfOk result
        (λ others. others.items ≡ filter (λ txid. not (same brought.now txid)) txids.now) }
    ensures few { IfOk result (λ others. length others.items ≤ length txids.now) }
    ensures memory { IsOkUnless result Memory }
{
    let mut others = Vec::new(alloc);
    for txid in txids {
        if *brought != *txid {
            others.push(*txid)?;
        }
    }
    Ok(others)
}
