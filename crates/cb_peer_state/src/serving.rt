ghost use Rattle.std.specs.Prelude.{◌≡◌, ◌∷◌, ◌≤◌, [], filter_map, length, IfOk, IsOk, IsOkUnless, MatchOption};
ghost use Rattle.cb_base.specs.declared.fault.Fault.TheVariants.{Memory};
ghost use Rattle.cb_wire.specs.declared.message.Message.TheVariants.{Block, BlockTxn, Tx};
ghost use Rattle.cb_peer_state.specs.Serving.{excerpt_told, lacking_in, nonce_behind, sent, served, served_as, shorts};

use crate::announcing::announce_block;
use crate::outgoing::Outgoing;
use cb_base::Fault;
use cb_pool::Candidate;
use cb_state::{BoundedBlock, Excerpt, Part, Piece, Pieces};
use cb_wire::{BlockTransactions, Entries, Inventory, Message};
use std::alloc::Global;

/// Returns the messages that answer a `getdata`: a `tx`, `block` or `cmpctblock` (BIP 152) for each
/// piece that is there, in order, and then one `notfound` with all entries that aren't there, if
/// any (this node's own order). The first `cmpctblock` is made under the nonce, and each further
/// one under the next. Transactions and blocks are shared, and a `cmpctblock` is made when it is
/// spelled.
///
/// Fails only with `Fault::Memory`, and never without pieces.
pub fn served(alloc: Global, pieces: &Pieces, nonce: u64) -> Result<Vec<Outgoing>, Fault>
    ensures messages { IfOk result (λ messages. messages.items ≡ served nonce pieces.now) }
    ensures memory { IsOkUnless result Memory }
    ensures unpaid { pieces.now ≡ [] → IsOk result }
{
    let mut messages = sent(alloc, pieces.as_slice(), nonce)?;
    let lacking = lacking(alloc, pieces.as_slice())?;
    if !lacking.is_empty() {
        messages.push(Outgoing::new(Message::NotFound(Entries::from_few(lacking))))?;
    }
    Ok(messages)
}

/// How many of the pieces are sent as a `cmpctblock`. So many nonces are used by `served`.
pub fn shorts(pieces: &Pieces) -> u64
    ensures { result ≡ shorts pieces.now }
{
    count_shorts(pieces.as_slice())
}

/// How many of the pieces are sent as a `cmpctblock`.
fn count_shorts(pieces: &[Piece]) -> u64
    ensures { result ≡ shorts pieces.now }
{
    let mut count = 0;
    for piece in pieces {
        if let Piece::Short(_) = piece {
            count += 1;
        }
    }
    count
}

/// The messages of the pieces that are there, in order. Fails only with `Fault::Memory`, and never
/// without pieces.
fn sent(alloc: Global, pieces: &[Piece], nonce: u64) -> Result<Vec<Outgoing>, Fault>
    ensures messages { IfOk result (λ messages. messages.items ≡ sent nonce pieces.now) }
    ensures memory { IsOkUnless result Memory }
    ensures unpaid { length pieces.now ≡ 0 → IsOk result }
{
    let mut messages = Vec::new(alloc);
    let mut next = nonce;
    for piece in pieces {
        let made = message_of(piece, next)?;
        next = nonce_behind(piece, next);
        if let Some(message) = made {
            messages.push(message)?;
        }
    }
    Ok(messages)
}

/// The nonce of the first `cmpctblock` behind a piece.
fn nonce_behind(piece: &Piece, nonce: u64) -> u64
    ensures { result ≡ nonce_behind nonce piece.now }
{
    match piece {
        Piece::Short(_) => nonce.wrapping_add(1),
        Piece::Tx(_) | Piece::Whole(_) | Piece::Lacking(_) => nonce,
    }
}

/// The message of a piece; `None` if it isn't there. Fails only with `Fault::Memory`.
fn message_of(piece: &Piece, nonce: u64) -> Result<Option<Outgoing>, Fault>
    ensures message { IfOk result (λ made. MatchOption made (served_as nonce piece.now ≡ [])
        (λ message. served_as nonce piece.now ≡ message ∷ [])) }
    ensures memory { IsOkUnless result Memory }
{
    match piece {
        Piece::Tx(candidate) => Ok(Some(tx_message(candidate)?)),
        Piece::Whole(block) => Ok(Some(block_message(block)?)),
        Piece::Short(block) => Ok(Some(announce_block(block, nonce)?)),
        Piece::Lacking(_) => Ok(None),
    }
}

/// The message of a transaction. Fails only with `Fault::Memory`.
fn tx_message(candidate: &Candidate) -> Result<Outgoing, Fault>
    ensures message { IfOk result (λ message. message ≡ Tx candidate.now) }
    ensures memory { IsOkUnless result Memory }
{
    let shared = candidate.tx().clone()?;
    Ok(Outgoing::new(Message::Tx(shared)))
}

/// The message of a block. Fails only with `Fault::Memory`.
fn block_message(block: &BoundedBlock) -> Result<Outgoing, Fault>
    ensures message { IfOk result (λ message. message ≡ Block block.now) }
    ensures memory { IsOkUnless result Memory }
{
    let shared = block.block().copy()?.into_block();
    Ok(Outgoing::new(Message::Block(shared)))
}

/// The entries that aren't there, in order. Fails only with `Fault::Memory`, and never if all are
/// there.
fn lacking(alloc: Global, pieces: &[Piece]) -> Result<Vec<Inventory>, Fault>
    ensures entries { IfOk result (λ entries. entries.items ≡ filter_map lacking_in pieces.now) }
    ensures few { IfOk result (λ entries. length entries.items ≤ length pieces.now) }
    ensures memory { IsOkUnless result Memory }
    ensures unpaid { filter_map lacking_in pieces.now ≡ [] → IsOk result }
{
    let mut entries = Vec::new(alloc);
    for piece in pieces {
        if let Piece::Lacking(entry) = piece {
            entries.push(*entry)?;
        }
    }
    Ok(entries)
}

/// Returns the message that answers a `getblocktxn` (BIP 152): `blocktxn` with the transactions, or
/// `block` if it is too far below the tip for single ones. There is none if the block isn't there,
/// or if it hasn't these places. Transactions and blocks are shared.
///
/// Fails only with `Fault::Memory`, and never if there is no message.
pub fn send_excerpt(alloc: Global, excerpt: &Excerpt) -> Result<Option<Outgoing>, Fault>
    ensures message { IfOk result (λ made. MatchOption made (excerpt_told excerpt.now ≡ [])
        (λ message. excerpt_told excerpt.now ≡ message ∷ [])) }
    ensures memory { IsOkUnless result Memory }
    ensures unpaid { excerpt_told excerpt.now ≡ [] → IsOk result }
{
    match excerpt {
        Excerpt::Absent | Excerpt::Refused(_) => Ok(None),
        Excerpt::Part(part) => Ok(Some(part_message(alloc, part)?)),
        Excerpt::Whole(block) => Ok(Some(block_message(block)?)),
    }
}

/// The message of a part of a block. Fails only with `Fault::Memory`.
fn part_message(alloc: Global, part: &Part) -> Result<Outgoing, Fault>
    ensures message { IfOk result (λ message. message
        ≡ BlockTxn (record { block = part.now.hash; txs = part.now.txs })) }
    ensures memory { IsOkUnless result Memory }
{
    let block = part.hash();
    // No effect when it runs: it tells the prover what the type keeps.
    let _ = block.bytes();
    let txs = part.copy(alloc)?.into_txs();
    Ok(Outgoing::new(Message::BlockTxn(BlockTransactions { block, txs })))
}
