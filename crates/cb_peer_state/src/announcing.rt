ghost use Rattle.std.specs.Prelude.{◌≡◌, ◌∷◌, ◌≤◌, [], length, map, IfOk, IsOk, IsOkUnless, MatchOption};
ghost use Rattle.cb_base.specs.declared.fault.Fault.TheVariants.{Memory};
ghost use Rattle.cb_peer_state.specs.Announcing.{announcing, announcing_block, telling, tx_entry};

use crate::outgoing::Outgoing;
use cb_base::{Fault, Hash256};
use cb_state::{Announced, BoundedBlock, Txids};
use cb_wire::{Entries, HeaderList, Inventory, Message};
use std::alloc::Global;

/// Returns the message that announces a new tip. It holds the new headers (`headers`, BIP 130) if
/// `by_headers`, or else the tip's hash (`inv`). Without new headers there is no message.
///
/// Fails only with `Fault::Memory`, and never if there is no message.
pub fn announce_tip(
    alloc: Global,
    by_headers: bool,
    tip: Hash256,
    path: &Announced,
) -> Result<Option<Outgoing>, Fault>
    ensures message { IfOk result
        (λ made. MatchOption made (announcing by_headers tip path.now ≡ [])
        (λ message. announcing by_headers tip path.now ≡ message ∷ [])) }
    ensures memory { IsOkUnless result Memory }
    ensures unpaid { announcing by_headers tip path.now ≡ [] → IsOk result }
{
    let headers = path.as_slice();
    if headers.is_empty() {
        return Ok(None);
    }
    if by_headers {
        let headers = Vec::from_slice(alloc, headers)?;
        return Ok(Some(Outgoing::new(Message::Headers(HeaderList::from_few(headers)))));
    }
    let mut entries = Vec::with_capacity(alloc, 1)?;
    entries.push(Inventory::Block(tip))?;
    Ok(Some(Outgoing::new(Message::Inv(Entries::from_few(entries)))))
}

/// Returns the message that announces a block by itself (`cmpctblock`, BIP 152): its first
/// transaction whole, and short ids of all others under the nonce. The block is shared, and the
/// message is made when it is spelled.
///
/// Fails only with `Fault::Memory`, if the block's count of owners is full.
pub fn announce_block(block: &BoundedBlock, nonce: u64) -> Result<Outgoing, Fault>
    ensures message { IfOk result (λ message. message ≡ announcing_block block.now nonce) }
    ensures memory { IsOkUnless result Memory }
{
    Ok(Outgoing::short(block.block().copy()?, nonce))
}

/// Returns the message that announces transactions (`inv`). Without transactions there is no
/// message.
///
/// Fails only with `Fault::Memory`, and never if there is no message.
pub fn announce_txs(alloc: Global, txids: &Txids) -> Result<Option<Outgoing>, Fault>
    ensures message { IfOk result
        (λ made. MatchOption made (telling txids.now ≡ [])
        (λ message. telling txids.now ≡ message ∷ [])) }
    ensures memory { IsOkUnless result Memory }
    ensures unpaid { telling txids.now ≡ [] → IsOk result }
{
    if txids.as_slice().is_empty() {
        return Ok(None);
    }
    let entries = tx_entries(alloc, txids.as_slice())?;
    Ok(Some(Outgoing::new(Message::Inv(Entries::from_few(entries)))))
}

/// The inventory entries of transactions, in order. Fails only with `Fault::Memory`.
fn tx_entries(alloc: Global, txids: &[Hash256]) -> Result<Vec<Inventory>, Fault>
    ensures entries { IfOk result (λ entries. entries.items ≡ map tx_entry txids.now) }
    ensures memory { IsOkUnless result Memory }
{
    let mut entries = Vec::with_capacity(alloc, txids.len())?;
    for txid in txids {
        entries.push(Inventory::Tx(*txid))?;
    }
    Ok(entries)
}
