ghost use Rattle.std.specs.Prelude.{◌≡◌, ◌∷◌, [], IfOk, IsOkUnless, MatchOption};
ghost use Rattle.cb_base.specs.declared.fault.Fault.TheVariants.{Memory};
ghost use Rattle.cb_peer_state.specs.Inventory.{asking_block, asking_for, asking_headers, asking_txs};

use crate::outgoing::Outgoing;
use cb_base::{Fault, Hash256};
use cb_wire::{BlockTransactionsRequest, Entries, HeadersRequest, Inventory, Locator, Message};
use std::alloc::Global;

/// Returns the message that asks for entries (`getdata`). Without entries there is none.
pub fn asking_for(entries: Entries) -> Option<Outgoing>
    ensures { MatchOption result (asking_for entries ≡ [])
        (λ message. asking_for entries ≡ message ∷ []) }
{
    if entries.as_slice().is_empty() {
        return None;
    }
    Some(Outgoing::new(Message::GetData(entries)))
}

/// Returns the message that asks for one whole block (`getdata`, type 2).
///
/// Fails only with `Fault::Memory`.
pub fn asking_block(alloc: Global, hash: Hash256) -> Result<Outgoing, Fault>
    ensures message { IfOk result (λ message. message ≡ asking_block hash) }
    ensures memory { IsOkUnless result Memory }
{
    let mut entries = Vec::with_capacity(alloc, 1)?;
    entries.push(Inventory::Block(hash))?;
    Ok(Outgoing::new(Message::GetData(Entries::from_few(entries))))
}

/// Returns the message that asks for transactions that a compact block lacks (`getblocktxn`, BIP
/// 152). No memory is allocated.
pub fn asking_txs(request: BlockTransactionsRequest) -> Outgoing
    ensures { result ≡ asking_txs request }
{
    Outgoing::new(Message::GetBlockTxn(request))
}

/// Returns the message that asks for the headers after a block locator, as many as the peer sends
/// (`getheaders`; the stop hash is zero).
pub fn asking_headers(locator: Locator) -> Outgoing
    ensures { result ≡ asking_headers locator }
{
    Outgoing::new(Message::GetHeaders(HeadersRequest {
        version: 70_014,
        locator,
        stop: Hash256([0; 32]),
    }))
}
