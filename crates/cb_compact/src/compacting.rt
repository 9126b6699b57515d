ghost use Rattle.std.specs.Prelude.{◌≡◌, ◌≢◌, ◌<◌, length, map, slice_get, slice_index, All, IfOk, IsOkUnless, MatchBool, Some};
ghost use Rattle.cb_base.specs.declared.fault.Fault.TheVariants.{Memory};
ghost use Rattle.cb_compact.specs.Differences.{Rise};
ghost use Rattle.cb_compact.specs.Forms.{IsCompact, left_out, places_of};
ghost use Rattle.cb_compact.specs.ShortIds.{short_id_of};

use crate::form::{Compact, Prefilled};
use crate::short_ids::{key, short_id};
use cb_base::{Fault, Hash256, Shared};
use cb_block::{SoundBlock, Tx};
use std::alloc::Global;

/// Whether `place` is the next of the places: the first that was not passed yet.
fn is_next(places: &[u64], passed: usize, place: u64) -> bool
    ensures { MatchBool result
        ((passed < length places.now) × (slice_index places.now passed ≡ place))
        (passed < length places.now → slice_index places.now passed ≢ place) }
{
    passed < places.len() && places[passed] == place
}

/// The short ids of the txids at all places but these, in order.
fn ids_outside(
    alloc: Global,
    key: (u64, u64),
    txids: &[Hash256],
    places: &[u64],
) -> Result<Vec<u64>, Fault>
    requires { Rise 0 (length txids.now) places.now }
    ensures same { IfOk result
        (λ ids. ids.items ≡ map (short_id_of key) (left_out 0 places.now txids.now)) }
    ensures memory { IsOkUnless result Memory }
{
    let mut ids = Vec::with_capacity(alloc, txids.len())?;
    let mut passed = 0;
    for (place, txid) in txids.iter().enumerate() {
        if is_next(places, passed, place as u64) {
            passed += 1;
            continue;
        }
        ids.push(short_id(key, txid))?;
    }
    Ok(ids)
}

/// The transactions at these places as prefilled transactions. They are shared, not copied.
fn prefilled_at(alloc: Global, txs: &[Shared<Tx>], places: &[u64]) -> Result<Vec<Prefilled>, Fault>
    requires { Rise 0 (length txs.now) places.now }
    ensures places { IfOk result (λ prefilled. places_of prefilled.items ≡ places.now) }
    ensures whole { IfOk result
        (λ prefilled. All
        (λ given. slice_get txs.now given.place ≡ Some given.tx) prefilled.items) }
    ensures memory { IsOkUnless result Memory }
{
    let mut prefilled = Vec::with_capacity(alloc, places.len())?;
    for place in places {
        let tx = txs[*place as usize].clone()?;
        prefilled.push(Prefilled { place: *place, tx })?;
    }
    Ok(prefilled)
}

/// Returns the compact form of a block under a nonce (BIP 152). The transactions at `places` are
/// prefilled; all others have short ids. The places must rise and be below the number of
/// transactions. Which ones are prefilled is the caller's choice.
///
/// Fails only with `Fault::Memory`.
pub fn compact(
    alloc: Global,
    block: &SoundBlock,
    nonce: u64,
    places: &[u64],
) -> Result<Compact, Fault>
    requires { Rise 0 (length block.now.txs) places.now }
    ensures form { IfOk result (IsCompact block.now nonce places.now) }
    ensures memory { IsOkUnless result Memory }
{
    let header = block.block().header;
    let ids = ids_outside(alloc, key(&header, nonce), block.txids(), places)?;
    let prefilled = prefilled_at(alloc, block.block().txs.as_slice(), places)?;
    Ok(Compact {
        header,
        nonce,
        ids,
        prefilled,
    })
}
