ghost use Rattle.std.specs.Prelude.{◌≡◌, ◌+◌, ◌<◌, ◌≢◌, [], length, map, slice_index, IfOk, IsOkUnless, MatchBool};
ghost use Rattle.cb_base.specs.declared.fault.Fault.TheVariants.{Memory};
ghost use Rattle.cb_compact.specs.Differences.{Rise};
ghost use Rattle.cb_compact.specs.Forms.{places_of};
ghost use Rattle.cb_compact.specs.Placing.{IsPlaced};
ghost use Rattle.cb_compact.specs.Slots.{AreDifferent, choice, laid_out, missing, slots};
ghost use Rattle.cb_compact.specs.Tables.{IsTable, found_tx};

use crate::form::Prefilled;
use crate::named_tx::{NamedTx, Pair};
use crate::partial::{Partial, Placed, whole};
use crate::table::{Found, table_of};
use cb_base::Fault;
use cb_block::Header;
use std::alloc::Global;

/// Whether the next of the prefilled transactions, the first that was not passed yet, belongs at
/// this place.
fn is_given(prefilled: &[Prefilled], passed: usize, place: u64) -> bool
    ensures { MatchBool result
        ((passed < length prefilled.now) × (slice_index (places_of prefilled.now) passed ≡ place))
        (passed < length prefilled.now → slice_index (places_of prefilled.now) passed ≢ place) }
{
    passed < prefilled.len() && prefilled[passed].place == place
}

/// The slots of all places, in order: the prefilled transactions at their places, each hashed here,
/// and between them what was found for each short id.
fn lay_out(
    alloc: Global,
    prefilled: &[Prefilled],
    found: Vec<Found>,
) -> Result<Vec<Option<NamedTx>>, Fault>
    requires { Rise 0 (length found.items + length prefilled.now) (places_of prefilled.now) }
    ensures same { IfOk result
        (λ list. list.items ≡ laid_out 0 prefilled.now (map found_tx found.items)) }
    ensures memory { IsOkUnless result Memory }
{
    let total = found.len() + prefilled.len();
    let mut list = Vec::with_capacity(alloc, total)?;
    let mut others = found.into_iter();
    let mut passed = 0;
    for place in 0..total {
        if is_given(prefilled, passed, place as u64) {
            let tx = prefilled[passed].tx.clone()?;
            list.push(Some(NamedTx::new(alloc, tx)?))?;
            passed += 1;
            continue;
        }
        if let Some(found) = others.next() {
            list.push(found.into_tx())?;
        }
    }
    Ok(list)
}

/// The places whose slots are empty.
fn missing_of(alloc: Global, list: &[Option<NamedTx>]) -> Result<Vec<u64>, Fault>
    ensures same { IfOk result (λ places. places.items ≡ missing 0 list.now) }
    ensures memory { IsOkUnless result Memory }
{
    let mut places = Vec::new(alloc);
    for (place, slot) in list.iter().enumerate() {
        if slot.is_none() {
            places.push(place as u64)?;
        }
    }
    Ok(places)
}

/// Rebuilds a block from its compact form (BIP 152). The prefilled transactions stand at their
/// places; `ids` are the short ids of all other places, in order. `pairs` are the candidates for
/// these. Each pair is looked up once. The places of the prefilled transactions must rise, and the
/// block must have at least one transaction.
///
/// The result is `Placed::Repeat` if two short ids are equal. A place is missing if no pair has its
/// id, or several have. If no place is missing, the block is checked: `Filled::Sound` exactly if it
/// is sound under the header, else `Filled::Wrong`. The transactions of pairs are neither hashed
/// nor copied. Fails only with `Fault::Memory`.
pub fn place(
    alloc: Global,
    header: Header,
    ids: &[u64],
    prefilled: Vec<Prefilled>,
    pairs: Vec<Pair>,
) -> Result<Placed, Fault>
    requires rise { Rise 0 (length ids.now + length prefilled.items) (places_of prefilled.items) }
    requires some { 0 < length ids.now + length prefilled.items }
    ensures placed { IfOk result (IsPlaced header ids.now prefilled.items pairs.items) }
    ensures memory { IsOkUnless result Memory }
{
    let Some(table) = table_of(alloc, ids)? else {
        return Ok(Placed::Repeat);
    };
    let found = table.found_among(pairs);
    let list = lay_out(alloc, prefilled.as_slice(), found)?;
    let places = missing_of(alloc, list.as_slice())?;
    let lacking = places.as_slice().len();
    if lacking == 0 {
        return Ok(Placed::Whole(whole(alloc, header, list)?));
    }
    let partial = Partial::new(alloc, header, list, lacking);
    Ok(Placed::Missing(places, partial))
}
