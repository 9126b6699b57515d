ghost use Rattle.std.specs.Prelude.{◌≡◌, true, false, IfOk, IsOkUnless, MatchResult};
ghost use Rattle.cb_base.specs.declared.fault.Fault.TheVariants.{BadIndex, Memory};
ghost use Rattle.cb_compact.specs.Places.{has_places, placed_from};

use crate::form::Prefilled;
use cb_base::Fault;
use cb_wire::CompactTxs;
use std::alloc::Global;

/// Checks that the prefilled transactions of a compact block have places in it (BIP 152): each
/// index to which their differences lead is below the number of short ids and prefilled
/// transactions together. Allocates nothing.
///
/// Fails only with `Fault::BadIndex`, exactly if one isn't.
#[tactic(auto, unfolding(crate::specs::Places::has_places))]
pub fn check_places(txs: &CompactTxs) -> Result<(), Fault>
    ensures { MatchResult result (λ _. has_places txs.now ≡ true)
        (λ fault. (fault ≡ BadIndex) × (has_places txs.now ≡ false)) }
{
    let prefilled = txs.prefilled();
    let total = (txs.ids().len() + prefilled.len()) as u64;
    let mut least: u64 = 0;
    for given in prefilled {
        match least.checked_add(given.difference) {
            Some(place) if place < total => least = place + 1,
            _ => return Err(Fault::BadIndex),
        }
    }
    Ok(())
}

/// The prefilled transactions with their places. Fails only with `Fault::Memory`.
#[tactic(auto, unfolding(crate::specs::Places::has_places))]
pub(crate) fn placed(alloc: Global, txs: &CompactTxs) -> Result<Vec<Prefilled>, Fault>
    requires { has_places txs.now ≡ true }
    ensures same { IfOk result (λ list. list.items ≡ placed_from 0 txs.now.prefilled) }
    ensures memory { IsOkUnless result Memory }
{
    let prefilled = txs.prefilled();
    let mut list = Vec::with_capacity(alloc, prefilled.len())?;
    let mut least = 0;
    for given in prefilled {
        let place = least + given.difference;
        let tx = given.tx.clone()?;
        list.push(Prefilled { place, tx })?;
        least = place + 1;
    }
    Ok(list)
}
