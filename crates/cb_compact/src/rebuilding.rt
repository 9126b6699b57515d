ghost use Rattle.std.specs.Prelude.{◌≡◌, ◌≤◌, ◌⊎◌, true, false, length, IfErr, IfOk, IsOkUnless};
ghost use Rattle.cb_base.specs.declared.fault.Fault.TheVariants.{BadIndex, Memory};
ghost use Rattle.cb_compact.specs.Slots.{missing};
ghost use Rattle.cb_compact.specs.HonestMessages.{told_whole};
ghost use Rattle.cb_compact.specs.Places.{has_places};
ghost use Rattle.cb_compact.specs.Rebuilding.{rebuilt_of, request_of};
ghost use Rattle.cb_compact.specs.declared.rebuilding.Rebuilt.TheVariants.{Lacking};

use crate::difference::differ;
use crate::named_tx::Pair;
use crate::pairs::Pairs;
use crate::partial::{Filled, Partial, Placed};
use crate::places::{check_places, placed};
use crate::placing::place;
use cb_base::Fault;
use cb_block::SoundBlock;
use cb_wire::{BlockTransactionsRequest, Differences, HeaderAndShortIds};
use std::alloc::Global;

/// The result of rebuilding a block from a compact block.
#[derive(Drop)]
pub enum Rebuilt {
    /// The whole block, which is sound.
    Sound(SoundBlock),
    /// The incomplete block, and the request for its missing transactions.
    Lacking(Partial, BlockTransactionsRequest),
    /// Two places have the same short id, or the whole list isn't sound under the header. The block
    /// has to be requested whole.
    Useless,
}

/// The result for a list without empty places.
fn whole(filled: Filled) -> Rebuilt
    ensures { result ≡ told_whole filled }
{
    match filled {
        Filled::Sound(block) => Rebuilt::Sound(block),
        Filled::Wrong => Rebuilt::Useless,
    }
}

/// An incomplete block with its request. Fails only with `Fault::Memory`.
#[tactic(auto, unfolding(crate::specs::Rebuilding::request_of))]
fn lacking(alloc: Global, partial: Partial, places: &[u64]) -> Result<Rebuilt, Fault>
    requires exact { places.now ≡ missing 0 partial.slots }
    requires few { length partial.slots ≤ 16666 }
    ensures told { IfOk result (λ rebuilt. rebuilt ≡ Lacking partial (request_of partial)) }
    ensures memory { IsOkUnless result Memory }
{
    let differences = Differences::from_few(differ(alloc, places)?);
    let block = partial.header().hash();
    Ok(Rebuilt::Lacking(partial, BlockTransactionsRequest { block, differences }))
}

/// Rebuilds the block of a `cmpctblock` (BIP 152) as `rebuild` does, with the same errors, from
/// pairs that are given as a list.
pub fn rebuild_from(
    alloc: Global,
    message: &HeaderAndShortIds,
    list: Vec<Pair>,
) -> Result<Rebuilt, Fault>
    ensures rebuilt { IfOk result (λ rebuilt. (has_places message.now.txs ≡ true)
        × (rebuilt ≡ rebuilt_of message.now list.items)) }
    ensures refused { IfErr result
        (λ fault. ((fault ≡ Memory) × (has_places message.now.txs ≡ true))
        ⊎ ((fault ≡ BadIndex) × (has_places message.now.txs ≡ false))) }
{
    check_places(&message.txs)?;
    let prefilled = placed(alloc, &message.txs)?;
    let found = place(alloc, message.header, message.txs.ids(), prefilled, list)?;
    match found {
        Placed::Whole(filled) => Ok(whole(filled)),
        Placed::Missing(places, partial) => lacking(alloc, partial, places.as_slice()),
        Placed::Repeat => Ok(Rebuilt::Useless),
    }
}

/// Rebuilds the block of a `cmpctblock` (BIP 152) from its prefilled transactions and from pairs:
/// transactions of the mempool with their short ids. Prefilled transactions are hashed; those of
/// pairs are neither hashed nor copied.
///
/// Returns `Rebuilt::Useless` if two ids are equal. If a place is empty, it returns
/// `Rebuilt::Lacking`, whose request names exactly the empty places. Otherwise it returns
/// `Rebuilt::Sound` if the list is sound under the header, and else `Rebuilt::Useless`.
///
/// Fails with `Fault::BadIndex` exactly if a prefilled transaction has no place (`check_places`),
/// which allocates nothing, and otherwise only with `Fault::Memory`.
pub fn rebuild(alloc: Global, message: &HeaderAndShortIds, pairs: &Pairs) -> Result<Rebuilt, Fault>
    ensures rebuilt { IfOk result (λ rebuilt. (has_places message.now.txs ≡ true)
        × (rebuilt ≡ rebuilt_of message.now pairs.now)) }
    ensures refused { IfErr result
        (λ fault. ((fault ≡ Memory) × (has_places message.now.txs ≡ true))
        ⊎ ((fault ≡ BadIndex) × (has_places message.now.txs ≡ false))) }
{
    let txs = &message.txs;
    check_places(txs)?;
    let list = pairs.list(alloc)?;
    rebuild_from(alloc, message, list)
}
