//! Rebuilding the block of a compact block from transactions whose txids are known.
ghost use Rattle.std.specs.Prelude.{◌≡◌, ◌⊎◌, true, filter, length, nat_eq, IfOk, IsOkUnless, MatchResult, Ok, Err};
ghost use Rattle.std.specs.HashSet.{contains};
ghost use Rattle.cb_base.specs.declared.fault.Fault.{Fault};
ghost use Rattle.cb_base.specs.declared.fault.Fault.TheVariants.{Memory};
ghost use Rattle.cb_wire.specs.CompactBlocks.{CompactBlockTakesMemory, compact_block_count_at};
ghost use Rattle.cb_compact.specs.Places.{has_places};
ghost use Rattle.cb_compact.specs.Rebuilding.{rebuilt_of};
ghost use Rattle.cb_relay.specs.Known.{known_in, told_among, told_pairs};

use crate::rebuilding::{CompactOutcome, answer_for, rebuilt_by};
use crate::whole::{whole_form, whole_txs};
use cb_base::{Fault, Hash256, Shared};
use cb_block::Tx;
use cb_compact::{IdSeed, NamedTx, Pair, Rebuilt, key, short_id, short_id_set};
use cb_wire::HeaderAndShortIds;
use std::alloc::Global;
use std::collections::HashSet;

/// The transactions whose told txids have a short id that is wanted, in order, each with that id.
/// Only they are hashed.
fn paired(
    alloc: Global,
    key: (u64, u64),
    txids: &[Hash256],
    txs: &[Shared<Tx>],
    wanted: &HashSet<u64, IdSeed>,
) -> Result<Vec<Pair>, Fault>
    requires { length txids.now ≡ length txs.now }
    ensures pairs { IfOk result
        (λ list. list.items
        ≡ filter (λ pair. contains nat_eq wanted.now pair.id)
        (told_pairs key txids.now txs.now)) }
    ensures memory { IsOkUnless result Memory }
{
    let mut list = Vec::new(alloc);
    for (place, txid) in txids.iter().enumerate() {
        let id = short_id(key, txid);
        if wanted.contains(&id) {
            let tx = NamedTx::new(alloc, txs[place].clone()?)?;
            list.push(Pair { id, tx })?;
        }
    }
    Ok(list)
}

/// Rebuilds the block of a compact block from transactions and as many told txids.
fn rebuilt_known(
    alloc: Global,
    form: &HeaderAndShortIds,
    txids: &[Hash256],
    txs: &[Shared<Tx>],
) -> Result<Rebuilt, Fault>
    requires places { has_places form.now.txs ≡ true }
    requires counted { length txids.now ≡ length txs.now }
    ensures rebuilt { IfOk result
        (λ rebuilt. rebuilt ≡ rebuilt_of form.now (told_among form.now txids.now txs.now)) }
    ensures memory { IsOkUnless result Memory }
{
    let wanted = short_id_set(alloc, form.txs.ids())?;
    let key = key(&form.header, form.nonce);
    let pairs = paired(alloc, key, txids, txs, &wanted)?;
    rebuilt_by(alloc, form, pairs)
}

/// Rebuilds the block of a compact block as `rebuild_block` does, from transactions whose txids are
/// known, in the same order. Only the transactions whose told txids have a short id of the compact
/// block are hashed; so a mempool isn't hashed anew for each block.
///
/// If each told txid is that of its transaction, the answer is that of `rebuild_block`. A wrong one
/// can make a transaction missing or the compact block useless; a block that comes out is sound
/// under the message's header whatever the txids are.
///
/// Fails as `rebuild_block` does, and last with `WrongCount` if there aren't as many txids as
/// transactions.
#[tactic(auto, unfolding(crate::specs::Known::known_in))]
pub fn rebuild_block_known(
    alloc: Global,
    message: &[u8],
    txs: &[u8],
    txids: &[Hash256],
) -> Result<CompactOutcome, Fault>
    ensures exact { MatchResult result
        (λ answer. known_in message.now txs.now txids.now ≡ Ok (answer.kind, answer.text.items))
        (λ fault. (fault ≡ Memory) ⊎ (known_in message.now txs.now txids.now ≡ Err fault)) }
    ensures unpaid { (fault : Fault) → compact_block_count_at message.now ≡ Err fault →
        result ≡ Err fault }
    ensures paid { result ≡ Err Memory → CompactBlockTakesMemory message.now }
{
    let form = whole_form(alloc, message)?;
    let given = whole_txs(alloc, txs)?;
    if txids.len() != given.len() {
        return Err(Fault::WrongCount);
    }
    let rebuilt = rebuilt_known(alloc, &form, txids, given.as_slice())?;
    answer_for(alloc, rebuilt)
}
