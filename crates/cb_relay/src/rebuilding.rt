//! Rebuilding the block of a compact block from known transactions.
ghost use Rattle.std.specs.Prelude.{◌≡◌, ◌⊎◌, true, ℕ, List, map, IfOk, IsOkUnless, MatchResult, Ok, Err};
ghost use Rattle.cb_base.specs.declared.fault.Fault.{Fault};
ghost use Rattle.cb_base.specs.declared.fault.Fault.TheVariants.{Memory};
ghost use Rattle.cb_wire.specs.CompactBlocks.{CompactBlockTakesMemory, compact_block_count_at};
ghost use Rattle.cb_compact.specs.Matching.{pair_of};
ghost use Rattle.cb_compact.specs.Places.{has_places};
ghost use Rattle.cb_compact.specs.Rebuilding.{rebuilt_of};
ghost use Rattle.cb_relay.specs.Rebuilding.{answer_of, pairs_under, rebuilt_in, request_in};
ghost use Rattle.cb_relay.specs.declared.rebuilding.Kind.{Kind};

use crate::whole::{whole_form, whole_txs};
use cb_base::{Fault, Shared};
use cb_block::{Tx, write_block};
use cb_compact::{NamedTx, Pair, Rebuilt, key, rebuild_from, short_id};
use cb_wire::{HeaderAndShortIds, put_txs_request};
use std::alloc::Global;

/// What comes of a compact block.
#[derive(Clone, Copy, PartialEq, Eq)]
pub enum Kind {
    /// The whole block, which is sound.
    Block,
    /// Transactions are missing: the payload of the `getblocktxn` that asks for them.
    Request,
    /// Two short ids are equal, or the block isn't sound. It has to be asked for whole.
    Useless,
}

/// What comes of a compact block, and its text, which is empty if it is useless.
#[derive(Drop)]
pub struct CompactOutcome {
    pub kind: Kind,
    pub text: Vec<u8>,
}

/// Each transaction with its short id under a key. Each is hashed once.
fn pairs_under(alloc: Global, key: (u64, u64), txs: &[Shared<Tx>]) -> Result<Vec<Pair>, Fault>
    ensures same { IfOk result (λ pairs. pairs.items ≡ map (pair_of key) txs.now) }
    ensures memory { IsOkUnless result Memory }
{
    let mut pairs = Vec::with_capacity(alloc, txs.len())?;
    for tx in txs {
        let named = NamedTx::new(alloc, tx.clone()?)?;
        let id = short_id(key, &named.txid());
        pairs.push(Pair { id, tx: named })?;
    }
    Ok(pairs)
}

/// Rebuilds the block of a compact block whose prefilled transactions have places.
pub(crate) fn rebuilt_by(
    alloc: Global,
    form: &HeaderAndShortIds,
    pairs: Vec<Pair>,
) -> Result<Rebuilt, Fault>
    requires { has_places form.now.txs ≡ true }
    ensures rebuilt { IfOk result (λ rebuilt. rebuilt ≡ rebuilt_of form.now pairs.items) }
    ensures memory { IsOkUnless result Memory }
{
    rebuild_from(alloc, form, pairs)
}

/// The answer for what was rebuilt.
pub(crate) fn answer_for(alloc: Global, rebuilt: Rebuilt) -> Result<CompactOutcome, Fault>
    ensures told { IfOk result
        (λ answer. (answer.kind, answer.text.items) ≡ answer_of rebuilt) }
    ensures memory { IsOkUnless result Memory }
{
    let mut text = Vec::new(alloc);
    match rebuilt {
        Rebuilt::Sound(block) => {
            write_block(&mut text, block.block())?;
            Ok(CompactOutcome {
                kind: Kind::Block,
                text,
            })
        }
        Rebuilt::Lacking(_partial, request) => {
            put_txs_request(&mut text, &request)?;
            Ok(CompactOutcome {
                kind: Kind::Request,
                text,
            })
        }
        Rebuilt::Useless => Ok(CompactOutcome {
            kind: Kind::Useless,
            text,
        }),
    }
}

/// Rebuilds the block of a compact block from transactions: their count, then each.
pub(crate) fn rebuilt_with(
    alloc: Global,
    form: &HeaderAndShortIds,
    txs: &[Shared<Tx>],
) -> Result<Rebuilt, Fault>
    requires { has_places form.now.txs ≡ true }
    ensures rebuilt { IfOk result
        (λ rebuilt. rebuilt ≡ rebuilt_of form.now (pairs_under form.now txs.now)) }
    ensures memory { IsOkUnless result Memory }
{
    let pairs = pairs_under(alloc, key(&form.header, form.nonce), txs)?;
    rebuilt_by(alloc, form, pairs)
}

/// Rebuilds the block of a compact block (the payload of a `cmpctblock`, BIP 152) from known
/// transactions in any order: their count, then each. Each of them is hashed.
///
/// The answer is the block, if it is whole and sound; or the payload of the `getblocktxn` for
/// exactly the places for which no transaction or several have the short id; or useless.
///
/// Fails with the fault of the message, then `BadIndex` if a prefilled transaction has no place in
/// the block, then the fault of the transactions. `Memory` is possible only behind the message's
/// counts.
#[tactic(auto, unfolding(crate::specs::Rebuilding::rebuilt_in))]
pub fn rebuild_block(alloc: Global, message: &[u8], txs: &[u8]) -> Result<CompactOutcome, Fault>
    ensures exact { MatchResult result
        (λ answer. rebuilt_in message.now txs.now ≡ Ok (answer.kind, answer.text.items))
        (λ fault. (fault ≡ Memory) ⊎ (rebuilt_in message.now txs.now ≡ Err fault)) }
    // Nothing is allocated before the message's first count is read.
    ensures unpaid { (fault : Fault) → compact_block_count_at message.now ≡ Err fault →
        result ≡ Err fault }
    ensures paid { result ≡ Err Memory → CompactBlockTakesMemory message.now }
{
    let form = whole_form(alloc, message)?;
    let given = whole_txs(alloc, txs)?;
    let rebuilt = rebuilt_with(alloc, &form, given.as_slice())?;
    answer_for(alloc, rebuilt)
}

/// The payload of the `getblocktxn` (BIP 152, BlockTransactionsRequest) that asks for what is
/// missing of a compact block, as `rebuild_block` tells it, with the same errors. It is empty if
/// nothing has to be asked for, since the block is whole or useless.
pub fn block_transactions_request(
    alloc: Global,
    message: &[u8],
    txs: &[u8],
) -> Result<Vec<u8>, Fault>
    ensures exact { MatchResult result
        (λ text. (told : Kind × List ℕ) × (rebuilt_in message.now txs.now ≡ Ok told)
        × (text.items ≡ request_in told))
        (λ fault. (fault ≡ Memory) ⊎ (rebuilt_in message.now txs.now ≡ Err fault)) }
    ensures unpaid { (fault : Fault) → compact_block_count_at message.now ≡ Err fault →
        result ≡ Err fault }
    ensures paid { result ≡ Err Memory → CompactBlockTakesMemory message.now }
{
    let told = rebuild_block(alloc, message, txs)?;
    match told.kind {
        Kind::Request => Ok(told.text),
        Kind::Block | Kind::Useless => Ok(Vec::new(alloc)),
    }
}
