//! Completing a block with the transactions that it lacked.
ghost use Rattle.std.specs.Prelude.{◌≡◌, ◌⊎◌, ◌==◌, true, length, IfOk, IsOkUnless, MatchBool, MatchResult, Ok, Err};
ghost use Rattle.cb_base.specs.declared.fault.Fault.{Fault};
ghost use Rattle.cb_base.specs.declared.fault.Fault.TheVariants.{Memory};
ghost use Rattle.cb_wire.specs.CompactBlocks.{CompactBlockTakesMemory, compact_block_count_at};
ghost use Rattle.cb_relay.specs.Completing.{completed_answer, completed_in, filled_answer};

use crate::rebuilding::{CompactOutcome, Kind, answer_for, rebuilt_with};
use crate::whole::{whole_block_txs, whole_form, whole_txs};
use cb_base::Fault;
use cb_block::write_block;
use cb_compact::{Filled, Rebuilt, complete};
use cb_wire::BlockTransactions;
use std::alloc::Global;

/// The answer for a block whose places were filled.
fn filled_answer(alloc: Global, filled: Filled) -> Result<CompactOutcome, Fault>
    ensures told { IfOk result
        (λ answer. (answer.kind, answer.text.items) ≡ filled_answer filled) }
    ensures memory { IsOkUnless result Memory }
{
    let mut text = Vec::new(alloc);
    match filled {
        Filled::Sound(block) => {
            write_block(&mut text, block.block())?;
            Ok(CompactOutcome {
                kind: Kind::Block,
                text,
            })
        }
        Filled::Wrong => Ok(CompactOutcome {
            kind: Kind::Useless,
            text,
        }),
    }
}

/// The answer for what was rebuilt, and the transactions that it lacked.
fn completed_answer(
    alloc: Global,
    rebuilt: Rebuilt,
    more: &BlockTransactions,
) -> Result<CompactOutcome, Fault>
    ensures exact { MatchResult result
        (λ answer. completed_answer rebuilt more.now ≡ Ok (answer.kind, answer.text.items))
        (λ fault. (fault ≡ Memory) ⊎ (completed_answer rebuilt more.now ≡ Err fault)) }
{
    match rebuilt {
        Rebuilt::Lacking(partial, _request) => {
            let filled = complete(alloc, partial, more)?;
            filled_answer(alloc, filled)
        }
        Rebuilt::Sound(block) => {
            if !more.txs.as_slice().is_empty() {
                return Err(Fault::WrongCount);
            }
            answer_for(alloc, Rebuilt::Sound(block))
        }
        Rebuilt::Useless => answer_for(alloc, Rebuilt::Useless),
    }
}

/// Completes the block of a compact block (the payload of a `cmpctblock`, BIP 152) from known
/// transactions, as `rebuild_block` takes them, and from the payload of the `blocktxn` that answers
/// its request (BlockTransactions). The block hash in that isn't compared.
///
/// The answer is the block, which is sound, or useless.
///
/// Fails with the fault of the message, then `BadIndex` if a prefilled transaction has no place in
/// the block, then the faults of the known transactions and of the `blocktxn`. Last it is
/// `WrongCount`, if that doesn't have as many transactions as are missing. `Memory` is possible
/// only behind the message's counts.
#[tactic(auto, unfolding(crate::specs::Completing::completed_in))]
pub fn complete_block(
    alloc: Global,
    message: &[u8],
    txs: &[u8],
    more: &[u8],
) -> Result<CompactOutcome, Fault>
    ensures exact { MatchResult result
        (λ answer. completed_in message.now txs.now more.now
        ≡ Ok (answer.kind, answer.text.items))
        (λ fault. (fault ≡ Memory) ⊎ (completed_in message.now txs.now more.now ≡ Err fault)) }
    // Nothing is allocated before the message's first count is read.
    ensures unpaid { (fault : Fault) → compact_block_count_at message.now ≡ Err fault →
        result ≡ Err fault }
    ensures paid { result ≡ Err Memory → CompactBlockTakesMemory message.now }
{
    let form = whole_form(alloc, message)?;
    let given = whole_txs(alloc, txs)?;
    let others = whole_block_txs(alloc, more)?;
    let rebuilt = rebuilt_with(alloc, &form, given.as_slice())?;
    completed_answer(alloc, rebuilt, &others)
}
