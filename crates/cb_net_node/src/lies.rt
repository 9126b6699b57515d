//! The messages of a node that stalls or lies, made by hand. To add a lie, add a variant, its place
//! in `LIES`, and a row to `opening` and, if it answers, to `answer`.
ghost use Rattle.std.specs.Prelude.{◌≡◌, IfOk, IsOkUnless};
ghost use Rattle.std.specs.List.{list_any};
ghost use Rattle.cb_base.specs.declared.fault.Fault.TheVariants.{Memory};
ghost use Rattle.cb_net_node.specs.Lies.{Opens, answered, is_block};

use crate::forging::{
    block_without_its_last, compact_beyond_its_end, compact_of_one_id, compact_under_another_nonce,
    few_txs, header_alone, header_of_no_block, header_without_work, mutated_block, other_txs,
    place_far_behind,
};
use cb_base::Fault;
use cb_block::SoundBlock;
use cb_wire::{Inventory, Message};
use std::alloc::Global;

/// What a node that stalls or lies does to one neighbour, about one block.
#[derive(Clone, Copy, Debug, PartialEq, Eq, Drop)]
pub enum Misdeed {
    /// It announces the block and never answers.
    Silence,
    /// It sends the block with its last transactions twice, which leaves its Merkle root as it is
    /// where that can be (CVE-2012-2459).
    MutatedBlock,
    /// It sends the block without its last transaction.
    CutBlock,
    /// It sends a compact block whose short ids nobody finds, and other transactions than those
    /// that are asked for.
    OtherTxs,
    /// It sends a compact block whose short ids nobody finds, and one transaction less than are
    /// asked for.
    FewTxs,
    /// It sends a header without proof of work.
    NoWork,
    /// It sends a header with proof of work and has no block for it.
    NoBlock,
    /// It asks for a transaction behind the end of a block.
    FarPlace,
    /// It sends a compact block with a transaction behind its end.
    FarTx,
    /// It sends a compact block whose short ids are all the same.
    SameIds,
}

/// All lies.
pub const LIES: [Misdeed; 9] = [
    Misdeed::MutatedBlock,
    Misdeed::CutBlock,
    Misdeed::OtherTxs,
    Misdeed::FewTxs,
    Misdeed::NoWork,
    Misdeed::NoBlock,
    Misdeed::FarPlace,
    Misdeed::FarTx,
    Misdeed::SameIds,
];

/// What it sends as soon as the block is there. Fails only with `Fault::Memory`.
pub fn opening(alloc: Global, misdeed: Misdeed, block: &SoundBlock) -> Result<Message, Fault>
    ensures message { IfOk result (λ message. Opens misdeed block.now message) }
    ensures memory { IsOkUnless result Memory }
{
    match misdeed {
        Misdeed::Silence => header_alone(alloc, block),
        Misdeed::MutatedBlock => mutated_block(alloc, block),
        Misdeed::CutBlock => block_without_its_last(alloc, block),
        Misdeed::OtherTxs | Misdeed::FewTxs => compact_under_another_nonce(alloc, block),
        Misdeed::NoWork => header_without_work(alloc, block),
        Misdeed::NoBlock => header_of_no_block(alloc, block),
        Misdeed::FarPlace => place_far_behind(alloc, block),
        Misdeed::FarTx => compact_beyond_its_end(alloc, block),
        Misdeed::SameIds => compact_of_one_id(alloc, block),
    }
}

/// What it answers to a message about that block, if anything. Fails only with `Fault::Memory`.
pub fn answer(
    alloc: Global,
    misdeed: Misdeed,
    block: &SoundBlock,
    asked: &Message,
) -> Result<Option<Message>, Fault>
    ensures message { IfOk result (λ said. said ≡ answered misdeed block.now asked.now) }
    ensures memory { IsOkUnless result Memory }
{
    match (misdeed, asked) {
        (Misdeed::Silence | Misdeed::NoBlock, _) => Ok(None),
        (Misdeed::OtherTxs, Message::GetBlockTxn(request)) => {
            let count = request.differences.as_slice().len();
            Ok(Some(other_txs(alloc, block, count)?))
        }
        (Misdeed::FewTxs, Message::GetBlockTxn(request)) => {
            let count = request.differences.as_slice().len();
            Ok(Some(few_txs(alloc, block, count)?))
        }
        (_, Message::GetData(entries)) => {
            if names_block(entries.as_slice()) {
                return Ok(Some(mutated_block(alloc, block)?));
            }
            Ok(None)
        }
        (_, _) => Ok(None),
    }
}

/// Whether one of these entries names a block.
fn names_block(entries: &[Inventory]) -> bool
    ensures { result ≡ list_any is_block entries.now }
{
    entries.iter().any(|entry| {
        matches!(entry, Inventory::Block(_) | Inventory::CompactBlock(_))
    })
}
