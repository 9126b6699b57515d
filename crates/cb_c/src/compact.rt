ghost use Rattle.std.specs.Prelude.{◌≡◌, ◌<◌, ◌⊎◌, ℕ, List, length, map, IfErr, IfOk, Ok};
ghost use Rattle.cb_relay.specs.Shapes.{hash_of};
ghost use Rattle.cb_c.specs.Answers.{GivesKind, IsWhy, kind_number};
ghost use Rattle.cb_c.specs.Giving.{Gives, IsGiven};
ghost use Rattle.cb_wire.specs.CompactBlocks.{CompactBlockTakesMemory};
ghost use Rattle.cb_relay.specs.Compacting.{IsCompacted, IsNotCompacted};
ghost use Rattle.cb_relay.specs.Completing.{completed_in};
ghost use Rattle.cb_relay.specs.Known.{known_in};
ghost use Rattle.cb_relay.specs.Rebuilding.{rebuilt_in, request_in};
ghost use Rattle.cb_relay.specs.Serving.{ServingTakesMemory, served_in};
ghost use Rattle.cb_relay.specs.declared.rebuilding.Kind.{Kind};

use crate::giving::give;
use crate::status::status;
use cb_base::Fault;
use cb_relay::{
    CbHash, CompactOutcome, Kind, block_transactions, block_transactions_request, compact_block,
    complete_block, hashes_of, rebuild_block, rebuild_block_known,
};
use std::alloc::Global;

/// The number of a kind: 0 for a block, 1 for a request, 2 for useless.
fn number(kind: Kind) -> u32
    ensures { result ≡ kind_number kind }
{
    match kind {
        Kind::Block => 0,
        Kind::Request => 1,
        Kind::Useless => 2,
    }
}

/// Tells the kind of an answer, and gives its text.
fn tell(answer: &CompactOutcome, out: &mut [u8], len: &mut usize, kind: &mut u32) -> u32
    ensures kind { kind.new ≡ kind_number answer.now.kind }
    ensures text { IsGiven answer.now.text.items out.old out.new len.new result }
{
    *kind = number(answer.kind);
    give(answer.text.as_slice(), out, len)
}

/// Writes the payload of the `cmpctblock` of a block under a nonce (BIP 152).
#[unsafe(no_mangle)]
pub extern "C" fn cbrelay_compact_block(
    alloc: Global,
    block: &[u8],
    nonce: u64,
    out: &mut [u8],
    len: &mut usize,
) -> u32
    ensures { Gives (IsCompacted block.now nonce) (IsNotCompacted block.now) out.old out.new len.old
        len.new result }
{
    match compact_block(alloc, block, nonce) {
        Ok(text) => give(text.as_slice(), out, len),
        Err(fault) => status(fault),
    }
}

/// What comes of a compact block and known transactions.
fn rebuilt(alloc: Global, message: &[u8], txs: &[u8]) -> Result<CompactOutcome, Fault>
    ensures fine { IfOk result
        (λ answer. rebuilt_in message.now txs.now ≡ Ok (answer.kind, answer.text.items)) }
    ensures refused { IfErr result
        (IsWhy (rebuilt_in message.now txs.now) (CompactBlockTakesMemory message.now)) }
{
    rebuild_block(alloc, message, txs)
}

/// Rebuilds the block of a compact block from known transactions (BIP 152).
#[unsafe(no_mangle)]
pub extern "C" fn cbrelay_rebuild_block(
    alloc: Global,
    message: &[u8],
    txs: &[u8],
    out: &mut [u8],
    len: &mut usize,
    kind: &mut u32,
) -> u32
    ensures { GivesKind (rebuilt_in message.now txs.now) (CompactBlockTakesMemory message.now)
        out.old out.new len.old len.new kind.old kind.new result }
{
    match rebuilt(alloc, message, txs) {
        Ok(answer) => tell(&answer, out, len, kind),
        Err(fault) => status(fault),
    }
}

/// What comes of a compact block and known transactions with their txids.
fn rebuilt_known(
    alloc: Global,
    message: &[u8],
    txs: &[u8],
    txids: &[CbHash],
) -> Result<CompactOutcome, Fault>
    ensures fine { IfOk result
        (λ answer. known_in message.now txs.now (map hash_of txids.now)
        ≡ Ok (answer.kind, answer.text.items)) }
    ensures refused { IfErr result
        (IsWhy (known_in message.now txs.now (map hash_of txids.now))
        (CompactBlockTakesMemory message.now ⊎ (0 < length txids.now))) }
{
    let names = hashes_of(alloc, txids)?;
    rebuild_block_known(alloc, message, txs, names.as_slice())
}

/// Rebuilds the block of a compact block from known transactions, whose txids are told.
#[unsafe(no_mangle)]
pub extern "C" fn cbrelay_rebuild_block_known(
    alloc: Global,
    message: &[u8],
    txs: &[u8],
    txids: &[CbHash],
    out: &mut [u8],
    len: &mut usize,
    kind: &mut u32,
) -> u32
    ensures { GivesKind (known_in message.now txs.now (map hash_of txids.now))
        (CompactBlockTakesMemory message.now ⊎ (0 < length txids.now))
        out.old out.new len.old len.new kind.old kind.new result }
{
    match rebuilt_known(alloc, message, txs, txids) {
        Ok(answer) => tell(&answer, out, len, kind),
        Err(fault) => status(fault),
    }
}

/// The payload of the `getblocktxn` that asks for what is missing, or nothing.
fn request(alloc: Global, message: &[u8], txs: &[u8]) -> Result<Vec<u8>, Fault>
    ensures fine { IfOk result
        (λ text. (told : Kind × List ℕ) × (rebuilt_in message.now txs.now ≡ Ok told)
        × (text.items ≡ request_in told)) }
    ensures refused { IfErr result
        (IsWhy (rebuilt_in message.now txs.now) (CompactBlockTakesMemory message.now)) }
{
    block_transactions_request(alloc, message, txs)
}

/// Writes the payload of the `getblocktxn` that asks for what is missing of a compact block, or
/// nothing.
#[unsafe(no_mangle)]
pub extern "C" fn cbrelay_block_transactions_request(
    alloc: Global,
    message: &[u8],
    txs: &[u8],
    out: &mut [u8],
    len: &mut usize,
) -> u32
    ensures { Gives
        (λ text. (told : Kind × List ℕ) × (rebuilt_in message.now txs.now ≡ Ok told)
        × (text ≡ request_in told))
        (IsWhy (rebuilt_in message.now txs.now) (CompactBlockTakesMemory message.now))
        out.old out.new len.old len.new result }
{
    match request(alloc, message, txs) {
        Ok(text) => give(text.as_slice(), out, len),
        Err(fault) => status(fault),
    }
}

/// The payload of the `blocktxn` that answers a request.
fn served(alloc: Global, block: &[u8], request: &[u8]) -> Result<Vec<u8>, Fault>
    ensures fine { IfOk result (λ text. served_in block.now request.now ≡ Ok text.items) }
    ensures refused { IfErr result
        (IsWhy (served_in block.now request.now) (ServingTakesMemory block.now)) }
{
    block_transactions(alloc, block, request)
}

/// Writes the payload of the `blocktxn` that answers a `getblocktxn` from its block.
#[unsafe(no_mangle)]
pub extern "C" fn cbrelay_block_transactions(
    alloc: Global,
    block: &[u8],
    request: &[u8],
    out: &mut [u8],
    len: &mut usize,
) -> u32
    ensures { Gives
        (λ text. served_in block.now request.now ≡ Ok text)
        (IsWhy (served_in block.now request.now) (ServingTakesMemory block.now))
        out.old out.new len.old len.new result }
{
    match served(alloc, block, request) {
        Ok(text) => give(text.as_slice(), out, len),
        Err(fault) => status(fault),
    }
}

/// What comes of a compact block, known transactions and those that it lacked.
fn completed(
    alloc: Global,
    message: &[u8],
    txs: &[u8],
    more: &[u8],
) -> Result<CompactOutcome, Fault>
    ensures fine { IfOk result
        (λ answer. completed_in message.now txs.now more.now
        ≡ Ok (answer.kind, answer.text.items)) }
    ensures refused { IfErr result
        (IsWhy (completed_in message.now txs.now more.now) (CompactBlockTakesMemory message.now)) }
{
    complete_block(alloc, message, txs, more)
}

/// Completes the block of a compact block with the transactions of a `blocktxn`.
#[unsafe(no_mangle)]
pub extern "C" fn cbrelay_complete_block(
    alloc: Global,
    message: &[u8],
    txs: &[u8],
    answer: &[u8],
    out: &mut [u8],
    len: &mut usize,
    kind: &mut u32,
) -> u32
    ensures { GivesKind (completed_in message.now txs.now answer.now)
        (CompactBlockTakesMemory message.now)
        out.old out.new len.old len.new kind.old kind.new result }
{
    match completed(alloc, message, txs, answer) {
        Ok(told) => tell(&told, out, len, kind),
        Err(fault) => status(fault),
    }
}
