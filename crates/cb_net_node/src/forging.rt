//! Messages that no honest node sends, made of a sound block.
ghost use Rattle.std.specs.Prelude.{◌≡◌, ◌∷◌, ◌++◌, ◌-◌, [], false, length, map, replicate, take, true, IfOk, IsOkUnless, OnOk};
ghost use Rattle.cb_base.specs.declared.fault.Fault.TheVariants.{Memory};
ghost use Rattle.cb_block.specs.Work.{HasWork};
ghost use Rattle.cb_block.specs.declared.header.Header.{Header};
ghost use Rattle.cb_compact.specs.ShortIds.{short_id_of};
ghost use Rattle.cb_wire.specs.declared.message.Message.TheVariants as messages;
ghost use Rattle.cb_net_node.specs.Lies.{IsCompact, IsTried, beside, far_form, first_txs, following, lowest_bit, mutated, other_txs, same_ids, told, txids_of, unfindable, with_txs};

use cb_base::{Fault, Hash256, Shared};
use cb_block::{Block, Header, SoundBlock, Tx, Txs, check_header};
use cb_compact::{key, short_id};
use cb_wire::{
    BlockTransactions, BlockTransactionsRequest, CompactTxs, Differences, HeaderAndShortIds,
    HeaderList, Message, PrefilledTransaction,
};
use std::alloc::Global;

/// A place behind the end of every block.
const FAR: u64 = 60_000;

/// How many nonces are tried for a header with work, or without.
const TRIES: u32 = 256;

/// The block with its last transactions twice. Their number is the greatest power of two that
/// divides the number of all. So the Merkle root stays, unless that is a power of two itself.
pub(crate) fn mutated_block(alloc: Global, block: &SoundBlock) -> Result<Message, Fault>
    ensures message { IfOk result
        (λ message. message ≡ with_txs block.now (mutated block.now.txs)) }
    ensures memory { IsOkUnless result Memory }
{
    let txs = block.block().txs.as_slice();
    let from = txs.len().saturating_sub(lowest_bit(txs.len()));
    let mut list = Vec::new(alloc);
    share(&mut list, txs)?;
    share(&mut list, &txs[from..])?;
    whole(alloc, block, list)
}

/// The block without its last transaction.
pub(crate) fn block_without_its_last(alloc: Global, block: &SoundBlock) -> Result<Message, Fault>
    ensures message { IfOk result (λ message.
        message ≡ with_txs block.now (take (length block.now.txs - 1) block.now.txs)) }
    ensures memory { IsOkUnless result Memory }
{
    let txs = block.block().txs.as_slice();
    let mut list = Vec::new(alloc);
    share(&mut list, &txs[..txs.len().saturating_sub(1)])?;
    whole(alloc, block, list)
}

/// A compact block under a nonce, with the short ids of all transactions under another one.
pub(crate) fn compact_under_another_nonce(
    alloc: Global,
    block: &SoundBlock,
) -> Result<Message, Fault>
    ensures message { IfOk result
        (λ message. IsCompact block.now.header (unfindable block.now) message) }
    ensures memory { IsOkUnless result Memory }
{
    let header = block.block().header;
    let ids = short_ids(alloc, key(&header, 1), block.txids())?;
    compact(alloc, header, ids, Vec::new(alloc))
}

/// A compact block in which all transactions have the first one's short id.
pub(crate) fn compact_of_one_id(alloc: Global, block: &SoundBlock) -> Result<Message, Fault>
    ensures message { IfOk result (λ message. IsCompact block.now.header
        (record { ids = same_ids block.now.header (txids_of block.now); prefilled = [] })
        message) }
    ensures memory { IsOkUnless result Memory }
{
    let header = block.block().header;
    let ids = one_id(alloc, &header, block.txids())?;
    compact(alloc, header, ids, Vec::new(alloc))
}

/// A compact block whose only transaction stands far behind its end.
pub(crate) fn compact_beyond_its_end(alloc: Global, block: &SoundBlock) -> Result<Message, Fault>
    ensures message { IfOk result
        (λ message. IsCompact block.now.header (far_form block.now.txs) message) }
    ensures memory { IsOkUnless result Memory }
{
    let mut prefilled = Vec::with_capacity(alloc, 1)?;
    if let Some(first) = block.block().txs.as_slice().first() {
        prefilled.push(PrefilledTransaction {
            difference: FAR,
            tx: first.clone()?,
        })?;
    }
    compact(alloc, block.block().header, Vec::new(alloc), prefilled)
}

/// The block's header.
pub(crate) fn header_alone(alloc: Global, block: &SoundBlock) -> Result<Message, Fault>
    ensures message { IfOk result (λ message. message ≡ told block.now.header) }
    ensures memory { IsOkUnless result Memory }
{
    headers(alloc, block.block().header)
}

/// A header on the block whose hash is above the target.
pub(crate) fn header_without_work(alloc: Global, block: &SoundBlock) -> Result<Message, Fault>
    ensures message { IfOk result (λ message. (made : Header)
        × IsTried false (following block.now) made × (message ≡ told made)) }
    ensures memory { IsOkUnless result Memory }
{
    let header = block.block().header;
    let on = Header {
        prev: header.hash(),
        ..header
    };
    headers(alloc, tried(on, false))
}

/// A header with work beside the block, with another root.
pub(crate) fn header_of_no_block(alloc: Global, block: &SoundBlock) -> Result<Message, Fault>
    ensures message { IfOk result (λ message. (made : Header)
        × IsTried true (beside block.now) made × (message ≡ told made)) }
    ensures memory { IsOkUnless result Memory }
{
    let header = block.block().header;
    let beside = Header {
        root: header.hash(),
        ..header
    };
    headers(alloc, tried(beside, true))
}

/// A request for a transaction of the block before this one, far behind its end.
pub(crate) fn place_far_behind(alloc: Global, block: &SoundBlock) -> Result<Message, Fault>
    ensures message { IfOk result (λ message. message ≡ messages.GetBlockTxn
        (record { block = block.now.header.prev; differences = 60000 ∷ [] })) }
    ensures memory { IsOkUnless result Memory }
{
    let mut list = Vec::with_capacity(alloc, 1)?;
    list.push(FAR)?;
    Ok(Message::GetBlockTxn(BlockTransactionsRequest {
        block: block.block().header.prev,
        differences: Differences::from_few(list),
    }))
}

/// So many transactions as an answer, each of them the block's first.
pub(crate) fn other_txs(alloc: Global, block: &SoundBlock, count: usize) -> Result<Message, Fault>
    ensures message { IfOk result (λ message. message ≡ other_txs block.now count) }
    ensures memory { IsOkUnless result Memory }
{
    Ok(Message::BlockTxn(BlockTransactions {
        block: block.block().header.hash(),
        txs: Txs::new(first_txs(alloc, block, count)?),
    }))
}

/// One transaction less than so many as an answer.
pub(crate) fn few_txs(alloc: Global, block: &SoundBlock, count: usize) -> Result<Message, Fault>
    ensures message { IfOk result (λ message. message ≡ other_txs block.now (count - 1)) }
    ensures memory { IsOkUnless result Memory }
{
    other_txs(alloc, block, count.saturating_sub(1))
}

/// So many times the block's first transaction.
fn first_txs(alloc: Global, block: &SoundBlock, count: usize) -> Result<Vec<Shared<Tx>>, Fault>
    ensures txs { IfOk result (λ txs. txs.items ≡ first_txs count block.now.txs) }
    ensures memory { IsOkUnless result Memory }
{
    match block.block().txs.as_slice().first() {
        Some(first) => copies(alloc, first, count),
        None => Ok(Vec::new(alloc)),
    }
}

/// So many owners of a transaction.
fn copies(alloc: Global, tx: &Shared<Tx>, count: usize) -> Result<Vec<Shared<Tx>>, Fault>
    ensures txs { IfOk result (λ txs. txs.items ≡ replicate count tx.now) }
    ensures memory { IsOkUnless result Memory }
{
    let mut list = Vec::new(alloc);
    for _made in 0..count {
        list.push(tx.clone()?)?;
    }
    Ok(list)
}

/// The short ids of these txids under a key.
fn short_ids(alloc: Global, key: (u64, u64), txids: &[Hash256]) -> Result<Vec<u64>, Fault>
    ensures ids { IfOk result (λ ids. ids.items ≡ map (short_id_of key) txids.now) }
    ensures memory { IsOkUnless result Memory }
{
    let mut ids = Vec::with_capacity(alloc, txids.len())?;
    for txid in txids {
        ids.push(short_id(key, txid))?;
    }
    Ok(ids)
}

/// The first one's short id under a header and the nonce 0, for each of these txids.
fn one_id(alloc: Global, header: &Header, txids: &[Hash256]) -> Result<Vec<u64>, Fault>
    ensures ids { IfOk result (λ ids. ids.items ≡ same_ids header.now txids.now) }
    ensures memory { IsOkUnless result Memory }
{
    match txids.first() {
        Some(first) => {
            let id = short_id(key(header, 0), first);
            Ok(vec![in alloc; id; txids.len()]?)
        }
        None => Ok(Vec::new(alloc)),
    }
}

/// The header with the first nonce under which it has work, or has none. After 256 tries it is the
/// last one tried.
fn tried(header: Header, work: bool) -> Header
    ensures { IsTried work header result }
{
    let mut made = header;
    for nonce in 0..TRIES {
        made.nonce = nonce;
        if has_work(&made) == work {
            return made;
        }
    }
    made
}

/// Whether a header has work.
fn has_work(header: &Header) -> bool
    ensures yes { result ≡ true → HasWork header.now }
    ensures no { result ≡ false → ¬ HasWork header.now }
{
    match check_header(header) {
        Ok(()) => true,
        Err(_) => false,
    }
}

/// The greatest power of two that divides a number; 0 for 0.
fn lowest_bit(number: usize) -> usize
    ensures { result ≡ lowest_bit number }
{
    number ^ (number & number.saturating_sub(1))
}

/// Appends these transactions to a list, which shares them.
fn share(list: &mut Vec<Shared<Tx>>, txs: &[Shared<Tx>]) -> Result<(), Fault>
    ensures ok { OnOk result (list.new.items ≡ list.old.items ++ txs.now) }
    ensures memory { IsOkUnless result Memory }
{
    for tx in txs {
        list.push(tx.clone()?)?;
    }
    Ok(())
}

/// A `block` with the header of a block and these transactions.
fn whole(alloc: Global, block: &SoundBlock, txs: Vec<Shared<Tx>>) -> Result<Message, Fault>
    ensures message { IfOk result (λ message. message ≡ with_txs block.now txs.items) }
    ensures memory { IsOkUnless result Memory }
{
    let made = Block {
        header: block.block().header,
        txs: Txs::new(txs),
    };
    Ok(Message::Block(Shared::new(alloc, made)?))
}

/// A `cmpctblock` of these parts. If they don't make one, a header without a block.
fn compact(
    alloc: Global,
    header: Header,
    ids: Vec<u64>,
    prefilled: Vec<PrefilledTransaction>,
) -> Result<Message, Fault>
    ensures message { IfOk result (λ message. IsCompact header
        (record { ids = ids.items; prefilled = prefilled.items }) message) }
    ensures memory { IsOkUnless result Memory }
{
    match CompactTxs::new(ids, prefilled) {
        Ok(txs) => Ok(Message::CmpctBlock(HeaderAndShortIds {
            header,
            nonce: 0,
            txs,
        })),
        Err(_) => headers(alloc, header),
    }
}

/// A `headers` of one header.
fn headers(alloc: Global, header: Header) -> Result<Message, Fault>
    ensures message { IfOk result (λ message. message ≡ told header) }
    ensures memory { IsOkUnless result Memory }
{
    let mut list = Vec::with_capacity(alloc, 1)?;
    list.push(header)?;
    Ok(Message::Headers(HeaderList::from_few(list)))
}
