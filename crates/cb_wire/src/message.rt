//! The table of messages. Each message has one row in each function here, and a command in
//! command.rt.
//!
//! Payloads of several fields are read and written in cb_wire.
ghost use Rattle.std.specs.Prelude.{◌≡◌, ◌^◌, ◌<◌, ◌≤◌, ◌⊎◌, ◌++◌, IsTrue, ◌↔◌, length, IfOk, IsOk, IsOkUnless, OnErr, OnOk, Ok, Err, Some};
ghost use Rattle.std.specs.Int.{w64, to_le_bytes};
ghost use Rattle.cb_base.specs.declared.fault.Fault.{Fault};
ghost use Rattle.cb_base.specs.declared.fault.Fault.TheVariants.{Memory};
ghost use Rattle.cb_wire.specs.Command.{IsCommand, IsUnknownName};
ghost use Rattle.cb_wire.specs.Grammar.{HoldsNothing, IsMessage, IsPaid, IsUnpaid, IsWithinLimits, name_of, payload_at, payload_text, whole};
ghost use Rattle.cb_wire.specs.RoundTrip.{Gives};
ghost use Rattle.cb_block.specs.TxWriting.{Extends};

use crate::block_transactions::{
    BlockTransactions, BlockTransactionsRequest, put_block_txs, put_txs_request, read_block_txs,
    read_txs_request,
};
use crate::command::{Command, UnknownName};
use crate::compact_block::{HeaderAndShortIds, put_compact_block, read_compact_block};
use crate::inventory::{Entries, HeaderList};
use crate::lists::{entries_size, headers_size, read_list};
use crate::payload::Payload;
use crate::requests::{
    CompactRelay, HeadersRequest, put_compact_relay, put_request, read_compact_relay, read_request,
};
use crate::version::{Version, put_version, read_version};
use cb_base::{Cursor, Fault, Shared};
use cb_block::{Block, Tx, put_items, read_block, read_tx, write_block, write_tx};
use std::alloc::Global;

/// A message of Bitcoin's peer-to-peer protocol.
#[derive(Drop)]
pub enum Message {
    /// `version`: how the sender introduces itself.
    Version(Version),
    /// `verack`: the sender accepts our `version`.
    Verack,
    /// `ping`, with its nonce.
    Ping(u64),
    /// `pong` (BIP 31), with the nonce of the ping that it answers.
    Pong(u64),
    /// `sendheaders` (BIP 130): the sender wants blocks to be announced by `headers`.
    SendHeaders,
    /// `sendcmpct` (BIP 152): whether and how the sender wants compact blocks.
    SendCmpct(CompactRelay),
    /// `inv`: announces transactions and blocks that the sender has.
    Inv(Entries),
    /// `getdata`: asks for transactions and blocks.
    GetData(Entries),
    /// `notfound`: what the sender was asked for and doesn't have.
    NotFound(Entries),
    /// `headers`: block headers, which should form a chain. That isn't checked here.
    Headers(HeaderList),
    /// `getheaders`: asks for block headers.
    GetHeaders(HeadersRequest),
    /// `tx`: a transaction.
    Tx(Shared<Tx>),
    /// `block`: a whole block. Whether the transactions match the header isn't checked here.
    Block(Shared<Block>),
    /// `cmpctblock` (BIP 152): a compact block.
    CmpctBlock(HeaderAndShortIds),
    /// `getblocktxn` (BIP 152): asks for some of a block's transactions.
    GetBlockTxn(BlockTransactionsRequest),
    /// `blocktxn` (BIP 152): the transactions that were asked for.
    BlockTxn(BlockTransactions),
    /// An unknown command, with its payload as it came.
    Unknown(UnknownName, Payload),
}

/// Reads the payload of a known command. Fails with the faults that `decode` lists.
pub fn read_payload(alloc: Global, command: Command, payload: &[u8]) -> Result<Message, Fault>
    ensures exact { Gives (payload_at command payload.now) result }
    ensures unpaid { (fault : Fault) → IsUnpaid (Some command) payload.now fault →
        result ≡ Err fault }
    ensures paid { result ≡ Err Memory → IsPaid (Some command) payload.now }
{
    let mut cursor = Cursor::new(payload);
    match command {
        Command::Version => Ok(Message::Version(read_version(alloc, payload)?)),
        Command::Verack => whole(Message::Verack, &cursor),
        Command::Ping => whole(Message::Ping(cursor.u64()?), &cursor),
        Command::Pong => whole(Message::Pong(cursor.u64()?), &cursor),
        Command::SendHeaders => whole(Message::SendHeaders, &cursor),
        Command::SendCmpct => {
            let relay = read_compact_relay(&mut cursor)?;
            whole(Message::SendCmpct(relay), &cursor)
        }
        Command::Inv => whole(Message::Inv(read_list(alloc, &mut cursor)?), &cursor),
        Command::GetData => whole(Message::GetData(read_list(alloc, &mut cursor)?), &cursor),
        Command::NotFound => whole(Message::NotFound(read_list(alloc, &mut cursor)?), &cursor),
        Command::Headers => whole(Message::Headers(read_list(alloc, &mut cursor)?), &cursor),
        Command::GetHeaders => {
            let request = read_request(alloc, &mut cursor)?;
            whole(Message::GetHeaders(request), &cursor)
        }
        Command::Tx => {
            let tx = whole(read_tx(alloc, &mut cursor)?, &cursor)?;
            Ok(Message::Tx(Shared::new(alloc, tx)?))
        }
        Command::Block => {
            let block = whole(read_block(alloc, &mut cursor)?, &cursor)?;
            Ok(Message::Block(Shared::new(alloc, block)?))
        }
        Command::CmpctBlock => {
            let block = read_compact_block(alloc, &mut cursor)?;
            whole(Message::CmpctBlock(block), &cursor)
        }
        Command::GetBlockTxn => {
            let request = read_txs_request(alloc, &mut cursor)?;
            whole(Message::GetBlockTxn(request), &cursor)
        }
        Command::BlockTxn => {
            let txs = read_block_txs(alloc, &mut cursor)?;
            whole(Message::BlockTxn(txs), &cursor)
        }
    }
}

/// The value, if all bytes have been read. Fails with `Fault::Trailing` if some are left.
fn whole<T: Drop>(value: T, cursor: &Cursor) -> Result<T, Fault>
    ensures { result ≡ whole (value, cursor.now) }
{
    if cursor.left() > 0 {
        return Err(Fault::Trailing);
    }
    Ok(value)
}

/// Appends the payload of a message to `out`. Fails only with `Fault::Memory`; `out` may then end
/// with a part of the payload, behind what it had.
#[tactic(auto, using(cb_block::proofs::Appends::appends))]
pub fn put_payload(out: &mut Vec<u8>, message: &Message) -> Result<(), Fault>
    ensures ok { OnOk result (out.new.items ≡ out.old.items ++ payload_text message.now) }
    ensures err { OnErr result (Extends out.old.items out.new.items) }
    ensures memory { IsOkUnless result Memory }
    // Each number is in the range of its field, each hash has 32 bytes, and each list is within its
    // limit.
    ensures kept { OnOk result (IsMessage message.now) }
{
    match message {
        Message::Version(version) => put_version(out, version),
        Message::Verack | Message::SendHeaders => Ok(()),
        Message::Ping(nonce) => put_nonce(out, *nonce),
        Message::Pong(nonce) => put_nonce(out, *nonce),
        Message::SendCmpct(relay) => put_compact_relay(out, relay),
        Message::Inv(entries) => put_items(out, entries.as_slice()),
        Message::GetData(entries) => put_items(out, entries.as_slice()),
        Message::NotFound(entries) => put_items(out, entries.as_slice()),
        Message::Headers(headers) => put_items(out, headers.as_slice()),
        Message::GetHeaders(request) => put_request(out, request),
        Message::Tx(tx) => write_tx(out, tx),
        Message::Block(block) => write_block(out, block),
        Message::CmpctBlock(block) => put_compact_block(out, block),
        Message::GetBlockTxn(request) => put_txs_request(out, request),
        Message::BlockTxn(txs) => put_block_txs(out, txs),
        Message::Unknown(name, payload) => put_unknown(out, name, payload),
    }
}

/// Appends the nonce of a `ping` or a `pong`. Fails only with `Fault::Memory`.
#[tactic(auto, using(cb_block::proofs::Appends::appends))]
fn put_nonce(out: &mut Vec<u8>, nonce: u64) -> Result<(), Fault>
    ensures ok { OnOk result (out.new.items ≡ out.old.items ++ to_le_bytes w64 nonce) }
    ensures err { OnErr result (Extends out.old.items out.new.items) }
    ensures memory { IsOkUnless result Memory }
    ensures kept { nonce < 2 ^ 64 }
{
    out.extend_from_slice(&nonce.to_le_bytes())?;
    Ok(())
}

/// Appends the payload of an unknown command. Fails only with `Fault::Memory`.
#[tactic(auto, using(cb_block::proofs::Appends::appends))]
fn put_unknown(out: &mut Vec<u8>, name: &UnknownName, payload: &Payload) -> Result<(), Fault>
    ensures ok { OnOk result (out.new.items ≡ out.old.items ++ payload.now) }
    ensures err { OnErr result (Extends out.old.items out.new.items) }
    ensures memory { IsOkUnless result Memory }
    ensures kept { IsUnknownName name.now }
{
    // No effect when it runs: it tells the prover what the type keeps.
    let _name = name.as_str();
    out.extend_from_slice(payload.as_slice())?;
    Ok(())
}

impl Message {
    /// The name of the command, as it is written in an envelope.
    pub fn name(&self) -> &str
        ensures name { result.now ≡ name_of self.now }
        ensures form { IsCommand result.now }
    {
        match self {
            Message::Version(_) => Command::Version.name(),
            Message::Verack => Command::Verack.name(),
            Message::Ping(_) => Command::Ping.name(),
            Message::Pong(_) => Command::Pong.name(),
            Message::SendHeaders => Command::SendHeaders.name(),
            Message::SendCmpct(_) => Command::SendCmpct.name(),
            Message::Inv(_) => Command::Inv.name(),
            Message::GetData(_) => Command::GetData.name(),
            Message::NotFound(_) => Command::NotFound.name(),
            Message::Headers(_) => Command::Headers.name(),
            Message::GetHeaders(_) => Command::GetHeaders.name(),
            Message::Tx(_) => Command::Tx.name(),
            Message::Block(_) => Command::Block.name(),
            Message::CmpctBlock(_) => Command::CmpctBlock.name(),
            Message::GetBlockTxn(_) => Command::GetBlockTxn.name(),
            Message::BlockTxn(_) => Command::BlockTxn.name(),
            Message::Unknown(name, _) => name.as_str(),
        }
    }

    /// An equal message that shares the transactions and the block of this one. Only lists, a user
    /// agent, or the name and payload of an unknown command are allocated.
    ///
    /// Fails only with `Fault::Memory`: an allocation failed, or a shared value has 2^63 owners. A
    /// message that owns no memory can't fail.
    pub fn copy(&self, alloc: Global) -> Result<Message, Fault>
        ensures equal { IfOk result (λ copy. copy ≡ self.now) }
        ensures memory { IsOkUnless result Memory }
        ensures unpaid { HoldsNothing self.now → IsOk result }
    {
        Ok(match self {
            Message::Version(version) => Message::Version(version.copy(alloc)?),
            Message::Verack => Message::Verack,
            Message::Ping(nonce) => Message::Ping(*nonce),
            Message::Pong(nonce) => Message::Pong(*nonce),
            Message::SendHeaders => Message::SendHeaders,
            Message::SendCmpct(relay) => Message::SendCmpct(*relay),
            Message::Inv(entries) => Message::Inv(entries.copy(alloc)?),
            Message::GetData(entries) => Message::GetData(entries.copy(alloc)?),
            Message::NotFound(entries) => Message::NotFound(entries.copy(alloc)?),
            Message::Headers(headers) => Message::Headers(headers.copy(alloc)?),
            Message::GetHeaders(request) => Message::GetHeaders(request.copy(alloc)?),
            Message::Tx(tx) => Message::Tx(tx.clone()?),
            Message::Block(block) => Message::Block(block.clone()?),
            Message::CmpctBlock(block) => Message::CmpctBlock(block.copy(alloc)?),
            Message::GetBlockTxn(request) => Message::GetBlockTxn(request.copy(alloc)?),
            Message::BlockTxn(txs) => Message::BlockTxn(txs.copy(alloc)?),
            Message::Unknown(name, payload) => {
                Message::Unknown(name.copy(alloc)?, payload.copy(alloc)?)
            }
        })
    }

    /// Whether the payload has at most 4,000,000 bytes. This always holds for a message whose
    /// fields each have a limit of their own.
    pub fn is_within_limits(&self) -> bool
        ensures { IsTrue result ↔ IsWithinLimits self.now }
    {
        match self {
            Message::Version(_) | Message::Verack | Message::Ping(_) | Message::Pong(_) => true,
            Message::SendHeaders | Message::SendCmpct(_) => true,
            Message::Inv(_) | Message::GetData(_) | Message::NotFound(_) => true,
            Message::Headers(_) | Message::GetHeaders(_) | Message::GetBlockTxn(_) => true,
            Message::Tx(tx) => tx.size() <= 4_000_000,
            Message::Block(block) => block.size() <= 4_000_000,
            Message::CmpctBlock(block) => block.size() <= 4_000_000,
            Message::BlockTxn(txs) => txs.size() <= 4_000_000,
            Message::Unknown(_, payload) => payload.len() <= 4_000_000,
        }
    }

    /// The length of the payload in bytes, at most 4,000,000. The message must be within that
    /// limit.
    pub fn payload_len(&self) -> u64
        requires { IsWithinLimits self.now }
        ensures payload { result ≡ length (payload_text self.now) }
        ensures limit { result ≤ 4000000 }
    {
        match self {
            Message::Version(version) => version.size(),
            Message::Verack | Message::SendHeaders => 0,
            Message::Ping(_) | Message::Pong(_) => 8,
            Message::SendCmpct(relay) => relay.size(),
            Message::Inv(entries) => entries_size(entries),
            Message::GetData(entries) => entries_size(entries),
            Message::NotFound(entries) => entries_size(entries),
            Message::Headers(headers) => headers_size(headers),
            Message::GetHeaders(request) => request.size(),
            Message::Tx(tx) => tx.size(),
            Message::Block(block) => block.size(),
            Message::CmpctBlock(block) => block.size(),
            Message::GetBlockTxn(request) => request.size(),
            Message::BlockTxn(txs) => txs.size(),
            Message::Unknown(_, payload) => payload.len() as u64,
        }
    }
}
