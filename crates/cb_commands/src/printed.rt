//! What `decode` prints for an item. There is one arm for each message, and a line of its own for
//! each entry of a list. Each function here fails only with `Halt::Memory`.

ghost use Rattle.std.specs.Prelude.{◌≡◌, [], ◌++◌, length, None, IfOk, IsOk, OnOk, IsOkUnless, string_bytes};
ghost use Rattle.hex.specs.Hex.{encode_lower};
ghost use Rattle.cb_control.specs.declared.ending.Halt.TheVariants.{Memory};
ghost use Rattle.cb_commands.specs.Printed.{block_line, block_txs_line, broken_text, compact_block_line, compact_relay_line, counted_line, entries_text, entry_line, header_line, headers_text, item_text, items_text, message_text, request_line, tx_line, txs_request_line, version_line};

use cb_base::{Fault, Hash256, dsha};
use cb_block::{Block, Header, Tx, write_tx};
use cb_control::Halt;
use cb_wire::{
    Agent, BlockTransactions, BlockTransactionsRequest, CompactRelay, Differences,
    HeaderAndShortIds, HeadersRequest, Inventory, Item, Locator, Message, Version,
};
use std::alloc::Global;

/// Appends the lines of items, one after another. Fails only with `Halt::Memory`.
pub fn push_items(alloc: Global, text: &mut String, items: &[Item]) -> Result<(), Halt>
    ensures text { OnOk result
        (string_bytes text.new ≡ string_bytes text.old ++ items_text items.now) }
    ensures memory { IsOkUnless result Memory }
    ensures nothing { items.now ≡ [] → IsOk result }
{
    for item in items {
        push_item(alloc, text, item)?;
    }
    Ok(())
}

/// Appends the line of an item. Fails only with `Halt::Memory`.
pub fn push_item(alloc: Global, text: &mut String, item: &Item) -> Result<(), Halt>
    ensures text { OnOk result
        (string_bytes text.new ≡ string_bytes text.old ++ item_text item.now) }
    ensures memory { IsOkUnless result Memory }
{
    match item {
        Item::Good(message) => push_message(alloc, text, message.message())?,
        Item::Damaged => text.push_str("damaged\n")?,
        Item::Bad(command, fault) => {
            let name = command.name();
            writeln!(text, "bad {name} {fault}")?;
        }
    }
    Ok(())
}

/// Appends the line of a message, with one arm for each command. Fails only with `Halt::Memory`.
fn push_message(alloc: Global, text: &mut String, message: &Message) -> Result<(), Halt>
    ensures text { OnOk result
        (string_bytes text.new ≡ string_bytes text.old ++ message_text message.now) }
    ensures memory { IsOkUnless result Memory }
{
    match message {
        Message::Version(version) => push_version(alloc, text, version)?,
        Message::Verack => text.push_str("verack\n")?,
        Message::Ping(nonce) => writeln!(text, "ping {nonce}")?,
        Message::Pong(nonce) => writeln!(text, "pong {nonce}")?,
        Message::SendHeaders => text.push_str("sendheaders\n")?,
        Message::SendCmpct(relay) => push_compact_relay(text, relay)?,
        Message::Inv(entries) => push_entries(alloc, text, "inv", entries.as_slice())?,
        Message::GetData(entries) => push_entries(alloc, text, "getdata", entries.as_slice())?,
        Message::NotFound(entries) => push_entries(alloc, text, "notfound", entries.as_slice())?,
        Message::Headers(headers) => push_headers(alloc, text, headers.as_slice())?,
        Message::GetHeaders(request) => push_request(alloc, text, request)?,
        Message::Tx(tx) => push_tx(alloc, text, tx)?,
        Message::Block(block) => push_block(alloc, text, block)?,
        Message::CmpctBlock(block) => push_compact_block(alloc, text, block)?,
        Message::GetBlockTxn(request) => push_txs_request(alloc, text, request)?,
        Message::BlockTxn(txs) => push_block_txs(alloc, text, txs)?,
        Message::Unknown(name, payload) => {
            let name = name.as_str();
            let length = payload.len();
            writeln!(text, "unknown {name} {length}")?;
        }
    }
    Ok(())
}

/// Appends the line of a `version`: its number, the services, the height, and the user agent in
/// hex.
fn push_version(alloc: Global, text: &mut String, version: &Version) -> Result<(), Halt>
    ensures text { OnOk result
        (string_bytes text.new ≡ string_bytes text.old ++ version_line version.now) }
    ensures memory { IsOkUnless result Memory }
{
    let number = version.version;
    let services = version.services;
    let height = version.height;
    let agent = hex_of(alloc, &version.agent)?;
    write!(text, "version {number} services {services}")?;
    writeln!(text, " height {height} agent {agent}")?;
    Ok(())
}

/// A user agent in hex.
fn hex_of(alloc: Global, agent: &Agent) -> Result<String, Halt>
    ensures text { IfOk result (λ text. string_bytes text ≡ encode_lower agent.now) }
    ensures memory { IsOkUnless result Memory }
{
    match hex::encode(alloc, agent.as_slice()) {
        Ok(text) => Ok(text),
        Err(_) => Err(Halt::Memory),
    }
}

/// Appends the line of a `sendcmpct`: the high-bandwidth flag as 0 or 1, and the version (BIP 152).
fn push_compact_relay(text: &mut String, relay: &CompactRelay) -> Result<(), Halt>
    ensures text { OnOk result
        (string_bytes text.new ≡ string_bytes text.old ++ compact_relay_line relay.now) }
    ensures memory { IsOkUnless result Memory }
{
    let flag = if relay.high_bandwidth { "1 " } else { "0 " };
    let version = relay.version;
    writeln!(text, "sendcmpct {flag}{version}")?;
    Ok(())
}

/// Appends the line of a `getheaders`: how many hashes its locator has, and the hash to stop at.
fn push_request(alloc: Global, text: &mut String, request: &HeadersRequest) -> Result<(), Halt>
    ensures text { OnOk result
        (string_bytes text.new ≡ string_bytes text.old ++ request_line request.now) }
    ensures memory { IsOkUnless result Memory }
{
    push_count_and_stop(alloc, text, locator_len(&request.locator), &request.stop)
}

/// Appends the line of a `getheaders` with so many hashes and this hash to stop at.
fn push_count_and_stop(
    alloc: Global,
    text: &mut String,
    count: usize,
    stop: &Hash256,
) -> Result<(), Halt>
    ensures text { OnOk result
        (string_bytes text.new ≡ string_bytes text.old ++ counted_line count stop.now) }
    ensures memory { IsOkUnless result Memory }
{
    let stop = stop.show(alloc).map_err(Halt::of_memory)?;
    writeln!(text, "getheaders {count} {stop}")?;
    Ok(())
}

/// How many hashes a locator has.
fn locator_len(locator: &Locator) -> usize
    ensures { result ≡ length locator.now }
{
    locator.as_slice().len()
}

/// Appends the lines of an inventory list: the message's name and how many entries there are, then
/// one line per entry.
fn push_entries(
    alloc: Global,
    text: &mut String,
    name: &str,
    entries: &[Inventory],
) -> Result<(), Halt>
    ensures text { OnOk result
        (string_bytes text.new ≡ string_bytes text.old ++ entries_text name.now entries.now) }
    ensures memory { IsOkUnless result Memory }
{
    let count = entries.len();
    writeln!(text, "{name} {count}")?;
    for entry in entries {
        push_entry(alloc, text, entry)?;
    }
    Ok(())
}

/// Appends the line of an inventory entry.
fn push_entry(alloc: Global, text: &mut String, entry: &Inventory) -> Result<(), Halt>
    ensures text { OnOk result
        (string_bytes text.new ≡ string_bytes text.old ++ entry_line entry.now) }
    ensures memory { IsOkUnless result Memory }
{
    let kind = entry.kind();
    let hash = entry.hash().show(alloc).map_err(Halt::of_memory)?;
    writeln!(text, "  {kind} {hash}")?;
    Ok(())
}

/// Appends the lines of `headers`: how many there are, then the hash of each.
fn push_headers(alloc: Global, text: &mut String, headers: &[Header]) -> Result<(), Halt>
    ensures text { OnOk result
        (string_bytes text.new ≡ string_bytes text.old ++ headers_text headers.now) }
    ensures memory { IsOkUnless result Memory }
{
    let count = headers.len();
    writeln!(text, "headers {count}")?;
    for header in headers {
        push_header(alloc, text, header)?;
    }
    Ok(())
}

/// Appends the line of a block header: its hash.
fn push_header(alloc: Global, text: &mut String, header: &Header) -> Result<(), Halt>
    ensures text { OnOk result
        (string_bytes text.new ≡ string_bytes text.old ++ header_line header.now) }
    ensures memory { IsOkUnless result Memory }
{
    let hash = header.hash().show(alloc).map_err(Halt::of_memory)?;
    writeln!(text, "  {hash}")?;
    Ok(())
}

/// Appends the line of a transaction: its txid, and how many bytes it has. It is serialised once
/// and hashed once.
fn push_tx(alloc: Global, text: &mut String, tx: &Tx) -> Result<(), Halt>
    ensures text { OnOk result (string_bytes text.new ≡ string_bytes text.old ++ tx_line tx.now) }
    ensures memory { IsOkUnless result Memory }
{
    let mut bytes = Vec::new(alloc);
    write_tx(&mut bytes, tx).map_err(Halt::of_memory)?;
    let txid = dsha(bytes.as_slice()).show(alloc).map_err(Halt::of_memory)?;
    let size = bytes.len();
    writeln!(text, "tx {txid} {size}")?;
    Ok(())
}

/// Appends the line of a block: its hash, and how many transactions it has.
fn push_block(alloc: Global, text: &mut String, block: &Block) -> Result<(), Halt>
    ensures text { OnOk result
        (string_bytes text.new ≡ string_bytes text.old ++ block_line block.now) }
    ensures memory { IsOkUnless result Memory }
{
    let hash = block.header.hash().show(alloc).map_err(Halt::of_memory)?;
    let count = block.txs.as_slice().len();
    writeln!(text, "block {hash} {count}")?;
    Ok(())
}

/// Appends the line of a compact block: its hash, how many short ids it has, and how many
/// transactions are prefilled.
fn push_compact_block(
    alloc: Global,
    text: &mut String,
    block: &HeaderAndShortIds,
) -> Result<(), Halt>
    ensures text { OnOk result
        (string_bytes text.new ≡ string_bytes text.old ++ compact_block_line block.now) }
    ensures memory { IsOkUnless result Memory }
{
    let name = block.header.hash().show(alloc).map_err(Halt::of_memory)?;
    let ids = block.txs.ids().len();
    let prefilled = block.txs.prefilled().len();
    write!(text, "cmpctblock {name} ids {ids}")?;
    writeln!(text, " prefilled {prefilled}")?;
    Ok(())
}

/// Appends the line of a `getblocktxn`: the block's hash, and how many transactions are asked for.
fn push_txs_request(
    alloc: Global,
    text: &mut String,
    request: &BlockTransactionsRequest,
) -> Result<(), Halt>
    ensures text { OnOk result
        (string_bytes text.new ≡ string_bytes text.old ++ txs_request_line request.now) }
    ensures memory { IsOkUnless result Memory }
{
    let hash = request.block.show(alloc).map_err(Halt::of_memory)?;
    let count = differences_len(&request.differences);
    writeln!(text, "getblocktxn {hash} {count}")?;
    Ok(())
}

/// How many transactions are asked for.
fn differences_len(differences: &Differences) -> usize
    ensures { result ≡ length differences.now }
{
    differences.as_slice().len()
}

/// Appends the line of a `blocktxn`: the block's hash, and how many transactions it has.
fn push_block_txs(alloc: Global, text: &mut String, txs: &BlockTransactions) -> Result<(), Halt>
    ensures text { OnOk result
        (string_bytes text.new ≡ string_bytes text.old ++ block_txs_line txs.now) }
    ensures memory { IsOkUnless result Memory }
{
    let hash = txs.block.show(alloc).map_err(Halt::of_memory)?;
    let count = txs.txs.as_slice().len();
    writeln!(text, "blocktxn {hash} {count}")?;
    Ok(())
}

/// Appends the line of a stream's fault, if it has one. Fails only with `Halt::Memory`.
pub fn push_fault(text: &mut String, fault: Option<Fault>) -> Result<(), Halt>
    ensures text { OnOk result
        (string_bytes text.new ≡ string_bytes text.old ++ broken_text fault) }
    ensures memory { IsOkUnless result Memory }
    ensures nothing { fault ≡ None → IsOk result }
{
    if let Some(fault) = fault {
        writeln!(text, "broken {fault}")?;
    }
    Ok(())
}
