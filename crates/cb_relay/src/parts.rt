//! Where the parts of a transaction lie in its serialisation, and transactions in that of a block.
ghost use Rattle.std.specs.Prelude.{◌≡◌, ◌+◌, ◌<◌, ◌⊎◌, ◌^◌, length, IfErr, IfOk, IsOk, IsOkUnless};
ghost use Rattle.std.specs.List.{flat_map};
ghost use Rattle.cb_base.specs.CompactSize.{compact_text};
ghost use Rattle.cb_base.specs.declared.fault.Fault.TheVariants.{Memory};
ghost use Rattle.cb_block.specs.BlockText.{block_text};
ghost use Rattle.cb_block.specs.declared.block.Block.{Block};
ghost use Rattle.cb_block.specs.TxText.{input_text, output_text, tx_text};
ghost use Rattle.cb_block.specs.declared.tx.Tx.{Tx};
ghost use Rattle.cb_relay.specs.Parts.{AreParts, HasParts, IsNoParts, IsNoSpans};
ghost use Rattle.cb_relay.specs.Spans.{input_at, inputs_at, output_at, outputs_at, script_span, spans_of, txs_at};
ghost use Rattle.cb_relay.specs.Whole.{IsBlockOf, IsTxOf};

use crate::blocks::whole_block;
use crate::shapes::{CbHash, CbInput, CbOutput, CbSpan, CbTx};
use crate::txs::whole_tx;
use cb_base::{Fault, Shared};
use cb_block::{Block, Coded, Script, Tx, TxIn, TxOut, compact_size, items_size};
use std::alloc::Global;

/// The parts of a transaction, with places in its serialisation.
#[derive(Drop)]
pub struct TxParts {
    pub fields: CbTx,
    pub inputs: Vec<CbInput>,
    pub outputs: Vec<CbOutput>,
}

/// Where transactions lie that stand one after another. The first begins at `start`, and the last
/// ends below 2^64. Fails only with `Fault::Memory`, and never without transactions.
pub fn spans_from(alloc: Global, start: usize, txs: &[Shared<Tx>]) -> Result<Vec<CbSpan>, Fault>
    requires { start + length (flat_map tx_text txs.now) < 2 ^ 64 }
    ensures same { IfOk result (λ spans. spans.items ≡ txs_at start txs.now) }
    ensures memory { IsOkUnless result Memory }
    ensures unpaid { length txs.now ≡ 0 → IsOk result }
{
    let mut spans = Vec::with_capacity(alloc, txs.len())?;
    let mut at = start;
    for tx in txs {
        let len = tx.size() as usize;
        spans.push(CbSpan { offset: at, len })?;
        at += len;
    }
    Ok(spans)
}

/// Where a script lies whose length begins at `at`.
fn span_of(at: usize, script: &Script) -> CbSpan
    requires { at + length (compact_text (length script.now)) < 2 ^ 64 }
    ensures { result ≡ script_span at script.now }
{
    let len = script.len();
    let offset = at + compact_size(len as u64) as usize;
    CbSpan { offset, len }
}

/// An input that begins at `at`.
#[tactic(auto, unfolding(cb_block::specs::TxText::input_text, cb_block::specs::TxText::script_text))]
fn input_shape(at: usize, input: &TxIn) -> CbInput
    requires { at + length (input_text input.now) < 2 ^ 64 }
    ensures { result ≡ input_at at input.now }
{
    let before = input.prev.txid.bytes().len() + 4;
    let txid = input.prev.txid.0;
    CbInput {
        txid: CbHash { bytes: txid },
        index: input.prev.index,
        sequence: input.sequence,
        script: span_of(at + before, &input.script),
    }
}

/// An output that begins at `at`.
#[tactic(auto, unfolding(cb_block::specs::TxText::output_text, cb_block::specs::TxText::script_text))]
fn output_shape(at: usize, output: &TxOut) -> CbOutput
    requires { at + length (output_text output.now) < 2 ^ 64 }
    ensures { result ≡ output_at at output.now }
{
    CbOutput {
        value: output.value,
        script: span_of(at + 8, &output.script),
    }
}

/// The inputs, the first of which begins at `start`.
fn inputs_from(alloc: Global, start: usize, inputs: &[TxIn]) -> Result<Vec<CbInput>, Fault>
    requires { start + length (flat_map input_text inputs.now) < 2 ^ 64 }
    ensures same { IfOk result (λ list. list.items ≡ inputs_at start inputs.now) }
    ensures memory { IsOkUnless result Memory }
    ensures unpaid { length inputs.now ≡ 0 → IsOk result }
{
    let mut list = Vec::with_capacity(alloc, inputs.len())?;
    let mut at = start;
    for input in inputs {
        list.push(input_shape(at, input))?;
        at += input.text_size() as usize;
    }
    Ok(list)
}

/// The outputs, the first of which begins at `start`.
fn outputs_from(alloc: Global, start: usize, outputs: &[TxOut]) -> Result<Vec<CbOutput>, Fault>
    requires { start + length (flat_map output_text outputs.now) < 2 ^ 64 }
    ensures same { IfOk result (λ list. list.items ≡ outputs_at start outputs.now) }
    ensures memory { IsOkUnless result Memory }
    ensures unpaid { length outputs.now ≡ 0 → IsOk result }
{
    let mut list = Vec::with_capacity(alloc, outputs.len())?;
    let mut at = start;
    for output in outputs {
        list.push(output_shape(at, output))?;
        at += output.text_size() as usize;
    }
    Ok(list)
}

/// The parts of a transaction, whose serialisation has fewer than 2^64 bytes.
#[tactic(auto, unfolding(cb_block::specs::TxText::tx_text, cb_block::specs::TxText::list_text))]
fn parts_of(alloc: Global, tx: &Tx) -> Result<TxParts, Fault>
    requires { length (tx_text tx.now) < 2 ^ 64 }
    ensures same { IfOk result (AreParts tx.now) }
    ensures memory { IfErr result
        (λ fault. (fault ≡ Memory) × HasParts tx.now) }
{
    let inputs = tx.inputs.as_slice();
    let outputs = tx.outputs.as_slice();
    let first = 4 + compact_size(inputs.len() as u64) as usize;
    let second = 4 + items_size(inputs) as usize + compact_size(outputs.len() as u64) as usize;
    let fields = CbTx {
        version: tx.version,
        lock_time: tx.lock_time,
        inputs: inputs.len(),
        outputs: outputs.len(),
    };
    Ok(TxParts {
        fields,
        inputs: inputs_from(alloc, first, inputs)?,
        outputs: outputs_from(alloc, second, outputs)?,
    })
}

/// Reads the parts of the transaction that is all of these bytes. Fails as `whole_tx` does.
pub fn tx_parts(alloc: Global, bytes: &[u8]) -> Result<TxParts, Fault>
    ensures found { IfOk result (λ parts. (tx : Tx) × IsTxOf bytes.now tx × AreParts tx parts) }
    ensures refused { IfErr result (IsNoParts bytes.now) }
{
    let tx = whole_tx(alloc, bytes)?;
    match parts_of(alloc, &tx) {
        Ok(parts) => Ok(parts),
        Err(fault) => Err(fault),
    }
}

/// Where the transactions of a block lie in its serialisation, which has fewer than 2^64 bytes.
#[tactic(auto, unfolding(cb_block::specs::BlockText::block_text, cb_block::specs::TxText::list_text))]
fn spans_within(alloc: Global, block: &Block) -> Result<Vec<CbSpan>, Fault>
    requires { length (block_text block.now) < 2 ^ 64 }
    ensures same { IfOk result (λ spans. spans.items ≡ spans_of block.now) }
    ensures memory { IfErr result (λ fault. (fault ≡ Memory) × (0 < length block.now.txs)) }
{
    let txs = block.txs.as_slice();
    let header = block.header.text().as_slice().len();
    spans_from(alloc, header + compact_size(txs.len() as u64) as usize, txs)
}

/// Where each transaction lies in the block that is all of these bytes. Fails as `whole_block`
/// does.
pub fn block_spans(alloc: Global, bytes: &[u8]) -> Result<Vec<CbSpan>, Fault>
    ensures found { IfOk result
        (λ spans. (block : Block) × IsBlockOf bytes.now block × (spans.items ≡ spans_of block)) }
    ensures refused { IfErr result (IsNoSpans bytes.now) }
{
    let block = whole_block(alloc, bytes)?;
    match spans_within(alloc, &block) {
        Ok(spans) => Ok(spans),
        Err(fault) => Err(fault),
    }
}
