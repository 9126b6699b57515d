// The functions of this file do nothing: their contracts are theorems.

ghost use Rattle.std.specs.Prelude.{◌≡◌, map};
ghost use Rattle.cb_block.specs.Blocks.{texts};
ghost use Rattle.cb_block.specs.BlockText.{IsBlock, block_text};
ghost use Rattle.cb_block.specs.declared.block.Block.{Block};
ghost use Rattle.cb_relay.specs.Spans.{cut, inputs_of, outputs_of, spans_of};
ghost use Rattle.cb_block.specs.TxText.{IsTx, tx_text};
ghost use Rattle.cb_block.specs.declared.tx.Tx.{Tx};

/// What lies at the spans of a transaction's parts are its scripts, and what lies at those of a
/// block are its transactions.
pub fn what_lies_there()
    ensures inputs { (tx : Tx) → IsTx tx →
        map (λ input. cut (tx_text tx) input.script) (inputs_of tx)
        ≡ map (λ input. input.script) tx.inputs }
    ensures outputs { (tx : Tx) → IsTx tx →
        map (λ output. cut (tx_text tx) output.script) (outputs_of tx)
        ≡ map (λ output. output.script) tx.outputs }
    ensures txs { (block : Block) → IsBlock block →
        map (cut (block_text block)) (spans_of block) ≡ texts block.txs }
{}
