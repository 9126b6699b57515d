//! Theorems about the payloads of BIP 152: reading gives back what was written, and a truncated
//! payload is told as such. The contracts use these definitions.
//!
//! Each theorem is the contract of a function that does nothing.
ghost use Rattle.std.specs.Prelude.{◌≡◌, ◌≢◌, ℕ, List, [], ◌++◌, Err};
ghost use Rattle.cb_base.specs.declared.fault.Fault.TheVariants.{Truncated};
ghost use Rattle.cb_wire.specs.declared.block_transactions.BlockTransactions.{BlockTransactions};
ghost use Rattle.cb_wire.specs.declared.block_transactions.BlockTransactionsRequest.{BlockTransactionsRequest};
ghost use Rattle.cb_wire.specs.declared.compact_block.HeaderAndShortIds.{HeaderAndShortIds};
ghost use Rattle.cb_wire.specs.BlockTransactions.{IsBlockTxs, IsTxsRequest, block_txs_at, block_txs_text, txs_request_at, txs_request_text};
ghost use Rattle.cb_wire.specs.CompactBlocks.{IsCompactBlock, compact_block_at, compact_block_text};
ghost use Rattle.cb_wire.specs.RoundTrip.{IsReadAsWritten};

/// What is written as `cmpctblock`, `getblocktxn` or `blocktxn` (BIP 152) is read back as the same
/// value, and nothing else is read as that value.
pub fn compact_blocks_are_read_as_written()
    ensures block { IsReadAsWritten compact_block_text compact_block_at IsCompactBlock }
    ensures request { IsReadAsWritten txs_request_text txs_request_at IsTxsRequest }
    ensures txs { IsReadAsWritten block_txs_text block_txs_at IsBlockTxs }
{}

/// A payload of these messages that is cut short anywhere is refused with `Fault::Truncated`.
pub fn beginnings_of_compact_blocks_are_truncated()
    ensures block { (block : HeaderAndShortIds) (b c : List ℕ) → IsCompactBlock block →
        compact_block_text block ≡ b ++ c → c ≢ [] → compact_block_at b ≡ Err Truncated }
    ensures request { (request : BlockTransactionsRequest) (b c : List ℕ) → IsTxsRequest request →
        txs_request_text request ≡ b ++ c → c ≢ [] → txs_request_at b ≡ Err Truncated }
    ensures txs { (txs : BlockTransactions) (b c : List ℕ) → IsBlockTxs txs →
        block_txs_text txs ≡ b ++ c → c ≢ [] → block_txs_at b ≡ Err Truncated }
{}
