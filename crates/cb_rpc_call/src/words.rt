//! The words of refusals.
ghost use Rattle.std.specs.Prelude.{◌≡◌};
ghost use Rattle.cb_rpc_call.specs.Words.{block_words, header_words, reject_words, rule_words};

use cb_base::{Fault, TxRule};

/// Why the mempool refuses a transaction, in the words of Bitcoin Core's `testmempoolaccept`; the
/// fault's name where that has none.
pub fn reject_words(fault: Fault) -> &'static str
    ensures { result.now ≡ reject_words fault }
{
    match fault {
        Fault::BadTx(rule) => rule_words(rule),
        Fault::Size64 => "tx-size-small",
        Fault::BadCoinbase => "coinbase",
        Fault::Known => "txn-already-in-mempool",
        Fault::NoInput => "missing-inputs",
        Fault::PoolFull => "mempool full",
        Fault::Overspent => "bad-txns-in-belowout",
        Fault::Remade => "txn-already-known",
        _ => fault.name(),
    }
}

/// Which rule a transaction breaks by itself.
fn rule_words(rule: TxRule) -> &'static str
    ensures { result.now ≡ rule_words rule }
{
    match rule {
        TxRule::NoInputs => "bad-txns-vin-empty",
        TxRule::NoOutputs => "bad-txns-vout-empty",
        TxRule::TooLong => "bad-txns-oversize",
        TxRule::BadValue => "bad-txns-vout-outofrange",
        TxRule::BadSum => "bad-txns-txouttotal-toolarge",
        TxRule::RepeatedInput => "bad-txns-inputs-duplicate",
        TxRule::BadCoinbaseScript => "bad-cb-length",
        TxRule::NullInput => "bad-txns-prevout-null",
    }
}

/// Why the chain refuses a block, in the words of Bitcoin Core's `submitblock` (BIP 22).
pub fn block_words(fault: Fault) -> &'static str
    ensures { result.now ≡ block_words fault }
{
    match fault {
        Fault::BadTx(rule) => rule_words(rule),
        Fault::BadRoot => "bad-txnmrklroot",
        Fault::Mutated => "bad-txns-duplicate",
        Fault::Empty | Fault::Oversize => "bad-blk-length",
        Fault::BadCoinbase => "bad-cb-missing",
        Fault::BadWork => "high-hash",
        Fault::Known => "duplicate",
        Fault::NoInput => "bad-txns-inputs-missingorspent",
        Fault::Overspent => "bad-txns-in-belowout",
        Fault::Remade => "bad-txns-BIP30",
        Fault::NoParent => "prev-blk-not-found",
        Fault::BadParent => "duplicate-invalid",
        _ => "rejected",
    }
}

/// Why the chain refuses a header, in the words of Bitcoin Core's `submitheader`.
pub fn header_words(fault: Fault) -> &'static str
    ensures { result.now ≡ header_words fault }
{
    match fault {
        Fault::NoParent => "Must submit previous header first",
        Fault::BadParent => "bad-prevblk",
        _ => block_words(fault),
    }
}
