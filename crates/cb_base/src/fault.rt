ghost use Rattle.std.specs.Prelude.{◌≡◌, Some};

use std::alloc::{AllocError, AllocFailed};
use std::error::Error;
use std::fmt;

/// A rule that a transaction must meet by itself, without the UTXO set (Bitcoin Core's
/// `CheckTransaction`). The rules are checked in this order.
#[derive(Clone, Copy, Debug, PartialEq, Eq)]
pub enum TxRule {
    /// It has no inputs.
    NoInputs,
    /// It has no outputs.
    NoOutputs,
    /// Its serialisation has more than 1,000,000 bytes.
    TooLong,
    /// The value of an output is below 0 or above 2,100,000,000,000,000 satoshis (21 million
    /// bitcoins).
    BadValue,
    /// The values of its outputs add up to more than 2,100,000,000,000,000 satoshis.
    BadSum,
    /// Two inputs spend the same output.
    RepeatedInput,
    /// The input script of a coinbase has fewer than 2 bytes or more than 100.
    BadCoinbaseScript,
    /// A transaction that isn't a coinbase has an input with the null outpoint (txid zero, index
    /// ffffffff).
    NullInput,
}

impl TxRule {
    ghost use Rattle.cb_base.specs.Fault.{rule_number};

    /// The rule's number, 1 to 8.
    pub fn number(&self) -> u8
        ensures { result ≡ rule_number self.now }
    {
        match self {
            TxRule::NoInputs => 1,
            TxRule::NoOutputs => 2,
            TxRule::TooLong => 3,
            TxRule::BadValue => 4,
            TxRule::BadSum => 5,
            TxRule::RepeatedInput => 6,
            TxRule::BadCoinbaseScript => 7,
            TxRule::NullInput => 8,
        }
    }
}

/// Why a call failed. Each fault has a number and a name, and prints as both: `F2 Truncated`.
/// `BadTx` also prints the number of the rule: `F5 BadTx 3`.
#[derive(Clone, Copy, Debug, PartialEq, Eq)]
pub enum Fault {
    /// An allocation failed, the size of one is too large to compute, or a shared value already has
    /// 2^63 owners.
    Memory,
    /// Bytes are missing, or the items that a count announces can't fit in the bytes that are left.
    Truncated,
    /// A CompactSize isn't the shortest encoding of its number.
    NotShortest,
    /// A count, or the length of a user agent, is above its limit. Or a header or block would be
    /// above height 1,000,000,000.
    TooMany,
    /// A transaction breaks this rule, and none before it.
    BadTx(TxRule),
    /// A block's transactions don't have the Merkle root of its header.
    BadRoot,
    /// Two paired hashes in the Merkle tree of a block, received or mined, are equal
    /// (CVE-2012-2459).
    Mutated,
    /// A transaction of a block, or one for the mempool, has 64 bytes. It could pass for an inner
    /// node of the Merkle tree (CVE-2017-12842).
    Size64,
    /// A block or a compact block has no transactions.
    Empty,
    /// A block's first transaction isn't a coinbase, or a later one is. Or a coinbase was offered
    /// to the mempool.
    BadCoinbase,
    /// A header's bits aren't the network's, or its hash is above the target. Or no nonce meets the
    /// target for a block that is mined.
    BadWork,
    /// A message header in a stream doesn't begin with the network's magic.
    BadMagic,
    /// A message header announces a payload of more than 4,000,000 bytes, or a block has more than
    /// 1,000,000 bytes.
    Oversize,
    /// Bytes are left over after a payload, or after a block that is read alone.
    Trailing,
    /// A flag is neither 0 nor 1, or the transaction count after a header of a `headers` message
    /// isn't 0.
    BadBool,
    /// An index that is sent as a difference (BIP 152) is at or above the number of transactions,
    /// or above 64 bits.
    BadIndex,
    /// A `blocktxn` doesn't have as many transactions as the block is missing (BIP 152).
    WrongCount,
    /// The mempool already has the txid, the header is already known, or the block is already
    /// stored.
    Known,
    /// An input spends an output that isn't unspent. Programs of the benchmarks also tell it of a
    /// record that names an unknown transaction.
    NoInput,
    /// The mempool has 10,000 transactions.
    PoolFull,
    /// A transaction's outputs are worth more than its inputs.
    Overspent,
    /// A transaction creates an output that is already unspent.
    Remade,
    /// A header's parent is unknown, or a block's parent isn't stored.
    NoParent,
    /// A header or block is marked invalid, or its parent is.
    BadParent,
    /// The hall (the chain state and mempool that all peers share), its journal (the log of the
    /// hall's calls) or a connection's badge (its permit to ask the hall) has counted 2^62 calls.
    JournalFull,
    /// An act of the core of the crew (the scheduler of handler threads) is not possible in its
    /// state. Programs of the benchmarks also tell it of a record that they can't play.
    NotEnabled,
    /// An inbox (the queue between the reader thread and the handlers of a peer) has no room.
    Full,
    /// A peer of a crew has had 256 connections, or a peer of a hall has had the connection with
    /// the last number (generation 2^64 - 1).
    NoMore,
}

impl Fault {
    ghost use Rattle.cb_base.specs.Fault.{fault_number, fault_name};

    /// The fault's number, 1 to 28.
    pub fn number(&self) -> u8
        ensures { result ≡ fault_number self.now }
    {
        match self {
            Fault::Memory => 1,
            Fault::Truncated => 2,
            Fault::NotShortest => 3,
            Fault::TooMany => 4,
            Fault::BadTx(_) => 5,
            Fault::BadRoot => 6,
            Fault::Mutated => 7,
            Fault::Size64 => 8,
            Fault::Empty => 9,
            Fault::BadCoinbase => 10,
            Fault::BadWork => 11,
            Fault::BadMagic => 12,
            Fault::Oversize => 13,
            Fault::Trailing => 14,
            Fault::BadBool => 15,
            Fault::BadIndex => 16,
            Fault::WrongCount => 17,
            Fault::Known => 18,
            Fault::NoInput => 19,
            Fault::PoolFull => 20,
            Fault::Overspent => 21,
            Fault::Remade => 22,
            Fault::NoParent => 23,
            Fault::BadParent => 24,
            Fault::JournalFull => 25,
            Fault::NotEnabled => 26,
            Fault::Full => 27,
            Fault::NoMore => 28,
        }
    }

    /// The name, as it is printed after the number.
    pub fn name(&self) -> &'static str
        ensures { result.now ≡ fault_name self.now }
    {
        match self {
            Fault::Memory => "Memory",
            Fault::Truncated => "Truncated",
            Fault::NotShortest => "NotShortest",
            Fault::TooMany => "TooMany",
            Fault::BadTx(_) => "BadTx",
            Fault::BadRoot => "BadRoot",
            Fault::Mutated => "Mutated",
            Fault::Size64 => "Size64",
            Fault::Empty => "Empty",
            Fault::BadCoinbase => "BadCoinbase",
            Fault::BadWork => "BadWork",
            Fault::BadMagic => "BadMagic",
            Fault::Oversize => "Oversize",
            Fault::Trailing => "Trailing",
            Fault::BadBool => "BadBool",
            Fault::BadIndex => "BadIndex",
            Fault::WrongCount => "WrongCount",
            Fault::Known => "Known",
            Fault::NoInput => "NoInput",
            Fault::PoolFull => "PoolFull",
            Fault::Overspent => "Overspent",
            Fault::Remade => "Remade",
            Fault::NoParent => "NoParent",
            Fault::BadParent => "BadParent",
            Fault::JournalFull => "JournalFull",
            Fault::NotEnabled => "NotEnabled",
            Fault::Full => "Full",
            Fault::NoMore => "NoMore",
        }
    }
}

impl fmt::Display for Fault {
    ghost use Rattle.cb_base.specs.Fault.{fault_text};

    ghost output = { λ fault. Some (fault_text fault) };

    fn fmt<W: fmt::Write>(&self, f: &mut fmt::Formatter<W>) -> fmt::Result {
        let number = self.number();
        let name = self.name();
        match self {
            Fault::BadTx(rule) => {
                let rule = rule.number();
                write!(f, "F{number} {name} {rule}")
            }
            _ => write!(f, "F{number} {name}"),
        }
    }
}

impl Error for Fault {}

impl From<AllocError> for Fault {
    ghost use Rattle.cb_base.specs.declared.fault.Fault.TheVariants.{Memory};

    ghost from_gives = { λ _ fault. fault ≡ Memory };

    fn from(_error: AllocError) -> Fault {
        Fault::Memory
    }
}

impl<T: Drop> From<AllocFailed<T>> for Fault {
    ghost use Rattle.cb_base.specs.declared.fault.Fault.TheVariants.{Memory};

    ghost from_gives = { λ _ fault. fault ≡ Memory };

    fn from(_error: AllocFailed<T>) -> Fault {
        Fault::Memory
    }
}
