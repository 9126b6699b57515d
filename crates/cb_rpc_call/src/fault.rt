//! Why a call was refused.
ghost use Rattle.std.specs.Prelude.{◌≡◌};
ghost use Rattle.cb_rpc_call.specs.Faults.{code_of, lacking_words, message_of, status_of};

use crate::method::Method;
use crate::status::ResponseStatus;
use crate::words::{block_words, header_words, reject_words};
use cb_base::Fault;
use std::alloc::{AllocError, AllocFailed};

/// What the node doesn't have that a method of Bitcoin Core needs.
#[derive(Clone, Copy)]
pub enum Lacking {
    /// A wallet, its keys and addresses.
    Wallet,
    /// Blocks and indexes on a disk.
    Disk,
    /// Witnesses (BIP 141), scripts that are run, and fees that are estimated.
    Scripts,
    /// Templates of blocks for miners.
    Mining,
}

/// Why a call was refused.
#[derive(Clone, Copy)]
pub enum RpcFault {
    /// The text isn't JSON.
    Unreadable,
    /// The text is neither an object nor an array.
    NotObject,
    /// There are more than 1,000 requests in a list.
    TooMany,
    /// There is no `method`.
    NoMethod,
    /// `method` isn't a string.
    MethodNotText,
    /// `params` is neither an array nor an object, nor null.
    ParamsNotList,
    /// No method has this name.
    UnknownMethod,
    /// The node lacks what this method of Bitcoin Core needs.
    Lacks(Lacking),
    /// An argument of this method is missing, or there are too many.
    Usage(Method),
    /// An argument isn't of its type.
    WrongType,
    /// No parameter has this name.
    UnknownParameter,
    /// A hash isn't 64 digits of hex.
    BadHash,
    /// A number is out of its range.
    OutOfRange,
    /// A word is none of those that the parameter may have.
    BadWord,
    /// `testmempoolaccept` takes one transaction.
    NotOne,
    /// No block of the best chain has this height.
    HeightOutOfRange,
    /// No header with this hash is known.
    NoBlock,
    /// The block's transactions aren't there.
    NoBlockData,
    /// The mempool doesn't have the transaction.
    NotInMempool,
    /// Neither the mempool nor the block has the transaction.
    NoTransaction,
    /// The hex of a transaction can't be read.
    BadTransaction,
    /// The hex of a block can't be read.
    BadBlock,
    /// The hex of a header can't be read.
    BadHeader,
    /// An input's output isn't unspent.
    MissingInputs,
    /// An output of the transaction is unspent already: a block has it.
    InChain,
    /// The mempool refuses the transaction.
    Rejected(Fault),
    /// The chain refuses the header.
    HeaderRejected(Fault),
    /// A mined block was refused.
    MiningFailed(Fault),
    /// An address isn't one in numbers.
    BadAddress,
    /// The address is dialled already.
    Already,
    /// The address isn't dialled.
    NotAdded,
    /// No connection to the peer lasts.
    NotConnected,
    /// The address is the node's own.
    Own,
    /// No slot is free.
    NoSlot,
    /// The operator has the node have no connections.
    NetworkOff,
    /// A fault to which the call can't come: the node itself is wrong.
    Internal(Fault),
    /// Memory ran out.
    Memory,
    /// A call of the system failed.
    Io,
    /// The node is about to end.
    Ending,
}

impl RpcFault {
    /// Its number: that of Bitcoin Core's daemon, if that knows the case.
    pub fn code(self) -> i64
        ensures { result ≡ code_of self }
    {
        match self {
            RpcFault::Unreadable | RpcFault::NotObject => -32_700,
            RpcFault::TooMany
            | RpcFault::NoMethod
            | RpcFault::MethodNotText
            | RpcFault::ParamsNotList => -32_600,
            RpcFault::UnknownMethod | RpcFault::Lacks(_) => -32_601,
            RpcFault::Usage(_)
            | RpcFault::NoBlockData
            | RpcFault::Own
            | RpcFault::NoSlot
            | RpcFault::Io
            | RpcFault::Ending => -1,
            RpcFault::WrongType => -3,
            RpcFault::UnknownParameter
            | RpcFault::BadHash
            | RpcFault::OutOfRange
            | RpcFault::BadWord
            | RpcFault::NotOne
            | RpcFault::HeightOutOfRange => -8,
            RpcFault::NoBlock | RpcFault::NotInMempool | RpcFault::NoTransaction => -5,
            RpcFault::BadTransaction | RpcFault::BadBlock | RpcFault::BadHeader => -22,
            RpcFault::MissingInputs | RpcFault::HeaderRejected(_) => -25,
            RpcFault::InChain => -27,
            RpcFault::Rejected(_) => -26,
            RpcFault::MiningFailed(_) | RpcFault::Internal(_) => -32_603,
            RpcFault::BadAddress => -30,
            RpcFault::Already => -23,
            RpcFault::NotAdded => -24,
            RpcFault::NotConnected => -29,
            RpcFault::NetworkOff => -9,
            RpcFault::Memory => -7,
        }
    }

    /// It in words, those of Bitcoin Core's daemon if that knows the case.
    pub fn message(self) -> &'static str
        ensures { result.now ≡ message_of self }
    {
        match self {
            RpcFault::Unreadable => "Parse error",
            RpcFault::NotObject => "Top-level object parse error",
            RpcFault::TooMany => "Too many requests in a batch",
            RpcFault::NoMethod => "Missing method",
            RpcFault::MethodNotText => "Method must be a string",
            RpcFault::ParamsNotList => "Params must be an array or object",
            RpcFault::UnknownMethod => "Method not found",
            RpcFault::Lacks(lacking) => lacking.words(),
            RpcFault::Usage(method) => method.usage(),
            RpcFault::WrongType => "JSON value is not of expected type",
            RpcFault::UnknownParameter => "Unknown named parameter",
            RpcFault::BadHash => "hash must be of length 64 and a hexadecimal string",
            RpcFault::OutOfRange => "JSON integer out of range",
            RpcFault::BadWord => "Unknown command or level",
            RpcFault::NotOne => "Array must contain exactly one transaction.",
            RpcFault::HeightOutOfRange => "Block height out of range",
            RpcFault::NoBlock => "Block not found",
            RpcFault::NoBlockData => "Block not available (not fully downloaded)",
            RpcFault::NotInMempool => "Transaction not in mempool",
            RpcFault::NoTransaction =>
                "No such mempool transaction. Use blockhash to query for transactions in a block",
            RpcFault::BadTransaction => "TX decode failed",
            RpcFault::BadBlock => "Block decode failed",
            RpcFault::BadHeader => "Block header decode failed",
            RpcFault::MissingInputs => "bad-txns-inputs-missingorspent",
            RpcFault::InChain => "Transaction outputs already in utxo set",
            RpcFault::Rejected(fault) => reject_words(fault),
            RpcFault::HeaderRejected(fault) => header_words(fault),
            RpcFault::MiningFailed(fault) => block_words(fault),
            RpcFault::BadAddress => "Error: Invalid IP address or hostname",
            RpcFault::Already => "Error: Node already added",
            RpcFault::NotAdded =>
                "Error: Node could not be removed. It has not been added previously.",
            RpcFault::NotConnected => "Node not found in connected nodes",
            RpcFault::Own => "The address is the node's own",
            RpcFault::NoSlot => "No slot is free",
            RpcFault::NetworkOff => "Network activity is disabled",
            RpcFault::Internal(fault) => fault.name(),
            RpcFault::Memory => "Out of memory",
            RpcFault::Io => "A call of the system failed",
            RpcFault::Ending => "The node is about to end",
        }
    }

    /// The status of the HTTP response that tells it alone, under JSON-RPC 1.0 and 1.1.
    pub fn status(self) -> ResponseStatus
        ensures { result ≡ status_of self }
    {
        match self.code() {
            -32_600 => ResponseStatus::BadRequest,
            -32_601 => ResponseStatus::NotFound,
            _ => ResponseStatus::ServerError,
        }
    }
}

impl From<AllocError> for RpcFault {
    ghost use Rattle.cb_rpc_call.specs.declared.fault.RpcFault.TheVariants.{Memory};

    ghost from_gives = { λ _ fault. fault ≡ Memory };

    fn from(_error: AllocError) -> RpcFault {
        RpcFault::Memory
    }
}

impl<T: Drop> From<AllocFailed<T>> for RpcFault {
    ghost use Rattle.cb_rpc_call.specs.declared.fault.RpcFault.TheVariants.{Memory};

    ghost from_gives = { λ _ fault. fault ≡ Memory };

    fn from(_error: AllocFailed<T>) -> RpcFault {
        RpcFault::Memory
    }
}

/// Where the call can't come to the fault.
impl From<Fault> for RpcFault {
    ghost use Rattle.cb_rpc_call.specs.Faults.{internal_fault};

    ghost from_gives = { λ fault told. told ≡ internal_fault fault };

    fn from(fault: Fault) -> RpcFault {
        match fault {
            Fault::Memory => RpcFault::Memory,
            other => RpcFault::Internal(other),
        }
    }
}

impl Lacking {
    /// It in words.
    pub fn words(self) -> &'static str
        ensures { result.now ≡ lacking_words self }
    {
        match self {
            Lacking::Wallet => "Method not found: this node has no wallet",
            Lacking::Disk => "Method not found: this node keeps no blocks and indexes on a disk",
            Lacking::Scripts => {
                "Method not found: this node has no witnesses, runs no scripts, estimates no fees"
            }
            Lacking::Mining => "Method not found: this node makes no templates of blocks",
        }
    }
}
