//! The shapes of values that C has too, field by field.

/// A hash: 32 bytes in wire order.
#[repr(C)]
#[derive(Clone, Copy)]
pub struct CbHash {
    pub bytes: [u8; 32],
}

/// A SipHash key: two words.
#[repr(C)]
#[derive(Clone, Copy)]
pub struct CbKey {
    pub k0: u64,
    pub k1: u64,
}

/// A block header.
#[repr(C)]
#[derive(Clone, Copy)]
pub struct CbHeader {
    pub version: i32,
    /// The hash of the previous block.
    pub prev: CbHash,
    /// The Merkle root over the txids.
    pub root: CbHash,
    /// Unix time in seconds.
    pub time: u32,
    /// The target in compact form.
    pub bits: u32,
    pub nonce: u32,
}

/// Where something lies in a byte string.
#[repr(C)]
#[derive(Clone, Copy)]
pub struct CbSpan {
    pub offset: usize,
    pub len: usize,
}

/// An input: the output that it spends, where its script lies, and its sequence number.
#[repr(C)]
#[derive(Clone, Copy)]
pub struct CbInput {
    pub txid: CbHash,
    pub index: u32,
    pub sequence: u32,
    pub script: CbSpan,
}

/// An output: a value in satoshis, and where its script lies.
#[repr(C)]
#[derive(Clone, Copy)]
pub struct CbOutput {
    pub value: i64,
    pub script: CbSpan,
}

/// The other fields of a transaction, and how many inputs and outputs it has.
#[repr(C)]
#[derive(Clone, Copy)]
pub struct CbTx {
    pub version: i32,
    pub lock_time: u32,
    pub inputs: usize,
    pub outputs: usize,
}
