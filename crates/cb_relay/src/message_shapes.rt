//! The shapes of messages' fields that C has too, field by field.
use crate::shapes::{CbHash, CbHeader, CbSpan};

/// A network address of a `version`: an IPv6 address, or an IPv4 address in its last 4 bytes.
#[repr(C)]
#[derive(Clone, Copy)]
pub struct CbAddress {
    pub services: u64,
    pub ip: [u8; 16],
    pub port: u16,
}

/// The fields of a `version`. `relay` (BIP 37) is 0 or 1.
#[repr(C)]
#[derive(Clone, Copy)]
pub struct CbVersionFields {
    pub version: i32,
    pub relay: u32,
    pub services: u64,
    /// Unix time in seconds.
    pub time: i64,
    pub receiver: CbAddress,
    pub sender: CbAddress,
    pub nonce: u64,
    /// Where the user agent lies in the payload.
    pub agent: CbSpan,
    pub height: i32,
}

/// An entry of `inv`, `getdata` or `notfound`: its type and a hash.
#[repr(C)]
#[derive(Clone, Copy)]
pub struct CbEntry {
    pub kind: u32,
    pub hash: CbHash,
}

/// A prefilled transaction of a `cmpctblock`: its index as a difference (BIP 152), and where it
/// lies in the payload.
#[repr(C)]
#[derive(Clone, Copy)]
pub struct CbPrefilled {
    pub difference: u64,
    pub tx: CbSpan,
}

/// The other fields of a `cmpctblock`, and how many short ids and prefilled transactions it has.
#[repr(C)]
#[derive(Clone, Copy)]
pub struct CbCompact {
    pub header: CbHeader,
    pub nonce: u64,
    pub ids: usize,
    pub prefilled: usize,
}
