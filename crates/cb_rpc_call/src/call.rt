//! What a request asks of a node.
use crate::method::Method;
use cb_base::{Hash256, Shared};
use cb_block::{Block, Header, OutPoint, Tx};
use log::LevelFilter;
use std::net::SocketAddr;

/// How much of a block is told.
#[derive(Clone, Copy)]
pub enum Detail {
    /// Its bytes in hex.
    Hex,
    /// Its header, and the txids of its transactions.
    Txids,
    /// Its header, and its transactions.
    Txs,
}

/// What `addnode` does with an address.
#[derive(Clone, Copy)]
pub enum Aim {
    /// Dial it, and again whenever the connection ends.
    Add,
    /// Dial it no more, and end its connection.
    Remove,
    /// Dial it once.
    Once,
}

/// Whose connection `disconnectnode` ends.
#[derive(Clone, Copy)]
pub enum Whom {
    /// That of the peer at this address.
    Address(SocketAddr),
    /// The one with this number among those of `getpeerinfo`.
    Id(u64),
}

/// A call that reads the chain and the mempool alone, with its parameters.
#[derive(Drop)]
pub enum ReadCall {
    /// `getblockcount`: the height of the best chain's tip.
    BlockCount,
    /// `getbestblockhash`: the hash of the best chain's tip.
    BestBlockHash,
    /// `getblockhash HEIGHT`: the hash of the best chain's block at a height.
    BlockHash(u32),
    /// `getblockheader HASH VERBOSE`: a header, as fields or in hex.
    BlockHeader(Hash256, bool),
    /// `getblock HASH VERBOSITY`: a block.
    Block(Hash256, Detail),
    /// `getchaintips`: the headers on which no other stands.
    ChainTips,
    /// `getblockchaininfo`: where the chain stands.
    ChainInfo,
    /// `getrawmempool VERBOSE`: the mempool's txids, or its entries.
    RawMempool(bool),
    /// `getmempoolinfo`: the mempool's size.
    MempoolInfo,
    /// `getmempoolentry TXID`: an entry of the mempool.
    MempoolEntry(Hash256),
    /// `getrawtransaction TXID VERBOSE BLOCKHASH`: a transaction of the mempool, or of the block
    /// with that hash; as fields or in hex.
    RawTransaction(Hash256, bool, Option<Hash256>),
    /// `gettxout TXID N INCLUDE_MEMPOOL`: an unspent output of the UTXO set; with the mempool,
    /// after its transactions.
    TxOut(OutPoint, bool),
    /// `decoderawtransaction HEX`: a transaction as fields.
    DecodeTransaction(Shared<Tx>),
    /// `testmempoolaccept [HEX]`: whether the mempool would take a transaction.
    TestAccept(Shared<Tx>),
}

/// A call with its parameters.
#[derive(Drop)]
pub enum Call {
    /// One that reads the chain and the mempool alone.
    Read(ReadCall),
    /// `sendrawtransaction HEX`: takes a transaction.
    SendTransaction(Shared<Tx>),
    /// `submitblock HEX`: takes a block.
    SubmitBlock(Shared<Block>),
    /// `submitheader HEX`: takes a header.
    SubmitHeader(Header),
    /// `generate N`: mines so many blocks, at most 1,000.
    Generate(u16),
    /// `getnetworkinfo`: what the node tells of itself.
    NetworkInfo,
    /// `getnettotals`: the bytes that all connections moved.
    NetTotals,
    /// `getconnectioncount`: how many connections last.
    ConnectionCount,
    /// `getpeerinfo`: the connections that last.
    PeerInfo,
    /// `addnode ADDRESS COMMAND`.
    AddNode(SocketAddr, Aim),
    /// `disconnectnode ADDRESS` or `disconnectnode "" ID`.
    DisconnectNode(Whom),
    /// `setnetworkactive STATE`: whether the node has connections.
    SetNetworkActive(bool),
    /// `ping`: asks each peer for a `pong`.
    Ping,
    /// `uptime`: for how many seconds the node has run.
    Uptime,
    /// `logging LEVEL`: which records are logged from now on; without a level, which are.
    Logging(Option<LevelFilter>),
    /// `help METHOD`: how a method is called; without one, the list of all. The inner `None` stands
    /// for a name that no method has.
    Help(Option<Option<Method>>),
    /// `stop`: ends the node.
    Stop,
}
