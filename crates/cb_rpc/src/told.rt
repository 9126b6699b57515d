//! What a node tells, as values.
use cb_base::{Fault, Hash256, Shared};
use cb_block::{Header, Script, SoundBlock, Tx};
use cb_control::PeerReport;
use log::LevelFilter;

/// A header that is known.
#[derive(Clone, Copy)]
pub struct HeaderReport {
    /// Its hash.
    pub hash: Hash256,
    /// The header.
    pub header: Header,
    /// Its height; the genesis block has height 0.
    pub height: u32,
    /// How many blocks of the best chain stand from it to the tip, or -1 if it isn't on that.
    pub confirmations: i64,
    /// The median of the times of the last 11 headers up to it (BIP 113), or of fewer if there
    /// aren't so many.
    pub median_time: u32,
    /// How many transactions its block has; 0 if they aren't there.
    pub txs: u64,
    /// The hash of the best chain's block on top of it, if it is on that and not the tip.
    pub next: Option<Hash256>,
}

/// How far a branch's tip is.
#[derive(Clone, Copy)]
pub enum TipStatus {
    /// It is the best chain's tip.
    Active,
    /// Its blocks are there, and it is on a branch.
    ValidFork,
    /// Some of its blocks aren't there.
    HeadersOnly,
    /// Its block, or one below it, is marked bad.
    Invalid,
}

/// A header on which no other stands.
#[derive(Clone, Copy)]
pub struct TipReport {
    /// Its height.
    pub height: u32,
    /// Its hash.
    pub hash: Hash256,
    /// How many headers its branch has above the best chain; 0 for the best chain's tip.
    pub branch: u32,
    /// How far it is.
    pub status: TipStatus,
}

/// Where the chain stands.
#[derive(Clone, Copy)]
pub struct ChainReport {
    /// The height of the best chain's tip.
    pub height: u32,
    /// The greatest height of a header.
    pub headers: u32,
    /// The hash of the tip.
    pub hash: Hash256,
    /// The header of the tip.
    pub header: Header,
    /// The median of the times of the last 11 headers up to the tip (BIP 113).
    pub median_time: u32,
}

/// An entry of the mempool.
#[derive(Drop)]
pub struct EntryReport {
    /// Its txid.
    pub txid: Hash256,
    /// How many bytes it has.
    pub size: u64,
    /// What its inputs are worth above its outputs, in satoshis.
    pub fee: i64,
    /// The txids of the mempool whose outputs it spends, each once.
    pub depends: Vec<Hash256>,
    /// The txids of the mempool that spend its outputs, each once.
    pub spent_by: Vec<Hash256>,
}

/// The mempool's size.
#[derive(Clone, Copy)]
pub struct MempoolReport {
    /// How many transactions it has.
    pub size: u64,
    /// How many bytes they have.
    pub bytes: u64,
    /// The sum of their fees, in satoshis.
    pub fees: i64,
}

/// The block that has a transaction.
#[derive(Clone, Copy)]
pub struct TxPlace {
    /// Its hash.
    pub block: Hash256,
    /// Whether it is on the best chain.
    pub active: bool,
    /// How many blocks of the best chain stand from it to the tip; 0 if it isn't on that.
    pub confirmations: u64,
    /// The time of its header, in seconds since 1970.
    pub time: u32,
}

/// A transaction as fields.
#[derive(Drop)]
pub struct TxReport {
    /// Its txid.
    pub txid: Hash256,
    /// The transaction.
    pub tx: Shared<Tx>,
    /// The block that has it, if a block was named.
    pub place: Option<TxPlace>,
    /// Whether its bytes are told in hex, too.
    pub hex: bool,
}

/// An unspent output.
#[derive(Drop)]
pub struct OutputReport {
    /// The hash of the best chain's tip.
    pub best: Hash256,
    /// How many blocks of the best chain stand from the one that made it to the tip; 0 if a
    /// transaction of the mempool makes it.
    pub confirmations: u64,
    /// Its value in satoshis.
    pub value: i64,
    /// Its script.
    pub script: Script,
    /// Whether a coinbase made it.
    pub coinbase: bool,
}

/// Whether the mempool would take a transaction.
#[derive(Clone, Copy)]
pub struct JudgedReport {
    /// Its txid.
    pub txid: Hash256,
    /// How many bytes it has.
    pub size: u64,
    /// Its fee in satoshis if it would be taken, else why not.
    pub verdict: Result<i64, Fault>,
}

/// What the node tells of itself.
#[derive(Clone, Copy)]
pub struct NetworkReport {
    /// Whether it may have connections.
    pub active: bool,
    /// How many connections that peers made last.
    pub inbound: u64,
    /// How many that it made last.
    pub outbound: u64,
}

/// What all connections moved.
#[derive(Clone, Copy)]
pub struct TotalsReport {
    /// Bytes read.
    pub received: u64,
    /// Bytes written.
    pub sent: u64,
    /// The time, in milliseconds since 1970.
    pub millis: i64,
}

/// What a node tells to a call that it doesn't refuse.
#[derive(Drop)]
pub enum CallResult {
    /// Nothing: `null`.
    Nothing,
    /// A number.
    Number(u64),
    /// Yes or no.
    Switch(bool),
    /// Words.
    Words(&'static str),
    /// Why a block was refused, in the words of BIP 22.
    Refusal(Fault),
    /// The name of a level.
    Level(LevelFilter),
    /// A hash: 64 digits of hex, its last byte first.
    Hash(Hash256),
    /// A list of hashes.
    Hashes(Vec<Hash256>),
    /// A header in hex.
    HeaderHex(Header),
    /// A header as fields.
    Header(HeaderReport),
    /// A block in hex.
    BlockHex(SoundBlock),
    /// A block as fields, with the txids of its transactions.
    BlockTxids(HeaderReport, SoundBlock),
    /// A block as fields, with its transactions as fields.
    BlockTxs(HeaderReport, SoundBlock),
    /// Where the chain stands.
    Chain(ChainReport),
    /// The headers on which no other stands.
    Tips(Vec<TipReport>),
    /// The mempool's size.
    Mempool(MempoolReport),
    /// An entry of the mempool.
    Entry(EntryReport),
    /// The entries of the mempool by their txids.
    Entries(Vec<EntryReport>),
    /// A transaction in hex.
    TxHex(Shared<Tx>),
    /// A transaction as fields.
    Tx(TxReport),
    /// An unspent output.
    Output(OutputReport),
    /// Whether the mempool would take a transaction.
    Judged(JudgedReport),
    /// What the node tells of itself.
    Network(NetworkReport),
    /// What all connections moved.
    Totals(TotalsReport),
    /// The connections that last.
    Peers(Vec<PeerReport>),
}
