ghost use Rattle.std.specs.Prelude.{◌≡◌, ◌≢◌, ℕ, ◌+◌, ◌<◌, ◌≤◌, ◌⊎◌, ◌∷◌, length, slice_get, take, vec_len, All, IfErr, IfOk, IsOkUnless, Some};
ghost use Rattle.cb_base.specs.declared.fault.Fault.TheVariants.{BadWork, Memory, Mutated};
ghost use Rattle.cb_block.specs.TxText.{tx_text};
ghost use Rattle.cb_block.specs.Blocks.{MeetsBlockRules, texts};
ghost use Rattle.cb_block.specs.MerkleTree.{IsMutated, IsRoot};
ghost use Rattle.cb_block.specs.Soundness.{names};
ghost use Rattle.cb_pool.specs.Listing.{txs_of};
ghost use Rattle.cb_block.specs.declared.block.Block.{Block};
ghost use Rattle.cb_state.specs.State.{RelayState};
ghost use Rattle.cb_state.specs.Mining.{CannotMine, HasLeastNonce, HasNoNonce, IsMined, IsMostFitting, coinbase_of, next_height, with_nonce};

use crate::state::Relay;
use cb_base::{Fault, Hash256, Shared};
use cb_block::{
    BITS, Block, Header, Inputs, OutPoint, Outputs, Script, SoundBlock, Tx, TxIn, TxOut, Txs,
    check_header, compact_size, root, sound_by,
};
use cb_chain::{Chain, has_history};
use cb_pool::{Candidate, Pool, each_stands_alone};
use std::alloc::Global;

/// The most bytes of a block.
const MOST_BYTES: u64 = 1_000_000;

/// The bytes of a block header.
const HEADER_BYTES: u64 = 80;

/// The time of regtest's genesis block.
const FIRST_TIME: u32 = 1_296_688_602;

/// The height of a block whose parent is the tip.
fn height_on(chain: &Chain) -> u32
    ensures height { result ≡ next_height chain.now }
    ensures low { result ≤ 1000000001 }
{
    has_history(chain);
    chain.tip_height() + 1
}

/// The coinbase of a mined block at a height. Fails only with `Fault::Memory`.
fn coinbase_at(alloc: Global, height: u32, mark: u8) -> Result<Shared<Tx>, Fault>
    ensures same { IfOk result (λ tx. tx ≡ coinbase_of height mark) }
    ensures size { IfOk result (λ tx. length (tx_text tx) ≡ 66) }
    ensures memory { IsOkUnless result Memory }
{
    let mut script = Vec::from_slice(alloc, &height.to_le_bytes())?;
    script.push(mark)?;
    let prev = OutPoint {
        txid: Hash256([0; 32]),
        index: 0xffff_ffff,
    };
    let mut inputs = Vec::with_capacity(alloc, 1)?;
    inputs.push(TxIn {
        prev,
        script: Script::new(script),
        sequence: 0xffff_ffff,
    })?;
    let mut outputs = Vec::with_capacity(alloc, 1)?;
    outputs.push(TxOut {
        value: 5_000_000_000,
        script: Script::new(Vec::from_slice(alloc, &[0x51u8])?),
    })?;
    let tx = Tx {
        version: 1,
        inputs: Inputs::new(inputs),
        outputs: Outputs::new(outputs),
        lock_time: 0,
    };
    Ok(Shared::new(alloc, tx)?)
}

/// The mempool's transaction at a place.
fn waiting_at(pool: &Pool, place: usize) -> &Candidate
    requires { place < length pool.now.list }
    ensures { slice_get (txs_of pool.now.list) place ≡ Some result.now }
{
    match pool.at(place) {
        Some(candidate) => candidate,
        None => unreachable!(),
    }
}

/// How many of the mempool's first transactions fit in a block after the coinbase.
fn fitting(pool: &Pool, coinbase: &Tx) -> usize
    requires { length (tx_text coinbase.now) ≤ 1000 }
    ensures fitting { IsMostFitting coinbase.now (txs_of pool.now.list) result }
    ensures few { result ≤ 10000 }
{
    each_stands_alone(pool);
    let mut size = HEADER_BYTES + coinbase.size();
    for count in 0..pool.len() {
        size += waiting_at(pool, count).tx().size();
        if size + compact_size(count as u64 + 2) > MOST_BYTES {
            return count;
        }
    }
    pool.len()
}

/// The coinbase and the mempool's first `count` transactions, shared. Fails only with
/// `Fault::Memory`.
fn txs_behind(
    alloc: Global,
    coinbase: Shared<Tx>,
    pool: &Pool,
    count: usize,
) -> Result<Vec<Shared<Tx>>, Fault>
    requires within { count ≤ length pool.now.list }
    requires few { count ≤ 10000 }
    ensures txs { IfOk result (λ txs. txs.items ≡ coinbase ∷ take count (txs_of pool.now.list)) }
    ensures memory { IsOkUnless result Memory }
{
    let mut txs = Vec::with_capacity(alloc, count + 1)?;
    txs.push(coinbase)?;
    for place in 0..count {
        txs.push(waiting_at(pool, place).tx().clone()?)?;
    }
    Ok(txs)
}

/// The txids of the coinbase and the mempool's first `count` transactions. Only the coinbase is
/// hashed. Fails only with `Fault::Memory`.
fn txids_behind(
    alloc: Global,
    coinbase: &Tx,
    pool: &Pool,
    count: usize,
) -> Result<Vec<Hash256>, Fault>
    requires within { count ≤ length pool.now.list }
    requires few { count ≤ 10000 }
    ensures names { IfOk result
        (λ txids. txids.items ≡ names (texts (coinbase.now ∷ take count (txs_of pool.now.list)))) }
    ensures memory { IsOkUnless result Memory }
{
    let mut txids = Vec::with_capacity(alloc, count + 1)?;
    txids.push(coinbase.txid(alloc)?)?;
    for place in 0..count {
        txids.push(waiting_at(pool, place).txid())?;
    }
    Ok(txids)
}

/// The header with the least nonce that meets its target. Fails with `Fault::BadWork` if there is
/// none.
fn with_work(header: Header) -> Result<Header, Fault>
    ensures ok { IfOk result
        (λ worked. (worked ≡ with_nonce header worked.nonce) × HasLeastNonce worked) }
    ensures err { IfErr result (λ fault. (fault ≡ BadWork) × HasNoNonce header) }
{
    for nonce in 0..0x1_0000_0000u64 {
        let tried = Header {
            nonce: nonce as u32,
            ..header
        };
        if check_header(&tried).is_ok() {
            return Ok(tried);
        }
    }
    Err(Fault::BadWork)
}

/// The block of a header and transactions whose txids are known. Fails only with `Fault::Memory`
/// and `Fault::Mutated`.
fn sealed(
    alloc: Global,
    header: Header,
    txs: Vec<Shared<Tx>>,
    txids: Vec<Hash256>,
) -> Result<SoundBlock, Fault>
    requires some { 0 < vec_len txs }
    requires sizes { All (λ tx. length (tx_text tx) ≢ 64) txs.items }
    requires named { txids.items ≡ names (texts txs.items) }
    requires root { IsRoot (names (texts txs.items)) header.root }
    ensures ok { IfOk result (λ block. block ≡ record { header = header; txs = txs.items }) }
    ensures err { IfErr result
        (λ fault. (fault ≡ Memory) ⊎ ((fault ≡ Mutated) × IsMutated (names (texts txs.items)))) }
{
    let txs = Txs::new(txs);
    let block = Shared::new(alloc, Block { header, txs })?;
    match sound_by(alloc, block, txids) {
        Ok(block) => Ok(block),
        Err((_, fault)) => Err(fault),
    }
}

impl Relay {
    /// Mines a regtest block on the tip. It holds a coinbase with a mark, and then the mempool's
    /// transactions from the first one on, as many as fit. Its header has the least nonce that
    /// meets its target. The state doesn't change.
    ///
    /// Fails with:
    /// - `Fault::BadWork` if no nonce meets the target;
    /// - `Fault::Mutated` if two neighbours in the Merkle tree are equal (CVE-2012-2459);
    /// - `Fault::Memory`.
    pub fn mine(&self, mark: u8) -> Result<SoundBlock, Fault>
        ensures mined { IfOk result (λ block. IsMined self.now mark block) }
        ensures err { IfErr result (λ fault. (fault ≡ Memory) ⊎ CannotMine self.now mark fault) }
    {
        let height = height_on(&self.chain);
        let coinbase = coinbase_at(self.alloc, height, mark)?;
        let count = fitting(&self.pool, &coinbase);
        let txids = txids_behind(self.alloc, &coinbase, &self.pool, count)?;
        let header = with_work(Header {
            version: 1,
            prev: self.chain.tip(),
            root: root(self.alloc, txids.as_slice())?,
            time: FIRST_TIME + height,
            bits: BITS,
            nonce: 0,
        })?;
        let txs = txs_behind(self.alloc, coinbase, &self.pool, count)?;
        each_stands_alone(&self.pool);
        sealed(self.alloc, header, txs, txids)
    }
}

/// A state and a mark determine the mined block.
pub fn one_mined_block()
    ensures { (state : RelayState) (mark : ℕ) (a b : Block) → IsMined state mark a →
        IsMined state mark b → a ≡ b }
{}

/// A mined block meets the rules that a block meets by itself, without its chain.
pub fn mined_meets_rules(state: &Relay, mark: u8, block: &SoundBlock)
    requires { IsMined state.now mark block.now }
    ensures { MeetsBlockRules block.now }
{
    each_stands_alone(state.pool());
    // No effect when it runs: it tells the prover what the type keeps.
    let _text = block.block().header.text();
}
