ghost use Rattle.std.specs.Prelude.{◌≡◌, ◌≢◌, ℕ, ◌*◌, ◌/◌, ◌<◌, ◌⊎◌, ◌↔◌, List, [], length, map, take, OnOk, All, Any, IfOk, IfErr, IsErrAnd, IsOkUnless, IsTrue};
ghost use Rattle.cb_base.specs.declared.fault.Fault.TheVariants.{Empty, Memory, Size64};
ghost use Rattle.cb_block.specs.TxText.{IsTx, tx_text};
ghost use Rattle.cb_block.specs.declared.tx.Tx.{Tx};
ghost use Rattle.cb_block.specs.Blocks.{IsSoundBlock, IsUnsound, texts};
ghost use Rattle.cb_block.specs.Genesis.{genesis_block};
ghost use Rattle.cb_block.specs.Soundness.{AreApart, IsSound, names};

use crate::block::{Block, Txs};
use crate::genesis_tx::first_tx;
use crate::header::{BITS, Header};
use crate::merkle::tree;
use crate::tx::Tx;
use crate::tx_writing::write_tx;
use cb_base::{Fault, Hash256, Shared, dsha, dsha_four};
use std::alloc::Global;
use std::marker::Model;

/// A sound block, with its txids: its transactions are the only ones that fit its header, unless
/// hashes collide. Contracts see the block.
///
/// It has transactions, none of them has 64 bytes (CVE-2017-12842), its Merkle tree isn't mutated
/// (CVE-2012-2459), and its header has the root of the tree.
#[derive(Drop)]
pub struct SoundBlock {
    block: Shared<Block>,
    txids: Shared<Vec<Hash256>>,
}

impl Model for SoundBlock {
    ghost use Rattle.std.specs.Prelude.{◌≡◌};
    ghost use Rattle.cb_block.specs.declared.block.Block.{Block};

    ghost Value = { Block };

    ghost use Rattle.cb_block.specs.Soundness.{names};
    ghost use Rattle.cb_block.specs.Blocks.{IsSoundBlock, texts};

    ghost view = { λ sound. sound.block };

    ghost invariant = { λ sound. IsSoundBlock sound.block
        × (sound.txids.items ≡ names (texts sound.block.txs)) };
}

impl SoundBlock {
    /// The block.
    pub fn block(&self) -> &Block
        ensures same { result.now ≡ self.now }
        ensures sound { IsSoundBlock self.now }
    {
        &self.block
    }

    /// The shared block. The txids are dropped.
    pub fn into_block(self) -> Shared<Block>
        ensures same { result ≡ self }
        ensures sound { IsSoundBlock self }
    {
        let SoundBlock { block, txids } = self;
        drop(txids);
        block
    }

    /// The txids of its transactions, in order. They were computed once, when the block was
    /// checked.
    pub fn txids(&self) -> &[Hash256]
        ensures { result.now ≡ names (texts self.now.txs) }
    {
        self.txids.as_slice()
    }
}

impl SoundBlock {
    /// Returns one more owner of the same sound block. It allocates nothing. Fails only with
    /// `Fault::Memory`, if the block or its list of txids already has 2^63 owners.
    pub fn copy(&self) -> Result<SoundBlock, Fault>
        ensures same { IfOk result (λ copy. copy ≡ self.now) }
        ensures memory { IsOkUnless result Memory }
    {
        let block = self.block.clone()?;
        let txids = self.txids.clone()?;
        Ok(SoundBlock { block, txids })
    }
}

/// Whether a transaction has 64 bytes.
fn has_size_64(txs: &[Shared<Tx>]) -> bool
    ensures { IsTrue result ↔ Any (λ tx. length (tx_text tx) ≡ 64) txs.now }
{
    txs.iter().any(|tx| tx.size() == 64)
}

/// Replaces a text by the serialisation of a transaction. Fails only with `Fault::Memory`.
fn put_text(text: &mut Vec<u8>, tx: &Tx) -> Result<(), Fault>
    ensures ok { OnOk result (text.new.items ≡ tx_text tx.now) }
    ensures fits { OnOk result (IsTx tx.now) }
    ensures memory { IsOkUnless result Memory }
{
    text.clear();
    write_tx(text, tx)
}

/// Appends the txids of four transactions after another, as many fours as there are. Four buffers
/// are reused, and their texts are hashed together.
fn push_fours(alloc: Global, txids: &mut Vec<Hash256>, txs: &[Shared<Tx>]) -> Result<(), Fault>
    requires { txids.old.items ≡ [] }
    ensures names { OnOk result
        (txids.new.items ≡ names (map tx_text (take (length txs.now / 4 * 4) txs.now))) }
    ensures fits { OnOk result (All IsTx (take (length txs.now / 4 * 4) txs.now)) }
    ensures memory { IsOkUnless result Memory }
{
    let mut first = Vec::new(alloc);
    let mut second = Vec::new(alloc);
    let mut third = Vec::new(alloc);
    let mut fourth = Vec::new(alloc);
    for i in 0..txs.len() / 4 {
        put_text(&mut first, &txs[4 * i])?;
        put_text(&mut second, &txs[4 * i + 1])?;
        put_text(&mut third, &txs[4 * i + 2])?;
        put_text(&mut fourth, &txs[4 * i + 3])?;
        let hashes = dsha_four(&mut first, &mut second, &mut third, &mut fourth)?;
        txids.extend_from_slice(hashes.as_slice())?;
    }
    Ok(())
}

/// The txids. Four transactions at a time are hashed together, and at most three by themselves.
fn txids_of(alloc: Global, txs: &[Shared<Tx>]) -> Result<Vec<Hash256>, Fault>
    ensures names { IfOk result (λ txids. txids.items ≡ names (map tx_text txs.now)) }
    ensures fits { IfOk result (λ _. All IsTx txs.now) }
    ensures memory { IsOkUnless result Memory }
{
    let mut txids = Vec::with_capacity(alloc, txs.len())?;
    push_fours(alloc, &mut txids, txs)?;
    let mut text = Vec::new(alloc);
    for i in txs.len() / 4 * 4..txs.len() {
        put_text(&mut text, &txs[i])?;
        txids.push(dsha(text.as_slice()))?;
    }
    Ok(txids)
}

/// Fails with `Fault::Empty` if the block has no transactions, else with `Fault::Size64` if one of
/// them has 64 bytes. It allocates nothing.
pub(crate) fn check_sizes(block: &Block) -> Result<(), Fault>
    ensures some { IfOk result (λ _. 0 < length block.now.txs) }
    ensures sizes { IfOk result (λ _. All (λ tx. length (tx_text tx) ≢ 64) block.now.txs) }
    ensures err { IfErr result (λ fault. (fault ≢ Memory) × IsUnsound block.now fault) }
{
    let txs = block.txs.as_slice();
    if txs.is_empty() {
        return Err(Fault::Empty);
    }
    if has_size_64(txs) {
        return Err(Fault::Size64);
    }
    Ok(())
}

/// Returns the txids, shared, if their tree is not mutated and has the root of the header.
fn tree_txids(
    alloc: Global,
    block: &Block,
    txids: Vec<Hash256>,
) -> Result<Shared<Vec<Hash256>>, Fault>
    requires named { txids.items ≡ names (texts block.now.txs) }
    requires some { 0 < length block.now.txs }
    requires sizes { All (λ tx. length (tx_text tx) ≢ 64) block.now.txs }
    ensures sound { IfOk result (λ _. IsSoundBlock block.now) }
    ensures names { IfOk result (λ shared. shared.items ≡ txids.items) }
    ensures err { IfErr result (λ fault. (fault ≡ Memory) ⊎ IsUnsound block.now fault) }
{
    let (root, mutated) = tree(Vec::from_slice(alloc, txids.as_slice())?);
    if mutated {
        return Err(Fault::Mutated);
    }
    if root != block.header.root {
        return Err(Fault::BadRoot);
    }
    Ok(Shared::new(alloc, txids)?)
}

/// Returns the txids if the block is sound. Fails with the first reason why it isn't.
fn sound_txids(alloc: Global, block: &Block) -> Result<Shared<Vec<Hash256>>, Fault>
    ensures sound { IfOk result (λ _. IsSoundBlock block.now) }
    ensures names { IfOk result (λ txids. txids.items ≡ names (texts block.now.txs)) }
    ensures fits { IfOk result (λ _. All IsTx block.now.txs) }
    ensures err { IfErr result (λ fault. (fault ≡ Memory) ⊎ IsUnsound block.now fault) }
    ensures unpaid { (IsUnsound block.now Empty ⊎ IsUnsound block.now Size64) →
        IsErrAnd result (λ fault. fault ≢ Memory) }
{
    check_sizes(block)?;
    let txids = txids_of(alloc, block.txs.as_slice())?;
    tree_txids(alloc, block, txids)
}

/// Like `sound_txids`, with the txids given.
fn known_txids(
    alloc: Global,
    block: &Block,
    txids: Vec<Hash256>,
) -> Result<Shared<Vec<Hash256>>, Fault>
    requires { txids.items ≡ names (texts block.now.txs) }
    ensures sound { IfOk result (λ _. IsSoundBlock block.now) }
    ensures names { IfOk result (λ txids. txids.items ≡ names (texts block.now.txs)) }
    ensures err { IfErr result (λ fault. (fault ≡ Memory) ⊎ IsUnsound block.now fault) }
    ensures unpaid { (IsUnsound block.now Empty ⊎ IsUnsound block.now Size64) →
        IsErrAnd result (λ fault. fault ≢ Memory) }
{
    check_sizes(block)?;
    tree_txids(alloc, block, txids)
}

/// Checks that a block is sound: it has transactions, none of them has 64 bytes (CVE-2017-12842),
/// its Merkle tree isn't mutated (CVE-2012-2459), and its header has the root of the tree.
///
/// An error gives the block back with the first of these faults that applies: `Fault::Empty`,
/// `Fault::Size64`, `Fault::Mutated`, `Fault::BadRoot`. It is `Fault::Memory` instead if memory
/// runs out for the txids or the tree.
pub fn sound(alloc: Global, block: Shared<Block>) -> Result<SoundBlock, (Shared<Block>, Fault)>
    ensures ok { IfOk result (λ sound. (sound ≡ block) × IsSoundBlock block) }
    ensures err { IfErr result
        (λ back. (back.0 ≡ block) × ((back.1 ≡ Memory) ⊎ IsUnsound block back.1)) }
    // `Fault::Empty` and `Fault::Size64` come before anything is allocated.
    ensures unpaid { (IsUnsound block Empty ⊎ IsUnsound block Size64) →
        IsErrAnd result (λ back. back.1 ≢ Memory) }
    // Any list of byte strings that is sound under this header is this block's, unless hashes
    // collide (AreApart).
    ensures only { IfOk result (λ sound. (others : List (List ℕ)) → IsSound sound.header.root others
        → AreApart (texts sound.txs) others → others ≡ texts sound.txs) }
    // The same for lists of transactions.
    ensures only_txs { IfOk result
        (λ sound. (txs : List Tx) → All IsTx txs → IsSound sound.header.root (texts txs)
        → AreApart (texts sound.txs) (texts txs) → txs ≡ sound.txs) }
{
    match sound_txids(alloc, &block) {
        Ok(txids) => Ok(SoundBlock { block, txids }),
        Err(fault) => Err((block, fault)),
    }
}

/// Checks that a block is sound, as `sound` does and with the same errors, given the txids of its
/// transactions. It hashes no transaction.
pub fn sound_by(
    alloc: Global,
    block: Shared<Block>,
    txids: Vec<Hash256>,
) -> Result<SoundBlock, (Shared<Block>, Fault)>
    requires { txids.items ≡ names (texts block.txs) }
    ensures ok { IfOk result (λ sound. (sound ≡ block) × IsSoundBlock block) }
    ensures err { IfErr result
        (λ back. (back.0 ≡ block) × ((back.1 ≡ Memory) ⊎ IsUnsound block back.1)) }
    ensures unpaid { (IsUnsound block Empty ⊎ IsUnsound block Size64) →
        IsErrAnd result (λ back. back.1 ≢ Memory) }
    // Any list of byte strings that is sound under this header is this block's, unless hashes
    // collide (AreApart).
    ensures only { IfOk result (λ sound. (others : List (List ℕ)) → IsSound sound.header.root others
        → AreApart (texts sound.txs) others → others ≡ texts sound.txs) }
{
    let known = known_txids(alloc, &block, txids);
    match known {
        Ok(shared) => Ok(SoundBlock {
            block,
            txids: shared,
        }),
        Err(back) => Err((block, back)),
    }
}

/// The genesis block of regtest. Its Merkle root is computed from its coinbase. Fails only with
/// `Fault::Memory`.
pub fn genesis(alloc: Global) -> Result<SoundBlock, Fault>
    ensures same { IfOk result (λ sound. sound ≡ genesis_block) }
    ensures memory { IsOkUnless result Memory }
{
    let mut txs = Vec::with_capacity(alloc, 1)?;
    txs.push(Shared::new(alloc, first_tx(alloc)?)?)?;
    let txids = txids_of(alloc, txs.as_slice())?;
    let header = Header {
        version: 1,
        prev: Hash256([0; 32]),
        root: txids[0],
        time: 1_296_688_602,
        bits: BITS,
        nonce: 2,
    };
    let txs = Txs::new(txs);
    Ok(SoundBlock {
        block: Shared::new(alloc, Block { header, txs })?,
        txids: Shared::new(alloc, txids)?,
    })
}
