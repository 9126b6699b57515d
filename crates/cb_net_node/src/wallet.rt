//! Transactions for a network to relay. Each has 250 bytes and spends an output of another.
ghost use Rattle.std.specs.Prelude.{◌≡◌, ◌∷◌, [], pos, map, replicate, IfOk, IsOkUnless, OnErr, OnOk};
ghost use Rattle.std.specs.List.{range_with_len};
ghost use Rattle.cb_base.specs.declared.fault.Fault.TheVariants.{Memory};
ghost use Rattle.cb_net_node.specs.Waves.{first_outputs, outpoint, output_of, paying, share, spending};

use cb_base::{Fault, Hash256, Shared};
use cb_block::{Inputs, OutPoint, Outputs, Script, Tx, TxIn, TxOut};
use std::alloc::Global;

/// How many satoshis a coinbase makes.
const COINBASE: i64 = 5_000_000_000;

/// How many bytes the output script has in a transaction of 250 bytes.
const ROOM: usize = 190;

/// The byte of which output scripts are made (`OP_1`).
const ONE: u8 = 0x51;

/// What an output is like.
#[derive(Clone, Copy)]
struct Form {
    /// How many satoshis it is worth.
    value: i64,
    /// How many bytes its script has.
    room: usize,
}

impl Form {
    /// An output like this. Fails only with `Fault::Memory`.
    fn make(&self, alloc: Global) -> Result<TxOut, Fault>
        ensures output { IfOk result (λ output. output ≡ paying self.now.value self.now.room) }
        ensures memory { IsOkUnless result Memory }
    {
        Ok(TxOut {
            value: self.value,
            script: Script::new(vec![in alloc; ONE; self.room]?),
        })
    }
}

/// The outputs that the next transactions spend, and how much each is worth.
#[derive(Drop)]
pub struct Wallet {
    points: Vec<OutPoint>,
    value: i64,
}

impl Wallet {
    /// A wallet without outputs.
    pub fn new(alloc: Global) -> Wallet
        ensures points { result.points.items ≡ [] }
        ensures value { result.value ≡ pos 0 }
    {
        Wallet {
            points: Vec::new(alloc),
            value: 0,
        }
    }

    /// Takes a coinbase, and returns a transaction that spends it and makes so many outputs: the
    /// wallet's from then on. Each has an equal part of it, and one part more is left to the miner.
    ///
    /// Fails only with `Fault::Memory`. The wallet is unchanged then.
    pub fn fan(&mut self, alloc: Global, coinbase: Hash256, count: u32) -> Result<Shared<Tx>, Fault>
        ensures tx { IfOk result
            (λ tx. tx ≡ spending (outpoint coinbase 0) count (share count) 1) }
        ensures points { IfOk result (λ tx. self.new.points.items ≡ first_outputs tx count) }
        ensures value { OnOk result (self.new.value ≡ share count) }
        ensures err { OnErr result (self.new ≡ self.old) }
        ensures memory { IsOkUnless result Memory }
    {
        let value = COINBASE / (i64::from(count) + 1);
        let point = OutPoint {
            txid: coinbase,
            index: 0,
        };
        let tx = spending(alloc, point, count, &Form { value, room: 1 })?;
        let points = first_outputs(alloc, &tx, count)?;
        self.value = value;
        self.points = points;
        Ok(tx)
    }

    /// Returns transactions that spend the wallet's outputs, one each. Theirs are the wallet's from
    /// then on, and are worth as much.
    ///
    /// Fails only with `Fault::Memory`. The wallet is unchanged then.
    pub fn wave(&mut self, alloc: Global) -> Result<Vec<Shared<Tx>>, Fault>
        ensures txs { IfOk result (λ txs. txs.items
            ≡ map (λ point. spending point 1 self.old.value 190) self.old.points.items) }
        ensures points { IfOk result
            (λ txs. self.new.points.items ≡ map (λ tx. output_of tx 0) txs.items) }
        ensures value { self.new.value ≡ self.old.value }
        ensures err { OnErr result (self.new ≡ self.old) }
        ensures memory { IsOkUnless result Memory }
    {
        let form = Form {
            value: self.value,
            room: ROOM,
        };
        let txs = spending_all(alloc, self.points.as_slice(), &form)?;
        let points = outputs_of_all(alloc, txs.as_slice())?;
        self.points = points;
        Ok(txs)
    }
}

/// A transaction for each output: it spends that one, and makes one like this. Fails only with
/// `Fault::Memory`.
fn spending_all(alloc: Global, points: &[OutPoint], form: &Form) -> Result<Vec<Shared<Tx>>, Fault>
    ensures txs { IfOk result (λ txs. txs.items
        ≡ map (λ point. spending point 1 form.now.value form.now.room) points.now) }
    ensures memory { IsOkUnless result Memory }
{
    let mut txs = Vec::with_capacity(alloc, points.len())?;
    for point in points {
        txs.push(spending(alloc, *point, 1, form)?)?;
    }
    Ok(txs)
}

/// The first output of each transaction. Fails only with `Fault::Memory`.
fn outputs_of_all(alloc: Global, txs: &[Shared<Tx>]) -> Result<Vec<OutPoint>, Fault>
    ensures points { IfOk result
        (λ points. points.items ≡ map (λ tx. output_of tx 0) txs.now) }
    ensures memory { IsOkUnless result Memory }
{
    let mut points = Vec::with_capacity(alloc, txs.len())?;
    for tx in txs {
        points.push(OutPoint {
            txid: tx.txid(alloc)?,
            index: 0,
        })?;
    }
    Ok(points)
}

/// A transaction that spends an output and makes so many like this. Fails only with
/// `Fault::Memory`.
fn spending(alloc: Global, prev: OutPoint, count: u32, form: &Form) -> Result<Shared<Tx>, Fault>
    ensures tx { IfOk result (λ tx. tx ≡ spending prev count form.now.value form.now.room) }
    ensures memory { IsOkUnless result Memory }
{
    let mut inputs = Vec::with_capacity(alloc, 1)?;
    inputs.push(TxIn {
        prev,
        script: Script::new(Vec::new(alloc)),
        sequence: 0xffff_ffff,
    })?;
    let tx = Tx {
        version: 1,
        inputs: Inputs::new(inputs),
        outputs: made_outputs(alloc, count, form)?,
        lock_time: 0,
    };
    Ok(Shared::new(alloc, tx)?)
}

/// So many outputs like this. Fails only with `Fault::Memory`.
fn made_outputs(alloc: Global, count: u32, form: &Form) -> Result<Outputs, Fault>
    ensures outputs { IfOk result
        (λ outputs. outputs ≡ replicate count (paying form.now.value form.now.room)) }
    ensures memory { IsOkUnless result Memory }
{
    let mut outputs = Vec::with_capacity(alloc, count as usize)?;
    for _made in 0..count {
        outputs.push(form.make(alloc)?)?;
    }
    Ok(Outputs::new(outputs))
}

/// The first outputs of a transaction. Fails only with `Fault::Memory`.
fn first_outputs(alloc: Global, tx: &Tx, count: u32) -> Result<Vec<OutPoint>, Fault>
    ensures points { IfOk result (λ points. points.items ≡ first_outputs tx.now count) }
    ensures memory { IsOkUnless result Memory }
{
    let txid = tx.txid(alloc)?;
    let mut points = Vec::with_capacity(alloc, count as usize)?;
    for index in 0..count {
        points.push(OutPoint { txid, index })?;
    }
    Ok(points)
}
