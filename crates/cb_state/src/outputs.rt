//! Transactions that wait, and outputs that are unspent.
ghost use Rattle.std.specs.Prelude.{◌≡◌, true, false, IfOk, IsOkUnless};
ghost use Rattle.cb_base.specs.declared.fault.Fault.TheVariants.{Memory};
ghost use Rattle.cb_pool.specs.Listing.{txs_of};
ghost use Rattle.cb_pool.specs.Rules.{named_in};
ghost use Rattle.cb_state.specs.Outputs.{IsOutputLook, IsValueBelow, value_at};

use crate::state::Relay;
use cb_base::{Fault, Hash256, Shared};
use cb_block::{OutPoint, Tx, TxOut};
use cb_pool::Pool;

/// An output that is unspent.
#[derive(Drop)]
pub struct OutputLook {
    /// Its value in satoshis.
    pub value: i64,
    /// The mempool's transaction that makes it, if one does.
    pub tx: Option<Shared<Tx>>,
}

/// The mempool's transaction with this txid, shared. Fails only with `Fault::Memory`.
pub fn pooled(pool: &Pool, txid: &Hash256) -> Result<Option<Shared<Tx>>, Fault>
    ensures exact { IfOk result (λ tx. tx ≡ named_in (txs_of pool.now.list) txid.now) }
    ensures memory { IsOkUnless result Memory }
{
    match pool.get(txid) {
        Some(candidate) => Ok(Some(candidate.tx().clone()?)),
        None => Ok(None),
    }
}

/// An output that is unspent: of the UTXO set, or with `pool` after the mempool's transactions.
/// Fails only with `Fault::Memory`.
pub fn output_look(state: &Relay, point: &OutPoint, pool: bool) -> Result<Option<OutputLook>, Fault>
    ensures exact { IfOk result (IsOutputLook state.now point.now pool) }
    ensures memory { IsOkUnless result Memory }
{
    if pool {
        after_pool(state, point)
    } else {
        Ok(in_ledger(state, point))
    }
}

/// An output that is unspent after the mempool's transactions. Fails only with `Fault::Memory`.
fn after_pool(state: &Relay, point: &OutPoint) -> Result<Option<OutputLook>, Fault>
    ensures exact { IfOk result (IsOutputLook state.now point.now true) }
    ensures memory { IsOkUnless result Memory }
{
    let Some(value) = state.value(point) else {
        return Ok(None);
    };
    let tx = pooled(state.pool(), &point.txid)?;
    Ok(Some(OutputLook { value, tx }))
}

/// An output of the UTXO set.
fn in_ledger(state: &Relay, point: &OutPoint) -> Option<OutputLook>
    ensures { IsOutputLook state.now point.now false result }
{
    let value = state.chain().ledger().value(point)?;
    Some(OutputLook { value, tx: None })
}

/// What an output is worth that a transaction of the mempool may spend: that of another transaction
/// of the mempool, or else one of the UTXO set; `None` if it is neither.
pub fn value_below(state: &Relay, point: &OutPoint) -> Option<i64>
    ensures { IsValueBelow state.now point.now result }
{
    match state.pool().get(&point.txid) {
        Some(candidate) => value_at(candidate.tx().outputs.as_slice(), point.index),
        None => state.chain().ledger().value(point),
    }
}

/// The value of the output at a place.
fn value_at(outputs: &[TxOut], index: u32) -> Option<i64>
    ensures { result ≡ value_at outputs.now index }
{
    match outputs.get(index as usize) {
        Some(output) => Some(output.value),
        None => None,
    }
}
