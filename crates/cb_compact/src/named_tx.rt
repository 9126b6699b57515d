ghost use Rattle.std.specs.Prelude.{◌≡◌, IfOk, IsOkUnless};
ghost use Rattle.cb_base.specs.DoubleHash.{double_hash};
ghost use Rattle.cb_base.specs.declared.fault.Fault.TheVariants.{Memory};
ghost use Rattle.cb_block.specs.TxText.{tx_text};

use cb_base::{Fault, Hash256, Shared, dsha};
use cb_block::{Tx, write_tx};
use std::alloc::{AllocError, Global};
use std::marker::Model;

/// A shared transaction with its txid, so that it is hashed only once. Contracts see the
/// transaction.
#[derive(Drop)]
pub struct NamedTx {
    txid: Hash256,
    tx: Shared<Tx>,
}

impl Model for NamedTx {
    ghost use Rattle.std.specs.Prelude.{◌≡◌};
    ghost use Rattle.cb_block.specs.declared.tx.Tx.{Tx};

    ghost Value = { Tx };

    ghost use Rattle.cb_base.specs.DoubleHash.{double_hash};
    ghost use Rattle.cb_block.specs.TxText.{tx_text};

    ghost view = { λ named. named.tx };

    ghost invariant = { λ named. named.txid ≡ double_hash (tx_text named.tx) };
}

impl NamedTx {
    /// Computes the txid of a transaction. The buffer for the serialisation is one allocation,
    /// whatever its length.
    ///
    /// Fails only with `Fault::Memory`.
    pub fn new(alloc: Global, tx: Shared<Tx>) -> Result<NamedTx, Fault>
        ensures same { IfOk result (λ named. named ≡ tx) }
        ensures memory { IsOkUnless result Memory }
    {
        let txid = txid_of(alloc, &tx)?;
        Ok(NamedTx { txid, tx })
    }

    /// A transaction with its known txid. Nothing is hashed or allocated.
    pub fn known(txid: Hash256, tx: Shared<Tx>) -> NamedTx
        requires { txid ≡ double_hash (tx_text tx) }
        ensures { result ≡ tx }
    {
        NamedTx { txid, tx }
    }

    /// The transaction.
    pub fn tx(&self) -> &Shared<Tx>
        ensures { result.now ≡ self.now }
    {
        &self.tx
    }

    /// Its txid.
    pub fn txid(&self) -> Hash256
        ensures { result ≡ double_hash (tx_text self.now) }
    {
        self.txid
    }

    /// The transaction and its txid.
    pub(crate) fn into_parts(self) -> (Shared<Tx>, Hash256)
        ensures tx { result.0 ≡ self }
        ensures txid { result.1 ≡ double_hash (tx_text self) }
    {
        (self.tx, self.txid)
    }
}

impl Clone for NamedTx {
    ghost is_clone = { λ named clone. clone ≡ named };

    /// Returns one more owner of the same transaction. It allocates nothing. Fails only if the
    /// transaction already has 2^63 owners.
    fn clone(&self) -> Result<NamedTx, AllocError>
        ensures { IfOk result (λ clone. clone ≡ self.now) }
    {
        let tx = self.tx.clone()?;
        Ok(NamedTx {
            txid: self.txid,
            tx,
        })
    }
}

/// The txid. The buffer for the serialisation is one allocation.
fn txid_of(alloc: Global, tx: &Tx) -> Result<Hash256, Fault>
    ensures same { IfOk result (λ txid. txid ≡ double_hash (tx_text tx.now)) }
    ensures memory { IsOkUnless result Memory }
{
    let mut text = Vec::new(alloc);
    if let Ok(size) = usize::try_from(tx.size()) {
        text.reserve(size)?;
    }
    write_tx(&mut text, tx)?;
    Ok(dsha(text.as_slice()))
}

/// A candidate for a compact block: a transaction with its short id under that block's key.
#[derive(Drop)]
pub struct Pair {
    pub id: u64,
    pub tx: NamedTx,
}
