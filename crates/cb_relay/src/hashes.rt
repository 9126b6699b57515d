ghost use Rattle.std.specs.Prelude.{◌≡◌, IfErr, IfOk};
ghost use Rattle.cb_base.specs.DoubleHash.{double_hash};
ghost use Rattle.cb_block.specs.declared.header.Header.{Header};
ghost use Rattle.cb_block.specs.declared.tx.Tx.{Tx};
ghost use Rattle.cb_relay.specs.Whole.{IsHeaderOf, IsNoHeader, IsNoTx, IsTxOf};

use crate::headers::whole_header;
use crate::txs::whole_tx;
use cb_base::{Fault, Hash256, dsha};
use std::alloc::Global;

/// The txid of the transaction that is all of these bytes. Fails as `whole_tx` does.
pub fn txid(alloc: Global, tx: &[u8]) -> Result<Hash256, Fault>
    ensures found { IfOk result
        (λ txid. ((read : Tx) × IsTxOf tx.now read) × (txid ≡ double_hash tx.now)) }
    ensures refused { IfErr result (IsNoTx tx.now) }
{
    match whole_tx(alloc, tx) {
        Ok(_read) => Ok(dsha(tx)),
        Err(fault) => Err(fault),
    }
}

/// The hash of the block whose header is all of these bytes. Fails as `whole_header` does.
pub fn block_hash(header: &[u8]) -> Result<Hash256, Fault>
    ensures found { IfOk result
        (λ hash. ((read : Header) × IsHeaderOf header.now read) × (hash ≡ double_hash header.now)) }
    ensures refused { IfErr result (IsNoHeader header.now) }
{
    match whole_header(header) {
        Ok(_read) => Ok(dsha(header)),
        Err(fault) => Err(fault),
    }
}
