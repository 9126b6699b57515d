ghost use Rattle.std.specs.Prelude.{◌≡◌, IfErr, IfOk};
ghost use Rattle.cb_block.specs.TxRules.{MeetsRules};
ghost use Rattle.cb_block.specs.declared.tx.Tx.{Tx};
ghost use Rattle.cb_relay.specs.Whole.{IsNoTx, IsNoValidTx, IsRefusedTx, IsTxOf};

use cb_base::{Cursor, Fault};
use cb_block::{Tx, check_tx, read_tx};
use std::alloc::Global;

/// Reads the transaction that is all of these bytes, without the witnesses of BIP 141. Fails as
/// `read_tx` does, and last with `Fault::Trailing`. `Fault::Memory` is possible only behind a count
/// above 0.
pub fn whole_tx(alloc: Global, bytes: &[u8]) -> Result<Tx, Fault>
    ensures found { IfOk result (IsTxOf bytes.now) }
    ensures refused { IfErr result (IsNoTx bytes.now) }
{
    let mut cursor = Cursor::new(bytes);
    let tx = read_tx(alloc, &mut cursor)?;
    if cursor.left() > 0 {
        return Err(Fault::Trailing);
    }
    Ok(tx)
}

/// Checks the rules of a transaction (`check_tx`).
fn check_alone(alloc: Global, tx: &Tx) -> Result<(), Fault>
    ensures fine { IfOk result (λ _. MeetsRules tx.now) }
    ensures refused { IfErr result (IsRefusedTx tx.now) }
{
    check_tx(alloc, tx)
}

/// Checks the rules that the transaction which is all of these bytes must meet by itself. Fails as
/// `whole_tx` does, then as `check_tx`.
pub fn check_rules(alloc: Global, bytes: &[u8]) -> Result<(), Fault>
    ensures fine { IfOk result (λ _. (tx : Tx) × IsTxOf bytes.now tx × MeetsRules tx) }
    ensures refused { IfErr result (IsNoValidTx bytes.now) }
{
    let tx = whole_tx(alloc, bytes)?;
    match check_alone(alloc, &tx) {
        Ok(()) => Ok(()),
        Err(fault) => Err(fault),
    }
}
