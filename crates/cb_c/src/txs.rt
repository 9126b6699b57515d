ghost use Rattle.std.specs.Prelude.{◌≡◌, ◌⊎◌};
ghost use Rattle.cb_base.specs.declared.fault.Fault.{Fault};
ghost use Rattle.cb_relay.specs.Parts.{IsNoParts};
ghost use Rattle.cb_relay.specs.Spans.{fields_of, inputs_of, outputs_of};
ghost use Rattle.cb_relay.specs.Whole.{IsNoValidTx, IsTxOf};
ghost use Rattle.cb_c.specs.Giving.{AreGiven};
ghost use Rattle.cb_c.specs.Status.{Answers, status_of};
ghost use Rattle.cb_block.specs.TxRules.{MeetsRules};
ghost use Rattle.cb_block.specs.declared.tx.Tx.{Tx};

use crate::giving::give_both;
use crate::status::status;
use cb_relay::{CbInput, CbOutput, CbTx, check_rules, tx_parts};
use std::alloc::Global;

/// Reads the parts of the transaction that is all of these bytes. `fields` has the counts. The
/// inputs and outputs are given if both have room, and none otherwise. After a fault nothing has
/// changed.
#[unsafe(no_mangle)]
pub extern "C" fn cbrelay_tx_read(
    alloc: Global,
    tx: &[u8],
    inputs: &mut [CbInput],
    outputs: &mut [CbOutput],
    fields: &mut CbTx,
) -> u32
    ensures { ((read : Tx) × IsTxOf tx.now read × (fields.new ≡ fields_of read)
        × AreGiven (inputs_of read) inputs.old inputs.new (outputs_of read) outputs.old outputs.new
        result)
        ⊎ ((fault : Fault) × (result ≡ status_of fault) × IsNoParts tx.now fault
        × (fields.new ≡ fields.old) × (inputs.new ≡ inputs.old) × (outputs.new ≡ outputs.old)) }
{
    match tx_parts(alloc, tx) {
        Ok(parts) => {
            *fields = parts.fields;
            give_both(
                parts.inputs.as_slice(),
                inputs,
                parts.outputs.as_slice(),
                outputs,
            )
        }
        Err(fault) => status(fault),
    }
}

/// Checks the rules that the transaction which is all of these bytes must meet by itself.
#[unsafe(no_mangle)]
pub extern "C" fn cbrelay_tx_check(alloc: Global, tx: &[u8]) -> u32
    ensures { Answers result
        ((read : Tx) × IsTxOf tx.now read × MeetsRules read)
        (IsNoValidTx tx.now) }
{
    match check_rules(alloc, tx) {
        Ok(()) => 0,
        Err(fault) => status(fault),
    }
}
