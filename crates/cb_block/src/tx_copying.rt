ghost use Rattle.std.specs.Prelude.{◌≡◌, [], IfOk, IsOk, IsOkUnless};
ghost use Rattle.cb_base.specs.declared.fault.Fault.TheVariants.{Memory};

use crate::tx::{Inputs, Outputs, Tx, TxIn, TxOut};
use cb_base::Fault;
use std::alloc::Global;

fn copy_input(alloc: Global, input: &TxIn) -> Result<TxIn, Fault>
    ensures same { IfOk result (λ copy. copy ≡ input.now) }
    ensures memory { IsOkUnless result Memory }
{
    Ok(TxIn {
        prev: input.prev,
        script: input.script.copy(alloc)?,
        sequence: input.sequence,
    })
}

fn copy_output(alloc: Global, output: &TxOut) -> Result<TxOut, Fault>
    ensures same { IfOk result (λ copy. copy ≡ output.now) }
    ensures memory { IsOkUnless result Memory }
{
    Ok(TxOut {
        value: output.value,
        script: output.script.copy(alloc)?,
    })
}

fn copy_inputs(alloc: Global, inputs: &[TxIn]) -> Result<Inputs, Fault>
    ensures same { IfOk result (λ copies. copies ≡ inputs.now) }
    ensures memory { IsOkUnless result Memory }
    ensures unpaid { inputs.now ≡ [] → IsOk result }
{
    let mut copies = Vec::with_capacity(alloc, inputs.len())?;
    for input in inputs {
        copies.push(copy_input(alloc, input)?)?;
    }
    Ok(Inputs::new(copies))
}

fn copy_outputs(alloc: Global, outputs: &[TxOut]) -> Result<Outputs, Fault>
    ensures same { IfOk result (λ copies. copies ≡ outputs.now) }
    ensures memory { IsOkUnless result Memory }
    ensures unpaid { outputs.now ≡ [] → IsOk result }
{
    let mut copies = Vec::with_capacity(alloc, outputs.len())?;
    for output in outputs {
        copies.push(copy_output(alloc, output)?)?;
    }
    Ok(Outputs::new(copies))
}

impl Tx {
    /// Returns an equal transaction. Fails only with `Fault::Memory`. A transaction with neither
    /// inputs nor outputs never fails.
    pub fn copy(&self, alloc: Global) -> Result<Tx, Fault>
        ensures same { IfOk result (λ tx. tx ≡ self.now) }
        ensures memory { IsOkUnless result Memory }
        ensures unpaid { self.now.inputs ≡ [] → self.now.outputs ≡ [] → IsOk result }
    {
        let inputs = copy_inputs(alloc, self.inputs.as_slice())?;
        let outputs = copy_outputs(alloc, self.outputs.as_slice())?;
        Ok(Tx {
            version: self.version,
            inputs,
            outputs,
            lock_time: self.lock_time,
        })
    }
}
