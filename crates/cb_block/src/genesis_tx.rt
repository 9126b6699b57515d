ghost use Rattle.std.specs.Prelude.{◌≡◌, IfOk, IsOkUnless};
ghost use Rattle.cb_base.specs.declared.fault.Fault.TheVariants.{Memory};
ghost use Rattle.cb_block.specs.Genesis.{genesis_tx};

use crate::script::Script;
use crate::tx::{Inputs, OutPoint, Outputs, Tx, TxIn, TxOut};
use cb_base::{Fault, Hash256};
use std::alloc::Global;

/// The input script of the genesis coinbase. It pushes the bits of the main network's genesis
/// block, the number 4 and a newspaper headline.
const HEADLINE: &[u8; 77] =
    b"\x04\xff\xff\x00\x1d\x01\x04\x45The Times 03/Jan/2009 Chancellor on brink of second bailout \
        for banks";

/// The output script of the genesis coinbase: it pushes a public key of 65 bytes, then
/// `OP_CHECKSIG`.
const TO_A_KEY: &[u8; 67] =
    b"\x41\x04\x67\x8a\xfd\xb0\xfe\x55\x48\x27\x19\x67\xf1\xa6\x71\x30\xb7\x10\x5c\xd6\xa8\x28\xe0\
        \x39\x09\xa6\x79\x62\xe0\xea\x1f\x61\xde\xb6\x49\xf6\xbc\x3f\x4c\xef\x38\xc4\xf3\x55\x04\
        \xe5\x1e\xc1\x12\xde\x5c\x38\x4d\xf7\xba\x0b\x8d\x57\x8a\x4c\x70\x2b\x6b\xf1\x1d\x5f\xac";

/// The coinbase of the genesis block. Fails only with `Fault::Memory`.
#[tactic(auto, unfolding(crate::specs::Genesis::headline, crate::specs::Genesis::to_a_key))]
pub(crate) fn first_tx(alloc: Global) -> Result<Tx, Fault>
    ensures same { IfOk result (λ tx. tx ≡ genesis_tx) }
    ensures memory { IsOkUnless result Memory }
{
    let prev = OutPoint {
        txid: Hash256([0; 32]),
        index: 0xffff_ffff,
    };
    let input = TxIn {
        prev,
        script: Script::new(Vec::from_slice(alloc, HEADLINE)?),
        sequence: 0xffff_ffff,
    };
    let output = TxOut {
        value: 5_000_000_000,
        script: Script::new(Vec::from_slice(alloc, TO_A_KEY)?),
    };
    let mut inputs = Vec::with_capacity(alloc, 1)?;
    inputs.push(input)?;
    let mut outputs = Vec::with_capacity(alloc, 1)?;
    outputs.push(output)?;
    Ok(Tx {
        version: 1,
        inputs: Inputs::new(inputs),
        outputs: Outputs::new(outputs),
        lock_time: 0,
    })
}
