ghost use Rattle.std.specs.Prelude.{◌≡◌, IsTrue, ◌↔◌, length, IfOk, IsOk, IsOkUnless};
ghost use Rattle.cb_base.specs.declared.fault.Fault.TheVariants.{Memory};

use cb_base::{Fault, copy_bytes};
use std::alloc::Global;
use std::marker::Model;

/// The payload of an unknown command, which isn't interpreted. For the prover its value is the list
/// of bytes.
#[derive(Drop)]
pub struct Payload {
    bytes: Vec<u8>,
}

impl Model for Payload {
    ghost use Rattle.std.specs.Prelude.{ℕ, List};

    ghost Value = { List ℕ };

    ghost view = { λ payload. payload.bytes.items };
}

impl Payload {
    /// Takes the bytes.
    pub fn new(bytes: Vec<u8>) -> Payload
        ensures { result ≡ bytes.items }
    {
        Payload { bytes }
    }

    /// The bytes.
    pub fn as_slice(&self) -> &[u8]
        ensures { result.now ≡ self.now }
    {
        self.bytes.as_slice()
    }

    /// Gives the bytes back.
    pub fn into_bytes(self) -> Vec<u8>
        ensures { result.items ≡ self }
    {
        self.bytes
    }

    /// The number of bytes.
    pub fn len(&self) -> usize
        ensures { result ≡ length self.now }
    {
        self.bytes.len()
    }

    /// Whether there are none.
    pub fn is_empty(&self) -> bool
        ensures { IsTrue result ↔ (length self.now ≡ 0) }
    {
        self.bytes.is_empty()
    }

    /// An equal payload. Fails only with `Fault::Memory`; an empty payload allocates nothing.
    pub fn copy(&self, alloc: Global) -> Result<Payload, Fault>
        ensures equal { IfOk result (λ copy. copy ≡ self.now) }
        ensures memory { IsOkUnless result Memory }
        ensures unpaid { length self.now ≡ 0 → IsOk result }
    {
        Ok(Payload {
            bytes: copy_bytes(alloc, self.bytes.as_slice())?,
        })
    }
}
