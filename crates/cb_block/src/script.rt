ghost use Rattle.std.specs.Prelude.{◌≡◌, ◌==◌, length, IfOk, IsOk, IsOkUnless};
ghost use Rattle.cb_base.specs.declared.fault.Fault.TheVariants.{Memory};

use cb_base::{Fault, copy_bytes};
use std::alloc::Global;
use std::marker::Model;

/// A script, as bytes. Nothing here runs it. Contracts see the list of its bytes.
#[derive(Drop)]
pub struct Script {
    bytes: Vec<u8>,
}

impl Model for Script {
    ghost use Rattle.std.specs.Prelude.{ℕ, List};

    ghost Value = { List ℕ };

    ghost view = { λ script. script.bytes.items };
}

impl Script {
    /// The bytes as a script.
    pub fn new(bytes: Vec<u8>) -> Script
        ensures { result ≡ bytes.items }
    {
        Script { bytes }
    }

    /// Its length in bytes.
    pub fn len(&self) -> usize
        ensures { result ≡ length self.now }
    {
        self.bytes.len()
    }

    /// Whether it has no bytes.
    pub fn is_empty(&self) -> bool
        ensures { result ≡ (length self.now == 0) }
    {
        self.bytes.is_empty()
    }

    /// Its bytes.
    pub fn as_slice(&self) -> &[u8]
        ensures { result.now ≡ self.now }
    {
        self.bytes.as_slice()
    }

    /// Its bytes, as the vector that it owned.
    pub fn into_vec(self) -> Vec<u8>
        ensures { result.items ≡ self }
    {
        self.bytes
    }

    /// Returns a script of the same bytes. Fails only with `Fault::Memory`. An empty script never
    /// fails.
    pub fn copy(&self, alloc: Global) -> Result<Script, Fault>
        ensures same { IfOk result (λ script. script ≡ self.now) }
        ensures memory { IsOkUnless result Memory }
        ensures unpaid { length self.now ≡ 0 → IsOk result }
    {
        Ok(Script::new(copy_bytes(alloc, self.bytes.as_slice())?))
    }
}
