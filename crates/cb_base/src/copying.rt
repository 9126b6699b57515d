ghost use Rattle.std.specs.Prelude.{◌≡◌, length, IfOk, IsOk, IsOkUnless};
ghost use Rattle.cb_base.specs.declared.fault.Fault.TheVariants.{Memory};

use crate::fault::Fault;
use std::alloc::Global;

/// Returns a vector of the same bytes. Fails only with `Fault::Memory`. An empty slice never fails.
pub fn copy_bytes(alloc: Global, bytes: &[u8]) -> Result<Vec<u8>, Fault>
    ensures same { IfOk result (λ copy. copy.items ≡ bytes.now) }
    ensures memory { IsOkUnless result Memory }
    ensures unpaid { length bytes.now ≡ 0 → IsOk result }
{
    let mut copy = Vec::with_capacity(alloc, bytes.len())?;
    copy.extend_from_slice(bytes)?;
    Ok(copy)
}
