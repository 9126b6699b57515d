ghost use Rattle.std.specs.Prelude.{◌≡◌, IfOk, IsOkUnless};
ghost use Rattle.cb_base.specs.declared.fault.Fault.TheVariants.{Memory};
ghost use Rattle.cb_chain.specs.Locator.{locator_of};

use crate::state::Relay;
use cb_base::Fault;
use cb_chain::{Chain, has_history};
use cb_wire::Locator;

/// The chain's block locator. It fits in a message. Fails only with `Fault::Memory`.
pub(crate) fn locator_of(chain: &Chain) -> Result<Locator, Fault>
    ensures exact { IfOk result (λ locator. locator ≡ locator_of chain.now) }
    ensures memory { IsOkUnless result Memory }
{
    has_history(chain);
    // No effect when it runs: it tells the prover what the type keeps.
    let _ = chain.tip_height();
    let hashes = chain.locator()?;
    Ok(Locator::from_few(hashes))
}

impl Relay {
    /// The chain's block locator (Bitcoin's protocol, `getheaders`). Fails only with
    /// `Fault::Memory`.
    pub fn locator(&self) -> Result<Locator, Fault>
        ensures exact { IfOk result (λ locator. locator ≡ locator_of self.now.tree) }
        ensures memory { IsOkUnless result Memory }
    {
        locator_of(&self.chain)
    }
}
