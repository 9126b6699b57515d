ghost use Rattle.std.specs.Prelude.{◌≡◌, IfOk, IsOkUnless};
ghost use Rattle.cb_base.specs.declared.fault.Fault.TheVariants.{Memory};
ghost use Rattle.cb_compact.specs.ShortIds.{key_of};
ghost use Rattle.cb_pool.specs.Listing.{txs_of};
ghost use Rattle.cb_compact.specs.Matching.{pairs_of};

use crate::state::Relay;
use cb_base::{Fault, Shared};
use cb_block::Header;
use cb_compact::{Pairs, ShortIds, key};

impl Relay {
    /// Returns the mempool's transactions, as they are now, whose short ids are among `ids`
    /// (BIP 152). The short ids are keyed by `header` and `nonce`. `Pairs::list` hashes, looks up
    /// and copies the transactions later; nothing of that is done here. The state seen from outside
    /// doesn't change.
    ///
    /// Fails only with `Fault::Memory`. Memory is allocated only by the first call after the
    /// mempool changed.
    pub fn match_ids(
        &mut self,
        header: &Header,
        nonce: u64,
        ids: &Shared<ShortIds>,
    ) -> Result<Pairs, Fault>
        ensures exact { IfOk result
            (λ pairs. pairs
            ≡ pairs_of (key_of header.now nonce) ids.now (txs_of self.old.pool.list)) }
        ensures same { self.new ≡ self.old }
        ensures memory { IsOkUnless result Memory }
    {
        self.pool.pairs(key(header, nonce), ids)
    }
}
