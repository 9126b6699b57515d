ghost use Rattle.std.specs.Prelude.{◌≡◌, ◌⊎◌, MatchResult, Ok, Err};
ghost use Rattle.cb_base.specs.declared.fault.Fault.{Fault};
ghost use Rattle.cb_base.specs.declared.fault.Fault.TheVariants.{Memory};
ghost use Rattle.cb_compact.specs.Completing.{completed_of};

use crate::partial::{Filled, Partial};
use cb_base::Fault;
use cb_wire::BlockTransactions;
use std::alloc::Global;

/// Completes a block with the transactions of a `blocktxn` (BIP 152): they fill its empty places in
/// order, and the block is checked. Each of them is hashed once, and none is copied. The message's
/// block hash isn't compared.
///
/// Fails with `Fault::WrongCount` if their number isn't that of the empty places, which allocates
/// nothing, and otherwise only with `Fault::Memory`.
#[tactic(auto, unfolding(crate::specs::Completing::completed_of))]
pub fn complete(alloc: Global, partial: Partial, txs: &BlockTransactions) -> Result<Filled, Fault>
    ensures exact { MatchResult result (λ filled. completed_of partial txs.now ≡ Ok filled)
        (λ fault. (fault ≡ Memory) ⊎ (completed_of partial txs.now ≡ Err fault)) }
    // A wrong count is found without allocating.
    ensures unpaid { (fault : Fault) → completed_of partial txs.now ≡ Err fault →
        result ≡ Err fault }
{
    if txs.txs.as_slice().len() != partial.lacking() {
        return Err(Fault::WrongCount);
    }
    let list = txs.copy(alloc)?.txs.into_vec();
    partial.fill(list)
}
