ghost use Rattle.std.specs.Prelude.{◌≡◌, None, MatchOption};
ghost use Rattle.cb_block.specs.Work.{HasWork};
ghost use Rattle.cb_chain.specs.Calls.{block_fault, is_full_under};
ghost use Rattle.cb_state.specs.Judging.{IsStanding, RefusesHeading, parent_fault};

use cb_base::{Fault, Hash256};
use cb_block::{Header, hash_with_work};
use cb_chain::{Chain, MOST_HEIGHT};

/// What a chain has under a hash.
#[derive(Clone, Copy)]
enum Standing {
    /// Nothing, or a header whose block isn't kept.
    Lacking,
    /// A block that is kept and not marked bad.
    Kept,
    /// A header or a block that is marked bad.
    Marked,
}

/// What the chain has under this hash.
fn standing_of(chain: &Chain, hash: &Hash256) -> Standing
    ensures { IsStanding chain.now hash.now result }
{
    if chain.lacks(hash) {
        return Standing::Lacking;
    }
    match chain.block(hash) {
        Some(_) => Standing::Kept,
        None => Standing::Marked,
    }
}

/// Whether a child of this parent would be higher than a header may be.
fn is_full_under(chain: &Chain, parent: &Hash256) -> bool
    ensures { result ≡ is_full_under chain.now parent.now }
{
    match chain.height(parent) {
        Some(height) => height >= MOST_HEIGHT,
        None => false,
    }
}

/// Why a block isn't accepted on this parent, if it isn't.
fn fault_of_parent(chain: &Chain, parent: &Hash256) -> Option<Fault>
    ensures { result ≡ parent_fault chain.now parent.now }
{
    match standing_of(chain, parent) {
        Standing::Marked => Some(Fault::BadParent),
        Standing::Lacking => Some(Fault::NoParent),
        Standing::Kept => is_full_under(chain, parent).then_some(Fault::TooMany),
    }
}

/// Why `Chain::accept_block` refuses a block with this header before it looks at the block's
/// transactions. `None` if nothing speaks against the header.
///
/// It looks some hashes up and allocates nothing, however high the chain is. So it is asked before
/// time or memory is spent on a block.
pub(crate) fn fault_of_block(chain: &Chain, header: &Header) -> Option<Fault>
    ensures { MatchOption result
        (HasWork header.now × (block_fault chain.now header.now ≡ None))
        (RefusesHeading chain.now header.now) }
{
    let hash = match hash_with_work(header) {
        Ok(hash) => hash,
        Err(fault) => return Some(fault),
    };
    match standing_of(chain, &hash) {
        Standing::Marked => Some(Fault::BadParent),
        Standing::Kept => Some(Fault::Known),
        Standing::Lacking => fault_of_parent(chain, &header.prev),
    }
}
