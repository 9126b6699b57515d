ghost use Rattle.std.specs.Prelude.{◌≡◌};
ghost use Rattle.cb_hall.specs.Hall.{look_of};

use cb_base::Hash256;
use cb_state::Relay;

/// A summary of a node for its owner.
#[derive(Clone, Copy, PartialEq, Eq)]
pub struct Look {
    /// The height of the best chain's tip; the genesis block has height 0.
    pub height: u32,
    /// The hash of the best chain's tip.
    pub tip: Hash256,
    /// How many transactions are in the mempool.
    pub pool: usize,
}

impl Look {
    /// The summary of a state.
    pub(crate) fn at(state: &Relay) -> Look
        ensures { result ≡ look_of state.now }
    {
        Look {
            height: state.chain().tip_height(),
            tip: state.chain().tip(),
            pool: state.pool().len(),
        }
    }
}
