//! The law of what happens to a mined block that is submitted at once.
ghost use Rattle.std.specs.Prelude.{None};
ghost use Rattle.cb_state.specs.declared.accepting.Taken.{Taken};
ghost use Rattle.cb_state.specs.Accepting.{TakesBlock};
ghost use Rattle.cb_state.specs.Mining.{IsMined};
ghost use Rattle.cb_state.specs.State.{RelayState};
ghost use Rattle.cb_hall.specs.MinedBlock.{FaresAsMined};

use cb_block::SoundBlock;
use cb_chain::has_history;
use cb_state::{Relay, mined_meets_rules};

/// What happens to a mined block that is submitted at once to the state it was mined on.
pub(crate) fn mined_fares(state: &Relay, mark: u8, block: &SoundBlock)
    requires { IsMined state.now mark block.now }
    ensures { (taken : Taken) (new : RelayState) → TakesBlock state.now block.now None taken new →
        FaresAsMined state.now block.now taken new }
{
    let chain = state.chain();
    has_history(chain);
    // No effect when it runs: it tells the prover what the type keeps.
    let _height = chain.tip_height();
    let _ledger = chain.ledger();
    let _pool = state.pool();
    mined_meets_rules(state, mark, block);
    // No effect when it runs: it tells the prover what the type keeps.
    let _text = block.block().header.text();
}
