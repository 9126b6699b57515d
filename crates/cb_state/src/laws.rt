//! Laws of every state and every call. Each law is the contract of a function that does nothing.
ghost use Rattle.std.specs.Prelude.{◌≡◌, List, Option};
ghost use Rattle.cb_base.specs.declared.fault.Fault.{Fault};
ghost use Rattle.cb_block.specs.Blocks.{MeetsBlockRules};
ghost use Rattle.cb_block.specs.Genesis.{genesis_block};
ghost use Rattle.cb_block.specs.declared.block.Block.{Block};
ghost use Rattle.cb_block.specs.declared.header.Header.{Header};
ghost use Rattle.cb_block.specs.declared.tx.Tx.{Tx};
ghost use Rattle.cb_state.specs.declared.connection.Connection.{Connection};
ghost use Rattle.cb_state.specs.declared.accepting.Heads.{Heads};
ghost use Rattle.cb_state.specs.declared.accepting.Taken.{Taken};
ghost use Rattle.cb_state.specs.Accepting.{TakesBlock, TakesHeads, TakesTx};
ghost use Rattle.cb_state.specs.State.{RelayState};

/// The state before and the transaction, block or headers given determine the answer and the state
/// after.
pub fn one_answer()
    ensures tx { (old new other : RelayState) (tx : Tx) (refused again : Option Fault)
        → TakesTx old tx refused new → TakesTx old tx again other →
        (refused ≡ again) × (new ≡ other) }
    ensures block { (old new other : RelayState) (block : Block) (from : Option Connection)
        (taken again : Taken)
        → TakesBlock old block from taken new → TakesBlock old block from again other →
        (taken ≡ again) × (new ≡ other) }
    ensures headers { (old new other : RelayState) (headers : List Header) (heads again : Heads)
        → TakesHeads old headers heads new → TakesHeads old headers again other →
        (heads ≡ again) × (new ≡ other) }
{}

/// Regtest's genesis block meets the rules of a block by itself (Bitcoin's consensus). The chain
/// keeps it without having checked it.
pub fn first_block_meets_rules()
    ensures { MeetsBlockRules genesis_block }
{}
