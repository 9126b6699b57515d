ghost use Rattle.std.specs.Prelude.{◌≡◌, IfOk, IsOkUnless};
ghost use Rattle.cb_base.specs.declared.fault.Fault.TheVariants.{Memory};

use cb_base::Fault;
use cb_block::SoundBlock;

/// What the question about an item asks. Each variant is one kind of question to the hall: what
/// Bitcoin Core keeps in ChainstateManager and CTxMemPool.
#[derive(Clone, Copy, PartialEq, Eq)]
pub enum Subject {
    /// The blocks that are missing of announced headers: `Question::Headers`.
    Headers,
    /// The chain's locator: `Question::Locator`.
    Locator,
    /// The announced transactions and blocks that are wanted: `Question::Want`.
    Inventory,
    /// A transaction that the peer gave: `Question::GiveTx`.
    Tx,
    /// A block that the peer gave: `Question::GiveBlock`.
    Block,
    /// The transactions and blocks that the peer requested: `Question::Serve(Request::Items(_))`.
    Items,
    /// The headers after the peer's locator: `Question::Serve(Request::After(_, _))`.
    After,
    /// Some transactions of a block, for the peer (BIP 152, `getblocktxn`):
    /// `Question::Serve(Request::Places(_, _))`.
    Places,
}

/// How far a session is with an item or a tick. Each variant is a question to the hall: what
/// Bitcoin Core keeps in ChainstateManager and CTxMemPool.
#[derive(Drop)]
pub enum Stage {
    /// May the item or tick be processed?
    Admit,
    /// The question about this subject that the item itself leads to.
    About(Subject),
    /// Which transactions of the mempool have a compact block's short ids (BIP 152)?
    Match,
    /// A block that was rebuilt from a compact block is given.
    Give(SoundBlock),
    /// Which of the queued blocks are still needed?
    Wanted,
    /// What is new: the tip and the transactions of the mempool.
    Fresh,
}

impl Stage {
    /// An equal stage, which shares its block with this one.
    ///
    /// Fails only with `Fault::Memory`, if the block can't count another owner.
    pub fn copy(&self) -> Result<Stage, Fault>
        ensures equal { IfOk result (λ copy. copy ≡ self.now) }
        ensures memory { IsOkUnless result Memory }
    {
        match self {
            Stage::Admit => Ok(Stage::Admit),
            Stage::About(subject) => Ok(Stage::About(*subject)),
            Stage::Match => Ok(Stage::Match),
            Stage::Give(block) => Ok(Stage::Give(block.copy()?)),
            Stage::Wanted => Ok(Stage::Wanted),
            Stage::Fresh => Ok(Stage::Fresh),
        }
    }
}
