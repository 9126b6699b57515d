ghost use Rattle.std.specs.Prelude.{◌≡◌, true, IfOk, IsOkUnless};
ghost use Rattle.cb_base.specs.declared.fault.Fault.TheVariants.{Memory};
ghost use Rattle.cb_peer_state.specs.Questions.{fits, is_met, question_of};
ghost use Rattle.cb_peer_state.specs.declared.session_state.SessionState.{SessionState};

use crate::stage::{Stage, Subject};
use cb_base::{Fault, Shared};
use cb_hall::Answer;
use cb_wire::Item;

/// The item or tick that waits for the hall's answer to the open question. The hall is what Bitcoin
/// Core keeps in ChainstateManager and CTxMemPool.
#[derive(Drop)]
pub struct Pending {
    /// The item being processed, or `None` for a tick.
    pub item: Option<Shared<Item>>,
    /// How far the session is with it.
    pub stage: Stage,
}

impl Pending {
    /// An equal copy that shares the item and the block of its stage.
    ///
    /// Fails only with `Fault::Memory`, if the item or a block can't count another owner.
    pub fn copy(&self) -> Result<Pending, Fault>
        ensures equal { IfOk result (λ copy. copy ≡ self.now) }
        ensures memory { IsOkUnless result Memory }
    {
        let item = match &self.item {
            None => None,
            Some(item) => Some(item.clone()?),
        };
        Ok(Pending {
            item,
            stage: self.stage.copy()?,
        })
    }

    /// Whether an answer fits the open question.
    pub fn is_met_by(&self, answer: &Answer) -> bool
        ensures met { result ≡ is_met self.now.stage answer.now }
        ensures fits { (s : SessionState) →
            result ≡ fits (question_of s self.now.item self.now.stage) answer.now }
    {
        match &self.stage {
            Stage::Admit => matches!(answer, Answer::Kicked | Answer::Go),
            Stage::About(Subject::Headers) => matches!(answer, Answer::Kicked | Answer::Heads(_)),
            Stage::About(Subject::Locator) => matches!(answer, Answer::Kicked | Answer::Locator(_)),
            Stage::About(Subject::Inventory) => matches!(answer, Answer::Kicked | Answer::Need(_)),
            Stage::About(Subject::Tx) => matches!(answer, Answer::Kicked | Answer::TxTaken(_)),
            Stage::About(Subject::Block) => matches!(answer, Answer::Kicked | Answer::Taken(_)),
            Stage::About(Subject::Items) => matches!(answer, Answer::Kicked | Answer::Served(_)),
            Stage::About(Subject::After) => matches!(answer, Answer::Kicked | Answer::Following(_)),
            Stage::About(Subject::Places) => matches!(answer, Answer::Kicked | Answer::Excerpt(_)),
            Stage::Match => matches!(answer, Answer::Kicked | Answer::Pairs(_)),
            Stage::Give(_) => matches!(answer, Answer::Kicked | Answer::Taken(_)),
            Stage::Wanted => matches!(answer, Answer::Kicked | Answer::Need(_)),
            Stage::Fresh => matches!(answer, Answer::Kicked | Answer::News(_)),
        }
    }
}
