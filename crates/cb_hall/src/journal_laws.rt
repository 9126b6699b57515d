//! Laws of every journal. Each law is the contract of a function that does nothing.
ghost use Rattle.std.specs.Prelude.{◌≡◌, List, Option};
ghost use Rattle.cb_hall.specs.declared.answer.Answer.{Answer};
ghost use Rattle.cb_hall.specs.declared.entry.Entry.{Entry};
ghost use Rattle.cb_hall.specs.Replica.{Leads, ReplicaState, Steps};

use cb_state::one_answer;

/// A state and an entry determine the answer and the next state.
pub fn one_step()
    ensures { (old new other : ReplicaState) (entry : Entry) (told again : Option Answer)
        → Steps old entry told new → Steps old entry again other → (told ≡ again) × (new ≡ other) }
{
    one_answer();
}

/// A state and a list of entries determine the final state and the answers to the questions among
/// them.
pub fn one_end()
    ensures { (old new other : ReplicaState) (entries : List Entry) (answers again : List Answer)
        → Leads old entries answers new → Leads old entries again other →
        (answers ≡ again) × (new ≡ other) }
{
    one_step();
}
