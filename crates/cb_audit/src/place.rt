ghost use Rattle.std.specs.Prelude.{◌≡◌, ◌++◌, ◌∷◌, [], ℕ, List, drop, IfOk, IsOkUnless, MatchOption, Some};
ghost use Rattle.cb_base.specs.declared.fault.Fault.TheVariants.{Memory};
ghost use Rattle.cb_audit.specs.Comparing.{EndsAt, HasCome};
ghost use Rattle.cb_audit.specs.Heard.{skip_of, start_of};
ghost use Rattle.cb_audit.specs.Turns as view;

use crate::audited::Audited;
use crate::counting::granted;
use crate::turns::{Turn, is_turn_at};
use cb_base::Fault;
use cb_hall::{Answer, Connections, Question};
use std::alloc::Global;

/// How far the comparison of the journal with one trace is.
#[derive(Clone, Copy)]
pub(crate) struct Place {
    /// How many turns of the journal are still passed over: the trace dropped them.
    pub(crate) skip: u64,
    /// The place, among the turns of the trace, of the next one to compare.
    pub(crate) next: u64,
    /// The first place that differs, if one does.
    pub(crate) differs: Option<u64>,
}

impl Place {
    /// The place before the journal. Turns are compared from the first one that neither the hall
    /// nor the trace has dropped.
    pub(crate) fn first(kept: &Connections, one: &Audited) -> Place
        ensures { HasCome (start_of kept.now one.now) (skip_of kept.now one.now)
            (view.turns_in one.now.trace) [] result.skip result.next result.differs }
    {
        let dropped = granted(kept, one.connection());
        let told = one.trace().before().told;
        let first = dropped.max(told);
        Place {
            skip: first - dropped,
            next: first - told,
            differs: None,
        }
    }

    /// The place after one more turn of the journal. Fails only with `Fault::Memory`.
    pub(crate) fn after(
        self,
        alloc: Global,
        turns: &[Turn],
        question: &Question,
        answer: &Answer,
    ) -> Result<Place, Fault>
        ensures ok { IfOk result
            (λ new. (start skip : ℕ) (seen : List view.Turn) →
            HasCome start skip turns.now seen self.skip self.next self.differs →
            HasCome start skip turns.now
            (seen ++ record { question = Some question.now; answer = answer.now } ∷ [])
            new.skip new.next new.differs) }
        ensures memory { IsOkUnless result Memory }
    {
        if self.skip > 0 {
            return Ok(Place {
                skip: self.skip - 1,
                next: self.next,
                differs: self.differs,
            });
        }
        if self.differs.is_some() {
            return Ok(self);
        }
        if is_turn_at(alloc, turns, self.next, question, answer)? {
            return Ok(Place {
                skip: 0,
                next: self.next + 1,
                differs: None,
            });
        }
        Ok(Place {
            skip: 0,
            next: self.next,
            differs: Some(self.next),
        })
    }

    /// The first place, among the turns of the trace, that differs, once the journal has no more
    /// turns.
    pub(crate) fn end(self, turns: &[Turn]) -> Option<u64>
        ensures { (start skip : ℕ) (seen : List view.Turn) →
            HasCome start skip turns.now seen self.skip self.next self.differs →
            MatchOption result (drop skip seen ≡ drop start turns.now)
            (EndsAt start turns.now (drop skip seen)) }
    {
        if self.differs.is_some() {
            return self.differs;
        }
        if self.next < turns.len() as u64 {
            return Some(self.next);
        }
        None
    }
}
