use crate::seen::{Seen, ask_and_see};
use cb_base::{Fault, Seed, Shared};
use cb_hall::{Badge, Hall, Question};
use std::sync::{Mutex, Wait};

/// A hall behind its lock that can be asked and lends its seed, and nothing else: who holds it can
/// take no checkpoint and kick nobody. Each call waits for the lock by `rt`, and lets it go.
///
/// No clause can name the hall between two calls, since others call it too. That nothing but the
/// question reaches it is left to `ask`.
pub(crate) struct AskedHall<R: Drop> {
    rt: R,
    hall: Shared<Mutex<Hall>>,
}

impl<R: Drop> Drop for AskedHall<R> {
    fn drop(self) {
        let AskedHall { rt: _, hall: _ } = self;
    }
}

impl<R: Wait + Drop> AskedHall<R> {
    ghost use Rattle.std.specs.Prelude.{◌≡◌, ◌⊎◌, true, [], ◌∷◌, IfOk, IfErr, OnErr};
    ghost use Rattle.cb_base.specs.declared.fault.Fault.TheVariants.{JournalFull, Memory};
    ghost use Rattle.cb_peer_state.specs.Questions.{fits};
    ghost use Rattle.cb_trace.specs.Granting.{HasCounted};
    ghost use Rattle.cb_work.specs.SharedHall.{IsMarked};

    /// A way to this hall, which waits for the lock by `rt`.
    pub fn new(rt: R, hall: Shared<Mutex<Hall>>) -> AskedHall<R> {
        AskedHall { rt, hall }
    }

    /// Asks the hall a question under a badge, and tells whether that changed the tip. The badge
    /// counts an answer, and a refusal adds none.
    ///
    /// Fails as the hall does (`Hall::call`).
    pub fn ask(&self, badge: &mut Badge, question: Question) -> Result<Seen, Fault>
        ensures ok { IfOk result (λ seen. HasCounted badge.old badge.new
            (record { question = question; answer = seen.answer } ∷ [])) }
        ensures fits { IfOk result (λ seen. fits question seen.answer ≡ true) }
        ensures err { OnErr result (HasCounted badge.old badge.new []) }
        ensures refused { IfErr result (λ fault. IsMarked badge.new fault) }
        ensures kinds { IfErr result (λ fault. (fault ≡ JournalFull) ⊎ (fault ≡ Memory)) }
    {
        let mut guard = self.hall.lock(&self.rt);
        ask_and_see(&mut *guard, badge, question)
    }

    /// The seed of the hall's tables.
    pub fn seed(&self) -> Seed {
        let guard = self.hall.lock(&self.rt);
        guard.seed()
    }
}
