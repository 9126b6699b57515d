use crate::asked_hall::AskedHall;
use crate::connection_status::ConnectionStatus;
use crate::seen::tip_word;
use cb_base::{Fault, Seed, Shared};
use cb_hall::{Answer, Badge, Hall, Question};
use cb_trace::Oracle;
use std::sync::{Mutex, Wait};

/// The hall behind its lock, as each connection's work has it. The size of each block that is
/// handed over is noted in the connection's status, and the tip that a question brought.
///
/// No clause can name the hall between two calls, since others call it too. So what is told here
/// speaks of the badge alone.
pub struct SharedHall<R: Drop> {
    hall: AskedHall<R>,
    status: Shared<ConnectionStatus>,
}

impl<R: Drop> Drop for SharedHall<R> {
    fn drop(self) {
        let SharedHall { hall: _, status: _ } = self;
    }
}

impl<R: Wait + Drop> SharedHall<R> {
    /// A way to this hall for the connection with this status. It waits for the lock by `rt`.
    pub fn new(
        rt: R,
        hall: Shared<Mutex<Hall>>,
        status: Shared<ConnectionStatus>,
    ) -> SharedHall<R> {
        SharedHall {
            hall: AskedHall::new(rt, hall),
            status,
        }
    }
}

impl<R: Wait + Drop> Oracle for SharedHall<R> {
    ghost use Rattle.cb_trace.specs.Granting.{HasCounted};
    ghost use Rattle.cb_trace.proofs.Granting.{counted_none, counted_then};
    ghost use Rattle.cb_work.specs.SharedHall.{IsMarked};

    ghost told = { λ old had replies new has. HasCounted had has replies };

    ghost refused = { λ hall badge fault. IsMarked badge fault };

    fn ask(&mut self, badge: &mut Badge, question: Question) -> Result<Answer, Fault> {
        if matches!(question, Question::GiveBlock(_)) {
            self.status.note_given(question.weight());
        }
        let seen = self.hall.ask(badge, question)?;
        if let Some(tip) = seen.tip {
            self.status.note_brought(tip_word(&tip));
        }
        Ok(seen.answer)
    }

    fn seed(&self) -> Seed {
        self.hall.seed()
    }

    ghost told_none = { λ a x. counted_none x };

    ghost told_then = { λ a b c x y z first next h k. counted_then x y z first next h k };

    ghost full_stays = { λ a b x y replies h k. h.marked k };

    ghost counts = { λ a b x y replies h. h.count };

    ghost same_connection = { λ a b x y replies h. h.connection };

    ghost mark_stays = { λ a b x y replies h k. h.marked k };
}
