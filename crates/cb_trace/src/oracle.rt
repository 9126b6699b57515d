ghost use Rattle.std.specs.Prelude.{◌≡◌, ◌+◌, ◌⊎◌, ◌++◌, ◌∷◌, [], true, List, length, IfOk, IfErr, OnErr};
ghost use Rattle.cb_base.specs.declared.fault.Fault.{Fault};
ghost use Rattle.cb_base.specs.declared.fault.Fault.TheVariants.{Memory, JournalFull};
ghost use Rattle.cb_hall.specs.Badge.{BadgeState};
ghost use Rattle.cb_hall.specs.Histories.{Asks, IsRefused, Reply};
ghost use Rattle.cb_peer_state.specs.Questions.{fits};

use cb_base::{Fault, Seed};
use cb_hall::{Answer, Badge, Hall, Question};

/// What a session's questions are asked of, under the connection's badge: its permit to ask the
/// hall. It is a hall (Bitcoin Core: ChainstateManager and CTxMemPool), or something that leads to
/// a hall which others ask too.
pub trait Oracle {
    /// From the first oracle and badge to the second, exactly these questions of the badge's
    /// connection were granted, in order, with these answers.
    ghost told: { Self → BadgeState → List Reply → Self → BadgeState → Type 0 };

    /// A question of this badge's connection was refused with this fault, and none was granted
    /// since. Code that works with any oracle may know this only of a question that was refused.
    ghost refused: { Self → BadgeState → Fault → Type 0 };

    /// Asks a question. An answer adds one reply, and fits the question; `Kicked` fits every
    /// question. A refusal adds none.
    ///
    /// Fails with `Fault::JournalFull`, only if no more questions are granted (the journal is the
    /// log of the hall's calls), and with `Fault::Memory` if memory runs out.
    fn ask(&mut self, badge: &mut Badge, question: Question) -> Result<Answer, Fault>
        ensures ok { IfOk result
            (λ answer. told self.old badge.old
            (record { question = question; answer = answer } ∷ []) self.new badge.new) }
        ensures fits { IfOk result (λ answer. fits question answer ≡ true) }
        ensures err { OnErr result (told self.old badge.old [] self.new badge.new) }
        ensures refused { IfErr result (λ fault. refused self.new badge.new fault) }
        ensures kinds { IfErr result (λ fault. (fault ≡ JournalFull) ⊎ (fault ≡ Memory)) };

    /// The seed of the tables of its sessions. It changes no result.
    fn seed(&self) -> Seed;

    /// If nothing was asked, there are no replies.
    ghost told_none: { (a : Self) (x : BadgeState) → told a x [] a x };

    /// If some replies were given, and then others, all of them were given, in this order.
    ghost told_then: { (a b c : Self) (x y z : BadgeState) (first next : List Reply)
        → told a x first b y → told b y next c z → told a x (first ++ next) c z };

    /// An oracle that grants no more questions never grants one again.
    ghost full_stays: { (a b : Self) (x y : BadgeState) (replies : List Reply)
        → told a x replies b y → refused a x JournalFull → refused b y JournalFull };

    /// The badge counts the replies.
    ghost counts: { (a b : Self) (x y : BadgeState) (replies : List Reply) → told a x replies b y
        → y.count ≡ x.count + length replies };

    /// The badge stays that of its connection.
    ghost same_connection: { (a b : Self) (x y : BadgeState) (replies : List Reply)
        → told a x replies b y → y.connection ≡ x.connection };

    /// A badge that was marked full stays marked.
    ghost mark_stays: { (a b : Self) (x y : BadgeState) (replies : List Reply)
        → told a x replies b y → x.full ≡ true → y.full ≡ true };
}

impl Oracle for Hall {
    ghost use Rattle.cb_hall.proofs.Histories.{asks_none, asks_then, full_stays};

    ghost told = { λ old had replies new has. Asks old new had has replies };

    ghost refused = { λ hall badge fault. IsRefused hall badge fault };

    fn ask(&mut self, badge: &mut Badge, question: Question) -> Result<Answer, Fault> {
        self.call(badge, question)
    }

    fn seed(&self) -> Seed {
        Hall::seed(self)
    }

    ghost told_none = { λ a x. asks_none a x };

    ghost told_then = { λ a b c x y z first next h k. asks_then a b c x y z first next h k };

    ghost full_stays = { λ a b x y replies h k. full_stays a b x y replies h k };

    ghost counts = { λ a b x y replies h. h.count };

    ghost same_connection = { λ a b x y replies h. h.connection };

    ghost mark_stays = { λ a b x y replies h k. h.marked k };
}
