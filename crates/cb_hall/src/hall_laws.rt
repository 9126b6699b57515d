//! Laws of every hall. Each law is the contract of a function that does nothing.
ghost use Rattle.std.specs.Prelude.{◌≡◌, ◌≤◌, length, true, false, List, None};
ghost use Rattle.cb_hall.specs.declared.answer.Answer.{Answer};
ghost use Rattle.cb_hall.specs.declared.entry.Entry.{Entry};
ghost use Rattle.cb_hall.specs.Journal.{JournalState};
ghost use Rattle.cb_hall.specs.Replica.{Leads, ReplicaState, opening};
ghost use Rattle.cb_hall.specs.Hall.{HasHistory, NotesAll};
ghost use Rattle.cb_hall.specs.Badge.{BadgeState};
ghost use Rattle.cb_hall.specs.Laws.{AreApart, AreTurnedAway, CountsAlike, CountsItsQuestions, IsHeld, IsLetIn, WasKicked};
ghost use Rattle.cb_hall.specs.MinedBlock.{FaresAsMined};
ghost use Rattle.cb_hall.specs.Connections.{is_kicked};
ghost use Rattle.cb_state.specs.declared.connection.Connection.{Connection};
ghost use Rattle.cb_state.specs.declared.accepting.Taken.{Taken};
ghost use Rattle.cb_state.specs.Accepting.{TakesBlock};
ghost use Rattle.cb_state.specs.Mining.{IsMined};
ghost use Rattle.cb_state.specs.State.{RelayState};

use crate::hall::Hall;
use crate::journal_laws::one_end;
use crate::mined::mined_fares;
use cb_block::SoundBlock;

/// All calls of a hall since the start lead to its state, with the answers that were given. The
/// calls determine the state and the answers.
pub fn one_hall()
    ensures leads { (hall : JournalState) (past : List Entry) (answers : List Answer) →
        HasHistory hall past answers → Leads opening past answers hall.latest }
    ensures one { (hall other : JournalState) (past : List Entry) (answers again : List Answer)
        → HasHistory hall past answers → HasHistory other past again →
        (answers ≡ again) × (hall.latest ≡ other.latest) }
{
    one_end();
}

/// A kicked connection stays kicked. Each of its questions is answered with `Kicked` and leaves the
/// state that peers share unchanged. No question of a connection that isn't kicked is answered with
/// `Kicked`. A connection becomes kicked only by an entry that names it.
pub fn who_was_kicked()
    ensures turned_away { (old new : ReplicaState) (calls : List Entry) (answers : List Answer)
        (connection : Connection)
        → Leads old calls answers new → is_kicked old.connections connection ≡ true →
        AreTurnedAway old calls connection new }
    ensures let_in { (asked : ReplicaState) (connection : Connection) →
        is_kicked asked.connections connection ≡ false → IsLetIn asked connection }
    ensures for_a_reason { (old new : ReplicaState) (calls : List Entry) (answers : List Answer)
        (connection : Connection)
        → Leads old calls answers new → is_kicked old.connections connection ≡ false →
        is_kicked new.connections connection ≡ true → WasKicked calls connection }
{}

/// The count that is kept of a connection grows by one with each of its granted questions.
pub fn each_question_is_counted()
    ensures { (old new : ReplicaState) (calls : List Entry) (answers : List Answer)
        (connection : Connection)
        → Leads old calls answers new → CountsItsQuestions old calls connection new }
{}

/// A badge counts as many questions as the hall counts of its connection, whatever else is called.
pub fn each_badge_counts_its_questions()
    ensures { (hall : JournalState) (badge : BadgeState) → IsHeld hall badge →
        CountsAlike hall badge }
{}

/// At most three connections are asked to announce new blocks as compact blocks (BIP 152), and no
/// two of them are equal.
pub fn few_announcers()
    ensures few { (hall : JournalState) (past : List Entry) (answers : List Answer) →
        HasHistory hall past answers → length hall.latest.relay.announcers ≤ 3 }
    ensures apart { (hall : JournalState) (past : List Entry) (answers : List Answer) →
        HasHistory hall past answers → AreApart hall.latest.relay.announcers }
{}

/// The calls determine the hall that a new journal of them is: the state before its entries, the
/// entries and the latest state.
pub fn one_replay()
    ensures { (old new other : JournalState) (calls : List Entry) → NotesAll old calls new →
        NotesAll old calls other → new ≡ other }
{}

/// A mined block that is submitted at once becomes the tip, and the active chain grows by its
/// header alone. It is refused only in these cases:
/// - `Fault::BadParent`: its hash was marked bad before;
/// - `Fault::TooMany`: the tip is at height 1,000,000,000;
/// - `Fault::Known`: another header has its hash;
/// - `Fault::Remade`: an output that it creates is unspent already. That is the coinbase's output,
///   or one of a transaction with the coinbase's txid.
pub fn mined_is_next_tip(hall: &Hall, mark: u8, block: &SoundBlock)
    requires { IsMined hall.now.latest.relay mark block.now }
    ensures { (taken : Taken) (new : RelayState) →
        TakesBlock hall.now.latest.relay block.now None taken new →
        FaresAsMined hall.now.latest.relay block.now taken new }
{
    mined_fares(hall.state(), mark, block);
}
