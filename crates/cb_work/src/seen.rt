//! A call of the hall, and whether it changed the tip.
ghost use Rattle.std.specs.Prelude.{◌≡◌, ◌∷◌, ◌⊎◌, ◌↔◌, ◌≤◌, ◌^◌, [], true, IfErr, IfOk, IsErrOf, OnErr};
ghost use Rattle.cb_base.specs.declared.fault.Fault.TheVariants.{JournalFull, Memory};
ghost use Rattle.cb_hall.specs.Hall.{Submitted};
ghost use Rattle.cb_hall.specs.Histories.{Asks, IsRefused};
ghost use Rattle.cb_peer_state.specs.Questions.{fits};
ghost use Rattle.cb_work.specs.Seen.{IsChange, IsTipChange, tip_word, told_word};

use cb_base::{Fault, Hash256};
use cb_hall::{Answer, Badge, Hall, Local, Question};
use cb_trace::Oracle;

/// What the hall answered to a call, and what the call did to the tip.
#[derive(Drop)]
pub struct Seen {
    /// The answer.
    pub answer: Answer,
    /// The new tip, if the call changed it.
    pub tip: Option<Hash256>,
}

/// Asks the hall a question under a badge, as `Oracle::ask` does, and tells whether that changed
/// the tip.
pub fn ask_and_see(hall: &mut Hall, badge: &mut Badge, question: Question) -> Result<Seen, Fault>
    ensures ok { IfOk result (λ seen. Asks hall.old hall.new badge.old badge.new
        (record { question = question; answer = seen.answer } ∷ [])) }
    ensures fits { IfOk result (λ seen. fits question seen.answer ≡ true) }
    ensures tip { IfOk result (λ seen. IsTipChange hall.old hall.new seen.tip) }
    ensures err { OnErr result (Asks hall.old hall.new badge.old badge.new []) }
    ensures refused { IfErr result (λ fault. IsRefused hall.new badge.new fault) }
    ensures kinds { IfErr result (λ fault. (fault ≡ JournalFull) ⊎ (fault ≡ Memory)) }
{
    let before = hall.look().tip;
    let answer = hall.ask(badge, question)?;
    let tip = tip_change(before, hall.look().tip);
    Ok(Seen { answer, tip })
}

/// Gives the hall what comes from the node's own user, as `Hall::submit` does, and tells whether
/// that changed the tip.
pub fn submit_and_see(hall: &mut Hall, local: Local) -> Result<Seen, Fault>
    ensures ok { IfOk result (λ seen. Submitted hall.old local hall.new seen.answer) }
    ensures tip { IfOk result (λ seen. IsTipChange hall.old hall.new seen.tip) }
    ensures full { IsErrOf result JournalFull ↔ (2 ^ 62 ≤ hall.old.latest.entries) }
    ensures err { OnErr result (hall.new ≡ hall.old) }
    ensures kinds { IfErr result (λ fault. (fault ≡ JournalFull) ⊎ (fault ≡ Memory)) }
{
    let before = hall.look().tip;
    let answer = hall.submit(local)?;
    let tip = tip_change(before, hall.look().tip);
    Ok(Seen { answer, tip })
}

/// The tip after a call, if it is another one than before.
fn tip_change(before: Hash256, after: Hash256) -> Option<Hash256>
    ensures { IsChange before after result }
{
    if after == before { None } else { Some(after) }
}

/// A tip as a number: the first eight bytes of its hash, or 1 if all of them are 0. Two tips with
/// the same number would have to be looked for in 2^64 blocks.
pub fn tip_word(tip: &Hash256) -> u64
    ensures { result ≡ tip_word tip.now }
{
    let bytes = tip.bytes();
    let word = u64::from_le_bytes([
        bytes[0], bytes[1], bytes[2], bytes[3], bytes[4], bytes[5], bytes[6], bytes[7],
    ]);
    word.max(1)
}

/// The tip that a peer was told last as a number; 0 if it was told none.
pub(crate) fn told_word(tip: Option<Hash256>) -> u64
    ensures { result ≡ told_word tip }
{
    match tip {
        Some(hash) => tip_word(&hash),
        None => 0,
    }
}
