//! Equality of answers.
ghost use Rattle.std.specs.Prelude.{◌≡◌, ◌↔◌, ◌&&◌, false, IfOk, IsOk, IsOkUnless, IsTrue};
ghost use Rattle.cb_base.specs.declared.fault.Fault.TheVariants.{Memory};
ghost use Rattle.cb_audit.specs.Answers.{is_listed};

use crate::same::Same;
use crate::same_lists::same_list;
use cb_base::Fault;
use cb_compact::Pairs;
use cb_hall::Answer;
use cb_state::{Excerpt, Heads, Need, News, Part, Piece, Taken};
use std::alloc::Global;

impl Same for Heads {
    fn same(&self, other: &Heads) -> bool {
        self.refused.same(&other.refused)
            && self.lack.same(&other.lack)
            && self.locator.same(&other.locator)
    }
}

impl Same for Taken {
    fn same(&self, other: &Taken) -> bool {
        self.refused.same(&other.refused) && self.locator.same(&other.locator)
    }
}

impl Same for Need {
    fn same(&self, other: &Need) -> bool {
        self.entries.same(&other.entries)
            && self.near == other.near
            && self.locator.same(&other.locator)
    }
}

impl Same for News {
    fn same(&self, other: &News) -> bool {
        self.tip.same(&other.tip)
            && self.path.same(&other.path)
            && self.long == other.long
            && self.block.same(&other.block)
            && self.txids.same(&other.txids)
            && self.next == other.next
            && self.high == other.high
    }
}

impl Same for Piece {
    fn same(&self, other: &Piece) -> bool {
        match self {
            Piece::Tx(tx) => matches!(other, Piece::Tx(theirs) if tx.same(theirs)),
            Piece::Whole(block) => matches!(other, Piece::Whole(theirs) if block.same(theirs)),
            Piece::Short(block) => matches!(other, Piece::Short(theirs) if block.same(theirs)),
            Piece::Lacking(entry) => matches!(other, Piece::Lacking(theirs) if entry.same(theirs)),
        }
    }
}

impl Same for Part {
    fn same(&self, other: &Part) -> bool {
        let hash = self.hash();
        hash.same(&other.hash()) && same_list(self.txs().as_slice(), other.txs().as_slice())
    }
}

impl Same for Excerpt {
    fn same(&self, other: &Excerpt) -> bool {
        match self {
            Excerpt::Absent => matches!(other, Excerpt::Absent),
            Excerpt::Refused(fault) => {
                matches!(other, Excerpt::Refused(theirs) if fault.same(theirs))
            }
            Excerpt::Part(part) => matches!(other, Excerpt::Part(theirs) if part.same(theirs)),
            Excerpt::Whole(block) => matches!(other, Excerpt::Whole(theirs) if block.same(theirs)),
        }
    }
}

/// Whether both lists of pairs are the same. Fails only with `Fault::Memory`.
fn same_pairs(alloc: Global, ours: &Pairs, theirs: &Pairs) -> Result<bool, Fault>
    ensures same { IfOk result (λ same. IsTrue same ↔ (ours.now ≡ theirs.now)) }
    ensures memory { IsOkUnless result Memory }
{
    let list = ours.list(alloc)?;
    let others = theirs.list(alloc)?;
    Ok(same_list(list.as_slice(), others.as_slice()))
}

/// Whether both answers are the same. Pairs are listed to be compared, so their transactions are
/// hashed to short ids only here.
///
/// Fails only with `Fault::Memory`, and only if both are `Answer::Pairs`.
pub(crate) fn same_answer(alloc: Global, answer: &Answer, other: &Answer) -> Result<bool, Fault>
    ensures same { IfOk result (λ same. IsTrue same ↔ (answer.now ≡ other.now)) }
    ensures memory { IsOkUnless result Memory }
    ensures unpaid { (is_listed answer.now && is_listed other.now) ≡ false → IsOk result }
{
    match answer {
        Answer::Go => Ok(matches!(other, Answer::Go)),
        Answer::Kicked => Ok(matches!(other, Answer::Kicked)),
        Answer::Heads(heads) => Ok(matches!(other, Answer::Heads(theirs) if heads.same(theirs))),
        Answer::Locator(locator) => {
            Ok(matches!(other, Answer::Locator(theirs) if locator.same(theirs)))
        }
        Answer::Need(need) => Ok(matches!(other, Answer::Need(theirs) if need.same(theirs))),
        Answer::TxTaken(refused) => {
            Ok(matches!(other, Answer::TxTaken(theirs) if refused.same(theirs)))
        }
        Answer::Taken(taken) => Ok(matches!(other, Answer::Taken(theirs) if taken.same(theirs))),
        Answer::Served(pieces) => Ok(
            matches!(other, Answer::Served(theirs) if pieces.same(theirs)),
        ),
        Answer::Following(headers) => {
            Ok(matches!(other, Answer::Following(theirs) if headers.same(theirs)))
        }
        Answer::News(news) => Ok(matches!(other, Answer::News(theirs) if news.same(theirs))),
        Answer::Pairs(pairs) => match other {
            Answer::Pairs(theirs) => same_pairs(alloc, pairs, theirs),
            _ => Ok(false),
        },
        Answer::Excerpt(excerpt) => {
            Ok(matches!(other, Answer::Excerpt(theirs) if excerpt.same(theirs)))
        }
    }
}
