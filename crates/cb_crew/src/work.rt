ghost use Rattle.std.specs.Prelude.{◌≡◌};
ghost use Rattle.cb_crew.specs.Work.{IsFresh};

use crate::queued::Opening;
use std::marker::Model;
use std::sync::Wait;

/// What a work is given: an item of its connection, or the connection's end.
#[derive(Debug, Drop, PartialEq, Eq)]
pub enum Given<M> {
    /// An item.
    Item(M),
    /// The connection ended.
    End,
}

/// What serves the items of one connection, one after another.
///
/// A call may wait, for a lock or for a writer. Its contract holds if it returns.
///
/// A work never changes its label. Contracts tell by the label whose work it is.
pub trait Work: Drop {
    ghost use Rattle.std.specs.Prelude.{◌≡◌, ◌-◌, ◌^◌, ℕ, Bool, true, false, List, ◌++◌, ◌∷◌, [], length, min};
    ghost use Rattle.cb_crew.specs.declared.work.Given.{Given};
    ghost use Rattle.cb_crew.specs.Work.{IsEnd};

    /// The type of the items.
    type Item: Drop;

    /// The work was given exactly these, in this order.
    ghost given: { Self → List (Given Self.Item) → Type 0 };

    /// The work was ticked exactly as often as the list is long. Each number tells how much it had
    /// been given before that tick.
    ghost ticked: { Self → List ℕ → Type 0 };

    /// The work has made all room that its next step needs.
    ghost primed: { Self → Type 0 };

    /// The work accepts nothing more.
    ghost is_closed: { Self → Bool };

    /// The work keeps all that it may let go of: it let go of nothing.
    ghost is_whole: { Self → Type 0 };

    /// How many bytes the work keeps that it can let go of once its connection is past, about.
    ghost weight: { Self → ℕ };

    /// Whose work it is.
    ghost label: { Self → ℕ };

    /// The work's label.
    fn whose(&self) -> u64
        ensures { result ≡ label self.now };

    /// Whether the work accepts nothing more.
    fn closed(&self) -> bool
        ensures { result ≡ is_closed self.now };

    /// Makes room for the next step, and returns true. If that fails, for example for lack of
    /// memory, the work closes and the result is false.
    fn ready(&mut self) -> bool
        requires { is_closed self.old ≡ false }
        ensures ready { result ≡ true → (is_closed self.new ≡ false) × primed self.new }
        ensures closed { result ≡ false → is_closed self.new ≡ true }
        ensures label { label self.new ≡ label self.old }
        ensures given { (items : List (Given Self.Item)) → given self.old items →
            given self.new items }
        ensures ticked { (at : List ℕ) → ticked self.old at → ticked self.new at }
        ensures whole { is_whole self.old → is_whole self.new };

    /// Handles the next item, or the end. The end closes the work.
    fn step<R: Wait>(&mut self, rt: &R, item: Given<Self::Item>)
        requires open { is_closed self.old ≡ false }
        requires primed { primed self.old }
        ensures given { (items : List (Given Self.Item)) → given self.old items →
            given self.new (items ++ item ∷ []) }
        ensures end { IsEnd item → is_closed self.new ≡ true }
        ensures label { label self.new ≡ label self.old }
        ensures ticked { (at : List ℕ) → ticked self.old at → ticked self.new at }
        ensures whole { is_whole self.old → is_whole self.new };

    /// What is to be done once in each turn, whether or not an item waits.
    fn tick<R: Wait>(&mut self, rt: &R)
        requires { is_closed self.old ≡ false }
        ensures label { label self.new ≡ label self.old }
        ensures given { (items : List (Given Self.Item)) → given self.old items →
            given self.new items }
        ensures ticked { (items : List (Given Self.Item)) (at : List ℕ) → given self.old items →
            ticked self.old at → ticked self.new (at ++ length items ∷ []) }
        ensures whole { is_whole self.old → is_whole self.new };

    /// How many bytes the work keeps that it can let go of; `u64::MAX` if that is more.
    fn weighs(&self) -> u64
        ensures { result ≡ min (weight self.now) (2 ^ 64 - 1) };

    /// Lets go of these bytes. The work's connection is past, and it is closed.
    fn let_go(&mut self)
        requires { is_closed self.old ≡ true }
        ensures weight { weight self.new ≡ 0 }
        ensures closed { is_closed self.new ≡ true }
        ensures label { label self.new ≡ label self.old }
        ensures given { (items : List (Given Self.Item)) → given self.old items →
            given self.new items }
        ensures ticked { (at : List ℕ) → ticked self.old at → ticked self.new at };
}

/// A work that may begin a connection: it is open, was given nothing, was never ticked and let go
/// of nothing.
pub struct Fresh<W: Work> {
    work: W,
}

impl<W: Work> Model for Fresh<W> {
    ghost use Rattle.cb_crew.specs.Work.{IsFresh};

    ghost Value = { W };

    ghost view = { λ a. a.work };

    ghost invariant = { λ a. IsFresh W.given W.ticked W.is_closed W.is_whole a.work };
}

impl<W: Work> Drop for Fresh<W> {
    fn drop(self) {
        let Fresh { work: _ } = self;
    }
}

impl<W: Work> Opening for Fresh<W> {
    ghost use Rattle.cb_crew.specs.Work.{IsFresh};

    ghost fresh = { λ work. IsFresh W.given W.ticked W.is_closed W.is_whole work };
}

impl<W: Work> Fresh<W> {
    /// Wraps a work that is open, was given nothing, was never ticked and let go of nothing.
    pub fn new(work: W) -> Fresh<W>
        requires { IsFresh W.given W.ticked W.is_closed W.is_whole work }
        ensures { result ≡ work }
    {
        Fresh { work }
    }

    /// The work itself.
    pub fn into_work(self) -> W
        ensures work { result ≡ self }
        ensures fresh { IsFresh W.given W.ticked W.is_closed W.is_whole result }
    {
        let Fresh { work } = self;
        work
    }
}
