ghost use Rattle.std.specs.Prelude.{◌≡◌, ◌≤◌, ◌<◌, true, [], length, vec_capacity, All};
ghost use Rattle.std.specs.List.{sum_by};
ghost use Rattle.cb_crew.specs.Past.{IsPushed, Keeps, OldestLetGo, PastState, StaysIfFew};

use crate::work::Work;
use std::marker::Model;

/// How many bytes the works of a desk's past connections keep together at most.
const PAST_BYTES: u64 = 1_000_000;

/// The works of a desk's past connections, in order. They keep at most 1,000,000 bytes together:
/// the oldest let go first, so the latest are kept whole as far as these bytes go.
pub(crate) struct PastWorks<W: Work> {
    works: Vec<W>,
    /// How many of the oldest have let go.
    gone: usize,
    /// How many bytes the works keep together.
    kept: u64,
}

impl<W: Work> Model for PastWorks<W> {
    ghost use Rattle.std.specs.Prelude.{◌≤◌, vec_capacity};
    ghost use Rattle.cb_crew.specs.Past.{Keeps, PastState};

    ghost Value = { PastState W };

    ghost view = { λ a. record { works = a.works.items; capacity = vec_capacity a.works } };

    ghost invariant = { λ a. Keeps W.weight a.works.items a.gone a.kept × (a.kept ≤ 1000000) };
}

impl<W: Work> Drop for PastWorks<W> {
    fn drop(self) {
        let PastWorks {
            works: _,
            gone: _,
            kept: _,
        } = self;
    }
}

impl<W: Work> PastWorks<W> {
    /// No works yet, with the room that this empty list has.
    pub(crate) fn new(works: Vec<W>) -> PastWorks<W>
        requires { works.items ≡ [] }
        ensures { result ≡ record { works = []; capacity = vec_capacity works } }
    {
        PastWorks {
            works,
            gone: 0,
            kept: 0,
        }
    }

    /// The works, the oldest first.
    pub(crate) fn works(&self) -> &[W]
        ensures works { result.now ≡ self.now.works }
        ensures bounded { sum_by W.weight self.now.works ≤ 1000000 }
    {
        self.works.as_slice()
    }

    /// The works themselves.
    pub(crate) fn into_works(self) -> Vec<W>
        ensures { result.items ≡ self.works }
    {
        let PastWorks {
            works,
            gone: _,
            kept: _,
        } = self;
        works
    }

    /// Adds the work of a connection that is past. If it alone keeps more than 1,000,000 bytes, it
    /// lets go. Otherwise the oldest works let go, one after another, until it fits.
    pub(crate) fn push(&mut self, mut work: W)
        requires closed { (W.is_closed work ≡ true)
            × All (λ past. W.is_closed past ≡ true) self.old.works }
        requires room { length self.old.works < self.old.capacity }
        ensures pushed { IsPushed W.label W.given W.ticked W.is_closed W.weight work self.old.works
            self.new.works }
        ensures room { self.new.capacity ≡ self.old.capacity }
    {
        self.kept += lighten(&mut work);
        self.works.push_reserved(work);
        lighten_oldest(&mut self.works, &mut self.gone, &mut self.kept);
    }
}

/// Has a work let go that alone keeps more than the past works may keep together. Returns how many
/// bytes it keeps then.
fn lighten<W: Work>(work: &mut W) -> u64
    requires { W.is_closed work.old ≡ true }
    ensures weight { W.weight work.new ≡ result }
    ensures few { result ≤ 1000000 }
    ensures stays { StaysIfFew W.label W.given W.ticked W.is_closed W.weight work.old work.new }
{
    let weight = work.weighs();
    if weight <= PAST_BYTES {
        return weight;
    }
    work.let_go();
    0
}

/// Has the oldest works that still keep something let go, one after another, until all fit.
fn lighten_oldest<W: Work>(works: &mut Vec<W>, gone: &mut usize, kept: &mut u64)
    requires closed { All (λ work. W.is_closed work ≡ true) works.old.items }
    requires keeps { Keeps W.weight works.old.items gone.old kept.old }
    ensures keeps { Keeps W.weight works.new.items gone.new kept.new × (kept.new ≤ 1000000) }
    ensures past { OldestLetGo W.label W.given W.ticked W.is_closed W.weight works.old.items
        works.new.items }
    ensures room { vec_capacity works.new ≡ vec_capacity works.old }
{
    while *kept > PAST_BYTES {
        let oldest = &mut works[*gone];
        *kept -= oldest.weighs();
        oldest.let_go();
        *gone += 1;
    }
}
