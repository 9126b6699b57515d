//! Equality of lists.
ghost use Rattle.std.specs.Prelude.{◌≡◌, ◌↔◌, IsTrue};

use crate::same::Same;
use cb_chain::Hashes;
use cb_wire::Listed;

/// Whether both lists are the same: equally long, with the same value at each place.
pub(crate) fn same_list<T: Same>(ours: &[T], theirs: &[T]) -> bool
    ensures { IsTrue result ↔ (ours.now ≡ theirs.now) }
{
    if ours.len() != theirs.len() {
        return false;
    }
    for place in 0..ours.len() {
        if !ours[place].same(&theirs[place]) {
            return false;
        }
    }
    true
}

impl<T: Same, const MOST: usize> Same for Listed<T, MOST> {
    fn same(&self, other: &Listed<T, MOST>) -> bool {
        same_list(self.as_slice(), other.as_slice())
    }
}

impl Same for Hashes {
    fn same(&self, other: &Hashes) -> bool {
        same_list(self.as_slice(), other.as_slice())
    }
}
