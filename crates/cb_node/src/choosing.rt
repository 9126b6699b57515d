ghost use Rattle.std.specs.Prelude.{◌≡◌, ◌↔◌, false, true, None, Some, IfSome, slice_get};
ghost use Rattle.cb_node.specs.Choosing.{HasNone, IsLowest};
ghost use Rattle.cb_node.specs.Slot.{uses_of};

use crate::slot::Slot;
use cb_crew::Work;
use cb_session::Input;

/// The lowest slot from `first` to before `end` that never had a socket. `None` if there is none.
pub fn lowest_unused<W: Work<Item = Input>>(slots: &[Slot<W>], first: u16, end: u16) -> Option<u16>
    ensures lowest { IfSome result (IsLowest (uses_of slots.now) false first end) }
    ensures none { result ≡ None → HasNone (uses_of slots.now) false first end }
{
    for number in first..end {
        if is_unused(slots, number) {
            return Some(number);
        }
    }
    None
}

/// Whether a slot from `first` to before `end` was left (`Slot::is_left`).
pub fn has_left<W: Work<Item = Input>>(slots: &[Slot<W>], first: u16, end: u16) -> bool {
    for place in first..end {
        let slot = slots.get(usize::from(place));
        if slot.is_some_and(|slot| slot.is_left()) {
            return true;
        }
    }
    false
}

/// Whether there is a slot with this number, and it never had a socket.
fn is_unused<W: Work<Item = Input>>(slots: &[Slot<W>], number: u16) -> bool
    ensures { (result ≡ true) ↔ (slice_get (uses_of slots.now) number ≡ Some false) }
{
    match slots.get(usize::from(number)) {
        Some(slot) => slot.is_unused(),
        None => false,
    }
}
