ghost use Rattle.cb_c.specs.Giving.{AreGiven, IsGiven};

use crate::status::TOO_SMALL;

/// Gives a list to the caller: to the front of `out`, if it has room. `len` is what is needed.
pub(crate) fn give<T: Copy>(list: &[T], out: &mut [T], len: &mut usize) -> u32
    ensures { IsGiven list.now out.old out.new len.new result }
{
    *len = list.len();
    if out.len() < list.len() {
        return TOO_SMALL;
    }
    let (front, _rest) = out.split_at_mut(list.len());
    front.copy_from_slice(list);
    0
}

/// Gives two lists to the caller, if both have room.
pub(crate) fn give_both<A: Copy, B: Copy>(
    first: &[A],
    first_out: &mut [A],
    second: &[B],
    second_out: &mut [B],
) -> u32
    ensures { AreGiven first.now first_out.old first_out.new second.now second_out.old
        second_out.new result }
{
    if first_out.len() < first.len() || second_out.len() < second.len() {
        return TOO_SMALL;
    }
    let (front, _rest) = first_out.split_at_mut(first.len());
    front.copy_from_slice(first);
    let (front, _rest) = second_out.split_at_mut(second.len());
    front.copy_from_slice(second);
    0
}
