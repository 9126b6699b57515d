ghost use Rattle.std.specs.Prelude.{◌≡◌, ◌^◌, ◌<◌};
ghost use Rattle.cb_base.specs.CompactSize.{Gives};
ghost use Rattle.cb_block.specs.TxReading.{count_at};

use cb_base::{Cursor, Fault};

/// Reads the CompactSize count in front of a list whose items have at least `least` bytes each.
///
/// Fails with `Fault::NotShortest` if the count has a shorter encoding. Fails with
/// `Fault::Truncated` if bytes are missing, or if that many items can't fit in the bytes left. So
/// no memory is allocated for such a count. After an error the cursor may have advanced.
#[tactic(auto, unfolding(crate::specs::TxReading::count_at))]
pub fn read_count(cursor: &mut Cursor, least: u32) -> Result<usize, Fault>
    ensures { Gives (count_at least cursor.old) result cursor.new }
{
    let count = cursor.compact()?;
    if (cursor.left() as u128) < u128::from(count) * u128::from(least) {
        return Err(Fault::Truncated);
    }
    Ok(count as usize)
}
