ghost use Rattle.std.specs.Prelude.{◌≡◌, ◌^◌, ◌<◌, ◌≤◌, ◌⊎◌, length, All, Any, Err, IfErr, IfOk, IsOk, IsOkUnless, MatchResult};
ghost use Rattle.cb_base.specs.declared.fault.Fault.TheVariants.{BadIndex, Memory};
ghost use Rattle.cb_compact.specs.Differences.{Rise, differences, sums};

use cb_base::Fault;
use std::alloc::Global;

/// Returns rising indexes as differences (BIP 152): the first index itself, then each index less
/// the one before it, less 1.
///
/// Fails only with `Fault::Memory`. An empty list never fails.
pub fn differ(alloc: Global, indexes: &[u64]) -> Result<Vec<u64>, Fault>
    requires { Rise 0 (2 ^ 64) indexes.now }
    ensures exact { IfOk result (λ list. list.items ≡ differences 0 indexes.now) }
    ensures memory { IsOkUnless result Memory }
    ensures unpaid { length indexes.now ≡ 0 → IsOk result }
{
    let Some((first, others)) = indexes.split_first() else {
        return Ok(Vec::new(alloc));
    };
    let mut list = Vec::with_capacity(alloc, indexes.len())?;
    list.push(*first)?;
    let mut before = *first;
    for index in others {
        list.push(*index - before - 1)?;
        before = *index;
    }
    Ok(list)
}

/// Checks that each index is below the total, else fails with `Fault::BadIndex`. It allocates
/// nothing.
fn check_sums(differences: &[u64], total: u64) -> Result<(), Fault>
    ensures { MatchResult result (λ _. All (λ index. index < total) (sums 0 differences.now))
        (λ fault. (fault ≡ BadIndex) × Any (λ index. total ≤ index) (sums 0 differences.now)) }
{
    let mut least: u64 = 0;
    for difference in differences {
        match least.checked_add(*difference) {
            Some(index) if index < total => least = index + 1,
            _ => return Err(Fault::BadIndex),
        }
    }
    Ok(())
}

/// Returns the indexes that these differences stand for (BIP 152). They rise, and each is below the
/// total.
///
/// Fails with `Fault::BadIndex` exactly if an index is at or above the total, or above 64 bits.
/// Otherwise it fails only with `Fault::Memory`. An empty list never fails.
pub fn undiffer(alloc: Global, differences: &[u64], total: u64) -> Result<Vec<u64>, Fault>
    ensures found { IfOk result (λ indexes. (indexes.items ≡ sums 0 differences.now)
        × All (λ index. index < total) (sums 0 differences.now)) }
    ensures refused { IfErr result
        (λ fault. ((fault ≡ Memory) × All (λ index. index < total) (sums 0 differences.now))
        ⊎ ((fault ≡ BadIndex) × Any (λ index. total ≤ index) (sums 0 differences.now))) }
    ensures unpaid { length differences.now ≡ 0 → IsOk result }
{
    check_sums(differences, total)?;
    let mut indexes = Vec::with_capacity(alloc, differences.len())?;
    let mut least = 0;
    for difference in differences {
        let index = least + *difference;
        indexes.push(index)?;
        least = index + 1;
    }
    Ok(indexes)
}
