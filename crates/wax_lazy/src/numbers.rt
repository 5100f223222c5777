//! Ascending lists of numbers.
ghost use Rattle.std.specs.{Prelude.{◌↔◌, ◌⊎◌, ℕ, Contains, IfOk}, List.Sorted.IsStrictlyIncreasing};

use std::alloc::AllocError;

/// Writes the numbers of two ascending lists into `merged`, ascending, each once. Takes time in
/// proportion to the lengths of both.
pub(crate) fn merge(
    one: &[usize],
    other: &[usize],
    merged: &mut Vec<usize>,
) -> Result<(), AllocError>
    requires one { IsStrictlyIncreasing one.now }
    requires other { IsStrictlyIncreasing other.now }
    ensures all { IfOk result (λ _. (number : ℕ)
        → Contains merged.new.items number ↔ (Contains one.now number ⊎ Contains other.now number)) }
    ensures ascending { IfOk result (λ _. IsStrictlyIncreasing merged.new.items) }
{
    merged.clear();
    let mut i = 0;
    let mut j = 0;
    while i < one.len() && j < other.len() {
        let left = one[i];
        let right = other[j];
        if left < right {
            merged.push(left)?;
            i += 1;
            continue;
        }
        if right < left {
            merged.push(right)?;
            j += 1;
            continue;
        }
        merged.push(left)?;
        i += 1;
        j += 1;
    }
    merged.extend_from_slice(&one[i..])?;
    merged.extend_from_slice(&other[j..])?;
    Ok(())
}
