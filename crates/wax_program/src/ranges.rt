//! Which characters a list of archetypes leaves.
ghost use Rattle.std.specs.{Prelude.{◌≡◌, ◌↔◌, IfOk, IsTrue}, List.Sorted.IsNonDecreasingBy};
ghost use Rattle.wax_program.specs.Onward.{LeavesOther};
ghost use Rattle.wax_program.specs.inner.Ranges.{IsLeastOutside, NumberRange, number_range_of, ranges_with};

use std::alloc::{AllocError, Global};
use wax_token::token::Archetype;

/// The numbers from the first one up to the second one, which isn't among them.
type NumberRange = (u32, u32);

/// The numbers below the greatest character that are no characters.
const SURROGATES: NumberRange = (0xD800, 0xE000);

/// Returns whether some character other than `/` is in none of the archetypes. Takes the time to
/// sort them.
pub fn leaves_other(alloc: Global, archetypes: &[Archetype]) -> Result<bool, AllocError>
    ensures { IfOk result (λ answer. IsTrue answer ↔ LeavesOther archetypes.now) }
{
    let mut ranges = ranges_of(alloc, archetypes)?;
    ranges.sort_unstable_by_key(|range| range.0);
    Ok(least_outside(&ranges) <= char::MAX as u32)
}

/// Returns the range of `/`, that of the numbers that are no characters, and those of the archetypes.
fn ranges_of(alloc: Global, archetypes: &[Archetype]) -> Result<Vec<NumberRange>, AllocError>
    ensures { IfOk result (λ ranges. ranges.items ≡ ranges_with archetypes.now) }
{
    let mut ranges = Vec::new(alloc);
    ranges.push(('/' as u32, '/' as u32 + 1))?;
    ranges.push(SURROGATES)?;
    for archetype in archetypes {
        ranges.push(number_range_of(archetype))?;
    }
    Ok(ranges)
}

/// Returns the numbers of the archetype, none if it is reversed.
fn number_range_of(archetype: &Archetype) -> NumberRange
    ensures { result ≡ number_range_of archetype.now }
{
    match archetype {
        Archetype::Character(c) => (*c as u32, *c as u32 + 1),
        Archetype::Range(low, high) => (*low as u32, *high as u32 + 1),
    }
}

/// Returns the least number that is in none of the ranges, which are sorted by their first numbers.
fn least_outside(ranges: &[NumberRange]) -> u32
    requires { IsNonDecreasingBy (λ (range : NumberRange). range.0) ranges.now }
    ensures { IsLeastOutside ranges.now result }
{
    let mut least = 0;
    for &(first, end) in ranges {
        if least < first {
            return least;
        }
        least = least.max(end);
    }
    least
}
