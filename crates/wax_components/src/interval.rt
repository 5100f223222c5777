//! Intervals: the least and the greatest number of a set.
ghost use Rattle.std.specs.Prelude.{◌≡◌, min};
ghost use Rattle.wax_components.specs.Depth.{saturated_bound, usize_max};
ghost use Rattle.wax_components.specs.inner.Intervals.{bound_sum, exceeds_zero, greater_bound, hull};
ghost use Rattle.wax_components.specs.inner.Intervals.{interval_sum, saturated_interval, unbounded};
ghost use Rattle.wax_components.specs.inner.Saturation.{in_words, no_components, saturated_component_bound};
ghost use Rattle.wax_components.specs.inner.Saturation.{saturated_components, u128_max};

/// The least and the greatest number of a set. The greatest is `None` if the set has none, and the
/// interval is `None` if the set is empty.
pub type Interval = Option<(u128, Option<u128>)>;

fn greater_bound(left: Option<u128>, right: Option<u128>) -> Option<u128>
    ensures { result ≡ greater_bound left right }
{
    match left {
        None => None,
        Some(l) => match right {
            None => None,
            Some(r) => Some(l.max(r)),
        },
    }
}

fn bound_sum(left: Option<u128>, right: Option<u128>) -> Option<u128>
    ensures { result ≡ saturated_bound u128_max (bound_sum left right) }
{
    match left {
        None => None,
        Some(l) => match right {
            None => None,
            Some(r) => Some(l.saturating_add(r)),
        },
    }
}

/// Returns the interval of the union of two sets.
pub fn hull(left: Interval, right: Interval) -> Interval
    ensures { result ≡ hull left right }
{
    match left {
        None => right,
        Some(l) => match right {
            None => Some(l),
            Some(r) => Some((l.0.min(r.0), greater_bound(l.1, r.1))),
        },
    }
}

/// Returns the interval of all sums of a number of one set and a number of the other.
pub fn interval_sum(left: Interval, right: Interval) -> Interval
    ensures { result ≡ saturated_interval u128_max (interval_sum left right) }
{
    match left {
        None => None,
        Some(l) => match right {
            None => None,
            Some(r) => Some((l.0.saturating_add(r.0), bound_sum(l.1, r.1))),
        },
    }
}

pub fn exceeds_zero(interval: Interval) -> bool
    ensures { result ≡ exceeds_zero interval }
{
    match interval {
        None => false,
        Some(i) => match i.1 {
            None => true,
            Some(greatest) => greatest > 0,
        },
    }
}

pub fn unbounded(interval: Interval) -> Interval
    ensures { result ≡ unbounded interval }
{
    match interval {
        None => None,
        Some(i) => Some((i.0, None)),
    }
}

fn saturated_component_bound(greatest: Option<u128>, ends: u128) -> Option<u128>
    ensures { result ≡ saturated_component_bound ends greatest }
{
    match greatest {
        None => None,
        Some(n) => Some(n.saturating_add(1).saturating_sub(ends)),
    }
}

/// Converts numbers of `/` to numbers of components. `ends` of the `/` are at an end of the text
/// and don't separate components.
pub fn saturated_components(slashes: Interval, ends: u128) -> Interval
    ensures { result ≡ saturated_components ends slashes }
{
    match slashes {
        None => None,
        Some(i) => Some((
            i.0.saturating_add(1).saturating_sub(ends),
            saturated_component_bound(i.1, ends),
        )),
    }
}

/// Returns the numbers of components of the empty text, if the set has it.
pub fn no_components(slashes: Interval) -> Interval
    ensures { result ≡ no_components slashes }
{
    match slashes {
        None => None,
        Some(_) => Some((0, Some(0))),
    }
}

fn word(number: u128) -> usize
    ensures { result ≡ min number usize_max }
{
    if number > usize::MAX as u128 {
        usize::MAX
    } else {
        number as usize
    }
}

fn bound_in_words(greatest: Option<u128>) -> Option<usize>
    ensures { result ≡ saturated_bound usize_max greatest }
{
    match greatest {
        None => None,
        Some(n) => Some(word(n)),
    }
}

/// Converts both numbers to 64 bits. A greater one becomes `usize::MAX`; the empty set becomes 0 to
/// 0.
pub fn in_words(interval: Interval) -> (usize, Option<usize>)
    ensures { result ≡ in_words interval }
{
    match interval {
        None => (0, Some(0)),
        Some(i) => (word(i.0), bound_in_words(i.1)),
    }
}
