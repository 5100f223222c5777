//! How many `/` the texts of a set have, by whether they begin and end with one.
ghost use Rattle.std.specs.Prelude.{◌≡◌};
ghost use Rattle.wax_components.specs.inner.Intervals.{hull, interval_sum, saturated_interval};
ghost use Rattle.wax_components.specs.inner.Profiles.{concatenated, empty_text, has_slash, kleene_star};
ghost use Rattle.wax_components.specs.inner.Profiles.{no_text, only, power, power_range, unbounded_profile};
ghost use Rattle.wax_components.specs.inner.Profiles.{union};
ghost use Rattle.wax_components.specs.inner.Saturation.{in_words, saturated, saturated_depth, u128_max};

use crate::interval::{
    Interval, exceeds_zero, hull, in_words, interval_sum, no_components, saturated_components,
    unbounded,
};

/// The least and the greatest number of `/` of the texts of a set, for each of five shapes: the
/// empty text (`nothing`), no `/` at an end (`bare`), one only at the end (`ending`), one only at
/// the beginning (`beginning`), and one at both (`enclosed`, which `/` itself is).
#[derive(Clone, Copy)]
pub struct Profile {
    pub nothing: Interval,
    pub bare: Interval,
    pub ending: Interval,
    pub beginning: Interval,
    pub enclosed: Interval,
}

/// Returns the numbers of joined texts of one shape. Either the left part is empty and the right
/// one has the shape, or the reverse, or the left part begins like the shape and the right one ends
/// like it.
#[tactic(auto, using(crate::proofs::Intervals::hull_saturated))]
fn parts(
    no_left: Interval,
    right: Interval,
    left: Interval,
    no_right: Interval,
    first: Interval,
    last: Interval,
) -> Interval
    ensures { result ≡ saturated_interval u128_max
        (hull (interval_sum no_left right) (hull (interval_sum left no_right) (interval_sum first last))) }
{
    let one_part = hull(interval_sum(left, no_right), interval_sum(first, last));
    hull(interval_sum(no_left, right), one_part)
}

impl Profile {
    /// Returns the profile of the empty set.
    pub fn no_text() -> Profile
        ensures { result ≡ no_text }
    {
        Profile {
            nothing: None,
            bare: None,
            ending: None,
            beginning: None,
            enclosed: None,
        }
    }

    /// Returns the profile of the set of only the empty text.
    pub fn empty_text() -> Profile
        ensures { result ≡ empty_text }
    {
        Profile {
            nothing: Some((0, Some(0))),
            bare: None,
            ending: None,
            beginning: None,
            enclosed: None,
        }
    }

    /// Returns the profile if the condition holds, and otherwise that of the empty set.
    pub fn only(self, condition: bool) -> Profile
        ensures { result ≡ only condition self }
    {
        if condition { self } else { Profile::no_text() }
    }

    pub fn union(self, other: Profile) -> Profile
        ensures { result ≡ union self other }
    {
        Profile {
            nothing: hull(self.nothing, other.nothing),
            bare: hull(self.bare, other.bare),
            ending: hull(self.ending, other.ending),
            beginning: hull(self.beginning, other.beginning),
            enclosed: hull(self.enclosed, other.enclosed),
        }
    }

    /// Returns the profile of each text of one set followed by each text of the other.
    pub fn then(self, other: Profile) -> Profile
        ensures { result ≡ saturated (concatenated self other) }
    {
        let bare_first = hull(self.bare, self.ending);
        let slash_first = hull(self.beginning, self.enclosed);
        let bare_last = hull(other.bare, other.beginning);
        let slash_last = hull(other.ending, other.enclosed);
        let (no_left, no_right) = (self.nothing, other.nothing);
        Profile {
            nothing: interval_sum(no_left, no_right),
            bare: parts(
                no_left, other.bare, self.bare, no_right, bare_first, bare_last,
            ),
            ending: parts(
                no_left,
                other.ending,
                self.ending,
                no_right,
                bare_first,
                slash_last,
            ),
            beginning: parts(
                no_left,
                other.beginning,
                self.beginning,
                no_right,
                slash_first,
                bare_last,
            ),
            enclosed: parts(
                no_left,
                other.enclosed,
                self.enclosed,
                no_right,
                slash_first,
                slash_last,
            ),
        }
    }

    /// Returns the profile of `copies` copies, by repeated halving.
    #[tactic(auto, using(crate::proofs::Saturation::power_none))]
    pub fn power(self, copies: usize) -> Profile
        ensures { result ≡ saturated (power copies self) }
    {
        if copies == 0 {
            return Profile::empty_text();
        }
        let half = self.power(copies / 2);
        let even = half.then(half);
        if copies % 2 == 0 {
            even
        } else {
            self.then(even)
        }
    }

    fn has_slash(self) -> bool
        ensures { result ≡ has_slash self }
    {
        exceeds_zero(self.bare)
            || exceeds_zero(self.ending)
            || exceeds_zero(self.beginning)
            || exceeds_zero(self.enclosed)
    }

    fn unbounded(self) -> Profile
        ensures { result ≡ unbounded_profile self }
    {
        Profile {
            nothing: self.nothing,
            bare: unbounded(self.bare),
            ending: unbounded(self.ending),
            beginning: unbounded(self.beginning),
            enclosed: unbounded(self.enclosed),
        }
    }

    /// Returns the profile of zero or more copies. Two or fewer copies already have the least
    /// numbers; if a text has a `/`, more copies exceed every number.
    #[tactic(auto, using(crate::proofs::Saturation::star_then, crate::proofs::Saturation::star_else))]
    pub fn kleene_star(self) -> Profile
        ensures { result ≡ saturated (kleene_star self) }
    {
        let one = Profile::empty_text().union(self);
        let two = one.then(one);
        if self.has_slash() {
            two.unbounded()
        } else {
            two
        }
    }

    /// Returns the profile of `lower` to `upper` copies.
    #[tactic(auto, using(crate::proofs::Saturation::power_range_none))]
    pub fn power_range(self, lower: usize, upper: Option<usize>) -> Profile
        ensures { result ≡ saturated (power_range lower upper self) }
    {
        let least = self.power(lower);
        match upper {
            None => least.then(self.kleene_star()),
            Some(upper) => {
                if lower <= upper {
                    let one = Profile::empty_text().union(self);
                    least.then(one.power(upper - lower))
                } else {
                    Profile::no_text()
                }
            }
        }
    }

    /// Returns the least and the greatest number of components of the texts.
    pub fn components(self) -> (usize, Option<usize>)
        ensures { result ≡ in_words (saturated_depth self) }
    {
        let one_end = hull(
            saturated_components(self.beginning, 1),
            saturated_components(self.enclosed, 2),
        );
        let not_first = hull(saturated_components(self.ending, 1), one_end);
        let some = hull(saturated_components(self.bare, 0), not_first);
        in_words(hull(no_components(self.nothing), some))
    }
}
