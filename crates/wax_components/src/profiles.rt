//! The profiles of a token, by what is before and after it.
ghost use Rattle.std.specs.Prelude.{◌≡◌};
ghost use Rattle.wax_token.specs.Syntax.{tree};
ghost use Rattle.wax_components.specs.inner.Profiles.{concatenated, empty_text, only, union};
ghost use Rattle.wax_components.specs.inner.Saturation.{either_profile, profiles, saturated};
ghost use Rattle.wax_components.specs.inner.Saturation.{saturated_beside, saturated_repeated};
ghost use Rattle.wax_components.specs.inner.TreeProfiles.{admits, admits_two, leaf_profile, less_two};

use crate::profile::Profile;

/// The profiles of a token in four contexts: with nothing around it (`alone`), with something only
/// after it (`first`), with something only before it (`last`), and with something on both sides
/// (`middle`). Of the leaves, only `**` depends on the context.
#[derive(Clone, Copy)]
pub struct Profiles {
    pub alone: Profile,
    pub first: Profile,
    pub last: Profile,
    pub middle: Profile,
}

// Returns whether a repetition with these bounds admits so many copies.
fn admits(copies: usize, lower: usize, upper: Option<usize>) -> bool
    ensures { result ≡ admits copies lower upper }
{
    match upper {
        None => lower <= copies,
        Some(upper) => lower <= copies && copies <= upper,
    }
}

// Returns whether a repetition with these bounds admits two copies, or some greater number.
fn admits_two(lower: usize, upper: Option<usize>) -> bool
    ensures { result ≡ admits_two lower upper }
{
    match upper {
        None => true,
        Some(upper) => 2 <= upper && lower <= upper,
    }
}

// Returns the greatest number of copies between the first and the last.
fn less_two(upper: Option<usize>) -> Option<usize>
    ensures { result ≡ less_two upper }
{
    match upper {
        None => None,
        Some(upper) => Some(upper.saturating_sub(2)),
    }
}

/// Which numbers of copies a repetition admits, and the profile of the copies between the first and
/// the last.
#[derive(Clone, Copy)]
struct Copies {
    none: bool,
    one: bool,
    more: bool,
    between: Profile,
}

impl Copies {
    /// Returns the profile of all admitted numbers of copies: none, one, or a first, those between
    /// and a last.
    fn profile(self, whole: Profile, first: Profile, last: Profile) -> Profile
        ensures { result ≡ union (only self.none empty_text) (union (only self.one whole)
            (only self.more (saturated (concatenated first (saturated (concatenated self.between last)))))) }
    {
        let many = first.then(self.between.then(last));
        let some = whole.only(self.one).union(many.only(self.more));
        Profile::empty_text().only(self.none).union(some)
    }
}

impl Profiles {
    /// Creates profiles that don't depend on the context.
    pub fn everywhere(profile: Profile) -> Profiles
        ensures { result ≡ profiles (λ before after. profile) }
    {
        Profiles {
            alone: profile,
            first: profile,
            last: profile,
            middle: profile,
        }
    }

    pub fn union(self, other: Profiles) -> Profiles
        ensures { result ≡ profiles (either_profile self other) }
    {
        Profiles {
            alone: self.alone.union(other.alone),
            first: self.first.union(other.first),
            last: self.last.union(other.last),
            middle: self.middle.union(other.middle),
        }
    }

    /// Returns the profiles of a token followed by another. Each is beside the other.
    pub fn then(self, other: Profiles) -> Profiles
        ensures { result ≡ profiles (saturated_beside self other) }
    {
        Profiles {
            alone: self.first.then(other.last),
            first: self.first.then(other.middle),
            last: self.middle.then(other.last),
            middle: self.middle.then(other.middle),
        }
    }

    /// Returns the profiles of `lower` to `upper` copies, each with the others around it.
    pub fn repeated(self, lower: usize, upper: Option<usize>) -> Profiles
        ensures { result ≡ profiles (saturated_repeated self lower upper) }
    {
        let copies = Copies {
            none: admits(0, lower, upper),
            one: admits(1, lower, upper),
            more: admits_two(lower, upper),
            between: self
                .middle
                .power_range(lower.saturating_sub(2), less_two(upper)),
        };
        Profiles {
            alone: copies.profile(self.alone, self.first, self.last),
            first: copies.profile(self.first, self.first, self.middle),
            last: copies.profile(self.last, self.middle, self.last),
            middle: copies.profile(self.middle, self.middle, self.middle),
        }
    }

    /// Returns the profiles of `**`, which are written out by hand.
    pub fn tree_wildcard(has_root: bool) -> Profiles
        ensures { result ≡ profiles (leaf_profile (tree has_root)) }
    {
        let nothing = Some((0, Some(0)));
        let some = Some((1, None));
        let surrounded = Profile {
            nothing: None,
            bare: None,
            ending: None,
            beginning: None,
            enclosed: some,
        };
        let at_end = Profile {
            nothing,
            bare: None,
            ending: None,
            beginning: some,
            enclosed: some,
        };
        if has_root {
            Profiles {
                alone: Profile {
                    nothing: None,
                    bare: None,
                    ending: None,
                    beginning: some,
                    enclosed: some,
                },
                first: surrounded,
                last: at_end,
                middle: surrounded,
            }
        } else {
            Profiles {
                alone: Profile {
                    nothing,
                    bare: Some((0, None)),
                    ending: some,
                    beginning: some,
                    enclosed: some,
                },
                first: Profile {
                    nothing,
                    bare: None,
                    ending: some,
                    beginning: None,
                    enclosed: some,
                },
                last: at_end,
                middle: surrounded,
            }
        }
    }
}
