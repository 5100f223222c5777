//! How far a walk goes: the depths of what it yields, and how many items it takes.
ghost use Rattle.std.specs.Prelude.{◌≡◌, ℕ, Option, Some, MatchOption, min, max};
ghost use Rattle.std.specs.Int.NonZero.{non_zero_usize_get};
ghost use Rattle.wax_tree.specs.Depths.{HasBounds, IsPast, IsUnbounded, IsUnboundedAt, behavior_at, greatest};
ghost use Rattle.wax_tree.specs.Depths.{least, no_bound, raised};
ghost use Rattle.wax_tree.specs.declared.behavior.DepthBehavior.TheVariants.{Unbounded, MinMax};
ghost use Rattle.wax_query.specs.Ranges.{bounds};

use std::num::NonZeroUsize;
use wax_query::query::DepthVariance;

/// Depths of at least this number, which isn't 0.
#[derive(Clone, Copy, Debug, Eq, PartialEq)]
pub struct DepthMin(pub NonZeroUsize);

impl DepthMin {
    /// Builds the depths of at least `min`; all depths if it is 0.
    pub fn from_min_or_unbounded(min: usize) -> DepthBehavior
        ensures least { least result ≡ min }
        ensures greatest { greatest result ≡ no_bound }
    {
        match NonZeroUsize::new(min) {
            Some(min) => DepthBehavior::Min(DepthMin(min)),
            None => DepthBehavior::Unbounded,
        }
    }
}

impl From<NonZeroUsize> for DepthMin {
    ghost from_gives = { λ x r. r ≡ record { 0 = x } };

    fn from(min: NonZeroUsize) -> Self {
        DepthMin(min)
    }
}

impl From<DepthMin> for NonZeroUsize {
    ghost from_gives = { λ x r. r ≡ x.0 };

    fn from(min: DepthMin) -> Self {
        min.0
    }
}

impl TryFrom<usize> for DepthMin {
    ghost use Rattle.std.specs.{Prelude.MatchResult, Int.NonZero.non_zero_usize_get};

    type Error = ();

    ghost try_from_gives = { λ n r. MatchResult r (λ d. non_zero_usize_get d.0 ≡ n) (λ _. n ≡ 0) };

    fn try_from(min: usize) -> Result<Self, ()> {
        match NonZeroUsize::new(min) {
            Some(min) => Ok(DepthMin(min)),
            None => Err(()),
        }
    }
}

/// Depths of at most this number. A folder at this depth isn't listed.
#[derive(Clone, Copy, Debug, Eq, PartialEq)]
pub struct DepthMax(pub usize);

impl From<usize> for DepthMax {
    ghost from_gives = { λ n r. r ≡ record { 0 = n } };

    fn from(max: usize) -> Self {
        DepthMax(max)
    }
}

impl From<DepthMax> for usize {
    ghost from_gives = { λ d r. r ≡ d.0 };

    fn from(max: DepthMax) -> Self {
        max.0
    }
}

/// Depths from `min`, which isn't 0, to `min` plus `extent`.
#[derive(Clone, Copy, Debug, Eq, PartialEq)]
pub struct DepthMinMax {
    pub min: NonZeroUsize,
    pub extent: usize,
}

impl DepthMinMax {
    /// Builds the depths from the lesser of `p` and `q` to the greater, both included. If the
    /// lesser is 0, these are the depths of at most the greater.
    pub fn from_depths_or_max(p: usize, q: usize) -> DepthBehavior
        ensures least { least result ≡ min p q }
        ensures greatest { greatest result ≡ Some (max p q) }
    {
        let (lesser, greater) = if p <= q { (p, q) } else { (q, p) };
        match NonZeroUsize::new(lesser) {
            Some(min) => DepthBehavior::MinMax(DepthMinMax {
                min,
                extent: greater - lesser,
            }),
            None => DepthBehavior::Max(DepthMax(greater)),
        }
    }

    /// Returns the greatest depth, which is `usize::MAX` if the sum is past it.
    pub fn max(&self) -> NonZeroUsize
        ensures { Some (non_zero_usize_get result) ≡ greatest (MinMax self.now) }
    {
        self.min.saturating_add(self.extent)
    }
}

/// The depths of the entries that a walk yields. The depth of an entry is the number of names that
/// lead to it from the start.
#[derive(Clone, Copy, Debug, Eq, PartialEq)]
pub enum DepthBehavior {
    Unbounded,
    Min(DepthMin),
    Max(DepthMax),
    MinMax(DepthMinMax),
}

impl DepthBehavior {
    /// Builds the depths from `min` to `max`, each of which may be missing. Returns `None` if both
    /// are missing, if `min` is 0, or if `min` is above `max`.
    pub fn bounded<P, Q>(min: P, max: Q) -> Option<Self>
    where
        P: Into<Option<usize>>,
        Q: Into<Option<usize>>,
        ensures { (p : Option ℕ) × (q : Option ℕ) × P.converts min p × Q.converts max q × MatchOption result
            (IsUnbounded p q) (HasBounds p q) }
    {
        between(min.into(), max.into())
    }

    /// Adds the least number of components of `depth` to both numbers, and then builds depths as
    /// `bounded` does. Returns `None` if a sum is past 64 bits, too.
    pub fn bounded_at_depth_variance<P, Q>(min: P, max: Q, depth: DepthVariance) -> Option<Self>
    where
        P: Into<Option<usize>>,
        Q: Into<Option<usize>>,
        ensures { (p : Option ℕ) × (q : Option ℕ) × P.converts min p × Q.converts max q × MatchOption result
            (IsUnboundedAt (bounds depth).0 p q)
            (HasBounds (raised (bounds depth).0 p) (raised (bounds depth).0 q)) }
    {
        let (min, max) = (min.into(), max.into());
        let least = depth.lower();
        between(raised(min, least)?, raised(max, least)?)
    }

    /// Returns the least depth of an entry that the walk yields.
    pub fn least(&self) -> usize
        ensures { result ≡ least self.now }
    {
        match self {
            DepthBehavior::Unbounded | DepthBehavior::Max(_) => 0,
            DepthBehavior::Min(min) => min.0.get(),
            DepthBehavior::MinMax(bounds) => bounds.min.get(),
        }
    }

    /// Returns the greatest depth of an entry that the walk yields, or `None` if there is no bound.
    pub fn greatest(&self) -> Option<usize>
        ensures { result ≡ greatest self.now }
    {
        match self {
            DepthBehavior::Unbounded | DepthBehavior::Min(_) => None,
            DepthBehavior::Max(max) => Some(max.0),
            DepthBehavior::MinMax(bounds) => Some(bounds.max().get()),
        }
    }
}

impl Default for DepthBehavior {
    ghost use Rattle.wax_tree.specs.declared.behavior.DepthBehavior.TheVariants.{Unbounded};

    ghost is_default = { λ depth. depth ≡ Unbounded };

    /// Builds all depths.
    fn default() -> Self {
        Self::Unbounded
    }
}

impl From<DepthMin> for DepthBehavior {
    ghost use Rattle.wax_tree.specs.declared.behavior.DepthBehavior.TheVariants.{Min};

    ghost from_gives = { λ d r. r ≡ Min d };

    fn from(min: DepthMin) -> Self {
        DepthBehavior::Min(min)
    }
}

impl From<DepthMax> for DepthBehavior {
    ghost use Rattle.wax_tree.specs.declared.behavior.DepthBehavior.TheVariants.{Max};

    ghost from_gives = { λ d r. r ≡ Max d };

    fn from(max: DepthMax) -> Self {
        DepthBehavior::Max(max)
    }
}

impl From<DepthMinMax> for DepthBehavior {
    ghost use Rattle.wax_tree.specs.declared.behavior.DepthBehavior.TheVariants.{MinMax};

    ghost from_gives = { λ d r. r ≡ MinMax d };

    fn from(bounds: DepthMinMax) -> Self {
        DepthBehavior::MinMax(bounds)
    }
}

/// What a walk does at a link.
#[derive(Clone, Copy, Debug, Eq, PartialEq)]
pub enum LinkBehavior {
    /// Yields the link as an entry, and doesn't follow it.
    ReadFile,
}

impl Default for LinkBehavior {
    ghost use Rattle.wax_tree.specs.declared.behavior.LinkBehavior.TheVariants.{ReadFile};

    ghost is_default = { λ link. link ≡ ReadFile };

    /// Builds the behavior that yields a link as an entry.
    fn default() -> Self {
        Self::ReadFile
    }
}

/// How a walk goes: the depths of the entries that it yields, what it does at a link, and the
/// greatest number of items that it takes from folders. The start of the walk doesn't count as an
/// item.
#[derive(Clone, Copy, Debug, Eq, PartialEq)]
pub struct WalkBehavior {
    pub depth: DepthBehavior,
    pub link: LinkBehavior,
    pub budget: u32,
}

impl WalkBehavior {
    /// Replaces the depths, by a `DepthMin`, a `DepthMax`, a `DepthMinMax` or a `DepthBehavior`.
    pub fn with_depth<T>(self, depth: T) -> Self
    where
        T: Into<DepthBehavior>,
        ensures { (d : DepthBehavior) × T.converts depth d × (result ≡ record self { depth = d }) }
    {
        WalkBehavior {
            depth: depth.into(),
            ..self
        }
    }

    /// Replaces the budget, the greatest number of items that the walk takes from folders.
    pub fn with_budget(self, budget: u32) -> Self
        ensures { result ≡ record self { budget = budget } }
    {
        WalkBehavior { budget, ..self }
    }

    /// Replaces what the walk does at a link.
    pub fn with_link(self, link: LinkBehavior) -> Self
        ensures { result ≡ record self { link = link } }
    {
        WalkBehavior { link, ..self }
    }
}

impl Default for WalkBehavior {
    /// Builds the behavior of a walk of all depths with a budget of 4,294,967,295 items.
    fn default() -> Self
        ensures { result ≡ behavior_at Unbounded }
    {
        WalkBehavior {
            depth: DepthBehavior::Unbounded,
            link: LinkBehavior::ReadFile,
            budget: u32::MAX,
        }
    }
}

impl From<()> for WalkBehavior {
    ghost use Rattle.wax_tree.specs.Depths.{behavior_at};
    ghost use Rattle.wax_tree.specs.declared.behavior.DepthBehavior.TheVariants.{Unbounded};

    ghost from_gives = { λ _ r. r ≡ behavior_at Unbounded };

    fn from(_: ()) -> Self {
        WalkBehavior::default()
    }
}

impl From<DepthBehavior> for WalkBehavior {
    ghost use Rattle.wax_tree.specs.Depths.{behavior_at};

    ghost from_gives = { λ d r. r ≡ behavior_at d };

    fn from(depth: DepthBehavior) -> Self {
        WalkBehavior {
            depth,
            ..WalkBehavior::default()
        }
    }
}

impl From<DepthMin> for WalkBehavior {
    ghost use Rattle.wax_tree.specs.{Depths.behavior_at, declared.behavior.DepthBehavior.TheVariants.Min};

    ghost from_gives = { λ d r. r ≡ behavior_at (Min d) };

    fn from(min: DepthMin) -> Self {
        WalkBehavior::from(DepthBehavior::from(min))
    }
}

impl From<DepthMax> for WalkBehavior {
    ghost use Rattle.wax_tree.specs.{Depths.behavior_at, declared.behavior.DepthBehavior.TheVariants.Max};

    ghost from_gives = { λ d r. r ≡ behavior_at (Max d) };

    fn from(max: DepthMax) -> Self {
        WalkBehavior::from(DepthBehavior::from(max))
    }
}

impl From<DepthMinMax> for WalkBehavior {
    ghost use Rattle.wax_tree.specs.{Depths.behavior_at, declared.behavior.DepthBehavior.TheVariants.MinMax};

    ghost from_gives = { λ d r. r ≡ behavior_at (MinMax d) };

    fn from(bounds: DepthMinMax) -> Self {
        WalkBehavior::from(DepthBehavior::from(bounds))
    }
}

impl From<LinkBehavior> for WalkBehavior {
    ghost use Rattle.wax_tree.specs.Depths.{behavior_at};
    ghost use Rattle.wax_tree.specs.declared.behavior.DepthBehavior.TheVariants.{Unbounded};

    ghost from_gives = { λ l r. r ≡ record (behavior_at Unbounded) { link = l } };

    fn from(link: LinkBehavior) -> Self {
        WalkBehavior {
            link,
            ..WalkBehavior::default()
        }
    }
}

fn between(min: Option<usize>, max: Option<usize>) -> Option<DepthBehavior>
    ensures { MatchOption result (IsUnbounded min max) (HasBounds min max) }
{
    match (min, max) {
        (Some(min), None) => Some(DepthBehavior::Min(DepthMin(NonZeroUsize::new(min)?))),
        (None, Some(max)) => Some(DepthBehavior::Max(DepthMax(max))),
        (Some(min), Some(max)) if min <= max => Some(DepthBehavior::MinMax(DepthMinMax {
            min: NonZeroUsize::new(min)?,
            extent: max - min,
        })),
        _ => None,
    }
}

// Adds to a depth that may be missing. The outer `None` is an overflow, the inner one no depth.
fn raised(depth: Option<usize>, by: usize) -> Option<Option<usize>>
    ensures { MatchOption result (IsPast by depth) (λ sum. sum ≡ raised by depth) }
{
    match depth {
        None => Some(None),
        Some(depth) => Some(Some(depth.checked_add(by)?)),
    }
}
