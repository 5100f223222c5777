//! The result of a query about all matches of a glob.
ghost use Rattle.std.specs.Prelude.{◌≡◌, ◌≢◌, ◌↔◌, IsTrue, max, min};
ghost use Rattle.wax_query.specs.Whens.{certain_bool, certainty, greater, lesser, rank, when};
ghost use Rattle.wax_query.specs.declared.query.when.When.TheVariants.{Always, Never, Sometimes};

/// The result of a query about all paths that a glob matches: something is true for none, some or
/// all of them. The variants are ordered from `Never` to `Always`. Queries such as `has_root`
/// promise something only for `Always`.
#[derive(Clone, Copy, Debug, PartialEq, Eq, PartialOrd, Ord, Hash)]
pub enum When {
    Never,
    Sometimes,
    Always,
}

impl When {
    /// Returns the lesser of the two.
    pub fn and(self, other: Self) -> Self
        ensures lesser { result ≡ lesser self other }
        ensures order { rank result ≡ min (rank self) (rank other) }
    {
        self.min(other)
    }

    /// Returns the greater of the two.
    pub fn or(self, other: Self) -> Self
        ensures greater { result ≡ greater self other }
        ensures order { rank result ≡ max (rank self) (rank other) }
    {
        self.max(other)
    }

    /// Returns `self` if the two are equal, and `Sometimes` if they differ.
    pub fn certainty(self, other: Self) -> Self
        ensures common { result ≡ certainty self other }
        ensures either_way { result ≡ certainty other self }
        ensures same { self ≡ other → result ≡ self }
        ensures apart { self ≢ other → result ≡ Sometimes }
    {
        if self == other { self } else { When::Sometimes }
    }

    pub fn is_always(&self) -> bool
        ensures { IsTrue result ↔ (self.now ≡ Always) }
    {
        matches!(self, When::Always)
    }

    pub fn is_sometimes(&self) -> bool
        ensures { IsTrue result ↔ (self.now ≡ Sometimes) }
    {
        matches!(self, When::Sometimes)
    }

    pub fn is_never(&self) -> bool
        ensures { IsTrue result ↔ (self.now ≡ Never) }
    {
        matches!(self, When::Never)
    }

    /// Returns `true` for `Sometimes` and `Always`.
    pub fn is_maybe_true(&self) -> bool
        ensures { IsTrue result ↔ (self.now ≢ Never) }
    {
        !self.is_never()
    }

    /// Returns `true` for `Never` and `Sometimes`.
    pub fn is_maybe_false(&self) -> bool
        ensures { IsTrue result ↔ (self.now ≢ Always) }
    {
        !self.is_always()
    }
}

impl From<bool> for When {
    ghost from_gives = { λ b w. w ≡ when b };

    fn from(is_always: bool) -> Self {
        if is_always { When::Always } else { When::Never }
    }
}

/// `Some(true)` becomes `Always`, `Some(false)` becomes `Never`, and `None` becomes `Sometimes`.
impl From<Option<bool>> for When {
    ghost from_gives = { λ answer w. answer ≡ certain_bool w };

    fn from(answer: Option<bool>) -> Self {
        answer.map_or(When::Sometimes, When::from)
    }
}

/// `Always` becomes `Some(true)`, `Never` becomes `Some(false)`, and `Sometimes` becomes `None`.
impl From<When> for Option<bool> {
    ghost from_gives = { λ w answer. answer ≡ certain_bool w };

    fn from(when: When) -> Self {
        match when {
            When::Never => Some(false),
            When::Sometimes => None,
            When::Always => Some(true),
        }
    }
}
