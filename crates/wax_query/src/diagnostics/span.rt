//! Spans, and the types that have one.
ghost use Rattle.std.specs.{Prelude.{◌≡◌, ◌≤◌, ◌^◌, ◌⊎◌, ℕ, MatchOption, Option}, Borrow.sem};
ghost use Rattle.wax_query.specs.{Lending.LendsSpan, Spans.{IsUnion, end_of, span_union}};

/// A part of an expression: the offset of its first byte, and its length in bytes.
pub type Span = (usize, usize);

/// Operations on spans.
pub trait SpanExt: Sized {
    ghost union_gives: { Self → Self → Option Self → Type 0 };

    /// Returns the smallest span that contains both. Returns `None` if the end of one exceeds 64
    /// bits.
    fn union(self, other: Self) -> Option<Self>
        ensures { union_gives self other result };
}

impl SpanExt for Span {
    ghost union_gives = { λ s t r. MatchOption r ((2 ^ 64 ≤ end_of s) ⊎ (2 ^ 64 ≤ end_of t))
        (λ u. (u ≡ span_union s t) × IsUnion s t u) };

    fn union(self, other: Self) -> Option<Self> {
        let end = self
            .0
            .checked_add(self.1)?
            .max(other.0.checked_add(other.1)?);
        let start = self.0.min(other.0);
        Some((start, end - start))
    }
}

/// A type with a span.
pub trait Spanned {
    ghost span_of: { Self → ℕ × ℕ };

    /// The value with its span replaced.
    ghost with_span: { Self → ℕ × ℕ → Self };

    /// Returns the span of the value.
    fn span(&self) -> &Span
        ensures { result.now ≡ span_of self.now };

    /// Returns the span of the value, for changing it.
    fn span_mut(&mut self) -> &mut Span
        ensures* writes_back { sem 𝓛 (LendsSpan Self.row with_span self.entry result) }
        ensures value { result.now ≡ span_of self.old };

    /// Replaces the span by what `f` returns for it.
    fn map_span<F>(mut self, f: F) -> Self
    where
        Self: Sized,
        F: FnOnce(Span) -> Span,
        requires { F.pre f (span_of self) }
        ensures { (s : ℕ × ℕ) × F.post f (span_of self) s × (result ≡ with_span self s) }
    {
        let span = *self.span();
        *self.span_mut() = f(span);
        self
    }
}
