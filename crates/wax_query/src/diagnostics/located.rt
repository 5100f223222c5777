//! Errors with a place in the expression, and places with labels.
ghost use Rattle.std.specs.Prelude.{◌≡◌, ◌++◌, ℕ, IfOk, None, Option, Some, map};
ghost use Rattle.wax_query.specs.Labels.{AreLabels, all_labels, here, seen, spans_of, split_some};

use super::{NoMemory, Span};
use std::alloc::{AllocError, Global};
use std::fmt::{self, Display, Formatter};
use std::marker::Model;

/// An error at a place of an expression. Its `Display` form says what is wrong there.
pub trait LocatedError: Display {
    ghost span_of: { Self → ℕ × ℕ };

    /// Returns the place of the error in the expression, in bytes.
    fn span(&self) -> Span
        ensures { result ≡ span_of self.now };
}

type Labels = Vec<(&'static str, Span)>;

/// The places that explain an error: one, or two that don't adjoin.
#[derive(Clone, Copy, Debug)]
pub enum CorrelatedSpan {
    Contiguous(Span),
    Split(Span, Span),
}

impl CorrelatedSpan {
    /// Returns `Split` if there is a left place, and otherwise `Contiguous` with the right one.
    pub fn split_some(left: Option<Span>, right: Span) -> Self
        ensures { result ≡ split_some left right }
    {
        match left {
            Some(left) => CorrelatedSpan::Split(left, right),
            None => CorrelatedSpan::Contiguous(right),
        }
    }

    /// Returns each place, from left to right, with the label `here`.
    pub fn labels(&self, alloc: Global) -> Result<Vec<(&'static str, Span)>, NoMemory>
        ensures { IfOk result (λ ls. AreLabels ls.items (map here (spans_of self.now))) }
    {
        Ok(self.added_to(Vec::new(alloc))?)
    }

    /// Appends the labelled places to `labels`.
    fn added_to(&self, mut labels: Labels) -> Result<Labels, AllocError>
        ensures { IfOk result (λ ls.
            map seen ls.items ≡ map seen labels.entry.items ++ map here (spans_of self.now)) }
    {
        match *self {
            CorrelatedSpan::Contiguous(span) => {
                labels.push(("here", span))?;
                Ok(labels)
            }
            CorrelatedSpan::Split(left, right) => {
                labels.push(("here", left))?;
                labels.push(("here", right))?;
                Ok(labels)
            }
        }
    }
}

impl From<Span> for CorrelatedSpan {
    ghost use Rattle.wax_query.specs.declared.diagnostics.located.CorrelatedSpan.TheVariants.{Contiguous};

    ghost from_gives = { λ s c. c ≡ Contiguous s };

    fn from(span: Span) -> Self {
        CorrelatedSpan::Contiguous(span)
    }
}

/// A place with a label, and the places that explain it. Its `Display` form is the label. Contracts
/// see the label as its bytes.
#[derive(Clone, Debug, Drop)]
pub struct CompositeSpan {
    label: &'static str,
    span: Span,
    correlated: Option<CorrelatedSpan>,
}

impl Model for CompositeSpan {
    ghost use Rattle.wax_query.specs.Labels.{Composite};

    ghost Value = { Composite };

    ghost view = { λ c. record { label = c.label.now; span = c.span; correlated = c.correlated } };
}

impl CompositeSpan {
    /// Creates a place that no other place explains.
    pub fn spanned(label: &'static str, span: Span) -> Self
        ensures { result ≡ record { label = label.now; span = span; correlated = None } }
    {
        CompositeSpan {
            label,
            span,
            correlated: None,
        }
    }

    /// Creates a place that one or two others explain.
    pub fn correlated(label: &'static str, span: Span, correlated: CorrelatedSpan) -> Self
        ensures { result ≡ record { label = label.now; span = span; correlated = Some correlated } }
    {
        CompositeSpan {
            label,
            span,
            correlated: Some(correlated),
        }
    }

    /// Returns the label of the place itself.
    pub fn label(&self) -> &'static str
        ensures { result.now ≡ self.now.label }
    {
        self.label
    }

    /// Returns the label with its span, and then the label `here` with each place that explains it.
    pub fn labels(&self, alloc: Global) -> Result<Vec<(&'static str, Span)>, NoMemory>
        ensures { IfOk result (λ ls. AreLabels ls.items (all_labels self.now)) }
    {
        Ok(self.listed(alloc)?)
    }

    fn listed(&self, alloc: Global) -> Result<Labels, AllocError>
        ensures { IfOk result (λ ls. map seen ls.items ≡ all_labels self.now) }
    {
        let mut labels = Vec::new(alloc);
        labels.push((self.label, self.span))?;
        match &self.correlated {
            None => Ok(labels),
            Some(correlated) => correlated.added_to(labels),
        }
    }
}

impl Display for CompositeSpan {
    ghost output = { λ c. Some c.label };

    fn fmt<W: fmt::Write>(&self, f: &mut Formatter<W>) -> fmt::Result {
        Display::fmt(self.label, f)
    }
}

impl LocatedError for CompositeSpan {
    ghost span_of = { λ c. c.span };

    fn span(&self) -> Span {
        self.span
    }
}
