//! The capturing tokens of a glob.
ghost use Rattle.std.specs.Prelude.{◌≡◌};

use crate::diagnostics::Span;
use std::marker::Model;

/// A capturing token of a glob: the index of its capture, and its span in the expression. Contracts
/// see the two as a pair.
#[derive(Clone, Copy, Debug)]
pub struct CapturingToken {
    index: usize,
    span: Span,
}

impl Model for CapturingToken {
    ghost use Rattle.std.specs.Prelude.{ℕ};

    ghost Value = { ℕ × (ℕ × ℕ) };

    ghost view = { λ t. (t.index, t.span) };

    ghost inverse = { λ v. record { index = v.0; span = v.1 } };
}

impl CapturingToken {
    pub fn new(index: usize, span: Span) -> Self
        ensures { result ≡ (index, span) }
    {
        CapturingToken { index, span }
    }

    /// Returns the index of the token's capture. The first token has index 1, since capture 0 is
    /// the whole path.
    pub fn index(&self) -> usize
        ensures { result ≡ self.now.0 }
    {
        self.index
    }

    /// Returns the token's span in the expression, in bytes.
    pub fn span(&self) -> Span
        ensures { result ≡ self.now.1 }
    {
        self.span
    }
}
