//! Places in an expression, and the two kinds of errors of a build.

ghost use Rattle.std.specs.Prelude.{◌≡◌};

use std::alloc::{AllocError, AllocFailed};
use thiserror::Error;

mod located;
mod span;

pub use located::{CompositeSpan, CorrelatedSpan, LocatedError};
pub use span::{Span, SpanExt, Spanned};

/// The error of a failed allocation (number 10).
#[derive(Clone, Copy, Debug, Error)]
#[error("no memory")]
pub struct NoMemory;

impl From<AllocError> for NoMemory {
    fn from(_: AllocError) -> Self {
        NoMemory
    }
}

impl<T: Drop> From<AllocFailed<T>> for NoMemory {
    fn from(_: AllocFailed<T>) -> Self {
        NoMemory
    }
}

/// Why a build failed: for the stated reason, or because an allocation failed (number 10).
#[derive(Debug, Drop, Error)]
#[error_bound(E: std::fmt::Display)]
pub enum Refusal<E> {
    /// The build failed for this reason.
    #[error("{0}")]
    Refused(E),
    /// An allocation failed.
    #[error("no memory")]
    Memory,
}

impl<E> From<AllocError> for Refusal<E> {
    ghost use Rattle.wax_query.specs.declared.diagnostics.Refusal.TheVariants.{Memory};

    ghost from_gives = { λ _ r. r ≡ Memory };

    fn from(_: AllocError) -> Self {
        Refusal::Memory
    }
}

impl<E> From<NoMemory> for Refusal<E> {
    ghost use Rattle.wax_query.specs.declared.diagnostics.Refusal.TheVariants.{Memory};

    ghost from_gives = { λ _ r. r ≡ Memory };

    fn from(_: NoMemory) -> Self {
        Refusal::Memory
    }
}
