//! Errors of a build.
ghost use Rattle.std.specs.Prelude.{◌≡◌, IfOk, chars, string_bytes};
ghost use Rattle.wax_rule.specs.{Refusals.IsRuleRefusal, Locations.error_labels};
ghost use Rattle.wax_rule.specs.{Numbers.{build_number, rule_number}, Drawn.picture as picture_of};
ghost use Rattle.wax_query.specs.Labels.{AreLabels};

use crate::error::drawing::picture;
use crate::rule::RuleError;
use std::alloc::{AllocFailed, Global};
use thiserror::Error;
use wax_facts::RuleErrorKind;
use wax_match::encode::CompileError;
use wax_parse::parse::ParseError;
use wax_query::diagnostics::{CompositeSpan, NoMemory, Refusal, Span};

/// Why a glob wasn't built.
#[derive(Clone, Debug, Drop, Error)]
pub enum BuildError {
    /// The expression doesn't spell a glob (1).
    #[error("{0}")]
    Parse(ParseError),
    /// The expression breaks a rule (2 to 8).
    #[error("{0}")]
    Rule(RuleError<'static>),
    /// The program would have more than 1,048,576 instructions (9).
    #[error("{0}")]
    Compile(CompileError),
    /// Allocation failed (10).
    #[error("no memory")]
    Memory,
}

impl BuildError {
    /// Returns the number of the error, from 1 to 10.
    pub fn number(&self) -> u8
        ensures { result ≡ build_number self.now }
    {
        match self {
            BuildError::Parse(_) => 1,
            BuildError::Rule(error) => number_of_rule(error.kind()),
            BuildError::Compile(_) => 9,
            BuildError::Memory => 10,
        }
    }

    /// Returns the labels of the error, each with its span in the expression. If the expression
    /// can't be parsed, this is `unexpected expression`. If it breaks a rule, these are the label
    /// of the place, and then `here` for each place that explains it. The errors 9 and 10 have
    /// none.
    pub fn labels(&self, alloc: Global) -> Result<Vec<(&'static str, Span)>, NoMemory>
        ensures { IfOk result (λ labels. AreLabels labels.items (error_labels self.now)) }
    {
        match self {
            BuildError::Parse(error) => {
                CompositeSpan::spanned("unexpected expression", error.place()).labels(alloc)
            }
            BuildError::Rule(error) => error.locations()[0].labels(alloc),
            BuildError::Compile(_) => Ok(Vec::new(alloc)),
            BuildError::Memory => Ok(Vec::new(alloc)),
        }
    }

    /// Draws the expression with its error: the expression on a line, and under it a line for each
    /// of `labels`, as `diagnostics::picture` does.
    pub fn picture(&self, alloc: Global, expression: &str) -> Result<String, NoMemory>
        ensures { IfOk result
            (λ text. string_bytes text ≡ picture_of (chars expression.now) (error_labels self.now)) }
    {
        let labels = self.labels(alloc)?;
        picture(alloc, expression, labels.as_slice())
    }
}

fn number_of_rule(kind: RuleErrorKind) -> u8
    ensures { result ≡ rule_number kind }
{
    match kind {
        RuleErrorKind::AdjacentBoundary => 2,
        RuleErrorKind::IncompatibleBounds => 3,
        RuleErrorKind::SingularTree => 4,
        RuleErrorKind::AdjacentZeroOrMore => 5,
        RuleErrorKind::RootedSubGlob => 6,
        RuleErrorKind::SingularZeroOrMore => 7,
        RuleErrorKind::OversizedInvariant => 8,
    }
}

impl From<Refusal<ParseError>> for BuildError {
    ghost use Rattle.std.specs.Prelude.{◌≡◌};
    ghost use Rattle.wax_rule.specs.Refusals.{parse_refusal};

    ghost from_gives = { λ refusal error. error ≡ parse_refusal refusal };

    fn from(refusal: Refusal<ParseError>) -> Self {
        match refusal {
            Refusal::Refused(error) => BuildError::Parse(error),
            Refusal::Memory => BuildError::Memory,
        }
    }
}

impl From<Refusal<CompileError>> for BuildError {
    ghost use Rattle.std.specs.Prelude.{◌≡◌};
    ghost use Rattle.wax_rule.specs.Refusals.{compile_refusal};

    ghost from_gives = { λ refusal error. error ≡ compile_refusal refusal };

    fn from(refusal: Refusal<CompileError>) -> Self {
        match refusal {
            Refusal::Refused(error) => BuildError::Compile(error),
            Refusal::Memory => BuildError::Memory,
        }
    }
}

impl From<NoMemory> for BuildError {
    ghost use Rattle.std.specs.Prelude.{◌≡◌};
    ghost use Rattle.wax_rule.specs.declared.error.build_error.BuildError.TheVariants.{Memory};

    ghost from_gives = { λ _ error. error ≡ Memory };

    fn from(_: NoMemory) -> Self {
        BuildError::Memory
    }
}

impl<T: Drop> From<AllocFailed<T>> for BuildError {
    ghost use Rattle.std.specs.Prelude.{◌≡◌};
    ghost use Rattle.wax_rule.specs.declared.error.build_error.BuildError.TheVariants.{Memory};

    ghost from_gives = { λ _ error. error ≡ Memory };

    fn from(_: AllocFailed<T>) -> Self {
        BuildError::Memory
    }
}

/// Converts the result of checking the rules into an error that owns a copy of the expression.
pub(crate) fn rule_refused(alloc: Global, refusal: Refusal<RuleError<'_>>) -> BuildError
    ensures { IsRuleRefusal refusal.entry result }
{
    match refusal {
        Refusal::Refused(error) => match error.into_owned(alloc) {
            Ok(error) => BuildError::Rule(error),
            Err(_) => BuildError::Memory,
        },
        Refusal::Memory => BuildError::Memory,
    }
}
