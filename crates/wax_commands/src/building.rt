//! Globs and filters that are built from the arguments.
ghost use Rattle.std.specs.Fn.{FnReturnsAt};
ghost use Rattle.std.specs.Prelude.{◌≡◌, ◌≢◌, ◌⊎◌, ◌∷◌, ◌++◌, [], List, chars, map, IfSome, IfNone, IfOk};
ghost use Rattle.std.specs.Prelude.{IfErr, OnOk, IsSome};
ghost use Rattle.wax.specs.Headline.{IsGlob};
ghost use Rattle.wax_exclude.specs.{GlobRequests.AreRulesOf, Ignored.Line};
ghost use Rattle.wax_exclude.specs.Wanted.{Filter, not_ignored, not_meant};
ghost use Rattle.wax_token.specs.{Reads.Span, Syntax.Tree};
ghost use Rattle.wax_walk.specs.{Candidates.Candidate, Given.Mark};
ghost use Rattle.wax_command_line.specs.Commands.{SayEach, WalkOption as AskedOption};
ghost use Rattle.wax_command_line.specs.WalkArguments.{asked_by};
ghost use Rattle.wax_commands.specs.{Files.{IsListIn, IsUnlisted}, Refused.IsRefused};
ghost use Rattle.wax_commands.specs.Streams.{SaysNoMemory, stream_of};
ghost use Rattle.wax_commands.specs.Walked.{AreAskedBy, AreAskedByAll, HasRefused, IsNoPattern, IsNotOf};
ghost use Rattle.wax_commands.specs.Walked.{IsRefusedOption};

use crate::faults::say_no_memory;
use crate::files::{FileFault, list_in};
use std::alloc::{AllocFailed, Global};
use std::io::Write;
use thiserror::Error;
use wax::walk::WalkFilter;
use wax::{BuildError, Counted, Glob};
use wax_command_line::{WalkOption, next_option};
use wax_walk::Exclude;

/// Why a filter of a walk wasn't built.
#[derive(Debug, Drop, Error)]
pub enum FilterFault<'w> {
    /// An expression wasn't built.
    #[error("{0}")]
    Pattern(BuildError),
    /// The glob of a line of an ignore list wasn't built (21).
    #[error("{file}:{line}: {error}")]
    BadLine {
        file: &'w str,
        line: usize,
        error: BuildError,
    },
    /// A file can't be read (18).
    #[error("{0}: read failed")]
    ReadFailed(&'w str),
    /// A file isn't UTF-8 (22).
    #[error("{0}: not text")]
    NotText(&'w str),
    /// Allocation failed (10).
    #[error("no memory")]
    Memory,
}

impl<T: Drop> From<AllocFailed<T>> for FilterFault<'_> {
    ghost use Rattle.std.specs.Prelude.{◌≡◌};
    ghost use Rattle.wax_commands.specs.declared.building.FilterFault.TheVariants.{Memory};

    ghost from_gives = { λ _ fault. fault ≡ Memory };

    fn from(_: AllocFailed<T>) -> Self {
        FilterFault::Memory
    }
}

/// Builds a glob. If it can't be built, writes the error to `faults` and returns `None`.
pub fn built<'e, F: Write>(
    alloc: Global,
    expression: &'e str,
    faults: &mut Counted<F>,
) -> Option<Glob<'e>>
    ensures some { IfSome result (IsGlob (chars expression.now)) }
    ensures none { IfNone result (IsRefused expression.now
        ⊎ SaysNoMemory (stream_of F.contents faults.old) (stream_of F.contents faults.new)) }
    ensures quiet { IsSome result → faults.new ≡ faults.old }
{
    match Glob::new(alloc, expression) {
        Ok(glob) => Some(glob),
        Err(BuildError::Memory) => {
            say_no_memory(faults);
            None
        }
        Err(error) => {
            let _ = writeln!(faults, "globs: {error}");
            None
        }
    }
}

/// Builds the filters that the options of a walk ask for, in order. If one can't be built, writes
/// the error to `faults` and returns `None`.
pub fn built_filters<B, F>(
    alloc: Global,
    options: &[Option<String>],
    read: &B,
    faults: &mut Counted<F>,
) -> Option<Vec<WalkFilter>>
where
    B: Fn(&str) -> Result<Vec<u8>, FileFault>,
    F: Write,
    requires { B.IsAlwaysCallable read.now }
    ensures some { IfSome result (λ filters. (asked : List AskedOption) → SayEach options.now asked
        → (xs : List (Filter Span)) × AreAskedByAll (FnReturnsAt B.Fn read.now) asked xs
        × AreRulesOf xs (map ⟦<WalkFilter as Exclude>⟧.rule filters.items)) }
    ensures none { IfNone result (((asked : List AskedOption) → SayEach options.now asked
        → HasRefused (FnReturnsAt B.Fn read.now) asked)
        ⊎ SaysNoMemory (stream_of F.contents faults.old) (stream_of F.contents faults.new)) }
    ensures quiet { IsSome result → faults.new ≡ faults.old }
{
    match filters_of(alloc, options, read) {
        Ok(filters) => Some(filters),
        Err(FilterFault::Memory) => {
            say_no_memory(faults);
            None
        }
        Err(fault) => {
            let _ = writeln!(faults, "globs: {fault}");
            None
        }
    }
}

// Builds the filters in order. The first error ends it.
fn filters_of<'w, B>(
    alloc: Global,
    options: &'w [Option<String>],
    read: &B,
) -> Result<Vec<WalkFilter>, FilterFault<'w>>
where
    B: Fn(&str) -> Result<Vec<u8>, FileFault>,
    requires { B.IsAlwaysCallable read.now }
    ensures ok { IfOk result (λ filters. (asked : List AskedOption) → SayEach options.now asked
        → (xs : List (Filter Span)) × AreAskedByAll (FnReturnsAt B.Fn read.now) asked xs
        × AreRulesOf xs (map ⟦<WalkFilter as Exclude>⟧.rule filters.items)) }
    ensures err { IfErr result (λ fault. fault ≢ FilterFault.Memory → (asked : List AskedOption)
        → SayEach options.now asked → HasRefused (FnReturnsAt B.Fn read.now) asked) }
{
    let mut filters = Vec::new(alloc);
    let mut rest = options;
    while let Some((option, after)) = next_option(rest) {
        add_filter(alloc, option, read, &mut filters)?;
        rest = after;
    }
    Ok(filters)
}

// Adds the filter of an option. The options that set depths have none.
fn add_filter<'w, B>(
    alloc: Global,
    option: WalkOption<'w>,
    read: &B,
    filters: &mut Vec<WalkFilter>,
) -> Result<(), FilterFault<'w>>
where
    B: Fn(&str) -> Result<Vec<u8>, FileFault>,
    requires { B.IsAlwaysCallable read.now }
    ensures ok { OnOk result ((xs : List (Filter Span)) × (rules : List (Candidate → Mark))
        × AreAskedBy (FnReturnsAt B.Fn read.now) (asked_by option.entry) xs × AreRulesOf xs rules
        × (map ⟦<WalkFilter as Exclude>⟧.rule filters.new.items
        ≡ map ⟦<WalkFilter as Exclude>⟧.rule filters.old.items ++ rules)) }
    ensures err { IfErr result (λ fault. fault ≢ FilterFault.Memory
        → IsRefusedOption (FnReturnsAt B.Fn read.now) (asked_by option.entry)) }
{
    match option {
        WalkOption::Not(expression) => add_pattern(alloc, expression, filters),
        WalkOption::Ignore(file) => add_list(alloc, file, read, filters),
        WalkOption::Min(_) => Ok(()),
        WalkOption::Max(_) => Ok(()),
    }
}

fn add_pattern<'w>(
    alloc: Global,
    expression: &'w str,
    filters: &mut Vec<WalkFilter>,
) -> Result<(), FilterFault<'w>>
    ensures ok { OnOk result ((t : Tree Span) × (rules : List (Candidate → Mark)) × IsNotOf expression.now t
        × AreRulesOf (not_meant t ∷ []) rules
        × (map ⟦<WalkFilter as Exclude>⟧.rule filters.new.items
        ≡ map ⟦<WalkFilter as Exclude>⟧.rule filters.old.items ++ rules)) }
    ensures err { IfErr result (λ fault. fault ≢ FilterFault.Memory → IsNoPattern expression.now) }
{
    match WalkFilter::not(alloc, expression) {
        Ok(filter) => {
            filters.push(filter)?;
            Ok(())
        }
        Err(BuildError::Memory) => Err(FilterFault::Memory),
        Err(error) => Err(FilterFault::Pattern(error)),
    }
}

fn add_list<'w, B>(
    alloc: Global,
    file: &'w str,
    read: &B,
    filters: &mut Vec<WalkFilter>,
) -> Result<(), FilterFault<'w>>
where
    B: Fn(&str) -> Result<Vec<u8>, FileFault>,
    requires { B.IsAlwaysCallable read.now }
    ensures ok { OnOk result ((lines : List (Line Span)) × (rules : List (Candidate → Mark))
        × IsListIn (FnReturnsAt B.Fn read.now) file.now lines × AreRulesOf (not_ignored lines ∷ []) rules
        × (map ⟦<WalkFilter as Exclude>⟧.rule filters.new.items
        ≡ map ⟦<WalkFilter as Exclude>⟧.rule filters.old.items ++ rules)) }
    ensures err { IfErr result (λ fault. fault ≢ FilterFault.Memory
        → IsUnlisted (FnReturnsAt B.Fn read.now) file.now) }
{
    let list = list_in(alloc, file, read)?;
    filters.push(WalkFilter::ignore(list))?;
    Ok(())
}
