//! Patterns of a set that match one path.
ghost use Rattle.std.specs.Prelude.{◌≡◌, ◌+◌, ◌<◌, ◌≤◌, IfOk, OnOk, length};
ghost use Rattle.wax_set.specs.{Conflicts.AreConflicts, Sets.MeansText};
ghost use Rattle.wax_set.specs.inner.Conflicts.{AreCompiled, AreConflictsBefore, IsCompiledPattern};
ghost use Rattle.wax_set.specs.inner.Conflicts.{IsPairDecided, set_tree};
ghost use Rattle.wax_token.specs.Cost.{program_length};

use crate::set::edges::Edges;
use crate::set::{Any, branches_of};
use std::alloc::Global;
use wax_compare::{Comparison, Texts, Wanted, find_text};
use wax_match::encode::{CompiledProgram, compile_token};
use wax_query::diagnostics::{NoMemory, Refusal};
use wax_token::token::{ExpressionMetadata, Sides, Token};

/// Two patterns of a set that both match some plain path, or of which that isn't known.
#[derive(Debug, Drop)]
pub struct Conflict {
    /// The index of the first pattern, from 0.
    pub first: usize,
    /// The index of the second pattern, which comes after the first.
    pub second: usize,
    /// A shortest plain path that both match, or `None` if the search reached its limit.
    pub path: Option<String>,
}

/// The patterns of a set, to be compared with one another.
#[derive(Drop)]
struct ComparedPatterns<'a, 't> {
    alloc: Global,
    branches: &'a [Token<'t, ExpressionMetadata>],
    compiled: Vec<CompiledPattern>,
    most_states: usize,
}

/// What is known of a pattern when it is compared.
#[derive(Drop)]
struct CompiledPattern {
    program: CompiledProgram,
    edges: Edges,
}

impl Any<'_> {
    /// Returns the pairs of patterns that both match some plain path, each with a shortest such path.
    /// The pairs come in order, by the index of the first pattern and then of the second. A plain path
    /// has one or more names, with a `/` between each two.
    ///
    /// Each pair of patterns is compared as [`overlap`](wax_compare::overlap) compares globs. A pair for
    /// which more than `most_states` states are reached is listed without a path: the two may match some
    /// path or none. Pairs take no search if their patterns begin with different literals, as
    /// `docs/**` and `src/**` do, or end with different ones, as `*.c` and `*.{go,rs}` do.
    ///
    /// ```
    /// use wax::{MOST_STATES, any};
    ///
    /// let owners = any(alloc, vec![in alloc; "docs/**", "**/*.md", "src/**/*.rs"]?)?;
    /// for conflict in owners.conflicts(alloc, MOST_STATES)? {
    ///     println!(rt; "{conflict:?}")?; // Conflict { first: 0, second: 1, path: Some("docs/.md") }
    /// }
    /// ```
    pub fn conflicts(&self, alloc: Global, most_states: usize) -> Result<Vec<Conflict>, NoMemory>
        ensures { IfOk result (λ conflicts. AreConflicts self.now most_states conflicts.items) }
    {
        let patterns = ComparedPatterns::new(alloc, branches_of(self.token.as_ref()), most_states)?;
        patterns.conflicts()
    }
}

impl<'a, 't> ComparedPatterns<'a, 't> {
    /// Compiles the patterns.
    fn new(
        alloc: Global,
        branches: &'a [Token<'t, ExpressionMetadata>],
        most_states: usize,
    ) -> Result<ComparedPatterns<'a, 't>, NoMemory>
        requires { program_length (set_tree branches.now) ≤ 1048576 }
        ensures branches { IfOk result (λ patterns. patterns.branches.now ≡ branches.now) }
        ensures compiled { IfOk result (λ patterns. AreCompiled branches.now patterns.compiled.items) }
        ensures most { IfOk result (λ patterns. patterns.most_states ≡ most_states) }
    {
        let mut compiled = Vec::new(alloc);
        for branch in branches {
            compiled.push(CompiledPattern::new(alloc, branch)?)?;
        }
        Ok(ComparedPatterns {
            alloc,
            branches,
            compiled,
            most_states,
        })
    }

    /// Returns the conflicts.
    fn conflicts(&self) -> Result<Vec<Conflict>, NoMemory>
        requires { AreCompiled self.now.branches.now self.now.compiled.items }
        ensures { IfOk result (λ conflicts.
            AreConflicts (set_tree self.now.branches.now) self.now.most_states conflicts.items) }
    {
        let mut conflicts = Vec::new(self.alloc);
        for first in 0..self.branches.len() {
            self.add_conflicts(first, &mut conflicts)?;
        }
        Ok(conflicts)
    }

    /// Adds the conflicts of a pattern with later ones.
    fn add_conflicts(&self, first: usize, conflicts: &mut Vec<Conflict>) -> Result<(), NoMemory>
        requires compiled { AreCompiled self.now.branches.now self.now.compiled.items }
        requires first { first < length self.now.branches.now }
        requires before { AreConflictsBefore (set_tree self.now.branches.now) self.now.most_states
            (first, 0) conflicts.old.items }
        ensures { OnOk result (AreConflictsBefore (set_tree self.now.branches.now) self.now.most_states
            (first + 1, 0) conflicts.new.items) }
    {
        for second in first + 1..self.branches.len() {
            if let Some(conflict) = self.conflict(first, second)? {
                conflicts.push(conflict)?;
            }
        }
        Ok(())
    }

    /// Returns the conflict of two patterns, or `None` if no plain path is matched by both.
    fn conflict(&self, first: usize, second: usize) -> Result<Option<Conflict>, NoMemory>
        requires compiled { AreCompiled self.now.branches.now self.now.compiled.items }
        requires ordered { first < second }
        requires within { second < length self.now.branches.now }
        ensures { IfOk result
            (IsPairDecided (set_tree self.now.branches.now) self.now.most_states (first, second)) }
    {
        let one = &self.compiled[first];
        let other = &self.compiled[second];
        if one.edges.exclude(&other.edges) {
            return Ok(None);
        }
        let most = self.most_states;
        let found = find_text(
            self.alloc,
            &one.program,
            &other.program,
            Wanted::Both,
            Texts::Paths,
            most,
        )?;
        match found {
            Comparison::Nothing => Ok(None),
            Comparison::Text(path) => Ok(Some(Conflict {
                first,
                second,
                path: Some(path),
            })),
            Comparison::Unknown => Ok(Some(Conflict {
                first,
                second,
                path: None,
            })),
        }
    }
}

impl CompiledPattern {
    /// Compiles a pattern whose program isn't too long.
    fn new<'t>(
        alloc: Global,
        pattern: &Token<'t, ExpressionMetadata>,
    ) -> Result<CompiledPattern, NoMemory>
        requires { program_length pattern.now ≤ 1048576 }
        ensures { IfOk result (IsCompiledPattern (MeansText pattern.now)) }
    {
        let edges = Edges::new(alloc, pattern)?;
        match compile_token(alloc, pattern, Sides::NONE) {
            Ok(program) => Ok(CompiledPattern { program, edges }),
            Err(Refusal::Refused(_)) => unreachable!(),
            Err(Refusal::Memory) => Err(NoMemory),
        }
    }
}
