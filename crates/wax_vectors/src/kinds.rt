//! Kinds of rows: which fact each shows, and how many inputs it has.

use crate::kinds::GlobFact::{Lines, Memoryless, Part};
use crate::{belows, comparisons, globs, lines, lists, parts, sets};
use wax::{Glob, NoMemory};
use wax_test_kit::answer::Answer;
use wax_test_kit::rows::{DataRow, RowKind, find_in};

/// The fact that a row shows.
#[derive(Clone, Copy)]
pub enum Kind {
    Glob(GlobFact),
    Empty,
    Tree,
    Diagnosed,
    Set(SetFact),
    Compared(Question),
    Ignored,
    IgnoredTwice,
    Idle,
    ExcludedBelow,
    IgnoredBelow,
    MeteredExcludedBelow,
    MeteredIgnoredBelow,
    Unignored,
    Unknown,
}

/// A fact of a set, and what the set is built from.
#[derive(Clone, Copy)]
pub enum SetFact {
    Patterns,
    Sets,
    Globs,
    Match,
    IsMatch,
    SetsIsMatch,
    Matcher,
    GoesOn,
    Matches,
    Verdicts,
    Metered,
    MeteredGoesOn,
    Conflicts,
    Facts,
    Length,
    Empty,
    EmptyLength,
}

/// A question about two globs or sets.
#[derive(Clone, Copy)]
pub enum Question {
    Overlap,
    Difference,
    Compare,
}

/// A fact of a glob, or of the error why it can't be built.
#[derive(Clone, Copy)]
pub enum GlobFact {
    Builds,
    Accept,
    Labels,
    ErrorLabels,
    Location,
    Error,
    Picture,
    IsMatch,
    Match,
    IsMatchTwice,
    Matcher,
    MatchTwice,
    Visits,
    Metered,
    MeteredGoesOn,
    MeteredMatcher,
    GoesOn,
    Verdicts,
    Captures,
    Semantic,
    Warnings,
    Path,
    Text,
    Facts,
    Printed,
    Copies,
    MatchCopies,
    Lines(LinesCall),
    Memoryless(Extent),
    Part(PartFact),
}

/// A call that reads and writes lines.
#[derive(Clone, Copy)]
pub enum LinesCall {
    Filter,
    Capture,
}

/// Which calls that don't allocate are made: none, after all that they need, or all.
#[derive(Clone, Copy)]
pub enum Extent {
    Prepared,
    Called,
}

/// A fact of a glob that is partitioned or owned.
#[derive(Clone, Copy)]
pub enum PartFact {
    Partition,
    Prefix,
    RestOrEmpty,
    RestOrTree,
    Rest,
    Again,
    Owned,
    MeteredOwned,
}

/// All kinds: the name, the number of inputs, and the fact.
static KINDS: &[(&str, usize, Kind)] = &[
    ("builds", 1, Kind::Glob(GlobFact::Builds)),
    ("accept", 1, Kind::Glob(GlobFact::Accept)),
    ("labels", 1, Kind::Glob(GlobFact::Labels)),
    ("error_labels", 1, Kind::Glob(GlobFact::ErrorLabels)),
    ("location", 1, Kind::Glob(GlobFact::Location)),
    ("error", 1, Kind::Glob(GlobFact::Error)),
    ("picture", 1, Kind::Glob(GlobFact::Picture)),
    ("is_match", 2, Kind::Glob(GlobFact::IsMatch)),
    ("match", 2, Kind::Glob(GlobFact::Match)),
    ("matcher", 2, Kind::Glob(GlobFact::Matcher)),
    ("is_match_twice", 2, Kind::Glob(GlobFact::IsMatchTwice)),
    ("match_twice", 2, Kind::Glob(GlobFact::MatchTwice)),
    ("visits", 3, Kind::Glob(GlobFact::Visits)),
    ("metered", 3, Kind::Glob(GlobFact::Metered)),
    ("metered_goes_on", 3, Kind::Glob(GlobFact::MeteredGoesOn)),
    ("metered_matcher", 4, Kind::Glob(GlobFact::MeteredMatcher)),
    ("goes_on", 2, Kind::Glob(GlobFact::GoesOn)),
    ("verdicts", 2, Kind::Glob(GlobFact::Verdicts)),
    ("captures", 1, Kind::Glob(GlobFact::Captures)),
    ("semantic", 1, Kind::Glob(GlobFact::Semantic)),
    ("warnings", 1, Kind::Glob(GlobFact::Warnings)),
    ("path", 1, Kind::Glob(GlobFact::Path)),
    ("glob_text", 1, Kind::Glob(GlobFact::Text)),
    ("facts", 1, Kind::Glob(GlobFact::Facts)),
    ("printed", 1, Kind::Glob(GlobFact::Printed)),
    ("glob_copies", 2, Kind::Glob(GlobFact::Copies)),
    ("match_copies", 2, Kind::Glob(GlobFact::MatchCopies)),
    ("filter_lines", 3, Kind::Glob(Lines(LinesCall::Filter))),
    ("capture_lines", 3, Kind::Glob(Lines(LinesCall::Capture))),
    ("memoryless", 2, Kind::Glob(Memoryless(Extent::Called))),
    ("prepared", 2, Kind::Glob(Memoryless(Extent::Prepared))),
    ("partition", 1, Kind::Glob(Part(PartFact::Partition))),
    ("prefix", 1, Kind::Glob(Part(PartFact::Prefix))),
    ("rest_or_empty", 1, Kind::Glob(Part(PartFact::RestOrEmpty))),
    ("rest_or_tree", 1, Kind::Glob(Part(PartFact::RestOrTree))),
    ("rest", 2, Kind::Glob(Part(PartFact::Rest))),
    ("again", 1, Kind::Glob(Part(PartFact::Again))),
    ("owned_glob", 2, Kind::Glob(Part(PartFact::Owned))),
    ("metered_owned", 4, Kind::Glob(Part(PartFact::MeteredOwned))),
    ("diagnosed", 1, Kind::Diagnosed),
    ("set", 1, Kind::Set(SetFact::Patterns)),
    ("sets", 1, Kind::Set(SetFact::Sets)),
    ("set_of_globs", 1, Kind::Set(SetFact::Globs)),
    ("meant", 2, Kind::Set(SetFact::Match)),
    ("set_is_match", 2, Kind::Set(SetFact::IsMatch)),
    ("sets_is_match", 2, Kind::Set(SetFact::SetsIsMatch)),
    ("set_matcher", 2, Kind::Set(SetFact::Matcher)),
    ("set_metered", 3, Kind::Set(SetFact::Metered)),
    ("set_metered_goes_on", 3, Kind::Set(SetFact::MeteredGoesOn)),
    ("set_goes_on", 2, Kind::Set(SetFact::GoesOn)),
    ("set_matches", 2, Kind::Set(SetFact::Matches)),
    ("set_verdicts", 2, Kind::Set(SetFact::Verdicts)),
    ("set_conflicts", 2, Kind::Set(SetFact::Conflicts)),
    ("set_facts", 1, Kind::Set(SetFact::Facts)),
    ("set_length", 1, Kind::Set(SetFact::Length)),
    ("nested_length", 1, Kind::Set(SetFact::Length)),
    ("empty_set", 1, Kind::Set(SetFact::Empty)),
    ("empty_length", 1, Kind::Set(SetFact::EmptyLength)),
    ("empty_glob", 1, Kind::Empty),
    ("tree_glob", 1, Kind::Tree),
    ("overlap", 4, Kind::Compared(Question::Overlap)),
    ("difference", 4, Kind::Compared(Question::Difference)),
    ("compare", 4, Kind::Compared(Question::Compare)),
    ("ignored", 2, Kind::Ignored),
    ("ignored_twice", 2, Kind::IgnoredTwice),
    ("bad_line", 1, Kind::Ignored),
    ("idle", 2, Kind::Idle),
    ("excluded_below", 2, Kind::ExcludedBelow),
    ("ignored_below", 2, Kind::IgnoredBelow),
    ("metered_excluded_below", 3, Kind::MeteredExcludedBelow),
    ("metered_ignored_below", 3, Kind::MeteredIgnoredBelow),
    ("filter_unignored", 3, Kind::Unignored),
];

impl RowKind for Kind {
    fn find(name: &str) -> (usize, Kind) {
        find_in(KINDS, name, Kind::Unknown)
    }

    fn answer(self, rt: &HostRuntime, row: &DataRow, made: &mut Answer) -> Result<(), NoMemory> {
        let (alloc, text) = (rt.alloc(), row.input(0));
        match self {
            Kind::Glob(fact) => globs::answer(alloc, fact, row, made),
            Kind::Empty => parts::add_plain(alloc, Glob::empty(alloc), text, made),
            Kind::Tree => parts::add_plain(alloc, Glob::tree(alloc), text, made),
            Kind::Diagnosed => parts::add_diagnosed(alloc, row, made),
            Kind::Set(fact) => sets::answer(alloc, fact, row, made),
            Kind::Compared(question) => comparisons::answer(alloc, question, row, made),
            Kind::Ignored => lists::answer(alloc, false, row, made),
            Kind::IgnoredTwice => lists::answer(alloc, true, row, made),
            Kind::Idle => comparisons::add_idle(alloc, row, made),
            Kind::ExcludedBelow => belows::add_excluded(alloc, text, row.input(1), made),
            Kind::IgnoredBelow => belows::add_ignored(alloc, text, row.input(1), made),
            Kind::MeteredExcludedBelow => belows::add_excluded_metered(alloc, row, made),
            Kind::MeteredIgnoredBelow => belows::add_ignored_metered(alloc, row, made),
            Kind::Unignored => lines::add_unignored(alloc, row, made),
            Kind::Unknown => {
                made.add("no such kind");
                Ok(())
            }
        }
    }
}
