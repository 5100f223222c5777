//! Counts of what a directory returned.

ghost use Rattle.std.specs.Prelude.{◌≡◌};
ghost use Rattle.wax_directory.specs.Counting.{after_counting, kind_counts, opening_counts, item_counts};
ghost use Rattle.wax_directory.specs.Counting.{no_counts, next_counts};

use crate::directory::{DirectoryFault, FileType, ListItem};
use crate::path::is_plain;
use wax_query::diagnostics::NoMemory;

/// How often a directory returned what. Each number is at most `u64::MAX`, and then stays there.
#[derive(Clone, Copy, Debug, Eq, PartialEq)]
pub struct Tally {
    /// Calls of `kind` that found nothing.
    pub misses: u64,
    /// Calls of `kind` that found a file or a link.
    pub leaves: u64,
    /// Calls that returned `DirectoryFault::Failed`, and items `Failed` and `NotText`.
    pub failures: u64,
    /// Items of any kind that `next` returned.
    pub items: u64,
    /// Names among them that no path can hold.
    pub bad_names: u64,
    /// Calls of `open` that returned a cursor or `DirectoryFault::Failed`.
    pub opened: u64,
    /// Listings that came to their end: calls of `next` that returned `None`, and those of `open`
    /// that returned `DirectoryFault::Failed`.
    pub ended: u64,
}

impl Tally {
    /// Returns counts of zero.
    pub fn none() -> Tally
        ensures { result ≡ no_counts }
    {
        Tally {
            misses: 0,
            leaves: 0,
            failures: 0,
            items: 0,
            bad_names: 0,
            opened: 0,
            ended: 0,
        }
    }

    /// Counts one result of `kind`.
    pub fn of_kind(answer: &Result<Option<FileType>, DirectoryFault>) -> Tally
        ensures { result ≡ kind_counts answer.now }
    {
        let mut tally = Tally::none();
        match answer {
            Ok(None) => tally.misses = 1,
            Ok(Some(FileType::File | FileType::Link)) => tally.leaves = 1,
            Err(DirectoryFault::Failed) => tally.failures = 1,
            Ok(Some(FileType::Folder)) | Err(DirectoryFault::Memory) => {}
        }
        tally
    }

    /// Counts one result of `open`.
    pub fn of_opening<C>(answer: &Result<C, DirectoryFault>) -> Tally
        ensures { result ≡ opening_counts answer.now }
    {
        let mut tally = Tally::none();
        match answer {
            Ok(_) => tally.opened = 1,
            Err(DirectoryFault::Failed) => {
                tally.opened = 1;
                tally.ended = 1;
                tally.failures = 1;
            }
            Err(DirectoryFault::Memory) => {}
        }
        tally
    }

    /// Counts one result of `next`.
    pub fn of_next(answer: &Result<Option<ListItem>, NoMemory>) -> Tally
        ensures { result ≡ next_counts answer.now }
    {
        match answer {
            Ok(Some(item)) => Tally::of_item(item),
            Ok(None) => {
                let mut tally = Tally::none();
                tally.ended = 1;
                tally
            }
            Err(NoMemory) => Tally::none(),
        }
    }

    fn of_item(item: &ListItem) -> Tally
        ensures { result ≡ item_counts item.now }
    {
        let mut tally = Tally::none();
        tally.items = 1;
        match item {
            ListItem::Name(name, _) => tally.bad_names = u64::from(!is_plain(name.as_str())),
            ListItem::Failed | ListItem::NotText => tally.failures = 1,
        }
        tally
    }

    /// Adds the counts of another tally.
    pub fn add(&mut self, more: Tally)
        ensures { self.new ≡ after_counting more self.old }
    {
        self.misses = self.misses.saturating_add(more.misses);
        self.leaves = self.leaves.saturating_add(more.leaves);
        self.failures = self.failures.saturating_add(more.failures);
        self.items = self.items.saturating_add(more.items);
        self.bad_names = self.bad_names.saturating_add(more.bad_names);
        self.opened = self.opened.saturating_add(more.opened);
        self.ended = self.ended.saturating_add(more.ended);
    }
}
