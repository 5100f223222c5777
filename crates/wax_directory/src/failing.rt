//! A directory that fails once.

ghost use Rattle.std.specs.Prelude.{◌≡◌, ◌++◌, Some, Ok, Err};
ghost use Rattle.wax_directory.specs.Calls.{KindCall, OpenCall, NextCall};
ghost use Rattle.wax_directory.specs.Counting.{Counts, after_counting, no_counts, kind_counts};
ghost use Rattle.wax_directory.specs.Counting.{opening_counts, next_counts};
ghost use Rattle.wax_directory.specs.History.{kind_answers, opening_answers, next_answers};
ghost use Rattle.wax_directory.specs.Turns.{fails_after, failing_inside, after_call};

use crate::directory::{Directory, DirectoryFault, FileType, ListItem};
use crate::history::History;
use crate::tally::Tally;
use crate::turn::Turn;
use std::alloc::Global;
use wax_query::diagnostics::NoMemory;

/// A directory that forwards each call of `kind`, `open` and `next` but one, which fails without a
/// call of the directory inside.
///
/// By itself it shows nothing: a call that is forwarded returns what the directory inside shows.
/// Its counts are those of the directory inside, with one failure more from the failed call on, and
/// with one item more if that was a call of `next`.
#[derive(Drop)]
pub struct Failing<D> {
    directory: D,
    turn: Turn,
    own: Tally,
    history: History,
}

impl<D: Directory> Failing<D> {
    /// Wraps a directory: the first `calls` calls are forwarded, the next one fails, and all later
    /// ones are forwarded.
    pub fn new(directory: D, calls: u64) -> Failing<D>
        ensures inside { failing_inside result ≡ directory }
        ensures left { fails_after result ≡ Some calls }
        ensures counted { Counts no_counts (D.law.tally directory) (⟦<Self as Directory>⟧.law.tally result) }
    {
        Failing {
            directory,
            turn: Turn {
                calls,
                is_over: false,
            },
            own: Tally::none(),
            history: History::new(),
        }
    }

    /// Returns the directory inside.
    pub fn into_inner(self) -> D
        ensures inside { result ≡ failing_inside self }
    {
        self.directory
    }
}

impl<D: Directory> Directory for Failing<D> {
    ghost use Rattle.std.specs.Prelude.{⊤, []};

    type Cursor = D::Cursor;

    ghost law = { record {
      shows = λ _ _ _. ⊥;
      holds = λ _ _ _. ⊥;
      tells = λ _ _. ⊤;
      tally = λ s. after_counting s.own (D.law.tally s.directory);
      answered = λ s. s.history.answers;
    } };

    fn kind(&mut self, alloc: Global, path: &str) -> Result<Option<FileType>, DirectoryFault>
        ensures fails { fails_after self.old ≡ Some 0
            → (result ≡ Err DirectoryFault.Failed) × (failing_inside self.new ≡ failing_inside self.old) }
        ensures left { fails_after self.new ≡ after_call (fails_after self.old) }
        ensures inside { ¬ (fails_after self.old ≡ Some 0)
            → KindCall D.law (failing_inside self.old) path.now result (failing_inside self.new) }
        ensures counted { Counts (kind_counts result)
            (⟦<Self as Directory>⟧.law.tally self.old) (⟦<Self as Directory>⟧.law.tally self.new) }
        ensures answered { let law = ⟦<Self as Directory>⟧.law in
            law.answered self.new ≡ law.answered self.old ++ kind_answers path.now result }
    {
        if self.turn.comes() {
            let answer = Err(DirectoryFault::Failed);
            self.own.add(Tally::of_kind(&answer));
            self.history.add_kind(path, &answer);
            return answer;
        }
        let answer = self.directory.kind(alloc, path);
        self.history.add_kind(path, &answer);
        answer
    }

    fn open(&mut self, alloc: Global, path: &str) -> Result<D::Cursor, DirectoryFault>
        ensures fails { fails_after self.old ≡ Some 0
            → (result ≡ Err DirectoryFault.Failed) × (failing_inside self.new ≡ failing_inside self.old) }
        ensures left { fails_after self.new ≡ after_call (fails_after self.old) }
        ensures inside { ¬ (fails_after self.old ≡ Some 0)
            → OpenCall D.law (failing_inside self.old) path.now result (failing_inside self.new) }
        ensures counted { Counts (opening_counts result)
            (⟦<Self as Directory>⟧.law.tally self.old) (⟦<Self as Directory>⟧.law.tally self.new) }
        ensures answered { let law = ⟦<Self as Directory>⟧.law in
            law.answered self.new ≡ law.answered self.old ++ opening_answers path.now result }
    {
        if self.turn.comes() {
            let answer = Err(DirectoryFault::Failed);
            self.own.add(Tally::of_opening(&answer));
            self.history.add_opening(path, &answer);
            return answer;
        }
        let answer = self.directory.open(alloc, path);
        self.history.add_opening(path, &answer);
        answer
    }

    fn next(&mut self, alloc: Global, cursor: &mut D::Cursor) -> Result<Option<ListItem>, NoMemory>
        ensures fails { fails_after self.old ≡ Some 0 → (result ≡ Ok (Some ListItem.Failed))
            × (failing_inside self.new ≡ failing_inside self.old) × (cursor.new ≡ cursor.old) }
        ensures left { fails_after self.new ≡ after_call (fails_after self.old) }
        ensures inside { ¬ (fails_after self.old ≡ Some 0)
            → NextCall D.law (failing_inside self.old) cursor.old result (failing_inside self.new)
            cursor.new }
        ensures counted { Counts (next_counts result)
            (⟦<Self as Directory>⟧.law.tally self.old) (⟦<Self as Directory>⟧.law.tally self.new) }
        ensures answered { let law = ⟦<Self as Directory>⟧.law in
            law.answered self.new ≡ law.answered self.old ++ next_answers result }
    {
        if self.turn.comes() {
            let answer = Ok(Some(ListItem::Failed));
            self.own.add(Tally::of_next(&answer));
            self.history.add_next(&answer);
            return answer;
        }
        let answer = self.directory.next(alloc, cursor);
        self.history.add_next(&answer);
        answer
    }

    fn tally(&self) -> Tally {
        let mut tally = self.directory.tally();
        tally.add(self.own);
        tally
    }

    ghost tells_some = { λ d. ([], tt) };

    ghost none_open = { λ d path s h. elim h [ ] };

    ghost dropped = { λ d cursors ls cursor l h. elim h [ ] };

    ghost inner = { λ d path l h. elim h [ ] };

    ghost child = { λ d path x s h p. elim h [ ] };

    ghost distinct = { λ d path s h. elim h [ ] };
}
