//! A directory of your own.
ghost use Rattle.std.proofs.Common.{ap, refl, subst, sym};
ghost use Rattle.std.specs.Prelude.{◌≡◌, [], ⊤};
ghost use Rattle.wax.specs.Walks.{IsDistinct, child_shown};
ghost use Rattle.wax_directory.specs.Shown.{missing};
ghost use Rattle.wax_test_uses.specs.Empty.{no_folder, none_last};

use std::alloc::Global;
use wax::NoMemory;
use wax::walk::{Directory, DirectoryFault, FileType, History, ListItem, Tally};

/// A directory that contains nothing. It shows what a directory of your own needs: the law, the
/// counts and the answers. By its law nothing is at any path, no folder is open, and it reports any
/// list of opened folders, since it keeps none.
#[derive(Drop)]
pub struct EmptyDirectory {
    pub tally: Tally,
    pub history: History,
}

impl Directory for EmptyDirectory {
    type Cursor = ();

    ghost law = { record {
      shows = λ _ _ s. s ≡ missing;
      holds = λ _ cursors _. cursors ≡ [];
      tells = λ _ _. ⊤;
      tally = λ s. s.tally;
      answered = λ s. s.history.answers;
    } };

    fn kind(&mut self, _alloc: Global, path: &str) -> Result<Option<FileType>, DirectoryFault> {
        let answer = Ok(None);
        self.tally.add(Tally::of_kind(&answer));
        self.history.add_kind(path, &answer);
        answer
    }

    fn open(&mut self, _alloc: Global, path: &str) -> Result<(), DirectoryFault> {
        let answer = Err(DirectoryFault::Failed);
        self.tally.add(Tally::of_opening(&answer));
        self.history.add_opening(path, &answer);
        answer
    }

    fn next(&mut self, _alloc: Global, _cursor: &mut ()) -> Result<Option<ListItem>, NoMemory> {
        let item = Ok(None);
        self.tally.add(Tally::of_next(&item));
        self.history.add_next(&item);
        item
    }

    fn tally(&self) -> Tally {
        self.tally
    }

    ghost tells_some = { λ d. ([], tt) };

    ghost none_open = { λ d path s h. refl };

    ghost dropped = { λ d cursors ls cursor l h. elim (none_last cursors cursor h) [ ] };

    ghost inner = { λ d path l h. elim (no_folder l h) [ ] };

    ghost child = { λ d path x s h p. ap (child_shown x) h };

    ghost distinct = { λ d path s h. subst IsDistinct (sym h) tt };
}
