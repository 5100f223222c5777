//! How much is excluded with an item.

ghost use Rattle.std.specs.Prelude.{◌≡◌};
ghost use Rattle.wax_filter.specs.Leaving.{MapsResidue, shows_residue, residue_item};

/// An item that is excluded by itself, or with everything below it.
#[derive(Clone, Copy, Debug, Drop, Eq, Hash, PartialEq)]
pub enum TreeResidue<T> {
    /// Only the item.
    Node(T),
    /// The item and everything below it.
    Tree(T),
}

impl<T> TreeResidue<T> {
    /// Maps the item by `f`. The variant stays.
    pub fn map<U, F>(self, f: F) -> TreeResidue<U>
    where
        F: FnOnce(T) -> U,
        requires { F.pre f (residue_item self) }
        ensures { MapsResidue (F.post f) self result }
    {
        match self {
            TreeResidue::Node(residue) => TreeResidue::Node(f(residue)),
            TreeResidue::Tree(residue) => TreeResidue::Tree(f(residue)),
        }
    }

    /// Borrows the item. The variant stays.
    pub fn as_ref(&self) -> TreeResidue<&T>
        ensures { shows_residue result ≡ self.now }
    {
        match self {
            TreeResidue::Node(residue) => TreeResidue::Node(residue),
            TreeResidue::Tree(residue) => TreeResidue::Tree(residue),
        }
    }

    /// Returns a reference to the item of either variant.
    pub fn get(&self) -> &T
        ensures { result.now ≡ residue_item self.now }
    {
        match self {
            TreeResidue::Node(residue) => residue,
            TreeResidue::Tree(residue) => residue,
        }
    }
}
