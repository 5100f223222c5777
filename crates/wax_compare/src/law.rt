//! A law of paths, as the contract of a function that does nothing.
ghost use Rattle.wax_compare.specs.Texts.{PlainPathLaw};

/// States which texts are paths as walks have them: those that aren't empty and have no `/` at an
/// end or beside another.
pub fn law_of_plain_paths()
    ensures { PlainPathLaw }
{}
