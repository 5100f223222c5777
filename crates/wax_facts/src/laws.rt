//! Laws of tables of rules and of fixed sizes.
ghost use Rattle.wax_facts.specs.{CopySizes.SizesOfCopies, FirstRow.FirstBrokenDecides};
ghost use Rattle.wax_facts.specs.SizeBounds.{SizesBound};

/// States that the first rule of a table that is broken is the one that is reported.
pub fn law_of_tables()
    ensures { FirstBrokenDecides }
{}

/// States that a repetition has a fixed size exactly if what is repeated has one and the bounds
/// are the same number, and that it is the size of so many copies.
pub fn law_of_copies()
    ensures { SizesOfCopies }
{}

/// States that no text that a token matches has more bytes than the token's fixed size, if no
/// literal in it ignores case.
pub fn law_of_sizes()
    ensures { SizesBound }
{}
