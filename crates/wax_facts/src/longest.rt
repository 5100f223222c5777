//! The law of prefixes.
ghost use Rattle.wax_facts.specs.Longest.{PrefixIsLongest};

/// States that the prefix of a glob is the longest text of leading tokens that ends where a
/// component does.
pub fn law_of_prefixes()
    ensures { PrefixIsLongest }
{}
