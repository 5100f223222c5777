//! Which characters a class contains.
ghost use Rattle.std.specs.{Prelude.◌≡◌, List.{list_any, list_all}};
ghost use Rattle.wax_token.specs.Meaning.{in_archetype, is_forward, in_class};

use super::{Archetype, Class};

impl Archetype {
    fn contains(&self, c: char) -> bool
        ensures { result ≡ in_archetype c self.now }
    {
        match self {
            Archetype::Character(d) => c == *d,
            Archetype::Range(low, high) => *low <= c && c <= *high,
        }
    }

    fn is_forward(&self) -> bool
        ensures { result ≡ is_forward self.now }
    {
        match self {
            Archetype::Character(_) => true,
            Archetype::Range(low, high) => *low <= *high,
        }
    }
}

impl Class {
    /// Returns whether the class matches `c`. No class matches `/`, and a class with a reversed
    /// range matches nothing, negated or not.
    pub fn contains(&self, c: char) -> bool
        ensures { result ≡ in_class self.now.0 self.now.1 c }
    {
        if c == '/' || !are_forward(&self.archetypes) {
            return false;
        }
        some_contains(&self.archetypes, c) != self.is_negated
    }
}

fn some_contains(archetypes: &[Archetype], c: char) -> bool
    ensures { result ≡ list_any (in_archetype c) archetypes.now }
{
    archetypes.iter().any(|archetype| archetype.contains(c))
}

fn are_forward(archetypes: &[Archetype]) -> bool
    ensures { result ≡ list_all is_forward archetypes.now }
{
    archetypes.iter().all(|archetype| archetype.is_forward())
}
