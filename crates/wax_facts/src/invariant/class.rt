//! Classes that match only one character.
ghost use Rattle.std.specs.{Prelude.{◌≡◌, ◌≢◌, ◌∷◌, [], ℕ, MatchOption, true}, List.list_all};
ghost use Rattle.wax_token.specs.Syntax.{class};
ghost use Rattle.wax_facts.specs.InvariantText.{LeafText, NoText, is_only};

use wax_token::token::{Archetype, Class};

/// Returns the only character that the class matches. Returns `None` for a negated class, and if
/// its members are `/` or differ.
pub fn only_character(set: &Class) -> Option<char>
    ensures { MatchOption result (NoText (LeafText (class set.now.0 set.now.1))) (λ c.
        LeafText (class set.now.0 set.now.1) (c ∷ [])) }
{
    if set.is_negated() {
        return None;
    }
    let first = first_character(set.archetypes().first()?);
    if first == '/' || !are_only(first, set.archetypes()) {
        return None;
    }
    Some(first)
}

// Returns the first character of a member.
fn first_character(archetype: &Archetype) -> char
    ensures { (c : ℕ) → is_only c archetype.now ≡ true → result ≡ c }
{
    match archetype {
        Archetype::Character(c) => *c,
        Archetype::Range(low, _) => *low,
    }
}

fn are_only(c: char, archetypes: &[Archetype]) -> bool
    ensures { result ≡ list_all (is_only c) archetypes.now }
{
    archetypes.iter().all(|archetype| is_only(c, archetype))
}

fn is_only(c: char, archetype: &Archetype) -> bool
    ensures { result ≡ is_only c archetype.now }
{
    match archetype {
        Archetype::Character(d) => *d == c,
        Archetype::Range(low, high) => *low == c && *high == c,
    }
}
