//! The depth of a token: how many components its matches have.
ghost use Rattle.std.specs.{Prelude.{◌≡◌, ◌≤◌, ◌∷◌, []}, Str.chars};
ghost use Rattle.wax_query.specs.{Components.{slash, slashes}, Ranges.bounds};
ghost use Rattle.wax_token.specs.{Cost.cost, View.leaf_of, Words.trees};
ghost use Rattle.wax_components.specs.Bounds.{BoundsComponents, SaturatedBounds};
ghost use Rattle.wax_components.specs.{Depth.{Depth, SaturatedDepth}, inner.Profiles.single};
ghost use Rattle.wax_components.specs.{inner.Saturation.{ProfilesOf, saturated}, inner.Shapes.shape};
ghost use Rattle.wax_components.specs.inner.TreeProfiles.{each_profile, leaf_profile, some_profile};
ghost use Rattle.wax_components.specs.inner.TreeProfiles.{tree_profile};

use crate::profile::Profile;
use crate::profiles::Profiles;
use wax_query::query::{DepthVariance, NaturalRange};
use wax_token::token::{BranchKind, LeafKind, Token, Topology, Wildcard};

fn character_profile(c: char) -> Profile
    ensures { result ≡ single (shape (c ∷ [])) (slash c) }
{
    let mut profile = Profile::no_text();
    if c == '/' {
        profile.enclosed = Some((1, Some(1)));
    } else {
        profile.bare = Some((0, Some(0)));
    }
    profile
}

/// Returns the profile of the set of only this text.
#[tactic(auto, using(crate::proofs::Contexts::text_step))]
fn text_profile(text: &str) -> Profile
    ensures { saturated result ≡ saturated (single (shape (chars text.now)) (slashes (chars text.now))) }
{
    let mut profile = Profile::empty_text();
    for c in text.chars() {
        profile = profile.then(character_profile(c));
    }
    profile
}

fn leaf_profiles(leaf: &LeafKind<'_>) -> Profiles
    ensures { ProfilesOf result (leaf_profile (leaf_of leaf.now)) }
{
    match leaf {
        LeafKind::Class(_) => Profiles::everywhere(character_profile('?')),
        LeafKind::Literal(literal) => Profiles::everywhere(text_profile(literal.text())),
        LeafKind::Separator(_) => Profiles::everywhere(character_profile('/')),
        LeafKind::Wildcard(wildcard) => match wildcard {
            Wildcard::One => Profiles::everywhere(character_profile('?')),
            Wildcard::ZeroOrMore(_) => Profiles::everywhere(character_profile('?')),
            Wildcard::Tree { has_root } => Profiles::tree_wildcard(*has_root),
        },
    }
}

#[cycle(measure)]
#[tactic(auto, using(crate::proofs::Contexts::repeated_of))]
fn token_profiles<'t, A>(token: &Token<'t, A>) -> Profiles
    ensures { ProfilesOf result (tree_profile token.now) }
{
    match token.topology() {
        Topology::Branch(branch) => match branch {
            BranchKind::Alternation(a) => some_profiles(a.tokens.as_slice()),
            BranchKind::Concatenation(c) => each_profiles(c.tokens.as_slice()),
            BranchKind::Repetition(r) => token_profiles(&r.token).repeated(r.lower, r.upper),
        },
        Topology::Leaf(leaf) => leaf_profiles(leaf),
    }
}

/// Returns the profiles of an alternation of these branches.
#[cycle(measure)]
#[tactic(auto, using(wax_token::proofs::Sizes::element_size))]
fn some_profiles<'t, A>(tokens: &[Token<'t, A>]) -> Profiles
    ensures { ProfilesOf result (some_profile (trees tokens.now)) }
{
    let mut all = Profiles::everywhere(Profile::no_text());
    let mut index = tokens.len();
    while index > 0 {
        index -= 1;
        all = token_profiles(&tokens[index]).union(all);
    }
    all
}

/// Returns the profiles of tokens one after another.
#[cycle(measure)]
#[tactic(auto, using(wax_token::proofs::Sizes::element_size))]
fn each_profiles<'t, A>(tokens: &[Token<'t, A>]) -> Profiles
    ensures { ProfilesOf result (each_profile (trees tokens.now)) }
{
    let mut index = tokens.len();
    if index == 0 {
        return Profiles::everywhere(Profile::empty_text());
    }
    index -= 1;
    let mut all = token_profiles(&tokens[index]);
    while index > 0 {
        index -= 1;
        all = token_profiles(&tokens[index]).then(all);
    }
    all
}

/// Returns the least and the greatest number of components of the paths that the token matches. The
/// range is open above if there is no greatest.
///
/// `*`, `$` and a class count as one character, and a path that is empty or `/` has no component.
/// No match has more components than the greatest. No match has fewer than the least, unless it is
/// empty or has a `/` at an end. A number that exceeds 64 bits is returned as `usize::MAX`; this
/// can't happen for a token that costs at most 1,048,575, the limit of a glob.
///
/// Visits each token and each character of a literal once, and takes one step more for each binary
/// digit of a repetition's bounds. Doesn't allocate; recursion is as deep as the tree.
pub fn depth<'t, A>(token: &Token<'t, A>) -> DepthVariance
    ensures depth { cost token.now ≤ 1048575 → Depth token.now (bounds result) }
    ensures bounds { cost token.now ≤ 1048575 → BoundsComponents token.now (bounds result) }
    ensures saturated_depth { SaturatedDepth token.now (bounds result) }
    ensures saturated_bounds { SaturatedBounds token.now (bounds result) }
{
    let (least, greatest) = token_profiles(token).alone.components();
    NaturalRange::from_closed_and_open(least, greatest)
}
