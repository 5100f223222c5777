//! Tokens that match a folder and everything below it, such as those of `usr/**`.
ghost use Rattle.std.specs.Prelude.{◌≡◌, ◌↔◌, IfSome, IsTrue, List, Some, chars, false, ℕ};
ghost use Rattle.wax_prefilter.specs.Within.{IsInFolder};
ghost use Rattle.wax_token.specs.{Kinds.literal_of, Meaning.MeansEach, Words.trees};

use wax_token::token::{ExpressionMetadata, Token};

/// Returns the literal of tokens that match, one after another, exactly this literal and every path
/// below it: a literal that isn't matched in any case, and a tree wildcard.
pub fn folder_of<'i, 't>(tokens: &'i [Token<'t, ExpressionMetadata>]) -> Option<&'i str>
    ensures { IfSome result (λ folder. (text : List ℕ)
        → MeansEach (trees tokens.now) false false text ↔ IsInFolder (chars folder.now) text) }
{
    match tokens {
        [first, last] if last.is_tree_wildcard() => literal_text(first),
        _ => None,
    }
}

fn literal_text<'i, 't>(token: &'i Token<'t, ExpressionMetadata>) -> Option<&'i str>
    ensures { IfSome result (λ text. literal_of token.now ≡ Some (false, chars text.now)) }
{
    match token.as_literal() {
        Some(literal) if !literal.is_case_insensitive() => Some(literal.text()),
        _ => None,
    }
}

/// Returns whether the text is the folder or a path below it. Takes time proportional to the folder.
#[inline]
pub fn is_within(text: &str, folder: &str) -> bool
    ensures { IsTrue result ↔ IsInFolder (chars folder.now) (chars text.now) }
{
    match text.as_bytes().strip_prefix(folder.as_bytes()) {
        Some(rest) => rest.is_empty() || rest[0] == b'/',
        None => false,
    }
}
