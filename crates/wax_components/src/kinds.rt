//! Tokens of a glob, and their texts.
ghost use Rattle.std.specs.Prelude.{◌≡◌, chars};
ghost use Rattle.wax_components.specs.TopLevel.{literal_text, tokens_of};

use wax_token::token::{Annotation, LeafKind, Token, Topology};

/// Returns the top-level tokens of a glob: those that are inside no other token but its
/// concatenation.
pub(crate) fn top_level<'i, 't, A: Annotation>(token: &'i Token<'t, A>) -> &'i [Token<'t, A>]
    ensures { result.now ≡ tokens_of token.now }
{
    token.concatenation()
}

/// Returns the text of a literal, or an empty text for any other token.
#[tactic(auto, using(crate::proofs::Texts::no_text))]
pub(crate) fn literal_text<'i, 't, A>(token: &'i Token<'t, A>) -> &'i str
    ensures { chars result.now ≡ literal_text token.now }
{
    match token.topology() {
        Topology::Branch(_) => "",
        Topology::Leaf(leaf) => match leaf {
            LeafKind::Literal(literal) => literal.text(),
            _ => "",
        },
    }
}
