//! Traits of types that contain a token, or a list of tokens.
ghost use Rattle.std.specs.Prelude.{◌≡◌};
ghost use Rattle.wax_token.specs.{Syntax.{Tree, Trees}, Words.{members, trees}};

use crate::token::{Annotation, Token, Tokenized};

/// A type that contains a token.
pub trait TokenTree<'t>: Sized {
    type Annotation;

    /// The token, as contracts see it.
    ghost token: { Self → Tree Self.Annotation };

    /// Returns the token, and drops the rest.
    fn into_token(self) -> Token<'t, Self::Annotation>
        ensures { result ≡ token self };

    /// Returns a reference to the token.
    fn as_token(&self) -> &Token<'t, Self::Annotation>
        ensures { result.now ≡ token self.now };
}

/// A type that contains tokens, matched one after another.
pub trait ConcatenationTree<'t> {
    type Annotation;

    /// The tokens, as contracts see them.
    ghost tokens: { Self → Trees Self.Annotation };

    /// Returns the tokens in order.
    fn concatenation(&self) -> &[Token<'t, Self::Annotation>]
        ensures { trees result.now ≡ tokens self.now };
}

impl<'t, A> TokenTree<'t> for Token<'t, A> {
    type Annotation = A;

    ghost token = { λ t. t };

    fn into_token(self) -> Token<'t, A> {
        self
    }

    fn as_token(&self) -> &Token<'t, A> {
        self
    }
}

impl<'t, A> TokenTree<'t> for Tokenized<'t, A> {
    type Annotation = A;

    ghost token = { λ t. t.token };

    fn into_token(self) -> Token<'t, A> {
        let (_, token) = self.into_parts();
        token
    }

    fn as_token(&self) -> &Token<'t, A> {
        &self.token
    }
}

impl<'t, T> ConcatenationTree<'t> for T
where
    T: TokenTree<'t>,
    T::Annotation: Annotation,
{
    type Annotation = T::Annotation;

    ghost tokens = { λ t. members (T.token t) };

    fn concatenation(&self) -> &[Token<'t, T::Annotation>] {
        self.as_token().concatenation()
    }
}
