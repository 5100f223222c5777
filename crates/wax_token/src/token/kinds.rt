//! Which kind of token a token is.
ghost use Rattle.std.specs.Prelude.{◌≡◌, ◌↔◌, IsSome, IsTrue, Some, false, [], option_copied, option_map};
ghost use Rattle.wax_token.specs.Kinds.{alternation_of, class_of, concatenation_of, literal_of};
ghost use Rattle.wax_token.specs.Kinds.{is_alternation, is_branch, is_capturing, is_concatenation};
ghost use Rattle.wax_token.specs.Kinds.{is_literal, is_separator, is_tree_wildcard, repetition_of};
ghost use Rattle.wax_token.specs.{Kinds.wildcard_of, View.branch_tree, Words.{is_leaf_tree, trees}};

use super::{
    Alternation, BranchKind, Class, Concatenation, LeafKind, Literal, Repetition, Separator, Token,
    Topology, Wildcard,
};

impl<'t, A> BranchKind<'t, A> {
    /// Returns whether a match captures the branch's piece, as for all but a concatenation.
    pub fn is_capturing(&self) -> bool
        ensures { (a : A) → result ≡ is_capturing (branch_tree self.now a) }
    {
        !matches!(self, BranchKind::Concatenation(_))
    }
}

impl<'t, A> Token<'t, A> {
    /// Returns the token as an alternation, or `None`.
    pub fn as_alternation(&self) -> Option<&Alternation<'t, A>>
        ensures { option_map (λ a. trees a.now.tokens.items) result ≡ alternation_of self.now }
    {
        match self.as_branch()? {
            BranchKind::Alternation(alternation) => Some(alternation),
            _ => None,
        }
    }

    /// Returns the token as a concatenation, or `None`.
    pub fn as_concatenation(&self) -> Option<&Concatenation<'t, A>>
        ensures { option_map (λ c. trees c.now.tokens.items) result ≡ concatenation_of self.now }
    {
        match self.as_branch()? {
            BranchKind::Concatenation(concatenation) => Some(concatenation),
            _ => None,
        }
    }

    /// Returns the token as a repetition, or `None`.
    pub fn as_repetition(&self) -> Option<&Repetition<'t, A>>
        ensures { option_map (λ r. (r.now.token.value, r.now.lower, r.now.upper)) result
            ≡ repetition_of self.now }
    {
        match self.as_branch()? {
            BranchKind::Repetition(repetition) => Some(repetition),
            _ => None,
        }
    }

    /// Returns the token as a class, or `None`.
    pub fn as_class(&self) -> Option<&Class>
        ensures { option_copied result ≡ class_of self.now }
    {
        match self.as_leaf()? {
            LeafKind::Class(class) => Some(class),
            _ => None,
        }
    }

    /// Returns the token as a literal, or `None`.
    pub fn as_literal(&self) -> Option<&Literal<'t>>
        ensures { option_copied result ≡ literal_of self.now }
    {
        match self.as_leaf()? {
            LeafKind::Literal(literal) => Some(literal),
            _ => None,
        }
    }

    /// Returns the token as a separator, or `None`.
    pub fn as_separator(&self) -> Option<&Separator>
        ensures { IsSome result ↔ IsTrue (is_separator self.now) }
    {
        match self.as_leaf()? {
            LeafKind::Separator(separator) => Some(separator),
            _ => None,
        }
    }

    /// Returns the token as a wildcard, or `None`.
    pub fn as_wildcard(&self) -> Option<&Wildcard>
        ensures { option_copied result ≡ wildcard_of self.now }
    {
        match self.as_leaf()? {
            LeafKind::Wildcard(wildcard) => Some(wildcard),
            _ => None,
        }
    }

    /// Returns whether the token is an alternation, a concatenation or a repetition.
    pub fn is_branch(&self) -> bool
        ensures { result ≡ is_branch self.now }
    {
        self.as_branch().is_some()
    }

    /// Returns whether the token is a class, a literal, a separator or a wildcard.
    pub fn is_leaf(&self) -> bool
        ensures { result ≡ is_leaf_tree self.now }
    {
        self.as_leaf().is_some()
    }

    pub fn is_alternation(&self) -> bool
        ensures { result ≡ is_alternation self.now }
    {
        self.as_alternation().is_some()
    }

    pub fn is_concatenation(&self) -> bool
        ensures { result ≡ is_concatenation self.now }
    {
        self.as_concatenation().is_some()
    }

    pub fn is_literal(&self) -> bool
        ensures { result ≡ is_literal self.now }
    {
        self.as_literal().is_some()
    }

    /// Returns whether the token is `/`.
    pub fn is_separator(&self) -> bool
        ensures { result ≡ is_separator self.now }
    {
        self.as_separator().is_some()
    }

    /// Returns whether the token is `**`.
    pub fn is_tree_wildcard(&self) -> bool
        ensures { result ≡ is_tree_wildcard self.now }
    {
        matches!(self.as_wildcard(), Some(Wildcard::Tree { has_root: _ }))
    }

    /// Returns whether the token is that of the empty expression: a case-sensitive literal without
    /// characters.
    pub fn is_empty(&self) -> bool
        ensures { IsTrue result ↔ (literal_of self.now ≡ Some (false, [])) }
    {
        match self.as_literal() {
            Some(literal) => is_without_text(literal),
            None => false,
        }
    }

    /// Returns whether a match captures the token's piece, as for a class, a wildcard, an
    /// alternation and a repetition.
    pub fn is_capturing(&self) -> bool
        ensures { result ≡ is_capturing self.now }
    {
        match &self.topology {
            Topology::Branch(branch) => branch.is_capturing(),
            Topology::Leaf(leaf) => leaf.is_capturing(),
        }
    }
}

// A function of its own because of its tactic: no characters are no bytes.
#[tactic(auto, using(crate::proofs::Bytes::no_bytes))]
fn is_without_text(literal: &Literal<'_>) -> bool
    ensures { IsTrue result ↔ (literal.now ≡ (false, [])) }
{
    !literal.is_case_insensitive() && literal.text().is_empty()
}
