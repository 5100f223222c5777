//! How a branch combines its tokens: a match needs all of them, or one.
ghost use Rattle.std.specs.{Prelude.{◌≡◌, ◌↔◌, IsSome, Some, option_map}, Borrow.{Lends, sem}};
ghost use Rattle.std.specs.Option.{ForSome};
ghost use Rattle.wax_query.specs.Variances.{IsMapped};
ghost use Rattle.wax_token.specs.Compositions.{children_of, composition_copied, composition_of, conjunctive};
ghost use Rattle.wax_token.specs.{Compositions.{disjunctive, composition_value, on_inner}, View.branch_tree};
ghost use Rattle.wax_token.specs.{Words.trees, contracts.token.composition.Composition.the_row};

use super::{Annotation, BranchKind, Token, Topology};

/// How a branch combines its tokens: `Conjunctive` if a match needs all of them, one after another,
/// and `Disjunctive` if it needs one of them.
#[derive(Clone, Copy, Debug, PartialEq, Eq, Drop)]
pub enum Composition<C, D> {
    Conjunctive(C),
    Disjunctive(D),
}

/// A composition whose two variants hold values of one type.
pub type TokenComposition<T> = Composition<T, T>;

impl<C, D> Composition<C, D> {
    /// Returns the value of a `Conjunctive`, or `None`.
    pub fn conjunctive(self) -> Option<C>
    where
        D: Drop,
        ensures { result ≡ conjunctive self }
    {
        match self {
            Composition::Conjunctive(inner) => Some(inner),
            Composition::Disjunctive(_) => None,
        }
    }

    /// Returns the value of a `Disjunctive`, or `None`.
    pub fn disjunctive(self) -> Option<D>
    where
        C: Drop,
        ensures { result ≡ disjunctive self }
    {
        match self {
            Composition::Conjunctive(_) => None,
            Composition::Disjunctive(inner) => Some(inner),
        }
    }

    pub fn as_ref(&self) -> Composition<&C, &D>
        ensures { composition_copied result ≡ self.now }
    {
        match self {
            Composition::Conjunctive(inner) => Composition::Conjunctive(inner),
            Composition::Disjunctive(inner) => Composition::Disjunctive(inner),
        }
    }

    /// Applies `f` to the value of a `Conjunctive`, and returns a `Disjunctive` unchanged.
    pub fn map_conjunctive<T, F>(self, f: F) -> Composition<T, D>
    where
        F: FnOnce(C) -> T + Drop,
        requires { ForSome (conjunctive self) (F.pre f) }
        ensures mapped { IsMapped (F.post f) (conjunctive self) (conjunctive result) }
        ensures kept { disjunctive result ≡ disjunctive self }
    {
        match self {
            Composition::Conjunctive(inner) => Composition::Conjunctive(f(inner)),
            Composition::Disjunctive(inner) => Composition::Disjunctive(inner),
        }
    }

    /// Applies `f` to the value of a `Disjunctive`, and returns a `Conjunctive` unchanged.
    pub fn map_disjunctive<T, F>(self, f: F) -> Composition<C, T>
    where
        F: FnOnce(D) -> T + Drop,
        requires { ForSome (disjunctive self) (F.pre f) }
        ensures mapped { IsMapped (F.post f) (disjunctive self) (disjunctive result) }
        ensures kept { conjunctive result ≡ conjunctive self }
    {
        match self {
            Composition::Conjunctive(inner) => Composition::Conjunctive(inner),
            Composition::Disjunctive(inner) => Composition::Disjunctive(f(inner)),
        }
    }
}

impl<T> Composition<T, T> {
    /// Returns the value of either variant.
    pub fn into_inner(self) -> T
        ensures { result ≡ composition_value self }
    {
        match self {
            Composition::Conjunctive(inner) | Composition::Disjunctive(inner) => inner,
        }
    }

    /// Applies `f` to the value of either variant, and keeps the variant.
    pub fn map<U, F>(self, f: F) -> Composition<U, U>
    where
        F: FnOnce(T) -> U,
        requires { F.pre f (composition_value self) }
        ensures value { F.post f (composition_value self) (composition_value result) }
        ensures side { IsSome (conjunctive result) ↔ IsSome (conjunctive self) }
    {
        match self {
            Composition::Conjunctive(inner) => Composition::Conjunctive(f(inner)),
            Composition::Disjunctive(inner) => Composition::Disjunctive(f(inner)),
        }
    }

    /// Returns a reference to the value of either variant.
    pub fn get(&self) -> &T
        ensures { result.now ≡ composition_value self.now }
    {
        match self {
            Composition::Conjunctive(inner) | Composition::Disjunctive(inner) => inner,
        }
    }

    /// Returns a mutable reference to the value of either variant.
    pub fn get_mut(&mut self) -> &mut T
        ensures value { result.now ≡ composition_value self.old }
        ensures* writes_back { sem 𝓛 (Lends (the_row T.row T.row) T.row self.entry result
            (λ w. on_inner (λ _. w) self.old)) }
    {
        match self {
            Composition::Conjunctive(inner) => inner,
            Composition::Disjunctive(inner) => inner,
        }
    }
}

impl<'t, A> BranchKind<'t, A> {
    /// Returns `Disjunctive` for an alternation, and `Conjunctive` for every other branch.
    pub fn composition(&self) -> TokenComposition<()>
        ensures { (a : A) → result ≡ composition_of (branch_tree self.now a) }
    {
        match self {
            BranchKind::Alternation(_) => Composition::Disjunctive(()),
            _ => Composition::Conjunctive(()),
        }
    }
}

impl<'t, A: Annotation> BranchKind<'t, A> {
    /// Returns the tokens in the branch: the branches of an alternation, the tokens of a
    /// concatenation, or the body of a repetition.
    pub fn tokens(&self) -> TokenComposition<&[Token<'t, A>]>
        ensures { (a : A) → Some (on_inner (λ ts. trees ts.now) result)
            ≡ children_of (branch_tree self.now a) }
    {
        match self {
            BranchKind::Alternation(a) => Composition::Disjunctive(a.tokens.as_slice()),
            BranchKind::Concatenation(c) => Composition::Conjunctive(c.tokens.as_slice()),
            BranchKind::Repetition(r) => Composition::Conjunctive(A::lone(&r.token)),
        }
    }
}

impl<'t, A> Token<'t, A> {
    /// Returns `Disjunctive` for an alternation, and `Conjunctive` for every other token, leaves
    /// included.
    pub fn composition(&self) -> TokenComposition<()>
        ensures { result ≡ composition_of self.now }
    {
        if self.is_alternation() {
            Composition::Disjunctive(())
        } else {
            Composition::Conjunctive(())
        }
    }
}

impl<'t, A: Annotation> Token<'t, A> {
    /// Returns the tokens in a branch: the branches of an alternation, the tokens of a
    /// concatenation, or the body of a repetition. Returns `None` for a leaf.
    pub fn tokens(&self) -> Option<TokenComposition<&[Self]>>
        ensures { option_map (on_inner (λ ts. trees ts.now)) result ≡ children_of self.now }
    {
        match &self.topology {
            Topology::Branch(branch) => Some(branch.tokens()),
            Topology::Leaf(_) => None,
        }
    }
}
