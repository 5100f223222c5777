//! Positions of tokens in a tree.
ghost use Rattle.std.specs.Prelude.{◌≡◌};
ghost use Rattle.wax_fold.specs.Positions.{conjunction, disjunction};

use wax_token::token::Token;

/// How deep a token is in a tree: the number of concatenations and repetitions around it
/// (`conjunctive`), and that of alternations (`disjunctive`). Each stays at `usize::MAX` once it
/// reaches it.
#[derive(Clone, Copy, Debug, Default, Eq, Hash, PartialEq)]
pub struct Depth {
    pub conjunctive: usize,
    pub disjunctive: usize,
}

/// The position of a token in a tree: its depth, and the index of its branch in the innermost
/// alternation around it, from 0 on. Without an alternation around it, the index is 0.
#[derive(Clone, Copy, Debug, Default, Eq, Hash, PartialEq)]
pub struct Position {
    pub depth: Depth,
    pub branch: usize,
}

impl Position {
    /// Returns the position of the tokens in a concatenation or a repetition at this position.
    pub(super) fn conjunction(self) -> Self
        ensures { result ≡ conjunction self }
    {
        Position {
            depth: Depth {
                conjunctive: self.depth.conjunctive.saturating_add(1),
                disjunctive: self.depth.disjunctive,
            },
            branch: self.branch,
        }
    }

    /// Returns the position of a branch of an alternation at this position.
    pub(super) fn disjunction(self, branch: usize) -> Self
        ensures { result ≡ disjunction self branch }
    {
        Position {
            depth: Depth {
                conjunctive: self.depth.conjunctive,
                disjunctive: self.depth.disjunctive.saturating_add(1),
            },
            branch,
        }
    }
}

/// A token with its position.
#[derive(Clone, Copy, Debug)]
pub struct WalkEntry<T> {
    pub position: Position,
    pub token: T,
}

impl<T> WalkEntry<T> {
    /// Returns the token, and drops its position.
    pub fn into_token(self) -> T
        ensures { result ≡ self.token }
    {
        self.token
    }

    /// Returns the token's position.
    pub fn position(&self) -> Position
        ensures { result ≡ self.now.position }
    {
        self.position
    }
}

/// A token of a tree with its position.
pub type TokenEntry<'i, 't, A> = WalkEntry<&'i Token<'t, A>>;
