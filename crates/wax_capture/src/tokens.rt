//! What a token captures of its piece, and which piece it prefers.
ghost use Rattle.std.specs.Prelude.{◌≡◌, ◌∷◌, [], ℕ, List, IfSome, IsNone, true};
ghost use Rattle.wax_token.specs.{View.{leaf_of, wildcard_leaf}, Words.is_leaf_tree, Syntax.tree};
ghost use Rattle.wax_capture.specs.Captures.{is_lazy, is_lazy_leaf, leaf_captures, leaf_skips};
ghost use Rattle.wax_capture.specs.Captures.{token_captures, token_skips, tree_capture};
ghost use Rattle.wax_capture.specs.{Pieces.{captured_by, skipped_by}, inner.Ways.{IsTreeToken, is_single}};

use crate::piece::Capture;
use wax_token::token::{BranchKind, Evaluation, LeafKind, Sides, Token, Topology, Wildcard};

/// Returns what a token captures of its piece, by what is around it.
pub fn capture_of<'t, A>(token: &Token<'t, A>, sides: Sides) -> Capture
    ensures captures { (x : List ℕ) → captured_by result x ≡ token_captures token.now sides.before x }
    ensures skips { skipped_by result ≡ token_skips token.now sides.before }
{
    match token.topology() {
        Topology::Branch(branch) => match branch {
            BranchKind::Alternation(_) => Capture::Piece,
            BranchKind::Concatenation(_) => Capture::Nothing,
            BranchKind::Repetition(_) => Capture::Piece,
        },
        Topology::Leaf(leaf) => capture_of_leaf(leaf, sides),
    }
}

fn capture_of_leaf(leaf: &LeafKind<'_>, sides: Sides) -> Capture
    ensures captures { (x : List ℕ)
        → captured_by result x ≡ leaf_captures (leaf_of leaf.now) sides.before x }
    ensures skips { skipped_by result ≡ leaf_skips (leaf_of leaf.now) sides.before }
{
    match leaf {
        LeafKind::Class(_) => Capture::Piece,
        LeafKind::Literal(_) => Capture::Nothing,
        LeafKind::Separator(_) => Capture::Nothing,
        LeafKind::Wildcard(wildcard) => capture_of_wildcard(wildcard, sides),
    }
}

fn capture_of_wildcard(wildcard: &Wildcard, sides: Sides) -> Capture
    ensures captures { (x : List ℕ)
        → captured_by result x ≡ leaf_captures (wildcard_leaf wildcard.now) sides.before x }
    ensures skips { skipped_by result ≡ leaf_skips (wildcard_leaf wildcard.now) sides.before }
{
    match wildcard {
        Wildcard::One => Capture::Piece,
        Wildcard::ZeroOrMore(_) => Capture::Piece,
        Wildcard::Tree { has_root } => capture_of_tree(sides, *has_root),
    }
}

fn capture_of_tree(sides: Sides, has_root: bool) -> Capture
    ensures captures { (x : List ℕ) → captured_by result x ≡ tree_capture sides.before has_root x ∷ [] }
    ensures skips { skipped_by result ≡ leaf_skips (tree has_root) sides.before }
{
    if sides.before {
        return Capture::AfterFirst;
    }
    if has_root {
        Capture::Piece
    } else {
        Capture::UnlessSlash
    }
}

/// Returns whether the token is `$`.
pub fn is_lazy<'t, A>(token: &Token<'t, A>) -> bool
    ensures { result ≡ is_lazy token.now }
{
    match token.topology() {
        Topology::Branch(_) => false,
        Topology::Leaf(leaf) => is_lazy_leaf(leaf),
    }
}

fn is_lazy_leaf(leaf: &LeafKind<'_>) -> bool
    ensures { result ≡ is_lazy_leaf (leaf_of leaf.now) }
{
    match leaf {
        LeafKind::Wildcard(wildcard) => is_lazy_wildcard(wildcard),
        _ => false,
    }
}

fn is_lazy_wildcard(wildcard: &Wildcard) -> bool
    ensures { result ≡ is_lazy_leaf (wildcard_leaf wildcard.now) }
{
    match wildcard {
        Wildcard::ZeroOrMore(evaluation) => matches!(evaluation, Evaluation::Lazy),
        _ => false,
    }
}

/// Returns whether a `/` is written before a `**`, or `None` if the token isn't a `**`.
pub fn tree_root<'t, A>(token: &Token<'t, A>) -> Option<bool>
    ensures tree { IfSome result (IsTreeToken token.now) }
    ensures single { IsNone result → is_leaf_tree token.now ≡ true → is_single token.now ≡ true }
{
    match token.topology() {
        Topology::Branch(_) => None,
        Topology::Leaf(leaf) => match leaf {
            LeafKind::Wildcard(wildcard) => match wildcard {
                Wildcard::Tree { has_root } => Some(*has_root),
                _ => None,
            },
            _ => None,
        },
    }
}
