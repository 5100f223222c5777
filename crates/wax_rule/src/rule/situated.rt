//! The tokens of a glob that contain tokens in one list, breadth first, each with its neighbours.
ghost use Rattle.std.specs.Prelude.{◌≡◌, ◌++◌, ◌∷◌, [], Bool, IfOk, OnOk, Option, Some, None, drop, ◌<◌, ◌≤◌};
ghost use Rattle.std.specs.{Prelude.{◌||◌, length, IfSome, IsNone}, List.flat_map};
ghost use Rattle.wax_token.specs.{View.leaf_of, Words.trees, Kinds.{is_boundary_leaf, is_zero_or_more_leaf}};
ghost use Rattle.wax_facts.specs.Situated.{right_of, breadth_first};
ghost use Rattle.wax_rule.specs.inner.Queue.{branches, siblings, children, only_branches, queue_children};
ghost use Rattle.wax_rule.specs.inner.Queue.{neighbour_side, side_of, is_found_at, is_found_at_some};
ghost use Rattle.wax_rule.specs.inner.Queue.{IsOutermost};

use std::alloc::{AllocError, Global};
use std::marker::Model;
use wax_facts::Side;
use wax_query::diagnostics::Span;
use wax_token::token::{BranchKind, ExpressionMetadata, LeafKind, Token, Topology};

/// A token, and its neighbours.
#[derive(Drop)]
pub(super) struct Situated<'i, 't> {
    token: &'i Token<'t, ExpressionMetadata>,
    pub(super) left: Neighbour<'i, 't>,
    pub(super) right: Neighbour<'i, 't>,
}

impl<'i, 't> Model for Situated<'i, 't> {
    ghost use Rattle.wax_facts.specs.Situated.{Situated as ASituated};
    ghost use Rattle.wax_rule.specs.inner.Queue.{neighbour_side, situated_code};

    ghost Value = { ASituated };

    ghost coded = { situated_code };

    ghost view = { λ s. record {
      token = s.token.now;
      left = neighbour_side s.left;
      right = neighbour_side s.right;
    } };
}

impl<'i, 't> Situated<'i, 't> {
    pub fn token(&self) -> &'i Token<'t, ExpressionMetadata>
        ensures { result.now ≡ self.now.token }
    {
        self.token
    }
}

/// A neighbour of a token, and what was found at its side that faces the token. Without an edge,
/// there is no neighbour, and the token doesn't matter. Keeps a reference to the neighbour, which
/// takes less room than its side.
#[derive(Clone, Copy)]
pub(super) struct Neighbour<'i, 't> {
    token: &'i Token<'t, ExpressionMetadata>,
    edge: Option<Edge>,
}

impl<'i, 't> Neighbour<'i, 't> {
    /// Returns the token as a neighbour of the one that this end of it faces.
    fn at(end: End, token: &'i Token<'t, ExpressionMetadata>) -> Self
        ensures { neighbour_side result ≡ Some (side_of end token.now) }
    {
        Neighbour {
            token,
            edge: Some(found_at(end, token)),
        }
    }

    /// Returns the side that faces the token, or `None` if there is no neighbour.
    pub(super) fn side(&self) -> Option<Side>
        ensures { result ≡ neighbour_side self.now }
    {
        let edge = self.edge?;
        Some(Side {
            span: self.token.annotation().span(),
            has_boundary: edge.boundary,
            has_zero_or_more: edge.zero_or_more,
        })
    }
}

/// An end of a token.
#[derive(Clone, Copy)]
enum End {
    Start,
    Finish,
}

impl End {
    /// Returns the token at this end of a sequence.
    fn of<'i, 't>(
        self,
        tokens: &'i [Token<'t, ExpressionMetadata>],
    ) -> Option<&'i Token<'t, ExpressionMetadata>>
        ensures some { IfSome result (λ t. IsOutermost self tokens.now t.now) }
        ensures none { IsNone result → tokens.now ≡ [] }
    {
        match self {
            End::Start => tokens.first(),
            End::Finish => tokens.last(),
        }
    }
}

/// What was found at one side of a token: a boundary, a `*` or `$`, both (in different branches) or
/// neither.
#[derive(Clone, Copy)]
pub(super) struct Edge {
    boundary: bool,
    zero_or_more: bool,
}

impl Edge {
    const NOTHING: Edge = Edge {
        boundary: false,
        zero_or_more: false,
    };

    /// Returns what was found in one or the other.
    fn or(self, other: Edge) -> Edge
        ensures boundary { result.boundary ≡ (self.boundary || other.boundary) }
        ensures zero_or_more { result.zero_or_more ≡ (self.zero_or_more || other.zero_or_more) }
    {
        Edge {
            boundary: self.boundary || other.boundary,
            zero_or_more: self.zero_or_more || other.zero_or_more,
        }
    }
}

fn found_in_leaf(leaf: &LeafKind<'_>) -> Edge
    ensures boundary { result.boundary ≡ is_boundary_leaf (leaf_of leaf.now) }
    ensures zero_or_more { result.zero_or_more ≡ is_zero_or_more_leaf (leaf_of leaf.now) }
{
    Edge {
        boundary: leaf.is_boundary(),
        zero_or_more: leaf.is_zero_or_more(),
    }
}

/// Returns what the tokens at this end, bodies and branches lead to.
#[cycle(found_at)]
fn found_at<'t>(end: End, token: &Token<'t, ExpressionMetadata>) -> Edge
    ensures boundary { result.boundary ≡ is_found_at end is_boundary_leaf token.now }
    ensures zero_or_more { result.zero_or_more ≡ is_found_at end is_zero_or_more_leaf token.now }
{
    match token.topology() {
        Topology::Branch(branch) => match branch {
            BranchKind::Alternation(a) => found_at_any(end, a.tokens.as_slice()),
            BranchKind::Concatenation(c) => match end.of(c.tokens.as_slice()) {
                Some(outermost) => found_at(end, outermost),
                None => Edge::NOTHING,
            },
            BranchKind::Repetition(r) => found_at(end, &r.token),
        },
        Topology::Leaf(leaf) => found_in_leaf(leaf),
    }
}

/// Returns what is found at this end of any of the tokens.
#[cycle(found_at)]
#[tactic(auto, using(wax_token::proofs::Sizes::element_size))]
fn found_at_any<'t>(end: End, tokens: &[Token<'t, ExpressionMetadata>]) -> Edge
    ensures boundary { result.boundary ≡ is_found_at_some end is_boundary_leaf (trees tokens.now) }
    ensures zero_or_more { result.zero_or_more
        ≡ is_found_at_some end is_zero_or_more_leaf (trees tokens.now) }
{
    let mut found = Edge::NOTHING;
    for token in tokens {
        found = found.or(found_at(end, token));
    }
    found
}

/// Returns the neighbour to the right of the token before `index`: the token at `index`, or at the
/// end of the sequence the neighbour of the branch around it.
fn right_of<'i, 't>(
    tokens: &'i [Token<'t, ExpressionMetadata>],
    index: usize,
    outer: Neighbour<'i, 't>,
) -> Neighbour<'i, 't>
    ensures { neighbour_side result
        ≡ right_of (trees (drop index tokens.now)) (neighbour_side outer.entry) }
{
    match tokens.get(index) {
        Some(token) => Neighbour::at(End::Start, token),
        None => outer,
    }
}

/// Appends the token unless it is a leaf.
fn push_branch<'i, 't>(
    row: &mut Vec<Situated<'i, 't>>,
    token: Situated<'i, 't>,
) -> Result<(), AllocError>
    ensures { OnOk result (row.new.items ≡ row.old.items ++ only_branches (token.entry ∷ [])) }
{
    if token.token().as_branch().is_some() {
        row.push(token)?;
    }
    Ok(())
}

/// Appends the branches among the tokens of a concatenation. Each token is the neighbour of the
/// next.
fn push_siblings<'i, 't>(
    row: &mut Vec<Situated<'i, 't>>,
    tokens: &'i [Token<'t, ExpressionMetadata>],
    left: Neighbour<'i, 't>,
    right: Neighbour<'i, 't>,
) -> Result<(), AllocError>
    ensures { OnOk result
        (row.new.items ≡ row.old.items ++ only_branches
        (siblings (neighbour_side left.entry) (neighbour_side right.entry) (trees tokens.now))) }
{
    let mut before = left;
    for index in 0..tokens.len() {
        let token = &tokens[index];
        let after = right_of(tokens, index + 1, right);
        push_branch(
            row,
            Situated {
                token,
                left: before,
                right: after,
            },
        )?;
        before = Neighbour::at(End::Finish, token);
    }
    Ok(())
}

/// Appends the branches among the tokens of an alternation. They all have the alternation's
/// neighbours.
fn push_alternatives<'i, 't>(
    row: &mut Vec<Situated<'i, 't>>,
    tokens: &'i [Token<'t, ExpressionMetadata>],
    left: Neighbour<'i, 't>,
    right: Neighbour<'i, 't>,
) -> Result<(), AllocError>
    ensures { OnOk result
        (row.new.items ≡ row.old.items ++ only_branches
        (branches (neighbour_side left.entry) (neighbour_side right.entry) (trees tokens.now))) }
{
    for token in tokens {
        push_branch(row, Situated { token, left, right })?;
    }
    Ok(())
}

/// Appends the branches among the tokens inside the token at the index.
fn push_children<'i, 't>(row: &mut Vec<Situated<'i, 't>>, index: usize) -> Result<(), AllocError>
    requires { index < length row.old.items }
    ensures { OnOk result
        (row.new.items ≡ row.old.items ++ only_branches (queue_children row.old.items index)) }
{
    let here = &row[index];
    let (token, left, right) = (here.token, here.left, here.right);
    match token.topology() {
        Topology::Branch(branch) => match branch {
            BranchKind::Alternation(a) => push_alternatives(row, a.tokens.as_slice(), left, right),
            BranchKind::Concatenation(c) => push_siblings(row, c.tokens.as_slice(), left, right),
            BranchKind::Repetition(r) => push_branch(
                row,
                Situated {
                    token: &r.token,
                    left,
                    right,
                },
            ),
        },
        Topology::Leaf(_) => Ok(()),
    }
}

/// Appends the branches among the tokens inside each of the tokens from the index on: those of the
/// next level.
fn push_level<'i, 't>(row: &mut Vec<Situated<'i, 't>>, from: usize) -> Result<(), AllocError>
    requires { from ≤ length row.old.items }
    ensures { OnOk result (row.new.items
        ≡ row.old.items ++ only_branches (flat_map children (drop from row.old.items))) }
{
    for index in from..row.len() {
        push_children(row, index)?;
    }
    Ok(())
}

/// Lists the tokens of a glob that contain tokens, breadth first. Leaves take no room.
pub(super) fn breadth_first<'i, 't>(
    alloc: Global,
    whole: &'i Token<'t, ExpressionMetadata>,
) -> Result<Vec<Situated<'i, 't>>, AllocError>
    ensures { IfOk result (λ row. row.items ≡ only_branches (breadth_first whole.now)) }
{
    let mut row = Vec::new(alloc);
    let nothing = Neighbour {
        token: whole,
        edge: None,
    };
    push_branch(
        &mut row,
        Situated {
            token: whole,
            left: nothing,
            right: nothing,
        },
    )?;
    let mut from = 0;
    while from < row.len() {
        let to = row.len();
        push_level(&mut row, from)?;
        from = to;
    }
    Ok(row)
}
