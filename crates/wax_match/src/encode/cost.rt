//! The cost of tokens, which is computed before any instruction is written.
ghost use Rattle.std.specs.{Prelude.{◌≡◌, ◌+◌, ◌-◌, ◌*◌, ◌^◌, ℕ, length, min}, Str.chars};
ghost use Rattle.wax_match.specs.inner.Limits.{longest};
ghost use Rattle.wax_token.specs.Cost.{branches_cost, copies_of, cost, costs, holds_tree, is_tree, leaf_cost};
ghost use Rattle.wax_token.specs.{Cost.some_holds_tree, View.leaf_of, Words.trees};

use wax_token::token::{BranchKind, LeafKind, Token, Topology, Wildcard};

/// The greatest length of a program.
pub const LONGEST: usize = 1_048_576;

/// The cost of tokens, at most `LONGEST`, and whether they contain a `**` at any depth.
#[derive(Clone, Copy)]
pub struct Weight {
    pub cost: usize,
    pub holds_tree: bool,
}

/// Returns the weight of a token.
#[cycle(weigh)]
pub fn weigh<'t, A>(token: &Token<'t, A>) -> Weight
    ensures cost { result.cost ≡ min (cost token.now) longest }
    ensures holds_tree { result.holds_tree ≡ holds_tree token.now }
{
    match token.topology() {
        Topology::Branch(branch) => match branch {
            BranchKind::Alternation(a) => weigh_branches(a.tokens.as_slice()),
            BranchKind::Concatenation(c) => weigh_all(c.tokens.as_slice()),
            BranchKind::Repetition(r) => repeated(weigh(&r.token), r.lower, r.upper),
        },
        Topology::Leaf(leaf) => weigh_leaf(leaf),
    }
}

/// Returns the weight of an alternation of tokens.
#[cycle(weigh)]
fn weigh_branches<'t, A>(tokens: &[Token<'t, A>]) -> Weight
    ensures cost { result.cost ≡ min (1 + branches_cost (trees tokens.now)) longest }
    ensures holds_tree { result.holds_tree ≡ some_holds_tree (trees tokens.now) }
{
    with_forks(weigh_all(tokens), tokens.len())
}

/// Returns the weight of tokens one after another.
#[cycle(weigh)]
#[tactic(auto, using(wax_token::proofs::Sizes::element_size))]
pub fn weigh_all<'t, A>(tokens: &[Token<'t, A>]) -> Weight
    ensures cost { result.cost ≡ min (costs (trees tokens.now)) longest }
    ensures holds_tree { result.holds_tree ≡ some_holds_tree (trees tokens.now) }
{
    let mut cost = 0;
    let mut holds_tree = false;
    for token in tokens {
        let weight = weigh(token);
        cost = (cost + weight.cost).min(LONGEST);
        holds_tree = holds_tree || weight.holds_tree;
    }
    Weight { cost, holds_tree }
}

fn weigh_leaf(leaf: &LeafKind<'_>) -> Weight
    ensures cost { result.cost ≡ min (leaf_cost (leaf_of leaf.now)) longest }
    ensures holds_tree { result.holds_tree ≡ is_tree (leaf_of leaf.now) }
{
    let cost = match leaf {
        LeafKind::Class(_) => 1,
        LeafKind::Literal(literal) => count_chars(literal.text()),
        LeafKind::Separator(_) => 1,
        LeafKind::Wildcard(wildcard) => match wildcard {
            Wildcard::One => 1,
            Wildcard::ZeroOrMore(_) => 3,
            Wildcard::Tree { has_root: _ } => 6,
        },
    };
    Weight {
        cost: cost.min(LONGEST),
        holds_tree: leaf_is_tree(leaf),
    }
}

fn count_chars(text: &str) -> usize
    ensures { result ≡ length (chars text.now) }
{
    text.chars().count()
}

fn leaf_is_tree(leaf: &LeafKind<'_>) -> bool
    ensures { result ≡ is_tree (leaf_of leaf.now) }
{
    match leaf {
        LeafKind::Wildcard(wildcard) => matches!(wildcard, Wildcard::Tree { has_root: _ }),
        _ => false,
    }
}

/// Returns the weight of an alternation of `count` branches, from the weight of all of them.
fn with_forks(branches: Weight, count: usize) -> Weight
    ensures cost { (c : ℕ) → branches.cost ≡ min c longest → result.cost ≡ min (1 + c + 2 * count) longest }
    ensures holds_tree { result.holds_tree ≡ branches.holds_tree }
{
    let forks = count.saturating_mul(2).saturating_add(1);
    Weight {
        cost: forks.saturating_add(branches.cost).min(LONGEST),
        holds_tree: branches.holds_tree,
    }
}

/// Returns the weight of a repetition, from that of its body.
fn repeated(body: Weight, lower: usize, upper: Option<usize>) -> Weight
    ensures cost { (c : ℕ) → body.cost ≡ min c longest
        → result.cost ≡ min (copies_of lower upper body.holds_tree * (c + 2) + 2) longest }
    ensures holds_tree { result.holds_tree ≡ body.holds_tree }
{
    let copies = copies_of(lower, upper, body.holds_tree);
    let cost = copies.saturating_mul(body.cost.saturating_add(2));
    Weight {
        cost: cost.saturating_add(2).min(LONGEST),
        holds_tree: body.holds_tree,
    }
}

/// Returns how many copies of a body are written, at most `usize::MAX`.
fn copies_of(lower: usize, upper: Option<usize>, holds_tree: bool) -> usize
    ensures { result ≡ min (copies_of lower upper holds_tree) (2 ^ 64 - 1) }
{
    let copies = match upper {
        None => lower.saturating_add(1),
        Some(upper) => upper,
    };
    if holds_tree {
        copies.saturating_add(3)
    } else {
        copies
    }
}
