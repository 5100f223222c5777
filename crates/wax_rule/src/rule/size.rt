//! Fixed sizes of tokens, in bytes. A character that can vary, as of `?` or a class, counts as 4.
ghost use Rattle.std.specs.Prelude.{◌≡◌, IfOk, chars};
ghost use Rattle.wax_token.specs.{Reads.utf8_len, View.leaf_of, Words.trees};
ghost use Rattle.wax_facts.specs.Sizes.{are_of_size, common_size, fixed_size, is_oversized, leaf_size};
ghost use Rattle.wax_facts.specs.Sizes.{saturated_size, size_of_copies, total_size};

use super::natural::Natural;
use std::alloc::{AllocError, Global};
use wax_query::diagnostics::NoMemory;
use wax_token::token::{BranchKind, ExpressionMetadata, LeafKind, Token, Topology, Wildcard};

/// The least fixed size, in bytes, that is an error.
const OVERSIZED: u64 = 65_536;

/// Returns whether the token has a fixed size of at least `OVERSIZED`.
pub(super) fn is_oversized<'t>(
    alloc: Global,
    token: &Token<'t, ExpressionMetadata>,
) -> Result<bool, AllocError>
    ensures { IfOk result (λ b. b ≡ is_oversized token.now) }
{
    match fixed_size(alloc, token)? {
        None => Ok(false),
        Some(size) => Ok(size.is_at_least(OVERSIZED)),
    }
}

/// Returns the fixed size of a token in bytes, or `None` if it has none, as `*`, `$` and `**`. A
/// class and `?` count as 4. A size that exceeds 64 bits is returned as `usize::MAX`.
///
/// # Errors
///
/// Returns `NoMemory` if allocation fails. Only sizes of 2^64 or more allocate.
pub fn size<'t, A>(alloc: Global, token: &Token<'t, A>) -> Result<Option<usize>, NoMemory>
    ensures { IfOk result (λ size. size ≡ saturated_size token.now) }
{
    match fixed_size(alloc, token)? {
        None => Ok(None),
        Some(size) => Ok(Some(size.saturated())),
    }
}

#[cycle(sizes)]
fn fixed_size<'t, A>(alloc: Global, token: &Token<'t, A>) -> Result<Option<Natural>, AllocError>
    ensures { IfOk result (λ n. n ≡ fixed_size token.now) }
{
    match token.topology() {
        Topology::Branch(branch) => match branch {
            BranchKind::Alternation(a) => common_size(alloc, a.tokens.as_slice()),
            BranchKind::Concatenation(c) => total_size(alloc, c.tokens.as_slice()),
            BranchKind::Repetition(r) => {
                let body = fixed_size(alloc, &r.token)?;
                size_of_copies(alloc, r.lower, r.upper, body)
            }
        },
        Topology::Leaf(leaf) => match leaf_size(leaf) {
            None => Ok(None),
            Some(size) => Ok(Some(Natural::new(alloc, size))),
        },
    }
}

/// Returns the sum of the fixed sizes of tokens, if all of them have one.
#[cycle(sizes)]
#[tactic(auto, using(wax_token::proofs::Sizes::element_size))]
fn total_size<'t, A>(alloc: Global, tokens: &[Token<'t, A>]) -> Result<Option<Natural>, AllocError>
    ensures { IfOk result (λ n. n ≡ total_size (trees tokens.now)) }
{
    let mut total = Natural::new(alloc, 0);
    for token in tokens {
        let Some(size) = fixed_size(alloc, token)? else {
            return Ok(None);
        };
        total = size.times_plus(alloc, 1, &total)?;
    }
    Ok(Some(total))
}

/// Returns the fixed size that all branches share, or `None` if they differ or there are none.
#[cycle(sizes)]
fn common_size<'t, A>(alloc: Global, tokens: &[Token<'t, A>]) -> Result<Option<Natural>, AllocError>
    ensures { IfOk result (λ n. n ≡ common_size (trees tokens.now)) }
{
    let Some((first, others)) = tokens.split_first() else {
        return Ok(None);
    };
    let Some(common) = fixed_size(alloc, first)? else {
        return Ok(None);
    };
    let agree = are_of_size(alloc, &common, others)?;
    Ok(if agree { Some(common) } else { None })
}

#[cycle(sizes)]
#[tactic(auto, using(wax_token::proofs::Sizes::element_size))]
fn are_of_size<'t, A>(
    alloc: Global,
    size: &Natural,
    tokens: &[Token<'t, A>],
) -> Result<bool, AllocError>
    ensures { IfOk result (λ b. b ≡ are_of_size size.now (trees tokens.now)) }
{
    for token in tokens {
        let Some(other) = fixed_size(alloc, token)? else {
            return Ok(false);
        };
        if !other.equals(size) {
            return Ok(false);
        }
    }
    Ok(true)
}

/// Returns the fixed size of a repetition whose body has `size`. It has none if the number of
/// copies varies.
fn size_of_copies(
    alloc: Global,
    lower: usize,
    upper: Option<usize>,
    size: Option<Natural>,
) -> Result<Option<Natural>, AllocError>
    ensures { IfOk result (λ n. n ≡ size_of_copies lower upper size) }
{
    let Some(size) = size else {
        return Ok(None);
    };
    if upper != Some(lower) {
        return Ok(None);
    }
    let copies = size.times_plus(alloc, lower as u64, &Natural::new(alloc, 0))?;
    Ok(Some(copies))
}

fn leaf_size(leaf: &LeafKind<'_>) -> Option<u64>
    ensures { result ≡ leaf_size (leaf_of leaf.now) }
{
    match leaf {
        LeafKind::Class(_) => Some(4),
        LeafKind::Literal(literal) => Some(count_bytes(literal.text())),
        LeafKind::Separator(_) => Some(1),
        LeafKind::Wildcard(wildcard) => match wildcard {
            Wildcard::One => Some(4),
            Wildcard::ZeroOrMore(_) => None,
            Wildcard::Tree { has_root: _ } => None,
        },
    }
}

fn count_bytes(text: &str) -> u64
    ensures { result ≡ utf8_len (chars text.now) }
{
    text.len() as u64
}
