//! Prefixes of globs, split into names.
ghost use Rattle.std.specs.Prelude.{◌≡◌, ◌↔◌, ◌∷◌, [], ℕ, Bool, IfOk, IsTrue, List, MatchOption, chars};
ghost use Rattle.std.specs.Prelude.{false, map, string_bytes};
ghost use Rattle.wax_directory.specs.Names.{is_rooted, names_in_path};
ghost use Rattle.wax_facts.specs.Prefix.{Prefix};
ghost use Rattle.wax_token.specs.{Reads.Span, Syntax.alternation, Words.trees};
ghost use Rattle.wax_tree.specs.Prefix.{from_last};
ghost use Rattle.wax_exclude.specs.Premises.{BeginsWith, IsUnmeant};
ghost use Rattle.wax_exclude.specs.Prefix.{HasEmptyName, IsCommonPrefix, PrefixSplitsInto, SplitsInto};
ghost use Rattle.wax_exclude.specs.inner.Shared.{IsCommonBeginning, NarrowsTo, ShareNothing};

use std::alloc::{AllocError, Global};
use wax_facts::invariant_text_prefix;
use wax_query::diagnostics::NoMemory;
use wax_token::token::{ExpressionMetadata, Token};

/// Where the walk of a glob begins: at the names of the glob's prefix, below the root or below the
/// start. The first name is the last in the list, so that names can be popped.
#[derive(Drop)]
pub struct PrefixNames {
    pub is_rooted: bool,
    pub names: Vec<String>,
}

/// Splits the prefix of a glob into names, with which every path that matches begins. It is rooted
/// if the prefix begins with `/`. Returns `None` if two `/` are side by side in the prefix: no path
/// of names matches then. It takes time and memory in proportion to the texts of the tokens.
pub fn prefix_names_of<'t>(
    alloc: Global,
    token: &Token<'t, ExpressionMetadata>,
) -> Result<Option<PrefixNames>, NoMemory>
    ensures prefix { IfOk result (λ _. (n : ℕ) × (p : List ℕ) × Prefix token.now n p) }
    ensures names { IfOk result (λ prefix_names. (n : ℕ) (p : List ℕ) → Prefix token.now n p
        → MatchOption prefix_names (HasEmptyName p)
        (λ w. PrefixSplitsInto p w.is_rooted (from_last w.names.items))) }
    ensures meant { IfOk result (λ prefix_names. MatchOption prefix_names
        ((rooted : Bool) → IsUnmeant rooted token.now)
        (λ w. BeginsWith w.is_rooted token.now (map chars (from_last w.names.items)))) }
{
    let (_, prefix) = invariant_text_prefix(alloc, token)?;
    split_prefix(alloc, prefix.as_str())
}

/// Finds where the walk of several globs begins: at the longest list of names with which all their
/// prefixes begin, if all of them are rooted or none is. Otherwise there are no names, and the walk
/// isn't rooted. A glob with two `/` side by side in its prefix is passed over: no path of names
/// matches it. It takes time and memory in proportion to the texts of the tokens.
pub fn common_prefix_of<'t>(
    alloc: Global,
    tokens: &[Token<'t, ExpressionMetadata>],
) -> Result<PrefixNames, NoMemory>
    ensures common { IfOk result (λ w.
        IsCommonPrefix tokens.now w.is_rooted (from_last w.names.items)) }
    ensures meant { IfOk result (λ w. (a : Span) → BeginsWith w.is_rooted
        (alternation a (trees tokens.now)) (map chars (from_last w.names.items))) }
{
    let mut shared = None;
    for token in tokens {
        if let Some(own) = prefix_names_of(alloc, token)? {
            match narrowed(alloc, shared, own)? {
                Some(narrower) => shared = Some(narrower),
                None => return Ok(no_names(alloc)),
            }
        }
    }
    Ok(shared.unwrap_or(no_names(alloc)))
}

fn no_names(alloc: Global) -> PrefixNames
    ensures { (result.is_rooted ≡ false) × (from_last result.names.items ≡ []) }
{
    PrefixNames {
        is_rooted: false,
        names: Vec::new(alloc),
    }
}

// Returns what is shared with one prefix more, or `None` if only one of the two is rooted.
fn narrowed(
    alloc: Global,
    shared: Option<PrefixNames>,
    own: PrefixNames,
) -> Result<Option<PrefixNames>, AllocError>
    ensures { IfOk result (λ narrower. NarrowsTo shared own narrower) }
{
    let Some(shared) = shared else {
        return Ok(Some(own));
    };
    if shared.is_rooted != own.is_rooted {
        return Ok(None);
    }
    Ok(Some(PrefixNames {
        is_rooted: shared.is_rooted,
        names: shared_names(alloc, shared.names, own.names)?,
    }))
}

// Returns the longest names with which both begin. The first name is the last in each list.
fn shared_names(
    alloc: Global,
    mut names: Vec<String>,
    mut others: Vec<String>,
) -> Result<Vec<String>, AllocError>
    ensures { IfOk result (λ shared. IsCommonBeginning (from_last names.items)
        (from_last others.items) (from_last shared.items)) }
{
    let mut shared = Vec::new(alloc);
    while let Some(name) = pop_shared(&mut names, &mut others) {
        shared.push(name)?;
    }
    shared.reverse();
    Ok(shared)
}

// Takes the first name from both lists, and returns it if it is the same.
fn pop_shared(names: &mut Vec<String>, others: &mut Vec<String>) -> Option<String>
    ensures { MatchOption result
        (ShareNothing (from_last names.old.items) (from_last others.old.items)) (λ name.
        (from_last names.old.items ≡ string_bytes name ∷ from_last names.new.items)
        × (from_last others.old.items ≡ string_bytes name ∷ from_last others.new.items)) }
{
    let name = names.pop()?;
    let other = others.pop()?;
    if name == other { Some(name) } else { None }
}

fn split_prefix(alloc: Global, prefix: &str) -> Result<Option<PrefixNames>, NoMemory>
    ensures { IfOk result (λ prefix_names. MatchOption prefix_names (HasEmptyName prefix.now)
        (λ w. ¬ (HasEmptyName prefix.now) × SplitsInto prefix.now w.is_rooted (from_last w.names.items))) }
{
    if has_empty_name(prefix.as_bytes()) {
        return Ok(None);
    }
    Ok(Some(PrefixNames {
        is_rooted: begins_with_slash(prefix.as_bytes()),
        names: names_from_last(alloc, prefix)?,
    }))
}

// Returns whether two `/` are side by side.
fn has_empty_name(text: &[u8]) -> bool
    ensures { IsTrue result ↔ HasEmptyName text.now }
{
    let mut rest = text;
    while let Some((first, others)) = rest.split_first() {
        if *first == b'/' && begins_with_slash(others) {
            return true;
        }
        rest = others;
    }
    false
}

fn begins_with_slash(bytes: &[u8]) -> bool
    ensures { result ≡ is_rooted bytes.now }
{
    match bytes {
        [first, ..] => *first == b'/',
        [] => false,
    }
}

// Splits a path into its names, without empty parts.
fn names_in(alloc: Global, path: &str) -> Result<Vec<&str>, AllocError>
    ensures { IfOk result (λ v. map (λ x. x.now) v.items ≡ names_in_path path.now) }
{
    path.split('/')
        .filter(|name| !name.is_empty())
        .collect(alloc)
}

// Splits a path into its names, the first one last.
fn names_from_last(alloc: Global, path: &str) -> Result<Vec<String>, AllocError>
    ensures { IfOk result (λ names. from_last names.items ≡ names_in_path path.now) }
{
    let names = names_in(alloc, path)?;
    let mut copies = Vec::with_capacity(alloc, names.len())?;
    for name in &names {
        copies.push(String::from_str(alloc, name)?)?;
    }
    copies.reverse();
    Ok(copies)
}
