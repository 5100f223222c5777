//! What is known of a token and made of it, as methods.
ghost use Rattle.std.specs.Prelude.{◌≡◌, ◌↔◌, ◌<◌, ◌≤◌, ◌∷◌, ◌++◌, [], ℕ, Bool, List, All, IfOk, IfSome};
ghost use Rattle.std.specs.Prelude.{IsTrue, MatchOption, chars, false, string_bytes};
ghost use Rattle.wax_facts.specs.{Alternatives.{MeansOneOf, alternatives}, Sizes.saturated_size};
ghost use Rattle.wax_facts.specs.{Exhaustive.exhaustive, InvariantText.{NoText, Text, VariesInCase}};
ghost use Rattle.wax_facts.specs.{Joined.Front, Prefix.Prefix, Root.root};
ghost use Rattle.wax_components.specs.Bounds.{BoundsComponents, SaturatedBounds};
ghost use Rattle.wax_components.specs.{Depth.{Depth, SaturatedDepth}, Levels.{globs_at, literals}};
ghost use Rattle.wax_components.specs.{Parts.{IsComponent, components}, TopLevel.tokens_of};
ghost use Rattle.wax_query.specs.{Components.BeginsWithSlash, Ranges.bounds};
ghost use Rattle.wax_query.specs.declared.query.when.When.TheVariants.{Always};
ghost use Rattle.wax_token.specs.{Cost.cost, Meaning.Means, Syntax.{Tree, tree_size}};

use std::alloc::Global;
use wax_components::{Component, LiteralSequence};
use wax_query::diagnostics::NoMemory;
use wax_query::query::{DepthVariance, When};
use wax_token::token::{Annotation, Literal, Token};

/// Facts about all paths that a token matches, and what can be made of a token.
pub trait TokenExt<'t, A: Annotation>: Sized {
    /// The token's tree.
    ghost tree: { Self → Tree A };

    /// Returns the components: each of the longest runs of top-level tokens without separators and
    /// `**`, and each `**` by itself. For `a/x*/**` they are `a`, `x*` and `**`. Components inside
    /// alternations and repetitions don't count.
    ///
    /// Allocates the list. Takes time linear in the top-level tokens.
    fn components<'i>(&'i self, alloc: Global) -> Result<Vec<Component<'i, 't, A>>, NoMemory>
        ensures all { IfOk result (λ cs. cs.items ≡ components (tree self.now)) }
        ensures longest { IfOk result (λ cs. All (IsComponent (tokens_of (tree self.now))) cs.items) };

    /// Returns the components that are literals, with their texts: those of the glob and those of
    /// its sub-globs, level by level. For `a/{b,c*}` they are `a` and `b`.
    ///
    /// Allocates the list and two levels of sub-globs. Takes time linear in the tokens.
    fn literals<'i>(
        &'i self,
        alloc: Global,
    ) -> Result<Vec<(Component<'i, 't, A>, LiteralSequence<'i, 't, A>)>, NoMemory>
        ensures all { IfOk result (λ ls. ls.items ≡ literals (tree self.now)) }
        ensures deepest { (n : ℕ) → tree_size (tree self.now) < n → globs_at n (tree self.now) ≡ [] };

    /// Returns the least and the greatest number of components of the paths that the token matches.
    /// No match has more components than the greatest. No match has fewer than the least, unless it
    /// is empty or has a `/` at an end. A number that exceeds 64 bits is returned as `usize::MAX`;
    /// this can't happen for a token that costs at most 1,048,575, the limit of a glob.
    ///
    /// Takes time linear in the tokens and their literals. Doesn't allocate.
    fn depth(&self) -> DepthVariance
        ensures depth { cost (tree self.now) ≤ 1048575 → Depth (tree self.now) (bounds result) }
        ensures bounds { cost (tree self.now) ≤ 1048575
            → BoundsComponents (tree self.now) (bounds result) }
        ensures saturated_depth { SaturatedDepth (tree self.now) (bounds result) }
        ensures saturated_bounds { SaturatedBounds (tree self.now) (bounds result) };

    /// Returns the only text that the token matches, or `None` if it isn't written as one text.
    fn text(&self, alloc: Global) -> Result<Option<String>, NoMemory>
        ensures exact { IfOk result (λ found. MatchOption found (NoText (Text (tree self.now))) (λ t.
            Text (tree self.now) (chars (string_bytes t)))) }
        ensures only { IfOk result (λ found. IfSome found (λ t. (s : List ℕ)
            → Means (tree self.now) false false s → s ≡ chars (string_bytes t))) };

    /// Returns the fixed size in bytes, or `None` if there is none, as for `*`, `$` and `**`. A
    /// class and `?` count as 4. A size that exceeds 64 bits is returned as `usize::MAX`.
    ///
    /// # Errors
    ///
    /// Returns `NoMemory` if allocation fails. Only sizes of 2^64 or more allocate.
    fn size(&self, alloc: Global) -> Result<Option<usize>, NoMemory>
        ensures { IfOk result (λ size. size ≡ saturated_size (tree self.now)) };

    /// Returns how many tokens the prefix takes, and the prefix, with which every path that the
    /// token matches begins. A last alternation of one branch, or a last repetition of exactly one
    /// copy, counts as the tokens in it.
    fn invariant_text_prefix(&self, alloc: Global) -> Result<(usize, String), NoMemory>
        ensures prefix { IfOk result (λ r. Prefix (tree self.now) r.0 (chars (string_bytes r.1))) }
        ensures only { IfOk result (λ r. (n : ℕ) (p : List ℕ) → Prefix (tree self.now) n p
            → (n ≡ r.0) × (p ≡ chars (string_bytes r.1))) }
        ensures front { IfOk result (λ r. (s : List ℕ)
            → Means (tree self.now) false false s → Front (chars (string_bytes r.1)) s) };

    /// Returns `Always` if every path that the token matches begins with `/`. Nothing is promised
    /// for `Sometimes` and `Never`.
    fn has_root(&self) -> When
        ensures value { result ≡ root (tree self.now) }
        ensures always { result ≡ Always → (s : List ℕ)
            → Means (tree self.now) false false s → BeginsWithSlash s };

    /// Returns `Always` if the token matches everything below its matches, too: any match, followed
    /// by a `/` and any text. Nothing is promised for `Sometimes` and `Never`.
    fn is_exhaustive(&self) -> When
        ensures value { result ≡ exhaustive (tree self.now) }
        ensures always { result ≡ Always → (s r : List ℕ) → Means (tree self.now) false false s
            → Means (tree self.now) false false (s ++ 47 ∷ r) };

    /// Splits the token into alternatives, each of which is a glob of its own. Those of `{a,b}` are
    /// `a` and `b`. Any other token is its only alternative.
    ///
    /// Takes time and memory linear in the tokens.
    fn into_alternatives(self, alloc: Global) -> Result<Vec<Token<'t, A>>, NoMemory>
    where
        A: Drop,
        ensures all { IfOk result (λ ts. ts.items ≡ alternatives (tree self)) }
        ensures means { IfOk result (λ ts. MeansOneOf (tree self) ts.items) };
}

impl<'t, A: Annotation> TokenExt<'t, A> for Token<'t, A> {
    ghost tree = { λ t. t };

    fn components<'i>(&'i self, alloc: Global) -> Result<Vec<Component<'i, 't, A>>, NoMemory> {
        wax_components::components(alloc, self)
    }

    fn literals<'i>(
        &'i self,
        alloc: Global,
    ) -> Result<Vec<(Component<'i, 't, A>, LiteralSequence<'i, 't, A>)>, NoMemory> {
        wax_components::literals(alloc, self)
    }

    fn depth(&self) -> DepthVariance {
        wax_components::depth(self)
    }

    fn text(&self, alloc: Global) -> Result<Option<String>, NoMemory> {
        wax_facts::text(alloc, self)
    }

    fn size(&self, alloc: Global) -> Result<Option<usize>, NoMemory> {
        wax_rule::size(alloc, self)
    }

    fn invariant_text_prefix(&self, alloc: Global) -> Result<(usize, String), NoMemory> {
        wax_facts::invariant_text_prefix(alloc, self)
    }

    fn has_root(&self) -> When {
        wax_facts::has_root(self)
    }

    fn is_exhaustive(&self) -> When {
        wax_facts::is_exhaustive(self)
    }

    fn into_alternatives(self, alloc: Global) -> Result<Vec<Token<'t, A>>, NoMemory>
    where
        A: Drop,
    {
        wax_facts::into_alternatives(alloc, self)
    }
}

/// What is known of a literal.
pub trait LiteralExt {
    /// The literal, as contracts see it.
    ghost literal: { Self → Bool × List ℕ };

    /// Returns whether the literal matches more than one text: it has the flag `i`, and one of its
    /// characters has another case.
    fn has_variant_casing(&self) -> bool
        ensures { IsTrue result ↔ VariesInCase (literal self.now) };
}

impl LiteralExt for Literal<'_> {
    ghost literal = { λ l. l };

    fn has_variant_casing(&self) -> bool {
        wax_facts::has_variant_casing(self)
    }
}
