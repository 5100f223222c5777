//! Expressions and their tokens.

pub mod walk;

pub use wax_components::{Component, LiteralSequence, capture_count, captures};
pub use wax_fold::any;
pub use wax_fold::walk::{fold, fold_map};
pub use wax_parse::parse::{ErrorEntry, ParseError, parse};
pub use wax_partition::{LiteralExt, Partitioned, TokenExt, partition};
pub use wax_token::token::{
    Alternation, Annotation, Archetype, Boundary, BranchKind, Class, Composition, Concatenation,
    ConcatenationTree, Evaluation, ExpressionMetadata, LeafKind, Literal,
    ROOT_SEPARATOR_EXPRESSION, Repetition, Separator, Sides, Token, TokenComposition,
    TokenTopology, TokenTree, Tokenized, Topology, Wildcard, new_branch, new_leaf,
};
