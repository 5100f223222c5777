//! What is around a glob in the expression, and ends it.
ghost use Rattle.std.specs.Prelude.{◌≡◌, ◌+◌, MatchOption, chars};
ghost use Rattle.wax_parse.specs.inner.Parser.{around_of, is_end};

use crate::parse::text::split_first;

/// What contains a glob.
#[derive(Clone, Copy)]
pub(super) enum Around {
    /// The end of the expression ends it.
    Whole,
    /// `,` or `}` ends it.
    InAlternation,
    /// `:` or `>` ends it.
    InRepetition,
}

impl Around {
    /// Returns whether the glob ends before `text`, the rest of the expression.
    pub(super) fn is_end(self, text: &str) -> bool
        ensures { result ≡ is_end (around_of self) (chars text.now) }
    {
        match split_first(text) {
            None => matches!(self, Around::Whole),
            Some((c, _)) => match self {
                Around::Whole => false,
                Around::InAlternation => matches!(c, ',' | '}'),
                Around::InRepetition => matches!(c, ':' | '>'),
            },
        }
    }
}

/// The whole expression, what contains the glob that is being read, and how many levels of globs
/// may still nest in it.
#[derive(Clone, Copy)]
pub(super) struct Scope<'t> {
    pub(super) expression: &'t str,
    pub(super) around: Around,
    pub(super) depth: usize,
}

impl<'t> Scope<'t> {
    /// Returns the scope of the globs in a branch, or `None` if they would nest too deep.
    pub(super) fn inside(self, around: Around) -> Option<Scope<'t>>
        ensures { MatchOption result (self.entry.depth ≡ 0)
            (λ s. (s.expression.now ≡ self.entry.expression.now) × (s.around ≡ around)
            × (s.depth + 1 ≡ self.entry.depth)) }
    {
        let depth = self.depth.checked_sub(1)?;
        Some(Scope {
            around,
            depth,
            ..self
        })
    }
}
