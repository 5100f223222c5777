//! Forms: sets of texts that a token can take.
ghost use Rattle.std.specs.Prelude.{◌≤◌};
ghost use Rattle.wax_lengths.specs.Forms.{form_size};

use wax_program::CompiledProgram;
use wax_program::instruction::Test;
use wax_token::token::Sides;

/// A set of texts that a token can take. The sets that globs have most often need no program.
#[derive(Drop)]
pub enum Form {
    /// One character that passes the test.
    One(Test),
    /// Exactly these characters; if the flag is set, any characters with these simple case
    /// foldings.
    Text(Vec<char>, bool),
    /// Zero or more characters other than `/`.
    Name,
    /// The empty text, or `/`.
    SlashOrNothing,
    /// What a `**` matches, by what is around it.
    Tree {
        sides: Sides,
        has_root: bool,
    },
    /// So many characters, each of which passes the test: at least `low`, and at most `high` unless
    /// that is `None`.
    Run {
        test: Box<Test>,
        low: usize,
        high: Option<usize>,
    },
    /// The texts that a program accepts.
    Coded(CompiledProgram),
}

impl Form {
    /// Returns how often the form looks at a character at most, or less if 64 bits can't hold it.
    pub fn size(&self) -> usize
        ensures { result ≤ form_size self.now }
    {
        match self {
            Form::Text(letters, _) => letters.len(),
            Form::Tree { .. } => 2,
            Form::Coded(program) => program.len().saturating_sub(1),
            _ => 1,
        }
    }
}
