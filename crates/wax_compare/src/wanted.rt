//! What is looked for, and what is found.

use wax_program::CompiledProgram;

/// Says which of two programs have to select a text.
#[derive(Clone, Copy)]
pub enum Wanted {
    /// A text that both programs select.
    Both,
    /// A text that the first program selects and the second doesn't.
    FirstOnly,
    /// A text that one of the programs selects and the other doesn't.
    OneOnly,
}

/// Says which of the texts that a program accepts it selects.
#[derive(Clone, Copy)]
pub enum Criterion {
    /// All of them.
    Accepted,
    /// Those of whose patterns' numbers the greatest is odd. A program reports the numbers of its
    /// patterns only if each of them has an end of its own.
    OddLast,
}

/// A program, and which of the texts that it reads are selected.
#[derive(Clone, Copy)]
pub struct Selector<'a> {
    pub program: &'a CompiledProgram,
    pub criterion: Criterion,
}

/// Among which texts one is looked for.
#[derive(Clone, Copy)]
pub enum Texts {
    /// All texts.
    All,
    /// Paths as walks have them: one or more names, with a `/` between each two.
    Paths,
}

/// What is found.
#[derive(Debug, Drop)]
pub enum Comparison {
    /// No such text exists. This is proved.
    Nothing,
    /// Such a text. None is shorter.
    Text(String),
    /// Neither: the budget ran out first.
    Unknown,
}
