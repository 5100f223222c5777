//! Files with rules: a glob on each line.

use crate::files::text_in;
use std::alloc::Global;
use std::io::{self, ErrorKind};
use wax::walk::{WrittenLine, written_lines};
use wax::{Any, BuildError, Glob, any};

/// Rules, and the text of their file.
#[derive(Drop)]
pub struct RuleFile {
    pub text: String,
    /// The set of the rules, in the order of their lines.
    pub rules: Any<'static>,
}

impl RuleFile {
    /// Reads the rules in a file: lines as those of an ignore list, none of which begins with `!`. Prints
    /// what is wrong with it and returns `None` if it can't be read, isn't UTF-8, has a line with an
    /// error, or all its rules are too large for one set.
    ///
    /// # Errors
    ///
    /// Returns an error if memory runs out or a write fails.
    pub fn read(rt: &HostRuntime, file: &str) -> io::Result<Option<RuleFile>> {
        let Some(text) = text_in(rt, file)? else {
            return Ok(None);
        };
        let Some(rules) = rules_in(rt, file, &text)? else {
            return Ok(None);
        };
        Ok(Some(RuleFile { text, rules }))
    }
}

/// Builds the set of the rules in a text. Prints what is wrong with them and returns `None` if there is none.
fn rules_in(rt: &HostRuntime, file: &str, text: &str) -> io::Result<Option<Any<'static>>> {
    let Ok(written) = written_lines(rt.alloc(), text) else {
        return Err(io::Error::from(ErrorKind::OutOfMemory));
    };
    for line in &written {
        if !is_rule(rt, file, line)? {
            return Ok(None);
        }
    }
    match set_of(rt.alloc(), &written) {
        Ok(rules) => Ok(Some(rules)),
        Err(BuildError::Memory) => Err(io::Error::from(ErrorKind::OutOfMemory)),
        Err(error) => {
            eprintln!(rt; "globs_explain: {file}: {error}")?;
            Ok(None)
        }
    }
}

/// Returns whether a line is a rule. Prints what is wrong with it if it isn't.
fn is_rule(rt: &HostRuntime, file: &str, line: &WrittenLine<'_>) -> io::Result<bool> {
    let number = line.number;
    if !line.ignores {
        eprintln!(rt; "globs_explain: {file}:{number}: a rule can't begin with `!`")?;
        return Ok(false);
    }
    match Glob::new(rt.alloc(), line.expression) {
        Ok(_) => Ok(true),
        Err(BuildError::Memory) => Err(io::Error::from(ErrorKind::OutOfMemory)),
        Err(error) => {
            eprintln!(rt; "globs_explain: {file}:{number}: {error}")?;
            Ok(false)
        }
    }
}

fn set_of(alloc: Global, written: &[WrittenLine<'_>]) -> Result<Any<'static>, BuildError> {
    let mut expressions = Vec::new(alloc);
    for line in written {
        expressions.push(line.expression)?;
    }
    any(alloc, expressions)
}
