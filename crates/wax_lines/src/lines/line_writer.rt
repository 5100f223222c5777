//! The output for one line.
ghost use Rattle.std.specs.Prelude.{◌≡◌, ℕ, Bool, List, [], ◌∷◌, ◌++◌, OnOk, OnErr, chars};
ghost use Rattle.wax_query.specs.Matched.{texts};
ghost use Rattle.wax_lines.specs.Lines.{WritesMeant, WritesCaptures, WritesNothingBefore, tabbed};
ghost use Rattle.wax_lines.specs.inner.Matching.{IsMatchedBy, IsMatchedByBoth};

use crate::writing::push_line;
use std::alloc::{AllocError, Global};
use wax_query::diagnostics::NoMemory;
use wax_query::matching::{CandidatePath, MatchedText, PathMatcher, Program};

/// A writer of what each line of a text becomes in the output, called for one line after another. It
/// may keep what it learns from each for the next ones.
pub trait LineWriter {
    // The state of the writer, as contracts see it.
    ghost View: { Type 0 };

    ghost view: { Self → View };

    // The bytes that may be written for a text, as its characters.
    ghost writes: { View → List ℕ → List ℕ → Type 0 };

    /// Appends the output for the line to `out`. What it writes for a line stays the same from then on.
    ///
    /// # Errors
    ///
    /// Returns `NoMemory` if allocation fails. `out` is unchanged then, and the writer can be used for
    /// further lines.
    fn write_line(&mut self, line: &str, out: &mut Vec<u8>) -> Result<(), NoMemory>
        ensures ok { OnOk result ((added : List ℕ) × writes (view self.old) (chars line.now) added
            × (out.new.items ≡ out.old.items ++ added)) }
        ensures err { OnErr result (out.new.items ≡ out.old.items) }
        ensures same { view self.new ≡ view self.old };

    /// Returns how many bytes at the beginning of a text can be passed over: nothing is written for
    /// a line that ends before so many bytes. By default, that is 0.
    fn earliest_end(&self, text: &str) -> usize
        ensures { WritesNothingBefore (writes (view self.now)) text.now result }
    {
        0
    }
}

/// A writer of each line that a matcher accepts, with a line feed.
#[derive(Drop)]
pub struct MatchingLines<M> {
    pub matcher: M,
}

impl<M: PathMatcher> LineWriter for MatchingLines<M> {
    ghost View = { List ℕ → Bool };

    ghost view = { λ lines. M.decides lines.matcher };

    ghost writes = { λ decides. WritesMeant (IsMatchedBy decides) };

    fn write_line(&mut self, line: &str, out: &mut Vec<u8>) -> Result<(), NoMemory> {
        if self.matcher.is_match(&CandidatePath::from(line))? {
            push_line(line, out)?;
        }
        Ok(())
    }

    fn earliest_end(&self, text: &str) -> usize {
        self.matcher.earliest_end(text)
    }
}

/// A writer of each line that a program matches, with its captures, a tab before each, and a line
/// feed. The matcher is called first, since captures take longer.
#[derive(Drop)]
pub struct CapturedLines<'p, P, M> {
    pub alloc: Global,
    pub program: &'p P,
    pub matcher: M,
}

impl<P: Program, M: PathMatcher> LineWriter for CapturedLines<'_, P, M> {
    ghost View = { (List ℕ → Bool) × P };

    ghost view = { λ lines. (M.decides lines.matcher, lines.program.now) };

    ghost writes = { λ v. WritesCaptures (IsMatchedByBoth v.0 (P.means v.1)) (P.captured v.1) };

    fn write_line(&mut self, line: &str, out: &mut Vec<u8>) -> Result<(), NoMemory> {
        let path = CandidatePath::from(line);
        if !self.matcher.is_match(&path)? {
            return Ok(());
        }
        let Some(matched) = self.program.matched(self.alloc, &path)? else {
            return Ok(());
        };
        add_matched(&matched, out)?;
        Ok(())
    }

    fn earliest_end(&self, text: &str) -> usize {
        self.matcher.earliest_end(text)
    }
}

// Appends the text, its captures and a line feed. Takes back what it added if allocation fails.
fn add_matched(matched: &MatchedText<'_>, out: &mut Vec<u8>) -> Result<(), NoMemory>
    ensures ok { OnOk result (out.new.items ≡ out.old.items ++ (tabbed (texts matched.now) ++ 10 ∷ [])) }
    ensures err { OnErr result (out.new.items ≡ out.old.items) }
{
    let old_len = out.len();
    let Ok(()) = add_texts(matched, out) else {
        out.truncate(old_len);
        return Err(NoMemory);
    };
    Ok(())
}

// Appends the text, its captures and a line feed, or a prefix of these if allocation fails.
fn add_texts(matched: &MatchedText<'_>, out: &mut Vec<u8>) -> Result<(), AllocError>
    ensures ok { OnOk result (out.new.items ≡ out.old.items ++ (tabbed (texts matched.now) ++ 10 ∷ [])) }
    ensures err { OnErr result ((added : List ℕ) × (out.new.items ≡ out.old.items ++ added)) }
{
    out.extend_from_slice(matched.complete().as_bytes())?;
    let mut index = 1;
    while let Some(capture) = matched.get(index) {
        out.push(b'\t')?;
        out.extend_from_slice(capture.as_bytes())?;
        index += 1;
    }
    out.push(b'\n')?;
    Ok(())
}
