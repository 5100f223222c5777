//! The state of a filter of lines between two reads.
ghost use Rattle.std.specs.Prelude.{◌≡◌, ◌≤◌, ◌<◌, ◌⊎◌, ℕ, List, [], ◌∷◌, ◌++◌, length, IfErr, IfSome, OnOk};
ghost use Rattle.std.specs.{Prelude.{OnErr, MatchOption}, Io.KnownBytes.Appends};
ghost use Rattle.wax_lines.specs.{Counts.greatest_count, Lines.Gives};
ghost use Rattle.wax_lines.specs.inner.Sifted.{HasNoNewline, CountsMore};
ghost use Rattle.wax_lines.specs.inner.Progress.{GivesNothing, SieveSifted, TakesIn, TakesInPart, TakesLast};
ghost use Rattle.wax_lines.specs.Written.{WritesPart};

use super::LinesError;
use super::feed::{after_lines, split_line, split_text_line};
use super::line_writer::LineWriter;
use crate::counted::Counted;
use crate::writing::write_whole;
use std::alloc::Global;
use std::io::Write;
use wax_query::diagnostics::NoMemory;

/// The output that waits to be written, and the number of lines that weren't UTF-8.
#[derive(Drop)]
pub struct PendingOutput {
    bytes: Vec<u8>,
    not_text: u64,
}

/// The beginning of a line whose end wasn't read yet, and the output for earlier lines.
#[derive(Drop)]
pub struct Sieve {
    carry: Vec<u8>,
    kept: PendingOutput,
}

impl PendingOutput {
    // Adds the output for one line, which has no line feed.
    fn add_line<L: LineWriter>(&mut self, line_writer: &mut L, line: &[u8]) -> Result<(), NoMemory>
        ensures ok { OnOk result ((out : List ℕ) × (bad : ℕ)
            × Gives (L.writes (L.view line_writer.old)) line.now out bad
            × (self.new.bytes.items ≡ self.old.bytes.items ++ out)
            × CountsMore self.old.not_text self.new.not_text bad) }
        ensures bytes { OnErr result (self.new.bytes.items ≡ self.old.bytes.items) }
        ensures not_text { OnErr result (self.new.not_text ≡ self.old.not_text) }
        ensures same { L.view line_writer.new ≡ L.view line_writer.old }
    {
        let Ok(text) = str::from_utf8(line) else {
            self.not_text = self.not_text.saturating_add(1);
            return Ok(());
        };
        line_writer.write_line(text, &mut self.bytes)
    }
}

impl Sieve {
    /// Builds a sieve before the first read.
    pub fn new(alloc: Global) -> Self
        ensures carry { result.carry.items ≡ [] }
        ensures bytes { result.kept.bytes.items ≡ [] }
        ensures not_text { result.kept.not_text ≡ 0 }
    {
        Sieve {
            carry: Vec::new(alloc),
            kept: PendingOutput {
                bytes: Vec::new(alloc),
                not_text: 0,
            },
        }
    }

    /// Returns the number of lines that weren't UTF-8, at most `u64::MAX`.
    pub fn not_text(&self) -> u64
        ensures { result ≡ self.now.kept.not_text }
    {
        self.kept.not_text
    }

    /// Returns how many bytes of output wait to be written.
    pub fn waiting(&self) -> usize
        ensures { result ≡ length self.now.kept.bytes.items }
    {
        self.kept.bytes.len()
    }

    /// Takes the next bytes of the input.
    ///
    /// # Errors
    ///
    /// Returns `NoMemory` if allocation fails. A prefix of the bytes has been taken then.
    pub fn take<L: LineWriter>(&mut self, line_writer: &mut L, chunk: &[u8]) -> Result<(), NoMemory>
        ensures ok { OnOk result (TakesIn (L.writes (L.view line_writer.old)) chunk.now self.old self.new) }
        ensures err { OnErr result (TakesInPart (L.writes (L.view line_writer.old))
            chunk.now self.old self.new) }
        ensures same { L.view line_writer.new ≡ L.view line_writer.old }
    {
        let Some((end, after)) = split_line(chunk) else {
            self.carry.extend_from_slice(chunk)?;
            return Ok(());
        };
        self.take_line(line_writer, end)?;
        self.take_lines(line_writer, after)
    }

    // Takes whole lines and the bytes that begin the next one. If everything before the last line
    // feed is UTF-8, it is checked in one pass, and otherwise line by line.
    fn take_lines<L: LineWriter>(
        &mut self,
        line_writer: &mut L,
        bytes: &[u8],
    ) -> Result<(), NoMemory>
        requires { self.old.carry.items ≡ [] }
        ensures ok { OnOk result (TakesIn (L.writes (L.view line_writer.old)) bytes.now self.old self.new) }
        ensures err { OnErr result (TakesInPart (L.writes (L.view line_writer.old))
            bytes.now self.old self.new) }
        ensures same { L.view line_writer.new ≡ L.view line_writer.old }
    {
        let Some((text, open)) = split_text(bytes) else {
            return self.take_bytes(line_writer, bytes);
        };
        self.take_text(line_writer, text)?;
        self.carry.extend_from_slice(open)?;
        Ok(())
    }

    // Takes text and a line feed at the beginning of a line, except for lines that can be passed over.
    fn take_text<L: LineWriter>(&mut self, line_writer: &mut L, text: &str) -> Result<(), NoMemory>
        requires { self.old.carry.items ≡ [] }
        ensures ok { OnOk result (TakesIn (L.writes (L.view line_writer.old))
            (text.now ++ 10 ∷ []) self.old self.new) }
        ensures err { OnErr result (TakesInPart (L.writes (L.view line_writer.old))
            (text.now ++ 10 ∷ []) self.old self.new) }
        ensures same { L.view line_writer.new ≡ L.view line_writer.old }
    {
        let mut rest = pass_over(line_writer, text);
        while let Some((line, after)) = split_text_line(rest) {
            self.take_text_line(line_writer, line)?;
            rest = pass_over(line_writer, after);
        }
        self.take_text_line(line_writer, rest)
    }

    fn take_text_line<L: LineWriter>(
        &mut self,
        line_writer: &mut L,
        line: &str,
    ) -> Result<(), NoMemory>
        requires carry { self.old.carry.items ≡ [] }
        requires line { HasNoNewline line.now }
        ensures carry { self.new.carry.items ≡ [] }
        ensures ok { OnOk result (TakesIn (L.writes (L.view line_writer.old))
            (line.now ++ 10 ∷ []) self.old self.new) }
        ensures err { OnErr result (TakesIn (L.writes (L.view line_writer.old)) [] self.old self.new) }
        ensures same { L.view line_writer.new ≡ L.view line_writer.old }
    {
        line_writer.write_line(line, &mut self.kept.bytes)
    }

    // Takes bytes line by line, each checked by itself.
    fn take_bytes<L: LineWriter>(
        &mut self,
        line_writer: &mut L,
        bytes: &[u8],
    ) -> Result<(), NoMemory>
        ensures ok { OnOk result (TakesIn (L.writes (L.view line_writer.old)) bytes.now self.old self.new) }
        ensures err { OnErr result (TakesInPart (L.writes (L.view line_writer.old))
            bytes.now self.old self.new) }
        ensures same { L.view line_writer.new ≡ L.view line_writer.old }
    {
        let mut rest = bytes;
        while let Some((line, after)) = split_line(rest) {
            self.take_line(line_writer, line)?;
            rest = after;
        }
        self.carry.extend_from_slice(rest)?;
        Ok(())
    }

    // Takes the end of a line, which has no line feed.
    fn take_line<L: LineWriter>(&mut self, line_writer: &mut L, end: &[u8]) -> Result<(), NoMemory>
        requires { HasNoNewline end.now }
        ensures carry { OnOk result (self.new.carry.items ≡ []) }
        ensures ok { OnOk result (TakesIn (L.writes (L.view line_writer.old))
            (end.now ++ 10 ∷ []) self.old self.new) }
        ensures err { OnErr result (TakesInPart (L.writes (L.view line_writer.old))
            end.now self.old self.new) }
        ensures same { L.view line_writer.new ≡ L.view line_writer.old }
    {
        if self.carry.is_empty() {
            return self.kept.add_line(line_writer, end);
        }
        self.carry.extend_from_slice(end)?;
        self.kept.add_line(line_writer, &self.carry)?;
        self.carry.clear();
        Ok(())
    }

    /// Ends the input: what is left without a line feed is a line too, unless it is empty.
    ///
    /// # Errors
    ///
    /// Returns `NoMemory` if allocation fails. The output for earlier lines still waits then.
    pub fn take_last<L: LineWriter>(&mut self, line_writer: &mut L) -> Result<(), NoMemory>
        ensures ok { OnOk result (TakesLast (L.writes (L.view line_writer.old)) self.old self.new) }
        ensures err { OnErr result (TakesIn (L.writes (L.view line_writer.old)) [] self.old self.new) }
        ensures same { L.view line_writer.new ≡ L.view line_writer.old }
    {
        if self.carry.is_empty() {
            return Ok(());
        }
        self.kept.add_line(line_writer, &self.carry)
    }

    /// Writes the output that waits. None waits after that, even if the write failed.
    ///
    /// # Errors
    ///
    /// Returns `Write` if a write fails or takes nothing. A prefix of the output has been written.
    pub fn write_out<W: Write>(&mut self, output: &mut Counted<W>) -> Result<(), LinesError>
        ensures ok { OnOk result (Appends (W.contents output.old.inner) (W.contents output.new.inner)
            self.old.kept.bytes.items) }
        ensures empty { self.new.kept.bytes.items ≡ [] }
        ensures carry { self.new.carry ≡ self.old.carry }
        ensures not_text { self.new.kept.not_text ≡ self.old.kept.not_text }
        ensures err { IfErr result (λ e. (e ≡ LinesError.Write) × WritesPart
            (W.contents output.old.inner) (W.contents output.new.inner) self.old.kept.bytes.items) }
        ensures failed { OnErr result
            ((output.old.failures < output.new.failures) ⊎ (output.new.failures ≡ greatest_count)) }
        ensures steady { output.old.failures ≤ output.new.failures }
    {
        let written = write_whole(output, &self.kept.bytes);
        self.kept.bytes.clear();
        written
    }
}

// Returns what is left of a text after lines for which nothing is written.
fn pass_over<'t, L: LineWriter>(line_writer: &L, text: &'t str) -> &'t str
    ensures { (front : List ℕ) × (text.now ≡ front ++ result.now)
        × GivesNothing (L.writes (L.view line_writer.now)) front }
{
    match line_writer.earliest_end(text) {
        0 => text,
        least => after_lines(text, least),
    }
}

// Splits bytes at the last line feed, if there is one and everything before it is UTF-8.
fn split_text(bytes: &[u8]) -> Option<(&str, &[u8])>
    ensures { IfSome result (λ parts.
        (bytes.now ≡ parts.0.now ++ 10 ∷ parts.1.now) × HasNoNewline parts.1.now) }
{
    let at = bytes.iter().rposition(|b| *b == b'\n')?;
    let text = str::from_utf8(&bytes[..at]).ok()?;
    Some((text, &bytes[at + 1..]))
}
