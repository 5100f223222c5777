//! The text to be printed.

use std::alloc::Global;
use std::fmt::Display;
use std::io;
use wax::NoMemory;

/// A text that remembers whether memory ran out for it, so that callers need not propagate that.
#[derive(Drop)]
pub struct Page {
    text: String,
    is_lost: bool,
}

impl Page {
    /// Builds an empty page.
    pub fn new(alloc: Global) -> Page {
        Page {
            text: String::new(alloc),
            is_lost: false,
        }
    }

    /// Returns the text, or `None` if memory ran out.
    pub fn text(&self) -> Option<&str> {
        if self.is_lost {
            None
        } else {
            Some(self.text.as_str())
        }
    }

    /// Prints the text, or that memory ran out. Returns the status, which is 1 after that.
    ///
    /// # Errors
    ///
    /// Returns an error if a write fails.
    pub fn print(&self, rt: &HostRuntime, status: u8) -> io::Result<u8> {
        let Some(text) = self.text() else {
            return print_no_memory(rt);
        };
        rt.write_all(text.as_bytes())?;
        Ok(status)
    }

    /// Records that memory ran out.
    pub fn lose(&mut self) {
        self.is_lost = true;
    }

    /// Records that memory ran out if a call returned that.
    pub fn lose_unless(&mut self, call: Result<(), NoMemory>) {
        if call.is_err() {
            self.lose();
        }
    }

    /// Adds a text.
    pub fn add(&mut self, text: &str) {
        if self.text.push_str(text).is_err() {
            self.lose();
        }
    }

    /// Adds another page.
    pub fn add_page(&mut self, page: &Page) {
        match page.text() {
            Some(text) => self.add(text),
            None => self.lose(),
        }
    }

    /// Adds what a value prints.
    pub fn show<T: Display>(&mut self, value: &T) {
        if write!(self.text, "{value}").is_err() {
            self.lose();
        }
    }

    fn push(&mut self, character: char) {
        if self.text.push(character).is_err() {
            self.lose();
        }
    }

    /// Adds the character, or `?` if it is a control character.
    fn draw(&mut self, character: char) {
        if character < ' ' || ('\u{7f}' <= character && character <= '\u{9f}') {
            self.push('?');
        } else {
            self.push(character);
        }
    }

    /// Adds the text, with `?` in place of each control character.
    pub fn whole(&mut self, text: &str) {
        if text.as_bytes().iter().any(|byte| may_be_control(*byte)) {
            self.part(text, 0, text.len());
        } else {
            self.add(text);
        }
    }

    /// Adds the characters of the text that begin in these bytes, with `?` in place of each control
    /// character.
    pub fn part(&mut self, text: &str, start: usize, end: usize) {
        let mut at: usize = 0;
        for character in text.chars() {
            if start <= at && at < end {
                self.draw(character);
            }
            at = at.saturating_add(character.len_utf8());
        }
    }

    /// Adds the characters of the text that begin in these bytes, as a part of a text in double
    /// quotes: with a backslash before a quote and before a backslash.
    pub fn quoted_part(&mut self, text: &str, start: usize, end: usize) {
        let mut at: usize = 0;
        for character in text.chars() {
            if start <= at && at < end {
                if character == '"' || character == '\\' {
                    self.push('\\');
                }
                self.draw(character);
            }
            at = at.saturating_add(character.len_utf8());
        }
    }

    /// Adds a `^` under each character of the text that begins in these bytes, or one `^` if there
    /// is none.
    pub fn marks(&mut self, text: &str, start: usize, end: usize) {
        let mut at: usize = 0;
        for character in text.chars() {
            if at < start {
                self.push(' ');
            } else if at < end {
                self.push('^');
            }
            at = at.saturating_add(character.len_utf8());
        }
        if start >= end {
            self.push('^');
        }
    }
}

/// Returns whether a control character may begin with the byte: those past ASCII begin with 0xc2.
fn may_be_control(byte: u8) -> bool {
    byte < b' ' || byte == 0x7f || byte == 0xc2
}

/// Prints the text of a page to standard output, and that of another one to standard error; or only that
/// memory ran out for one of them. Returns the status, which is 1 after that.
///
/// # Errors
///
/// Returns an error if a write fails.
pub fn print_both(rt: &HostRuntime, output: &Page, notes: &Page) -> io::Result<u8> {
    let (Some(output), Some(notes)) = (output.text(), notes.text()) else {
        return print_no_memory(rt);
    };
    rt.write_all(output.as_bytes())?;
    rt.stderr().write_all(notes.as_bytes())?;
    Ok(0)
}

/// Prints that memory ran out. Returns the status.
fn print_no_memory(rt: &HostRuntime) -> io::Result<u8> {
    eprintln!(rt; "globs_explain: no memory")?;
    Ok(1)
}
