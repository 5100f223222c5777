//! The answer of a row, as text.

use std::alloc::{AllocError, Global};
use std::fmt::{Debug, Display};
use wax_query::diagnostics::{NoMemory, Span};
use wax_query::query::{DepthVariance, When};

/// The greatest length, in bytes, of an answer that doesn't allocate.
const ROOM: usize = 65_536;

/// An answer. It remembers whether allocation failed for it.
#[derive(Drop)]
pub struct Answer {
    text: String,
    is_lost: bool,
}

impl Answer {
    /// Allocates room for answers.
    pub fn new(alloc: Global) -> Result<Answer, AllocError> {
        Ok(Answer {
            text: String::with_capacity(alloc, ROOM)?,
            is_lost: false,
        })
    }

    /// Removes the text, and keeps its room for another answer.
    pub fn clear(&mut self) {
        self.text.clear();
        self.is_lost = false;
    }

    /// Returns the text, or `None` if allocation failed for it.
    pub fn text(&self) -> Option<&str> {
        if self.is_lost {
            None
        } else {
            Some(self.text.as_str())
        }
    }

    /// Adds a text.
    pub fn add(&mut self, text: &str) {
        if self.text.push_str(text).is_err() {
            self.lose();
        }
    }

    /// Notes that allocation failed for the answer.
    pub fn lose(&mut self) {
        self.is_lost = true;
    }

    /// Adds a tab, which separates fields.
    pub fn tab(&mut self) {
        self.add("\t");
    }

    /// Adds a space, unless the text is empty or ends with a tab or a space.
    pub fn gap(&mut self) {
        let is_apart = self.text.is_empty()
            || self.text.ends_with('\t')
            || self.text.ends_with(' ');
        if !is_apart {
            self.add(" ");
        }
    }

    /// Adds a text between quotes.
    pub fn quote(&mut self, text: &str) {
        self.add("\"");
        self.add(text);
        self.add("\"");
    }

    /// Adds the `Display` form of a value.
    pub fn show<T: Display>(&mut self, value: &T) {
        if write!(self.text, "{value}").is_err() {
            self.lose();
        }
    }

    /// Adds the `Debug` form of a value.
    pub fn debug<T: Debug>(&mut self, value: &T) {
        if write!(self.text, "{value:?}").is_err() {
            self.lose();
        }
    }

    /// Adds 1 or 0.
    pub fn digit(&mut self, holds: bool) {
        self.add(if holds { "1" } else { "0" });
    }

    /// Ends one of several calls: adds its error, if it has one, and a semicolon.
    pub fn end(&mut self, call: Result<(), NoMemory>) {
        if call.is_err() {
            self.add("no memory");
        }
        self.add(";");
    }

    /// Adds the start and the length of a span.
    pub fn span(&mut self, span: Span) {
        self.show(&span.0);
        self.add(" ");
        self.show(&span.1);
    }

    /// Adds a field for each label, with its text, start and length.
    pub fn labels(&mut self, labels: &[(&'static str, Span)]) {
        for (label, span) in labels {
            self.tab();
            self.add(*label);
            self.add(" ");
            self.span(*span);
        }
    }

    /// Adds a depth: `2`, `2..4` or `2..`.
    pub fn depth(&mut self, depth: DepthVariance) {
        let lower = depth.lower();
        self.show(&lower);
        match depth.upper() {
            None => self.add(".."),
            Some(upper) if upper == lower => {}
            Some(upper) => {
                self.add("..");
                self.show(&upper);
            }
        }
    }

    /// Adds `never`, `sometimes` or `always`.
    pub fn when(&mut self, answer: When) {
        self.add(match answer {
            When::Never => "never",
            When::Sometimes => "sometimes",
            When::Always => "always",
        });
    }

    /// Adds `within` if the number is in the range, which is written as `9..90`, and otherwise the
    /// number.
    pub fn within(&mut self, number: u128, range: &str) {
        let (least, greatest) = range.split_once("..").unwrap_or(("", ""));
        let least = least.parse::<u128>().unwrap_or(u128::MAX);
        let greatest = greatest.parse::<u128>().unwrap_or(0);
        if least <= number && number <= greatest {
            self.add("within");
        } else {
            self.show(&number);
        }
    }
}
