//! Rows: a kind, its inputs, and the answer that is expected. Programs compute the answers, and
//! compare them.

use crate::answer::Answer;
use std::alloc::{AllocError, Global};
use std::{fs, io};
use wax_query::diagnostics::NoMemory;

/// The kinds of rows of a program.
pub trait RowKind: Copy {
    /// Returns how many inputs a row of the kind with this name has, and the kind.
    fn find(name: &str) -> (usize, Self);

    /// Adds the answer of a row.
    ///
    /// # Errors
    ///
    /// Returns `NoMemory` if allocation fails, and for some rows whose inputs have errors.
    fn answer(self, rt: &HostRuntime, row: &DataRow, made: &mut Answer) -> Result<(), NoMemory>;

    /// Returns whether the answer that was computed is the one that is expected.
    fn agrees(made: &str, wanted: &str) -> bool {
        made == wanted
    }
}

/// A row whose abbreviations are replaced. Its fields are its inputs and the answer that is
/// expected.
#[derive(Drop)]
pub struct DataRow {
    inputs: usize,
    fields: Vec<String>,
}

impl DataRow {
    /// Reads a row with this number of inputs from a line.
    pub fn read(alloc: Global, line: &str, inputs: usize) -> Result<DataRow, AllocError> {
        let mut fields = Vec::new(alloc);
        for field in line.splitn(inputs.saturating_add(2), '\t').skip(1) {
            fields.push(plain(alloc, field)?)?;
        }
        Ok(DataRow { inputs, fields })
    }

    /// Returns the input at the index, or an empty text if the row has fewer.
    pub fn input(&self, index: usize) -> &str {
        if index < self.inputs {
            self.field(index)
        } else {
            ""
        }
    }

    /// Returns the number of the input at the index, or `default` if it isn't a number.
    pub fn number(&self, index: usize, default: u64) -> u64 {
        self.input(index).parse::<u64>().unwrap_or(default)
    }

    /// Returns the last input.
    pub fn last(&self) -> &str {
        match self.inputs.checked_sub(1) {
            Some(index) => self.field(index),
            None => "",
        }
    }

    /// Returns the answer that is expected.
    pub fn wanted(&self) -> &str {
        self.field(self.inputs)
    }

    fn field(&self, index: usize) -> &str {
        match self.fields.get(index) {
            Some(field) => field.as_str(),
            None => "",
        }
    }
}

fn plain(alloc: Global, field: &str) -> Result<String, AllocError> {
    let mut text = String::new(alloc);
    push_plain(field, &mut text)?;
    Ok(text)
}

/// Adds a field, and replaces its abbreviations: `«a×3»` becomes `aaa`.
fn push_plain(field: &str, text: &mut String) -> Result<(), AllocError> {
    for (index, part) in field.split('«').enumerate() {
        match part.split_once('»') {
            Some((repeated, rest)) if index > 0 => {
                push_repeated(repeated, text)?;
                push_characters(rest, text)?;
            }
            _ => push_characters(part, text)?,
        }
    }
    Ok(())
}

/// Adds the text before `×`, as often as the number after it says.
fn push_repeated(repeated: &str, text: &mut String) -> Result<(), AllocError> {
    let (part, count) = repeated.split_once('×').unwrap_or((repeated, "1"));
    for _ in 0..count.parse::<u32>().unwrap_or(0) {
        push_characters(part, text)?;
    }
    Ok(())
}

/// Adds a text. In it, `␊`, `␍`, `␉` and `␀` are a line feed, a carriage return, a tab and the
/// character 0, which a field can't contain.
fn push_characters(part: &str, text: &mut String) -> Result<(), AllocError> {
    for character in part.chars() {
        text.push(match character {
            '␊' => '\n',
            '␍' => '\r',
            '␉' => '\t',
            '␀' => '\0',
            other => other,
        })?;
    }
    Ok(())
}

/// Prints each row of the file whose answer differs, and how many rows agree and how many differ.
///
/// # Errors
///
/// Returns an error if the file can't be read, standard output can't be written, or allocation
/// fails for a row itself.
pub fn compare_file<K: RowKind>(rt: &HostRuntime, name: &str, made: &mut Answer) -> io::Result<()> {
    let rows = fs::read_to_string(rt, name)?;
    let (mut same, mut other) = (0u64, 0u64);
    for line in rows.lines() {
        if line.is_empty() || line.starts_with("# ") {
            continue;
        }
        if is_same::<K>(rt, line, made)? {
            same = same.saturating_add(1);
        } else {
            other = other.saturating_add(1);
        }
    }
    println!(rt; "{name}: {same} the same, {other} other")
}

/// Returns whether the computed answer of the row is the one in the file. If not, prints the row
/// and both.
fn is_same<K: RowKind>(rt: &HostRuntime, line: &str, made: &mut Answer) -> io::Result<bool> {
    let (inputs, kind) = K::find(name_of(line));
    let row = DataRow::read(rt.alloc(), line, inputs)?;
    let answer = make(rt, kind, &row, made);
    let is_same = K::agrees(answer, row.wanted());
    if !is_same {
        let wanted = row.wanted();
        println!(rt; "a row differs: {line}\n    expected {wanted}\n    got {answer}")?;
    }
    Ok(is_same)
}

/// Prints each line of standard input with its answer.
///
/// # Errors
///
/// Returns an error if standard input can't be read, standard output can't be written, or
/// allocation fails for a row itself.
pub fn show_rows<K: RowKind>(rt: &HostRuntime, made: &mut Answer) -> io::Result<()> {
    for line in rt.lines(rt.alloc()) {
        show_row::<K>(rt, line?.as_str(), made)?;
    }
    Ok(())
}

fn show_row<K: RowKind>(rt: &HostRuntime, line: &str, made: &mut Answer) -> io::Result<()> {
    let (inputs, kind) = K::find(name_of(line));
    let row = DataRow::read(rt.alloc(), line, inputs)?;
    let answer = make(rt, kind, &row, made);
    println!(rt; "{line}\t{answer}")
}

/// Returns the name of the row's kind.
fn name_of(line: &str) -> &str {
    line.split('\t').next().unwrap_or("")
}

/// Computes the answer of the row.
fn make<'m, K: RowKind>(rt: &HostRuntime, kind: K, row: &DataRow, made: &'m mut Answer) -> &'m str {
    made.clear();
    match kind.answer(rt, row, made) {
        Ok(()) => made.text().unwrap_or("no memory"),
        Err(_) => "no memory",
    }
}

/// Returns how many inputs a row of the kind with this name has, and the kind, by a table of names,
/// numbers and kinds. A name that isn't in it is of a kind with one input.
pub fn find_in<K: Copy>(kinds: &[(&str, usize, K)], name: &str, unknown: K) -> (usize, K) {
    for (other, inputs, kind) in kinds {
        if *other == name {
            return (*inputs, *kind);
        }
    }
    (1, unknown)
}

/// Appends an item.
pub fn push<T: Drop>(items: &mut Vec<T>, item: T) -> Result<(), NoMemory> {
    match items.push(item) {
        Ok(()) => Ok(()),
        Err(_) => Err(NoMemory),
    }
}
