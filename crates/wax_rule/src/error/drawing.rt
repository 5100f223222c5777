//! Pictures of an expression with its labels.
ghost use Rattle.std.specs.Prelude.{◌≡◌, ◌<◌, ◌++◌, [], IfOk, OnOk, chars, codes, encode_utf8_all, map};
ghost use Rattle.std.specs.Prelude.{replicate, string_bytes};
ghost use Rattle.wax_query.specs.Labels.{seen};
ghost use Rattle.wax_rule.specs.Drawn.{columns_before as columns_of, drawn_character as drawn_of, label_line};
ghost use Rattle.wax_rule.specs.Drawn.{label_lines, marks, picture as picture_of};

use std::alloc::{AllocError, Global};
use wax_query::diagnostics::{NoMemory, Span};

/// Draws the expression on a line, and under it a line for each label: a `^` under each character
/// of its span, or one `^` if the span is empty, and then its text. Control characters are drawn as
/// `?`.
pub fn picture(
    alloc: Global,
    expression: &str,
    labels: &[(&'static str, Span)],
) -> Result<String, NoMemory>
    ensures { IfOk result
        (λ text. string_bytes text ≡ picture_of (chars expression.now) (map seen labels.now)) }
{
    let mut text = String::new(alloc);
    draw(&mut text, expression, labels)?;
    Ok(text)
}

fn draw(
    text: &mut String,
    expression: &str,
    labels: &[(&'static str, Span)],
) -> Result<(), AllocError>
    requires { string_bytes text.old ≡ [] }
    ensures { OnOk result (string_bytes text.new ≡ picture_of (chars expression.now) (map seen labels.now)) }
{
    push_expression(text, expression)?;
    push_labels(text, expression, labels)
}

// Replaces a control character by `?`, which takes one column.
fn drawn_character(character: char) -> char
    ensures { result ≡ drawn_of character }
{
    if character < ' ' || ('\u{7f}' <= character && character <= '\u{9f}') {
        '?'
    } else {
        character
    }
}

// Returns the number of characters that begin before a byte, since spans are in bytes.
fn columns_before(text: &str, byte: usize) -> usize
    ensures { result ≡ columns_of byte (chars text.now) }
{
    let mut columns = 0;
    let mut left = byte;
    for character in text.chars() {
        if left == 0 {
            return columns;
        }
        columns += 1;
        left = left.saturating_sub(character.len_utf8());
    }
    columns
}

fn push_expression(picture: &mut String, expression: &str) -> Result<(), AllocError>
    ensures { OnOk result (string_bytes picture.new ≡ string_bytes picture.old
        ++ encode_utf8_all (map drawn_of (chars expression.now)) ++ codes "\n") }
{
    for character in expression.chars() {
        picture.push(drawn_character(character))?;
    }
    picture.push('\n')
}

fn push_copies(picture: &mut String, character: u8, count: usize) -> Result<(), AllocError>
    requires { character < 128 }
    ensures { OnOk result (string_bytes picture.new ≡ string_bytes picture.old ++ replicate count character) }
{
    for _i in 0..count {
        picture.push(char::from(character))?;
    }
    Ok(())
}

// Draws the marks of a span. An empty span gets one mark.
fn push_marks(picture: &mut String, expression: &str, span: Span) -> Result<(), AllocError>
    ensures { OnOk result (string_bytes picture.new
        ≡ string_bytes picture.old ++ marks (chars expression.now) span) }
{
    let start = columns_before(expression, span.0);
    let end = columns_before(expression, span.0.saturating_add(span.1));
    push_copies(picture, b' ', start)?;
    push_copies(picture, b'^', end.saturating_sub(start).max(1))
}

fn push_label(
    picture: &mut String,
    expression: &str,
    label: &(&'static str, Span),
) -> Result<(), AllocError>
    ensures { OnOk result (string_bytes picture.new
        ≡ string_bytes picture.old ++ label_line (chars expression.now) (seen label.now)) }
{
    push_marks(picture, expression, label.1)?;
    picture.push(' ')?;
    picture.push_str(label.0)?;
    picture.push('\n')
}

fn push_labels(
    picture: &mut String,
    expression: &str,
    labels: &[(&'static str, Span)],
) -> Result<(), AllocError>
    ensures { OnOk result (string_bytes picture.new
        ≡ string_bytes picture.old ++ label_lines (chars expression.now) (map seen labels.now)) }
{
    for label in labels {
        push_label(picture, expression, label)?;
    }
    Ok(())
}
