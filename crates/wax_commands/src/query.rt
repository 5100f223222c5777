//! The output of `globs query`.
ghost use Rattle.std.specs.Prelude.{◌≡◌, ◌++◌, List, None, Option, Some, ℕ, IfOk, OnOk, length};
ghost use Rattle.std.specs.{Prelude.{option_copied, string_bytes}, List.flat_map};
ghost use Rattle.wax.specs.Queries.{Bounds, bounds, captures, exhaustive, root, warnings};
ghost use Rattle.wax_commands.specs.QueryText.{AreFactsOf, IsDepthOf, IsTextOf, QueryFacts, query_text};
ghost use Rattle.wax_commands.specs.QueryText.{fact_lines as lines_of_facts, part_lines as lines_of_parts};
ghost use Rattle.wax_commands.specs.QueryText.{lines_of_texts, range_text, token_lines as lines_of_tokens};
ghost use Rattle.wax_commands.specs.QueryText.{warning_kind as kind_of, warning_line};
ghost use Rattle.wax_commands.specs.QueryText.{when_text as text_of_when};

use std::alloc::{AllocError, Global};
use wax::diagnostics::{LocatedError, Warning};
use wax::query::{DepthVariance, When};
use wax::{Glob, NoMemory, Program};

/// Writes what is known of a glob as lines: its depth, text, root, exhaustiveness, prefix and rest,
/// the number of tokens that capture, and its warnings.
pub fn query_lines(alloc: Global, glob: Glob<'_>) -> Result<String, NoMemory>
    ensures { IfOk result (λ lines. (facts : QueryFacts) × AreFactsOf glob.entry facts
        × (string_bytes lines ≡ query_text facts)) }
{
    let mut lines = fact_lines(alloc, &glob)?;
    let token_lines = token_lines(alloc, &glob)?;
    let (prefix, rest) = glob.partition(alloc)?;
    let part_lines = part_lines(alloc, prefix.as_str(), rest)?;
    lines.push_str(part_lines.as_str())?;
    lines.push_str(token_lines.as_str())?;
    Ok(lines)
}

fn fact_lines(alloc: Global, glob: &Glob<'_>) -> Result<String, NoMemory>
    ensures { IfOk result (λ lines. (depth : Bounds) × (text : Option (List ℕ))
        × IsDepthOf glob.now depth × IsTextOf glob.now text
        × (string_bytes lines ≡ lines_of_facts depth text (root glob.now.tree) (exhaustive glob.now.tree))) }
{
    let text = glob.text(alloc)?;
    let depth = glob.depth();
    let lines = lines_of(
        alloc,
        depth,
        text.as_path(),
        glob.has_root(),
        glob.is_exhaustive(),
    )?;
    Ok(lines)
}

fn lines_of(
    alloc: Global,
    depth: DepthVariance,
    text: Option<&str>,
    root: When,
    exhaustive: When,
) -> Result<String, AllocError>
    ensures { IfOk result (λ lines. string_bytes lines
        ≡ lines_of_facts (bounds depth) (option_copied text.entry) root exhaustive) }
{
    let depth = depth_text(alloc, depth)?;
    let root = when_text(root);
    let exhaustive = when_text(exhaustive);
    match text {
        Some(text) => invariant_lines(alloc, depth.as_str(), text, root, exhaustive),
        None => variant_lines(alloc, depth.as_str(), root, exhaustive),
    }
}

fn invariant_lines(
    alloc: Global,
    depth: &str,
    text: &str,
    root: &str,
    exhaustive: &str,
) -> Result<String, AllocError>
    ensures { IfOk result (λ lines. string_bytes lines
        ≡ lines_of_texts depth.now (Some text.now) root.now exhaustive.now) }
{
    Ok(format!(in alloc;
        "depth {depth}\ntext invariant {text}\nroot {root}\nexhaustive {exhaustive}\n"
    )?)
}

fn variant_lines(
    alloc: Global,
    depth: &str,
    root: &str,
    exhaustive: &str,
) -> Result<String, AllocError>
    ensures { IfOk result (λ lines. string_bytes lines
        ≡ lines_of_texts depth.now None root.now exhaustive.now) }
{
    Ok(format!(in alloc; "depth {depth}\ntext variant\nroot {root}\nexhaustive {exhaustive}\n")?)
}

fn part_lines(alloc: Global, prefix: &str, rest: Option<Glob<'_>>) -> Result<String, AllocError>
    ensures { IfOk result (λ lines. string_bytes lines ≡ lines_of_parts prefix.now rest.entry) }
{
    match rest {
        Some(rest) => rest_lines(alloc, prefix, &rest),
        None => prefix_lines(alloc, prefix),
    }
}

fn rest_lines(alloc: Global, prefix: &str, rest: &Glob<'_>) -> Result<String, AllocError>
    ensures { IfOk result (λ lines. string_bytes lines ≡ lines_of_parts prefix.now (Some rest.now)) }
{
    Ok(format!(in alloc; "prefix {prefix}\nrest {rest}\n")?)
}

fn prefix_lines(alloc: Global, prefix: &str) -> Result<String, AllocError>
    ensures { IfOk result (λ lines. string_bytes lines ≡ lines_of_parts prefix.now None) }
{
    Ok(format!(in alloc; "prefix {prefix}\nno rest\n")?)
}

fn token_lines(alloc: Global, glob: &Glob<'_>) -> Result<String, NoMemory>
    ensures { IfOk result (λ lines. string_bytes lines ≡ lines_of_tokens
        (length (captures glob.now.tree)) (warnings glob.now.expression glob.now.tree)) }
{
    let captures = glob.captures(alloc)?.len();
    let mut lines = format!(in alloc; "captures {captures}\n")?;
    push_warnings(alloc, &mut lines, &glob.diagnose(alloc)?)?;
    Ok(lines)
}

fn push_warnings(
    alloc: Global,
    lines: &mut String,
    warnings: &[Warning<'_>],
) -> Result<(), AllocError>
    ensures { OnOk result (string_bytes lines.new
        ≡ string_bytes lines.old ++ flat_map warning_line warnings.now) }
{
    for warning in warnings {
        push_warning(alloc, lines, warning)?;
    }
    Ok(())
}

fn push_warning(alloc: Global, lines: &mut String, warning: &Warning<'_>) -> Result<(), AllocError>
    ensures { OnOk result (string_bytes lines.new ≡ string_bytes lines.old ++ warning_line warning.now) }
{
    let kind = warning_kind(warning);
    let (start, len) = warning.span();
    let line = format!(in alloc; "warning {kind} {start} {len}\n")?;
    lines.push_str(line.as_str())
}

fn warning_kind(warning: &Warning<'_>) -> &'static str
    ensures { result.now ≡ kind_of warning.now }
{
    match warning {
        Warning::SemanticLiteral(_) => "semantic literal",
        Warning::TerminatingSeparator(_) => "terminating separator",
    }
}

/// Writes a depth: one number, or the lower bound, two dots, and the upper bound if there is one.
pub fn depth_text(alloc: Global, depth: DepthVariance) -> Result<String, AllocError>
    ensures { IfOk result (λ text. string_bytes text ≡ range_text (bounds depth).0 (bounds depth).1) }
{
    let lower = depth.lower();
    match depth.upper() {
        None => format!(in alloc; "{lower}.."),
        Some(upper) if upper == lower => format!(in alloc; "{lower}"),
        Some(upper) => format!(in alloc; "{lower}..{upper}"),
    }
}

/// Returns `never`, `sometimes` or `always`.
pub fn when_text(answer: When) -> &'static str
    ensures { result.now ≡ text_of_when answer }
{
    match answer {
        When::Never => "never",
        When::Sometimes => "sometimes",
        When::Always => "always",
    }
}
