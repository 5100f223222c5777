//! Copying parts of an expression.
ghost use Rattle.std.specs.Prelude.{◌≡◌, ◌∷◌, ◌++◌, [], ◌&&◌, IfOk, OnOk, chars, string_bytes, if◌then◌else◌};
ghost use Rattle.std.specs.Prelude.{nat_le, nat_lt};
ghost use Rattle.wax_partition.specs.Kept.{between, without_slash};

use std::alloc::{AllocError, Global};

/// Copies the characters whose first byte is from `from` on and before `to`.
pub fn between(
    alloc: Global,
    expression: &str,
    from: usize,
    to: usize,
) -> Result<String, AllocError>
    ensures { IfOk result (λ t. chars (string_bytes t) ≡ between 0 from to (chars expression.now)) }
{
    let mut kept = String::new(alloc);
    let mut at: usize = 0;
    for c in expression.chars() {
        keep(&mut kept, c, is_within(at, from, to))?;
        at = at.saturating_add(c.len_utf8());
    }
    Ok(kept)
}

/// Copies the text without its first `/`.
pub fn without_slash(alloc: Global, text: &str) -> Result<String, AllocError>
    ensures { IfOk result (λ t. chars (string_bytes t) ≡ without_slash (chars text.now)) }
{
    let mut kept = String::new(alloc);
    let mut is_gone = false;
    for c in text.chars() {
        let is_slash = c == '/';
        keep(&mut kept, c, is_gone | !is_slash)?;
        is_gone |= is_slash;
    }
    Ok(kept)
}

// Appends the character if it is kept.
fn keep(kept: &mut String, c: char, is_kept: bool) -> Result<(), AllocError>
    ensures { OnOk result (chars (string_bytes kept.new)
        ≡ chars (string_bytes kept.old) ++ (if is_kept then c ∷ [] else [])) }
{
    if is_kept {
        kept.push(c)?;
    }
    Ok(())
}

fn is_within(at: usize, from: usize, to: usize) -> bool
    ensures { result ≡ (nat_le from at && nat_lt at to) }
{
    from <= at && at < to
}
