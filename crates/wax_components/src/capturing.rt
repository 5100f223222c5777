//! The capturing tokens of a glob.
ghost use Rattle.std.specs.Prelude.{◌≡◌, IfOk, length};
ghost use Rattle.wax_components.specs.Capturing.{captures, captures_in, capturing};

use crate::kinds;
use std::alloc::{AllocError, Global};
use wax_query::diagnostics::NoMemory;
use wax_query::query::CapturingToken;
use wax_token::token::{Annotation, ExpressionMetadata, Token};

/// Returns the capturing tokens of a glob from left to right, each with its index, from 1 on, and
/// its span. These are the classes, wildcards, alternations and repetitions that aren't inside
/// another token. Allocates the list.
pub fn captures<'t>(
    alloc: Global,
    token: &Token<'t, ExpressionMetadata>,
) -> Result<Vec<CapturingToken>, NoMemory>
    ensures { IfOk result (λ cs. cs.items ≡ captures token.now) }
{
    Ok(captures_in(alloc, kinds::top_level(token))?)
}

fn captures_in<'t>(
    alloc: Global,
    tokens: &[Token<'t, ExpressionMetadata>],
) -> Result<Vec<CapturingToken>, AllocError>
    ensures { IfOk result (λ cs. cs.items ≡ captures_in 1 tokens.now) }
{
    let mut found = Vec::new(alloc);
    for token in tokens {
        if token.is_capturing() {
            let index = found.len() + 1;
            found.push(CapturingToken::new(index, token.annotation().span()))?;
        }
    }
    Ok(found)
}

/// Returns how many captures a match has, apart from that of the whole path.
pub fn capture_count<'t, A: Annotation>(token: &Token<'t, A>) -> usize
    ensures { result ≡ length (capturing token.now) }
{
    let mut count = 0;
    for token in kinds::top_level(token) {
        if token.is_capturing() {
            count += 1;
        }
    }
    count
}
