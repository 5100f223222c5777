//! Tokens that are known to fit, compiled.
ghost use Rattle.std.specs.Prelude.{◌↔◌, ◌<◌, ℕ, List, IfOk, false};
ghost use Rattle.wax_program.specs.Machine.{Accepts};
ghost use Rattle.wax_token.specs.{Cost.costs, Meaning.MeansEach, Words.trees};

use std::alloc::Global;
use wax_prefilter::CompiledTokens;
use wax_query::diagnostics::{NoMemory, Refusal};
use wax_token::token::{ExpressionMetadata, Token};

/// Compiles tokens that are known to fit, with nothing around them.
pub fn compile_fitting<'t>(
    alloc: Global,
    tokens: &[Token<'t, ExpressionMetadata>],
) -> Result<CompiledTokens, NoMemory>
    requires { costs (trees tokens.now) < 1048576 }
    ensures { IfOk result (λ c. (s : List ℕ)
        → Accepts c.0 0 s ↔ MeansEach (trees tokens.now) false false s) }
{
    match CompiledTokens::new(alloc, tokens) {
        Ok(compiled) => Ok(compiled),
        Err(Refusal::Memory) => Err(NoMemory),
        Err(Refusal::Refused(_)) => unreachable!(),
    }
}
