//! Compiling tokens to programs of instructions.
ghost use Rattle.std.specs.Prelude.{◌≡◌, ◌+◌, ◌*◌, ◌<◌, ◌≤◌, ◌↔◌, ℕ, [], List, IsTrue, IfOk, chars, length};
ghost use Rattle.std.specs.Prelude.{min};
ghost use Rattle.wax_query.specs.Outcome.{MatchBuild};
ghost use Rattle.wax_token.specs.{Cost.{cost, costs, program_length}, Meaning.{Means, MeansEach}};
ghost use Rattle.wax_token.specs.Words.{trees};
ghost use Rattle.wax_program.specs.Machine.{Accepts};

use cost::{LONGEST, weigh, weigh_all};
use std::alloc::Global;
use tail::Tail;
use thiserror::Error;
use wax_query::diagnostics::Refusal;
use wax_token::token::{Sides, Token};

mod cost;
mod emission;
mod ends;
mod folding;
mod joining;
mod leaves;
mod left;
mod shared;
mod tail;

pub use ends::{Numbered, compile_numbered};
pub use folding::case_folded_eq;
pub use wax_program::{CompiledProgram, Meter, last_name, run, run_last, without_marks};

/// Tokens cost more than a program may (error 9).
#[derive(Clone, Copy, Debug, Error)]
#[error("failed to compile glob: oversized program")]
pub struct CompileError;

/// For how many instructions there is room at most when compiling begins.
const FIRST_ROOM: usize = 16;

/// Compiles tokens, matched one after another, to a program that accepts exactly the texts that
/// they match. `sides` says whether something is written before and after them, on which `**`
/// depends.
///
/// Takes time and memory linear in the tokens and their cost. The program's length is this cost
/// plus 1.
///
/// # Errors
///
/// Returns `Refusal::Refused` if the cost plus 1 exceeds 1,048,576 (error 9), and `Refusal::Memory`
/// if allocation fails.
pub fn compile<'t, A>(
    alloc: Global,
    tokens: &[Token<'t, A>],
    sides: Sides,
) -> Result<CompiledProgram, Refusal<CompileError>>
    ensures means { IfOk result (λ p. (s : List ℕ)
        → Accepts p.0 0 s ↔ MeansEach (trees tokens.now) sides.before sides.after s) }
    ensures length { MatchBuild result
        (λ p. (p.1 ≡ costs (trees tokens.now) + 1) × (p.1 ≤ 1048576))
        (λ _. 1048576 < costs (trees tokens.now) + 1) }
{
    let cost = weigh_all(tokens).cost;
    let mut tail = tail_for(alloc, cost)?;
    tail.put_sequence(tokens, sides)?;
    Ok(CompiledProgram::new(tail.into_instructions(), cost + 1))
}

/// Compiles one token as `compile` does tokens.
///
/// # Errors
///
/// Returns `Refusal::Refused` if the cost plus 1 exceeds 1,048,576 (error 9), and `Refusal::Memory`
/// if allocation fails.
pub fn compile_token<'t, A>(
    alloc: Global,
    token: &Token<'t, A>,
    sides: Sides,
) -> Result<CompiledProgram, Refusal<CompileError>>
    ensures means { IfOk result (λ p. (s : List ℕ)
        → Accepts p.0 0 s ↔ Means token.now sides.before sides.after s) }
    ensures length { MatchBuild result
        (λ p. (p.1 ≡ cost token.now + 1) × (p.1 ≤ 1048576))
        (λ _. 1048576 < cost token.now + 1) }
{
    let cost = weigh(token).cost;
    let mut tail = tail_for(alloc, cost)?;
    tail.put_token(token, sides)?;
    Ok(CompiledProgram::new(tail.into_instructions(), cost + 1))
}

/// Returns whether a token's program has at most 1,048,576 instructions, so that `compile_token` doesn't
/// refuse it. Takes time linear in the token, and doesn't allocate.
pub fn fits<'t, A>(token: &Token<'t, A>) -> bool
    ensures { IsTrue result ↔ program_length token.now ≤ 1048576 }
{
    weigh(token).cost < LONGEST
}

/// Creates an empty program with room for some instructions, if a program may cost so much.
fn tail_for(alloc: Global, cost: usize) -> Result<Tail, Refusal<CompileError>>
    ensures { MatchBuild result (λ tail. (tail ≡ []) × (cost < 1048576)) (λ _. 1048576 ≤ cost) }
{
    if cost >= LONGEST {
        return Err(Refusal::Refused(CompileError));
    }
    Ok(Tail::with_room(alloc, cost.min(FIRST_ROOM))?)
}
