//! Building the pieces of tokens.
ghost use Rattle.std.specs.Prelude.{◌≡◌, ◌+◌, ◌<◌, ◌∷◌, [], ◌++◌, List, OnOk, false, length};
ghost use Rattle.wax_query.specs.Outcome.{MatchBuild};
ghost use Rattle.wax_token.specs.{Cost.{cost, costs}, Words.trees};
ghost use Rattle.wax_capture.specs.Pieces.{ArePieces, IsPiece};

use crate::piece::Piece;
use crate::tokens::{capture_of, is_lazy};
use crate::ways::ways_of;
use std::alloc::{AllocError, Global};
use wax_match::encode::CompileError;
use wax_query::diagnostics::Refusal;
use wax_token::token::{Sides, Token};

/// Builds the piece of a token.
fn piece_of<'t, A>(
    alloc: Global,
    token: &Token<'t, A>,
    sides: Sides,
) -> Result<Piece, Refusal<CompileError>>
    ensures { MatchBuild result (IsPiece token.now sides.before sides.after)
        (λ _. 1048576 < cost token.now + 1) }
{
    let ways = match ways_of(alloc, token, sides) {
        Ok(ways) => ways,
        Err(refusal) => return Err(refusal),
    };
    Ok(Piece {
        ways,
        is_lazy: is_lazy(token),
        capture: capture_of(token, sides),
    })
}

fn add_piece(pieces: &mut Vec<Piece>, piece: Piece) -> Result<(), AllocError>
    ensures { OnOk result (pieces.new.items ≡ pieces.old.items ++ piece ∷ []) }
{
    pieces.push(piece)?;
    Ok(())
}

/// Builds the pieces of tokens one after another, with nothing around them.
///
/// # Errors
///
/// Returns `Refusal::Refused` only if the cost of the tokens plus 1 exceeds 1,048,576 (error 9),
/// and `Refusal::Memory` if allocation fails.
pub fn pieces_of<'t, A>(
    alloc: Global,
    tokens: &[Token<'t, A>],
) -> Result<Vec<Piece>, Refusal<CompileError>>
    ensures { MatchBuild result (λ ps. ArePieces (trees tokens.now) false false ps.items)
        (λ _. 1048576 < costs (trees tokens.now) + 1) }
{
    let mut pieces = Vec::with_capacity(alloc, tokens.len())?;
    let mut index = tokens.len();
    while index > 0 {
        let has_next = index < tokens.len();
        index -= 1;
        let sides = Sides {
            before: index > 0,
            after: has_next,
        };
        let piece = match piece_of(alloc, &tokens[index], sides) {
            Ok(piece) => piece,
            Err(refusal) => return Err(refusal),
        };
        add_piece(&mut pieces, piece)?;
    }
    pieces.reverse();
    Ok(pieces)
}
