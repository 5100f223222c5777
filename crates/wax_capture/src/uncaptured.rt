//! The pieces of `**` of which nothing is captured.
ghost use Rattle.std.specs.Prelude.{◌≡◌, ◌↔◌, ◌≤◌, [], ℕ, List};
ghost use Rattle.wax_token.specs.Meaning.{TreeMeans};
ghost use Rattle.wax_capture.specs.Captures.{tree_capture};
ghost use Rattle.wax_lengths.specs.Forms.{TakenBy, form_size};

use wax_lengths::Form;
use wax_program::instruction::Test;
use wax_token::token::Sides;

/// Returns a form that takes exactly the pieces of a `**` whose capture is empty.
pub fn nothing_captured(sides: Sides, has_root: bool) -> Form
    ensures means { (x : List ℕ) → TakenBy result x
        ↔ (TreeMeans sides.before sides.after has_root x × (tree_capture sides.before has_root x ≡ [])) }
    ensures few { form_size result ≤ 1 }
{
    if sides.before {
        if sides.after {
            return Form::One(Test::Char('/'));
        }
        return Form::SlashOrNothing;
    }
    if has_root {
        return Form::One(Test::Never);
    }
    Form::SlashOrNothing
}
