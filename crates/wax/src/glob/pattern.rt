//! A glob as one of the patterns of a set.
ghost use Rattle.std.specs.Prelude.{◌≡◌};
ghost use Rattle.wax_set.specs.Patterns.{LacksMemory};

use crate::glob::Glob;
use std::alloc::Global;
use wax_rule::BuildError;
use wax_rule::rule::Checked;
use wax_set::Pattern;
use wax_token::token::{ExpressionMetadata, Token};

impl<'t> Pattern for Glob<'t> {
    ghost spells = { λ glob t. t ≡ glob.tree };

    ghost refuses = { λ glob. LacksMemory };

    fn into_checked(
        self,
        alloc: Global,
    ) -> Result<Checked<Token<'static, ExpressionMetadata>>, BuildError> {
        let Glob {
            checked,
            compiled: _,
            pieces: _,
        } = self;
        let checked = checked.into_token();
        Ok(checked.into_owned(alloc)?)
    }
}
