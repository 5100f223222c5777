//! Copies of globs, and how a glob is printed.
ghost use Rattle.std.specs.{Prelude.{◌≡◌, IfOk, Some, codes, encode_utf8_all}, Fmt.{◌++?◌, debug_str}};

use crate::glob::{Glob, compiled};
use std::alloc::Global;
use std::fmt;
use wax_query::diagnostics::{NoMemory, Refusal};

impl<'t> Glob<'t> {
    /// Converts the glob into one that owns its expression and texts. It takes time and memory in
    /// proportion to the expression, all tokens and their texts.
    pub fn into_owned(self, alloc: Global) -> Result<Glob<'static>, NoMemory>
        ensures { IfOk result (λ glob. glob ≡ self.entry) }
    {
        let Glob {
            checked,
            compiled,
            pieces,
        } = self;
        Ok(Glob {
            checked: checked.into_owned(alloc)?,
            compiled,
            pieces,
        })
    }

    /// Copies the glob into one that owns its expression and texts. It takes the time and memory of
    /// `Glob::new`.
    pub fn to_owned(&self, alloc: Global) -> Result<Glob<'static>, NoMemory>
        ensures { IfOk result (λ copy. copy ≡ self.now) }
    {
        let checked = self.checked.to_owned(alloc)?;
        match compiled(alloc, checked) {
            Ok(glob) => Ok(glob),
            Err(Refusal::Memory) => Err(NoMemory),
            // The copy costs as much as this glob, which is within the bound.
            Err(Refusal::Refused(_)) => unreachable!(),
        }
    }
}

/// Prints `Glob("..")` with the expression between the quotes.
impl fmt::Debug for Glob<'_> {
    ghost debug_output = { λ glob.
        Some (codes "Glob(") ++? debug_str (encode_utf8_all glob.expression) ++? Some (codes ")") };

    fn fmt<W: fmt::Write>(&self, f: &mut fmt::Formatter<W>) -> fmt::Result {
        write!(f, "Glob({:?})", self.expression())
    }
}
