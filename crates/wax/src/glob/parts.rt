//! Partition of a glob into its prefix and the rest.
ghost use Rattle.std.specs.Prelude.{IfOk, chars, string_bytes};
ghost use Rattle.wax.specs.{Build.{IsEmptyGlob, IsTreeGlob}, Partition.{HasParts, HasPartsOr}};

use crate::glob::{Glob, compiled};
use std::alloc::Global;
use wax_partition::Partitioned;
use wax_query::diagnostics::{NoMemory, Refusal};

impl<'t> Glob<'t> {
    /// Splits the glob into its prefix, with which every match begins, and the rest as a glob of
    /// its own, or `None` if no tokens remain. It takes the time and memory of `Glob::new`.
    ///
    /// ```
    /// let glob = Glob::new(alloc, "src/*/mod.rs")?;
    /// let (prefix, rest) = glob.partition(alloc)?;
    /// println!(rt; "{prefix}")?; // src/
    /// if let Some(rest) = rest {
    ///     println!(rt; "{rest}")?; // */mod.rs
    /// }
    /// ```
    pub fn partition(self, alloc: Global) -> Result<(String, Option<Glob<'t>>), NoMemory>
        ensures { IfOk result (λ r. HasParts self.entry (chars (string_bytes r.0)) r.1) }
    {
        let Glob {
            checked,
            compiled: _,
            pieces: _,
        } = self;
        let (prefix, rest) = checked.partition(alloc)?;
        let Some(checked) = rest else {
            return Ok((prefix, None));
        };
        match compiled(alloc, checked) {
            Ok(glob) => Ok((prefix, Some(glob))),
            Err(Refusal::Memory) => Err(NoMemory),
            // The rest costs no more than the whole glob, which is within the bound.
            Err(Refusal::Refused(_)) => unreachable!(),
        }
    }

    /// Splits the glob as `partition` does, with the empty glob if there is no rest.
    pub fn partition_or_empty(self, alloc: Global) -> Result<(String, Glob<'t>), NoMemory>
        ensures { IfOk result (λ r.
            HasPartsOr IsEmptyGlob self.entry (chars (string_bytes r.0)) r.1) }
    {
        match self.partition(alloc)? {
            (prefix, Some(rest)) => Ok((prefix, rest)),
            (prefix, None) => Ok((prefix, Glob::empty(alloc)?)),
        }
    }

    /// Splits the glob as `partition` does, with the glob of `**` if there is no rest.
    pub fn partition_or_tree(self, alloc: Global) -> Result<(String, Glob<'t>), NoMemory>
        ensures { IfOk result (λ r.
            HasPartsOr IsTreeGlob self.entry (chars (string_bytes r.0)) r.1) }
    {
        match self.partition(alloc)? {
            (prefix, Some(rest)) => Ok((prefix, rest)),
            (prefix, None) => Ok((prefix, Glob::tree(alloc)?)),
        }
    }
}
