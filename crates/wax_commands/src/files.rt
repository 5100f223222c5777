//! Files with ignore lists.
ghost use Rattle.std.specs.{Fn.FnReturnsAt, Prelude.{◌≢◌, IfErr, IfOk}};
ghost use Rattle.wax_commands.specs.Files.{IsListIn, IsUnlisted};

use crate::building::FilterFault;
use std::alloc::Global;
use wax::walk::{IgnoreError, IgnoreList};

/// Why a file wasn't read.
#[derive(Clone, Copy, Debug)]
pub enum FileFault {
    /// The file can't be read (18).
    ReadFailed,
    /// Allocation failed (10).
    Memory,
}

/// Reads the ignore list in a file.
///
/// # Errors
///
/// Returns `ReadFailed` if the file can't be read, `NotText` if it isn't UTF-8, `BadLine` for the
/// first line whose glob has an error, and `Memory` if allocation fails.
pub fn list_in<'w, B>(alloc: Global, file: &'w str, read: &B) -> Result<IgnoreList, FilterFault<'w>>
where
    B: Fn(&str) -> Result<Vec<u8>, FileFault>,
    requires { B.IsAlwaysCallable read.now }
    ensures ok { IfOk result (IsListIn (FnReturnsAt B.Fn read.now) file.now) }
    ensures err { IfErr result (λ fault. fault ≢ FilterFault.Memory
        → IsUnlisted (FnReturnsAt B.Fn read.now) file.now) }
{
    let bytes = match read(file) {
        Ok(bytes) => bytes,
        Err(FileFault::ReadFailed) => return Err(FilterFault::ReadFailed(file)),
        Err(FileFault::Memory) => return Err(FilterFault::Memory),
    };
    let Ok(text) = str::from_utf8(&bytes) else {
        return Err(FilterFault::NotText(file));
    };
    match IgnoreList::parse(alloc, text) {
        Ok(list) => Ok(list),
        Err(IgnoreError::BadLine { line, error }) => Err(FilterFault::BadLine {
            file,
            line,
            error,
        }),
        Err(IgnoreError::Memory) => Err(FilterFault::Memory),
    }
}
