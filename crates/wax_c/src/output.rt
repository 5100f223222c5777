//! Writing to the outputs of a caller.
ghost use Rattle.std.specs.Prelude.{◌≡◌, ◌≤◌, ◌++◌, IfErr, IfOk, List, OnErr, drop, length};
ghost use Rattle.wax_c.specs.Outcomes.{Fills, ListsAll};

use crate::error::CallError;
use wax::{BuildError, NoMemory};

/// Writes the bytes to the beginning of the output, and their number to `written`.
///
/// # Errors
///
/// Returns `NoRoom` (21) if the output is too small; it is unchanged then.
pub(crate) fn put(bytes: &[u8], output: &mut [u8], written: &mut usize) -> Result<(), CallError>
    ensures fills { Fills (λ out. out ≡ bytes.now) output.old
        (record { bytes = output.new; written = written.new }) result }
    ensures unchanged { OnErr result (output.new ≡ output.old) }
    ensures error { IfErr result (λ error. error ≡ CallError.NoRoom) }
{
    *written = bytes.len();
    if bytes.len() > output.len() {
        return Err(CallError::NoRoom);
    }
    write_over(bytes, output);
    Ok(())
}

/// Writes the items to the beginning of the output, which goes on as before.
pub(crate) fn write_over<T: Copy>(items: &[T], output: &mut [T])
    requires { length items.now ≤ length output.old }
    ensures { output.new ≡ items.now ++ drop (length items.now) output.old }
{
    let (room, _) = output.split_at_mut(items.len());
    room.copy_from_slice(items);
}

/// Writes the items to the beginning of the list, and their number to `count`.
///
/// # Errors
///
/// Returns `Memory` (10) if they weren't found since allocation failed; `count` is 0 then. Returns `NoRoom`
/// (21) if the list is too small. It is unchanged in both cases.
pub(crate) fn list_found<T: Copy>(
    found: &Result<Vec<T>, NoMemory>,
    list: &mut [T],
    count: &mut usize,
) -> Result<(), CallError>
    ensures { (items : List T) → IfOk found.now (λ found. found.items ≡ items)
        → ListsAll items list.old list.new count.new result }
{
    *count = 0;
    let Ok(found) = found else {
        return Err(CallError::Build(BuildError::Memory));
    };
    *count = found.len();
    if found.len() > list.len() {
        return Err(CallError::NoRoom);
    }
    write_over(found, list);
    Ok(())
}
