//! A session of a C program: the exported calls, one after another. Nothing exports it; its proof is what it
//! is for. It shows that whoever calls in this order never has to show what a call of a handle requires.
ghost use Rattle.std.specs.Prelude.{◌≡◌, None, Some, map};
ghost use Rattle.wax.specs.GlobView.{GlobView};
ghost use Rattle.wax_c.specs.{Outcomes.{DecidesAs, SaysMatch}, Sessions.IsSession};
ghost use denote.RawPtr.{null_ptr};

use crate::globs::{WaxSpan, wax_glob_free, wax_glob_is_match, wax_glob_new};
use crate::handle::GlobHandle;
use std::alloc::Global;

/// Builds a glob, asks it about each path, and frees it. Returns what the calls about the paths returned.
///
/// # Errors
///
/// Returns the number that `wax_glob_new` returned if the expression isn't built, and -10 if allocation
/// fails.
pub(crate) fn session(alloc: Global, expression: &[u8], paths: &[&[u8]]) -> Result<Vec<i32>, i32>
    ensures { IsSession expression.now (map (λ path. path.now) paths.now) result }
{
    let mut handle = GlobHandle::null(alloc);
    let mut span = WaxSpan {
        start: 0,
        length: 0,
    };
    let status = wax_glob_new(alloc, expression, &mut handle, &mut span);
    if status != 0 {
        close(handle);
        return Err(status);
    }
    let mut answers = Vec::new(alloc);
    for index in 0..paths.len() {
        let (same, answer) = ask(handle, paths[index]);
        handle = same;
        let Ok(()) = answers.push(answer) else {
            close(handle);
            return Err(-10);
        };
    }
    close(handle);
    Ok(answers)
}

// Asks the glob about a path, and returns the handle with the answer.
fn ask(handle: GlobHandle, path: &[u8]) -> (GlobHandle, i32)
    requires { (g : GlobView) × (handle.held ≡ Some g) }
    ensures same { result.0 ≡ handle }
    ensures answer { (g : GlobView) → handle.held ≡ Some g → DecidesAs (SaysMatch g) path.now result.1 }
{
    let answer = unsafe { wax_glob_is_match(handle.alloc, handle.at, path) };
    (handle, answer)
}

// Frees what the handle holds.
fn close(handle: GlobHandle)
    requires { handle.held ≡ None → handle.at ≡ null_ptr }
{
    unsafe { wax_glob_free(handle.alloc, handle.at) }
}
