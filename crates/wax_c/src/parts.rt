//! The two parts of a glob.
ghost use Rattle.std.specs.Prelude.{◌≡◌, IfErr, IfOk, None, Option, chars, option_map, string_bytes};
ghost use Rattle.wax.specs.{GlobView.GlobView, Partition.HasParts};
ghost use Rattle.wax_c.specs.{GlobHandles.{HasRest, IsNullIfEmpty, IsPartitioned}, GlobOwned.glob_at};
ghost use Rattle.wax_c.specs.Outcomes.{KeepsAfterError};
ghost use types.Logic.{sem};

use crate::error::{CallError, status_of};
use crate::handle::{GlobHandle, HeldGlob};
use crate::loose::Loose;
use crate::output::put;
use std::alloc::Global;
use wax::{BuildError, Glob};

/// Writes the prefix of the glob, with which every match begins, to the beginning of `prefix`, the
/// number of its bytes to `written`, and a handle of the rest to `rest`. The handle is null if no tokens
/// remain. The glob itself stays as it is. Returns 0.
///
/// # Errors
///
/// Returns -10 if allocation fails; `written` is 0 then. Returns -21 if `prefix` is too small;
/// `written` is how many bytes are needed then. `prefix` is unchanged and the handle is null in both
/// cases.
#[unsafe(no_mangle)]
pub unsafe extern "C" fn wax_glob_partition(
    alloc: Global,
    glob: *const u8,
    prefix: &mut [u8],
    written: &mut usize,
    rest: &mut GlobHandle,
) -> i32
    ghost held: { GlobView }
    requires* { sem 𝓛 (glob_at alloc glob held) }
    ensures* back { sem 𝓛 (glob_at alloc glob held) }
    ensures parts { IsPartitioned held prefix.old
        (record { bytes = prefix.new; written = written.new }) rest.new result }
{
    partition_held(alloc, &*(glob as *const HeldGlob), prefix, written, rest)
}

fn partition_held(
    alloc: Global,
    held: &HeldGlob,
    prefix: &mut [u8],
    written: &mut usize,
    rest: &mut GlobHandle,
) -> i32
    ensures { IsPartitioned held.now.matcher prefix.old
        (record { bytes = prefix.new; written = written.new }) rest.new result }
{
    let Splitting { outcome, handle } = split(alloc, held.matcher.glob(), prefix, written);
    *rest = handle;
    status_of(&outcome)
}

// The result of a call that splits a glob.
struct Splitting {
    outcome: Result<(), CallError>,
    handle: GlobHandle,
}

fn split(alloc: Global, glob: &Glob<'_>, prefix: &mut [u8], written: &mut usize) -> Splitting
    ensures rest { HasRest glob.now prefix.old (record { bytes = prefix.new; written = written.new })
        result.handle result.outcome }
    ensures kept { KeepsAfterError prefix.old (record { bytes = prefix.new; written = written.new })
        result.outcome }
{
    *written = 0;
    match parts_of(alloc, glob) {
        Ok(Parts { front, rest }) => match put(front.as_str().as_bytes(), prefix, written) {
            Ok(()) => Splitting {
                outcome: Ok(()),
                handle: handle_of(alloc, rest),
            },
            Err(error) => Splitting {
                outcome: Err(error),
                handle: GlobHandle::null(alloc),
            },
        },
        Err(error) => Splitting {
            outcome: Err(error),
            handle: GlobHandle::null(alloc),
        },
    }
}

// The prefix, and the rest if there is one.
#[derive(Drop)]
struct Parts {
    front: String,
    rest: Option<Box<HeldGlob>>,
}

fn parts_of(alloc: Global, glob: &Glob<'_>) -> Result<Parts, CallError>
    ensures ok { IfOk result (λ parts. HasParts glob.now (chars (string_bytes parts.front))
        (option_map (λ held. held.value.matcher) parts.rest)) }
    ensures err { IfErr result (λ error. error ≡ CallError.Build BuildError.Memory) }
{
    let Ok(copy) = glob.to_owned(alloc) else {
        return Err(CallError::Build(BuildError::Memory));
    };
    let Ok((front, rest)) = copy.partition(alloc) else {
        return Err(CallError::Build(BuildError::Memory));
    };
    let Some(glob) = rest else {
        return Ok(Parts { front, rest: None });
    };
    let matcher = glob.into_matcher(alloc);
    match Box::new(alloc, HeldGlob { matcher }) {
        Ok(held) => Ok(Parts {
            front,
            rest: Some(held),
        }),
        Err(_) => Err(CallError::Build(BuildError::Memory)),
    }
}

fn handle_of(alloc: Global, rest: Option<Box<HeldGlob>>) -> GlobHandle
    ensures held { result.held ≡ option_map (λ held. held.value.matcher) rest }
    ensures empty { IsNullIfEmpty result }
{
    match rest {
        Some(held) => GlobHandle::of(Loose::of(held)),
        None => GlobHandle::null(alloc),
    }
}
