//! What a glob captures of a path.
ghost use Rattle.std.specs.Prelude.{◌≡◌, IfOk};
ghost use Rattle.wax.specs.GlobView.{GlobView};
ghost use Rattle.wax_c.specs.{Captures.{Captures, CapturesAs, texts_of}, GlobOwned.glob_at};
ghost use types.Logic.{sem};

use crate::error::{CallError, number_of_bool};
use crate::handle::HeldGlob;
use crate::output::write_over;
use std::alloc::{AllocError, Global};
use wax::{BuildError, CandidatePath, Glob, MatchedText, Program};

/// Returns 1 if the glob matches the path. The texts of its captures are then at the beginning of
/// `texts`, one after another, the number of bytes of each is at the beginning of `lengths`, and
/// `count` is the number of captures. Returns 0 if the glob doesn't match the path; `count` is 0 then,
/// and the others are unchanged.
///
/// # Errors
///
/// Returns -10 if allocation fails, and -20 if the path isn't UTF-8; `count` is 0 then. Returns -21 if
/// `texts` or `lengths` is too small; `count` is the number of captures then. Both are unchanged in
/// all these cases.
#[unsafe(no_mangle)]
pub unsafe extern "C" fn wax_glob_captures(
    alloc: Global,
    glob: *const u8,
    path: &[u8],
    texts: &mut [u8],
    lengths: &mut [usize],
    count: &mut usize,
) -> i32
    ghost held: { GlobView }
    requires* { sem 𝓛 (glob_at alloc glob held) }
    ensures* back { sem 𝓛 (glob_at alloc glob held) }
    ensures captures { CapturesAs held path.now (record { bytes = texts.old; lengths = lengths.old })
        (record { bytes = texts.new; lengths = lengths.new }) count.new result }
{
    capture_held(
        alloc,
        &*(glob as *const HeldGlob),
        path,
        texts,
        lengths,
        count,
    )
}

fn capture_held(
    alloc: Global,
    held: &HeldGlob,
    path: &[u8],
    texts: &mut [u8],
    lengths: &mut [usize],
    count: &mut usize,
) -> i32
    ensures { CapturesAs held.now.matcher path.now (record { bytes = texts.old; lengths = lengths.old })
        (record { bytes = texts.new; lengths = lengths.new }) count.new result }
{
    number_of_bool(&capture(alloc, held.matcher.glob(), path, texts, lengths, count))
}

fn capture(
    alloc: Global,
    glob: &Glob<'_>,
    path: &[u8],
    texts: &mut [u8],
    lengths: &mut [usize],
    count: &mut usize,
) -> Result<bool, CallError>
    ensures { Captures glob.now path.now (record { bytes = texts.old; lengths = lengths.old })
        (record { bytes = texts.new; lengths = lengths.new }) count.new result }
{
    *count = 0;
    let Ok(path) = str::from_utf8(path) else {
        return Err(CallError::NotText);
    };
    let path = CandidatePath::from(path);
    let Ok(matched) = glob.matched(alloc, &path) else {
        return Err(CallError::Build(BuildError::Memory));
    };
    let Some(matched) = matched else {
        return Ok(false);
    };
    let Ok(found) = collect(alloc, &matched) else {
        return Err(CallError::Build(BuildError::Memory));
    };
    *count = found.lengths.len();
    if found.texts.len() > texts.len() || found.lengths.len() > lengths.len() {
        return Err(CallError::NoRoom);
    }
    write_over(&found.texts, texts);
    write_over(&found.lengths, lengths);
    Ok(true)
}

// The texts of captures, one after another, and how many bytes each has.
#[derive(Drop)]
struct Collected {
    texts: Vec<u8>,
    lengths: Vec<usize>,
}

fn collect(alloc: Global, matched: &MatchedText<'_>) -> Result<Collected, AllocError>
    ensures { IfOk result (λ found. texts_of matched.now.captures
        ≡ record { bytes = found.texts.items; lengths = found.lengths.items }) }
{
    let mut texts = Vec::new(alloc);
    let mut lengths = Vec::new(alloc);
    while let Some(part) = matched.get(lengths.len() + 1) {
        texts.extend_from_slice(part.as_bytes())?;
        lengths.push(part.len())?;
    }
    Ok(Collected { texts, lengths })
}
