//! The candidates of a walk, as lines.
ghost use Rattle.std.specs.Prelude.{◌≡◌, ◌<◌, ◌≤◌, ◌∷◌, ◌++◌, ◌⊎◌, [], IfOk, IfErr, IsErrOf, OnOk, false};
ghost use Rattle.std.specs.{Prelude.map, Iterator.IsFinite};
ghost use Rattle.wax_command_line.specs.Wanted.{WroteFirst, WroteWanted};
ghost use Rattle.wax_command_line.specs.inner.Written.{MovesBytes, StopsAt, WroteAll, WroteSome};
ghost use Rattle.wax_command_line.specs.Candidates.{candidate_line, is_error};
ghost use Rattle.wax_lines.specs.Counts.{greatest_count};
ghost use Rattle.wax_walk.specs.Entries.{given_of};

use std::alloc::Global;
use std::io::Write;
use wax_exclude::law_of_walks;
use wax_filter::filter::{Feed, Separation, TreeResidue};
use wax_lines::{Counted, LinesError, push_line, write_whole};
use wax_tree::FilterAny;
use wax_walk::{Entry, Exclude, FileIterator, WalkError};

/// Lines are written once that many bytes of them wait.
const CHUNK: usize = 8192;

/// Writes the candidates of the entries that a walk keeps, one per line, without those that the
/// rules exclude. Returns whether some item was an error; each error is written to `faults` when it
/// comes.
///
/// # Errors
///
/// Returns `Write` if a write fails or takes nothing, and `Memory` if allocation fails for the lines.
/// If memory runs out in the walk, that is one of its items.
pub fn write_wanted<I, R, W, F>(
    alloc: Global,
    walk: I,
    rules: Vec<R>,
    output: &mut Counted<W>,
    faults: &mut F,
) -> Result<bool, LinesError>
where
    I: FileIterator,
    R: Exclude,
    W: Write,
    F: Write,
    requires can { I.can_feed walk }
    requires ends { IsFinite (I.left walk) }
    ensures done { IfOk result (WroteWanted I.Directory.law (I.view walk) (map R.rule rules.items)
        (W.contents output.old.inner) (W.contents output.new.inner)) }
    ensures stopped { IfErr result (WroteFirst I.Directory.law (I.view walk) (map R.rule rules.items)
        (W.contents output.old.inner) (W.contents output.new.inner)) }
    ensures unread { IsErrOf result LinesError.Read → ⊥ }
    ensures write_failed { IsErrOf result LinesError.Write →
        (output.old.failures < output.new.failures) ⊎ (output.new.failures ≡ greatest_count) }
    ensures quiet { IfOk result (λ has_errors. has_errors ≡ false → faults.new ≡ faults.old) }
{
    law_of_walks();
    let kept = walk.excluding(alloc, FilterAny::new(rules));
    write_candidates(alloc, kept, output, faults)
}

// Writes a walk that is already filtered. Lines are written before the line of the item that came last
// is added, so that after an error they are of items that another call of `feed` followed.
fn write_candidates<I, W, F>(
    alloc: Global,
    mut walk: I,
    output: &mut Counted<W>,
    faults: &mut F,
) -> Result<bool, LinesError>
where
    I: FileIterator,
    W: Write,
    F: Write,
    requires can { I.can_feed walk }
    requires ends { IsFinite (I.left walk) }
    ensures done { IfOk result (WroteAll I.Directory.law (I.view walk)
        (W.contents output.old.inner) (W.contents output.new.inner)) }
    ensures stopped { IfErr result (WroteSome I.Directory.law (I.view walk)
        (W.contents output.old.inner) (W.contents output.new.inner)) }
    ensures unread { IsErrOf result LinesError.Read → ⊥ }
    ensures write_failed { IsErrOf result LinesError.Write →
        (output.old.failures < output.new.failures) ⊎ (output.new.failures ≡ greatest_count) }
    ensures quiet { IfOk result (λ has_errors. has_errors ≡ false → faults.new ≡ faults.old) }
{
    let mut lines = Vec::new(alloc);
    let mut has_errors = false;
    while let Some(item) = walk.feed() {
        write_if_long(&mut lines, output)?;
        has_errors |= write_item(item, &mut lines, output, faults)?;
    }
    write_whole(output, &lines)?;
    Ok(has_errors)
}

// Writes the lines that wait, once they are long.
fn write_if_long<W: Write>(lines: &mut Vec<u8>, output: &mut Counted<W>) -> Result<(), LinesError>
    ensures ok { OnOk result (MovesBytes (W.contents output.old.inner) (W.contents output.new.inner)
        lines.old.items lines.new.items []) }
    ensures err { IfErr result (StopsAt (W.contents output.old.inner) (W.contents output.new.inner)
        lines.old.items) }
    ensures unread { IsErrOf result LinesError.Read → ⊥ }
    ensures write_failed { IsErrOf result LinesError.Write →
        (output.old.failures < output.new.failures) ⊎ (output.new.failures ≡ greatest_count) }
    ensures steady { output.old.failures ≤ output.new.failures }
{
    if lines.len() >= CHUNK {
        write_whole(output, lines)?;
        lines.clear();
    }
    Ok(())
}

// Adds the line of an item, and returns whether it was an error, which goes to `faults`.
fn write_item<T, R, S, W, F>(
    separation: Separation<S>,
    lines: &mut Vec<u8>,
    output: &mut Counted<W>,
    faults: &mut F,
) -> Result<bool, LinesError>
where
    T: Entry,
    R: Entry,
    S: Feed<Filtrate = Result<T, WalkError>, Residue = TreeResidue<R>>,
    W: Write,
    F: Write,
    ensures ok { OnOk result (MovesBytes (W.contents output.old.inner) (W.contents output.new.inner)
        lines.old.items lines.new.items (candidate_line (given_of T.facts R.facts separation))) }
    ensures error { IfOk result (λ was. was ≡ is_error (given_of T.facts R.facts separation)) }
    ensures err { IfErr result (StopsAt (W.contents output.old.inner) (W.contents output.new.inner)
        lines.old.items) }
    ensures unread { IsErrOf result LinesError.Read → ⊥ }
    ensures write_failed { IsErrOf result LinesError.Write →
        (output.old.failures < output.new.failures) ⊎ (output.new.failures ≡ greatest_count) }
    ensures steady { output.old.failures ≤ output.new.failures }
    ensures quiet { IfOk result (λ was. was ≡ false → faults.new ≡ faults.old) }
{
    match separation {
        Separation::Filtrate(filtrate) => match filtrate.into_inner() {
            Ok(entry) => {
                write_candidate(&entry, lines, output)?;
                Ok(false)
            }
            Err(error) => {
                let _ = writeln!(faults, "globs: {error}");
                Ok(true)
            }
        },
        Separation::Residue(_) => Ok(false),
    }
}

// Adds a candidate and a line feed to the lines that wait. If allocation fails for it, these are still
// written.
fn write_candidate<E: Entry, W: Write>(
    entry: &E,
    lines: &mut Vec<u8>,
    output: &mut Counted<W>,
) -> Result<(), LinesError>
    ensures ok { OnOk result (MovesBytes (W.contents output.old.inner) (W.contents output.new.inner)
        lines.old.items lines.new.items ((E.facts entry.now).candidate ++ 10 ∷ [])) }
    ensures err { IfErr result (StopsAt (W.contents output.old.inner) (W.contents output.new.inner)
        lines.old.items) }
    ensures unread { IsErrOf result LinesError.Read → ⊥ }
    ensures write_failed { IsErrOf result LinesError.Write →
        (output.old.failures < output.new.failures) ⊎ (output.new.failures ≡ greatest_count) }
    ensures steady { output.old.failures ≤ output.new.failures }
{
    let (_, candidate) = entry.root_relative_paths();
    let Ok(()) = push_line(candidate, lines) else {
        write_whole(output, lines)?;
        return Err(LinesError::Memory);
    };
    Ok(())
}
