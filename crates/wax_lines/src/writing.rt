//! Writes of whole lines and of all of some bytes.
ghost use Rattle.std.specs.Prelude.{◌≡◌, ◌≤◌, ◌<◌, ◌⊎◌, ◌++◌, ◌∷◌, [], IfErr, OnErr, OnOk};
ghost use Rattle.std.specs.Io.KnownBytes.{Appends};
ghost use Rattle.wax_lines.specs.{Counts.greatest_count, Written.WritesPart};

use crate::counted::Counted;
use crate::lines::LinesError;
use std::alloc::AllocError;
use std::io::Write;

/// Writes all of the bytes, by as many calls as it takes.
///
/// # Errors
///
/// Returns `Write` if a write fails or takes nothing. A prefix of the bytes has been written.
pub fn write_whole<W: Write>(output: &mut Counted<W>, bytes: &[u8]) -> Result<(), LinesError>
    ensures ok { OnOk result (Appends (W.contents output.old.inner) (W.contents output.new.inner) bytes.now) }
    ensures err { IfErr result (λ e. (e ≡ LinesError.Write)
        × WritesPart (W.contents output.old.inner) (W.contents output.new.inner) bytes.now) }
    ensures failed { OnErr result
        ((output.old.failures < output.new.failures) ⊎ (output.new.failures ≡ greatest_count)) }
    ensures steady { output.old.failures ≤ output.new.failures }
{
    let mut rest = bytes;
    while !rest.is_empty() {
        match output.write(rest) {
            Ok(0) | Err(_) => return Err(LinesError::Write),
            Ok(taken) => rest = &rest[taken..],
        }
    }
    Ok(())
}

/// Appends a line and a line feed. It reserves the space first, so that it appends all or nothing.
///
/// # Errors
///
/// Returns `AllocError` if allocation fails. `lines` is unchanged then.
pub fn push_line(line: &str, lines: &mut Vec<u8>) -> Result<(), AllocError>
    ensures ok { OnOk result (lines.new.items ≡ lines.old.items ++ (line.now ++ 10 ∷ [])) }
    ensures err { OnErr result (lines.new.items ≡ lines.old.items) }
{
    let bytes = line.as_bytes();
    lines.reserve(bytes.len() + 1)?;
    lines.extend_from_slice(bytes)?;
    lines.push(b'\n')?;
    Ok(())
}
