//! How many lines of an input the filters exclude since they aren't text.
ghost use Rattle.std.specs.{Prelude.{◌≡◌, ◌==◌, ◌≤◌, ◌+◌, drop, length}, List.{position, position_or_len}};
ghost use Rattle.wax.specs.Matching.{lines};
ghost use Rattle.wax_c.specs.NotText.{AreExcluded, AreNotText, IsNotText};

/// Returns how many lines of the input aren't UTF-8, as `wax_filter`, `wax_glob_filter` and
/// `wax_ignore_filter` divide it into lines: these exclude them, whatever else they keep. It has no errors
/// and doesn't allocate.
#[unsafe(no_mangle)]
pub extern "C" fn wax_count_not_text(input: &[u8]) -> usize
    ensures not_text { AreNotText (lines input.now) result }
    ensures excluded { AreExcluded input.now result }
{
    count_not_text(input)
}

fn count_not_text(input: &[u8]) -> usize
    ensures { AreNotText (lines input.now) result }
{
    let mut rest = input;
    let mut count = 0;
    while !rest.is_empty() {
        let length = line_length(rest);
        count += one_if_not_text(&rest[..length]);
        rest = after_line(rest, length);
    }
    count
}

fn one_if_not_text(line: &[u8]) -> usize
    ensures counts { IsNotText line.now result }
    ensures few { result ≤ 1 }
{
    match str::from_utf8(line) {
        Ok(_) => 0,
        Err(_) => 1,
    }
}

// Returns what follows the line feed at an index, or nothing if there is none.
fn after_line(bytes: &[u8], at: usize) -> &[u8]
    requires { at ≤ length bytes.now }
    ensures { result.now ≡ drop (at + 1) bytes.now }
{
    bytes.get(at + 1..).unwrap_or(&[])
}

// Returns how many bytes are before the first line feed, if there is one.
fn first_feed(bytes: &[u8]) -> Option<usize>
    ensures { result ≡ position (λ byte. byte == 10) bytes.now }
{
    bytes.iter().position(|byte| *byte == b'\n')
}

// Returns how many bytes are before the first line feed, or how many there are if there is none.
fn line_length(bytes: &[u8]) -> usize
    ensures { result ≡ position_or_len (λ byte. byte == 10) bytes.now }
{
    first_feed(bytes).unwrap_or(bytes.len())
}
