//! The arguments that the program was called with.
ghost use Rattle.std.specs.Prelude.{◌≡◌};

use std::alloc::{AllocError, Global};
use std::env::FillError;
use std::rt::Env;

/// Returns the arguments after the program's name, each `None` if it isn't UTF-8.
pub fn words(rt: &impl Env, alloc: Global) -> Result<Vec<Option<String>>, AllocError> {
    let mut words = Vec::new(alloc);
    for i in 1..usize::MAX {
        let Some(bytes) = word(rt, alloc, i)? else {
            break;
        };
        words.push(String::from_utf8(bytes).ok())?;
    }
    Ok(words)
}

// Reads an argument into a buffer that is doubled until it is long enough. Returns `None` after the
// last one.
fn word(rt: &impl Env, alloc: Global, i: usize) -> Result<Option<Vec<u8>>, AllocError> {
    let mut bytes = vec![in alloc; 0u8; 256]?;
    for _ in 0..usize::BITS {
        match rt.arg(i, &mut bytes) {
            Ok(len) => {
                bytes.truncate(len);
                return Ok(Some(bytes));
            }
            Err(FillError::NotPresent) => return Ok(None),
            Err(FillError::TooLong) => {
                let longer = bytes.len().saturating_mul(2);
                bytes.resize(longer, 0)?;
            }
        }
    }
    Err(AllocError)
}
