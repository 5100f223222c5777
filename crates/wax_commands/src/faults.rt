//! What is written when memory runs out.
ghost use Rattle.wax_commands.specs.Streams.{SaysNoMemory, stream_of};

use std::io::Write;
use wax::Counted;
use wax_lines::write_whole;

const NO_MEMORY: &str = "globs: no memory\n";

/// Writes that memory ran out. If the write fails, the count of failures shows it.
pub fn say_no_memory<F: Write>(faults: &mut Counted<F>)
    ensures { SaysNoMemory (stream_of F.contents faults.old) (stream_of F.contents faults.new) }
{
    let _ = write_whole(faults, NO_MEMORY.as_bytes());
}
