//! Programs of tokens, and how they are run.

pub use wax_lazy::{HasProgram, Matcher};
pub use wax_match::encode::{
    CompileError, CompiledProgram, Meter, Numbered, case_folded_eq, compile, compile_numbered, run,
};
