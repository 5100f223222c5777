//! Calls that don't allocate. All that they need is built before them, as is the room of the
//! answer.

use crate::kinds::Extent;
use std::alloc::Global;
use wax::encode::compile;
use wax::query::When;
use wax::token::{ExpressionMetadata, Sides, TokenExt, Tokenized, parse};
use wax::walk::DepthMinMax;
use wax::{
    CandidatePath, Glob, MatchedText, NoMemory, Program, encode, is_contextual_meta_character,
    is_meta_character,
};
use wax_test_kit::answer::Answer;
use wax_test_kit::rows::DataRow;

/// Adds what these calls return for the glob, or only that all they need is built.
///
/// # Errors
///
/// Returns `NoMemory` if allocation fails, or if the glob doesn't match the path of the row.
pub fn add_facts(
    alloc: Global,
    extent: Extent,
    glob: &Glob<'_>,
    row: &DataRow,
    made: &mut Answer,
) -> Result<(), NoMemory> {
    let path = CandidatePath::from(row.input(1));
    let Some(matched) = glob.matched(alloc, &path)? else {
        return Err(NoMemory);
    };
    let Ok(tokenized) = parse(alloc, row.input(0)) else {
        return Err(NoMemory);
    };
    let Ok(program) = compile(alloc, tokenized.concatenation(), Sides::NONE) else {
        return Err(NoMemory);
    };
    made.add("prepared");
    if let Extent::Called = extent {
        add_glob(glob, made);
        add_match(&matched, made);
        add_tokens(&tokenized, &program, made);
        add_values(made);
    }
    Ok(())
}

fn add_glob(glob: &Glob<'_>, made: &mut Answer) {
    made.tab();
    made.show(glob);
    made.tab();
    made.digit(glob.is_empty());
    made.tab();
    made.debug(&glob.depth());
    made.tab();
    made.when(glob.has_root());
    made.tab();
    made.when(glob.is_exhaustive());
}

fn add_match(matched: &MatchedText<'_>, made: &mut Answer) {
    made.tab();
    made.add(matched.complete());
    made.tab();
    made.show(&matched.to_candidate_path());
    made.tab();
    made.debug(&matched.get(2));
    made.tab();
    made.debug(&matched.get(9));
}

fn add_tokens(
    tokenized: &Tokenized<'_, ExpressionMetadata>,
    program: &encode::CompiledProgram,
    made: &mut Answer,
) {
    made.tab();
    made.show(&program.len());
    made.tab();
    made.when(tokenized.as_token().is_exhaustive());
}

/// Adds what calls of characters, paths, `When` and depths return.
fn add_values(made: &mut Answer) {
    made.tab();
    made.digit(is_meta_character('*'));
    made.digit(is_contextual_meta_character('-'));
    made.tab();
    made.show(&CandidatePath::from("a/b"));
    made.tab();
    made.when(When::Always.and(When::Sometimes));
    made.tab();
    made.debug(&DepthMinMax::from_depths_or_max(3, 1));
}
