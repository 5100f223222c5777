//! The arguments of a walk.
ghost use Rattle.std.specs.Prelude.{◌≡◌, ◌≤◌, ◌+◌, ◌++◌, ◌∷◌, [], ℕ, List, length, unwrap_or, IfSome, IfNone};
ghost use Rattle.std.specs.Prelude.{MatchOption, false, true};
ghost use Rattle.wax_command_line.specs.Commands.{AreBounds, AsksWalk, IsNumber, IsOption, SayEach};
ghost use Rattle.wax_command_line.specs.Commands.{WalkOption as AskedOption, WalkRequest, count_lists};
ghost use Rattle.wax_command_line.specs.Commands.{greatests_in, leasts_in};
ghost use Rattle.wax_command_line.specs.inner.OptionWords.{AreDoubled, AreMore, AreSaidBy, HasNoFirst};
ghost use Rattle.wax_command_line.specs.inner.OptionWords.{IsDoubled, IsFirstWord, all_in, one_if};
ghost use Rattle.wax_command_line.specs.WalkArguments.{HasNoNext, IsNext, IsRead, asked_by};
ghost use Rattle.wax_tree.specs.Depths.{greatest, least};

use wax_tree::{DepthBehavior, DepthMax, DepthMin, DepthMinMax};

/// An option of a walk.
#[derive(Clone, Copy)]
pub enum WalkOption<'w> {
    /// Excludes what this expression matches.
    Not(&'w str),
    /// Excludes what the ignore list in this file ignores.
    Ignore(&'w str),
    /// Sets the least depth.
    Min(usize),
    /// Sets the greatest depth.
    Max(usize),
}

/// What the arguments of a walk ask for.
#[derive(Clone, Copy)]
pub struct WalkArguments<'w> {
    pub start: &'w str,
    pub expression: &'w str,
    /// The options, each a name and a value.
    pub options: &'w [Option<String>],
    /// The depths that the options set.
    pub depth: DepthBehavior,
}

// What the options set: the least and the greatest depth, and whether one names an ignore list.
#[derive(Clone, Copy)]
struct OptionWords {
    lower: Option<usize>,
    upper: Option<usize>,
    has_list: bool,
}

/// Reads the arguments of a walk. Returns `None` if they don't ask for one.
pub fn read_walk<'w>(words: &'w [Option<String>]) -> Option<WalkArguments<'w>>
    ensures some { IfSome result (λ walk. (asked : WalkRequest) × AsksWalk words.now asked
        × IsRead walk asked) }
    ensures none { IfNone result ((asked : WalkRequest) → AsksWalk words.now asked → ⊥) }
{
    let (command, after) = first_word(words)?;
    let (start, rest) = first_word(after)?;
    let (expression, options) = first_word(rest)?;
    if command != "walk" {
        return None;
    }
    let depth = depths_of(read_options(options)?)?;
    Some(WalkArguments {
        start,
        expression,
        options,
        depth,
    })
}

// Converts the bounds into depths. Returns `None` if the least is above the greatest.
fn depths_of(bounds: OptionWords) -> Option<DepthBehavior>
    ensures some { IfSome result (λ depth. AreBounds (all_in bounds.lower) (all_in bounds.upper)
        × (least depth ≡ unwrap_or bounds.lower 0) × (greatest depth ≡ bounds.upper)) }
    ensures none { IfNone result (AreBounds (all_in bounds.lower) (all_in bounds.upper) → ⊥) }
{
    match (bounds.lower, bounds.upper) {
        (None, None) => Some(DepthBehavior::Unbounded),
        (None, Some(upper)) => Some(DepthBehavior::Max(DepthMax(upper))),
        (Some(lower), None) => Some(DepthMin::from_min_or_unbounded(lower)),
        (Some(lower), Some(upper)) if lower <= upper => {
            Some(DepthMinMax::from_depths_or_max(lower, upper))
        }
        _ => None,
    }
}

// Reads all options. Returns `None` if one is malformed, or sets a depth or a list a second time.
fn read_options(words: &[Option<String>]) -> Option<OptionWords>
    ensures some { IfSome result (λ bounds. (options : List AskedOption) × SayEach words.now options
        × AreSaidBy bounds options) }
    ensures none { IfNone result ((options : List AskedOption) → SayEach words.now options
        → AreDoubled options) }
{
    let mut bounds = OptionWords {
        lower: None,
        upper: None,
        has_list: false,
    };
    let mut rest = words;
    while let Some((option, after)) = next_option(rest) {
        bounds = with_option(bounds, option)?;
        rest = after;
    }
    if rest.is_empty() { Some(bounds) } else { None }
}

/// Splits off the next option, and the arguments after it. Returns `None` if there is none, or it is
/// malformed.
pub fn next_option<'w>(
    words: &'w [Option<String>],
) -> Option<(WalkOption<'w>, &'w [Option<String>])>
    ensures some { IfSome result (λ r. IsNext words.now (asked_by r.0) r.1.now) }
    ensures none { IfNone result (HasNoNext words.now) }
{
    let (name, after) = first_word(words)?;
    let (word, rest) = first_word(after)?;
    let option = option_of(name, word)?;
    Some((option, rest))
}

// Reads an option from its name and its value.
fn option_of<'w>(name: &str, word: &'w str) -> Option<WalkOption<'w>>
    ensures some { IfSome result (λ option. IsOption name.now word.now (asked_by option)) }
    ensures none { IfNone result ((o : AskedOption) → IsOption name.now word.now o → ⊥) }
{
    if name == "not" {
        return Some(WalkOption::Not(word));
    }
    if name == "ignore" {
        return Some(WalkOption::Ignore(word));
    }
    if name == "min" {
        return Some(WalkOption::Min(number_of(word)?));
    }
    if name == "max" {
        return Some(WalkOption::Max(number_of(word)?));
    }
    None
}

// Splits off the first argument, if it is UTF-8.
fn first_word<'w>(words: &'w [Option<String>]) -> Option<(&'w str, &'w [Option<String>])>
    ensures some { IfSome result (λ r. IsFirstWord words.now r.0.now r.1.now) }
    ensures none { IfNone result (HasNoFirst words.now) }
{
    let (word, rest) = words.split_first()?;
    match word {
        Some(word) => Some((word.as_str(), rest)),
        None => None,
    }
}

// Adds one option. Returns `None` if it sets a depth or a list a second time.
fn with_option(bounds: OptionWords, option: WalkOption<'_>) -> Option<OptionWords>
    ensures some { IfSome result (AreMore bounds (asked_by option.entry)) }
    ensures none { let o = asked_by option.entry in IfNone result (IsDoubled
        (all_in bounds.lower ++ leasts_in (o ∷ [])) (all_in bounds.upper ++ greatests_in (o ∷ []))
        (one_if bounds.has_list + count_lists (o ∷ []))) }
{
    match option {
        WalkOption::Not(_) => Some(bounds),
        WalkOption::Ignore(_) => with_list(bounds),
        WalkOption::Min(depth) => {
            let lower = set_once(bounds.lower, depth)?;
            Some(OptionWords { lower, ..bounds })
        }
        WalkOption::Max(depth) => {
            let upper = set_once(bounds.upper, depth)?;
            Some(OptionWords { upper, ..bounds })
        }
    }
}

// Adds an ignore list, unless there is one.
fn with_list(bounds: OptionWords) -> Option<OptionWords>
    ensures { MatchOption result (bounds.has_list ≡ true) (λ more. (bounds.has_list ≡ false)
        × (more ≡ record bounds { has_list = true })) }
{
    if bounds.has_list {
        return None;
    }
    Some(OptionWords {
        has_list: true,
        ..bounds
    })
}

// Returns the depth, unless one was set before.
fn set_once(before: Option<usize>, depth: usize) -> Option<Option<usize>>
    ensures some { IfSome result (λ said. all_in said ≡ all_in before ++ depth ∷ []) }
    ensures none { IfNone result (2 ≤ length (all_in before ++ depth ∷ [])) }
{
    match before {
        None => Some(Some(depth)),
        Some(_) => None,
    }
}

// Reads a number of digits. A `+` before it, which `parse` would accept, is rejected.
fn number_of(word: &str) -> Option<usize>
    ensures { MatchOption result ((n : ℕ) → IsNumber word.now n → ⊥) (IsNumber word.now) }
{
    if word.as_bytes().first() == Some(&b'+') {
        return None;
    }
    word.parse().ok()
}
