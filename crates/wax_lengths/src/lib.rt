//! The lengths of the parts of a text that a form takes, where a form is a set of texts.
#![tactic(auto)]

mod ends;
mod form;
mod lengths;
pub mod letters;
mod span;
mod text;
mod visits;

pub use form::Form;
pub use lengths::{lengths_of, may_spell, may_take};
pub use span::{LengthSpan, Marks, pick};
pub use text::Text;
pub use visits::Visits;
