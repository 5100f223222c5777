//! What a match captures.

pub use wax_capture::Pieces;
pub use wax_query::matching::MatchedText;
