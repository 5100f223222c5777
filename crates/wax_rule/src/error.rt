//! Reading and checking expressions; errors of builds, their places, and pictures of these.
mod build_error;
mod drawing;
mod expression;
mod laws;
mod location;

pub use build_error::BuildError;
pub use drawing::picture;
pub use expression::parse_and_check;
pub use laws::law_of_pictures;
pub use location::ErrorLocation;
