//! The commands of the program `globs`.
#![tactic(auto)]

mod building;
mod faults;
mod files;
mod query;
mod run;
mod status;
mod walking;

pub use files::FileFault;
pub use query::{depth_text, when_text};
pub use run::run_globs;
