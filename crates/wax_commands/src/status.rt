//! The exit statuses.

/// There was no error.
pub const DONE: u8 = 0;

/// A build failed, a line isn't UTF-8, a read or a write failed, or memory ran out outside of a
/// walk.
pub const FAILED: u8 = 1;

/// The arguments are those of no command.
pub const WRONG_WORDS: u8 = 2;

/// Some item of a walk was an error.
pub const HAS_ERRORS: u8 = 3;
