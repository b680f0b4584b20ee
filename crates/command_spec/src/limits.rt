//! The limits of files, as the program's readers take them.

/// The most bytes of a data file, of a data text and of an edit's text.
pub const DATA_LIMIT: u64 = 67_108_864;

/// The most bytes of a query, and of a file of templates or of constraints.
pub const TEXT_LIMIT: u64 = 1_048_576;

/// The most bytes of a script.
pub const SCRIPT_LIMIT: u64 = 67_108_864;
