// The report that a command is answered.
use sd_value::Str;

/// A text, and whether all that it is about is well.
#[derive(Debug, Drop)]
pub struct Report {
    pub text: Str,
    pub passed: bool,
}
