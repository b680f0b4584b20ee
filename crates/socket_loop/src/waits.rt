// How long a connection is waited for.

/// How long the wire waits for a connection, in milliseconds.
#[derive(Clone, Copy, Debug, PartialEq, Eq)]
pub struct Waits {
    /// For bytes, after the opening or the last reply, and after each byte.
    pub idle: u32,
    /// For room, while a reply is sent.
    pub stall: u32,
}
