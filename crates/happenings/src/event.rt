// What a wire gives.
use sd_value::Str;

/// What comes from outside. A piece of bytes is not empty.
#[derive(Debug, Drop)]
pub enum WireEvent {
    /// A connection was opened under this number.
    Opened(u64),
    Bytes(u64, Str),
    /// No more bytes come of the connection.
    Ended(u64),
    /// The connection is gone.
    Lost(u64),
    /// A text that may replace or edit the data of the run.
    Change(Str),
    /// Nothing more comes of any connection.
    Done,
}
