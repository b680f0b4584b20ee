// What calls for files answer.

/// Why a read gave nothing.
#[derive(Clone, Copy, Debug, PartialEq, Eq)]
pub enum ReadEnd {
    Failed,
    NoMemory,
}

/// What a write found: other bytes or nothing, so that it wrote, or the bytes themselves, so that the file stays as it was.
#[derive(Clone, Copy, Debug, PartialEq, Eq)]
pub enum Stored {
    Written,
    Kept,
}

/// What a removal found: a file, which is gone; nothing; or a path that leads over a link to a folder, where it does
/// nothing.
#[derive(Clone, Copy, Debug, PartialEq, Eq)]
pub enum Removal {
    Removed,
    Absent,
    Linked,
}
