// What the system tells of a file without reading it.
use std::os::unix::fs::MetadataExt;
use std::rt::Files as HostFiles;
use std::{fs, str};

const NANOSECONDS: u64 = 1_000_000_000;

/// What the system tells of a file without reading it. While it stays the same the file does too, but for changes that come
/// within one step of the system's clock.
#[derive(Clone, Copy, Debug, PartialEq, Eq)]
pub struct Stamp {
    /// The file's number on its device: one that is renamed over it has another.
    pub file: u64,
    /// How many bytes it has.
    pub length: u64,
    /// When it was last changed, in nanoseconds since 1970. No program can set this time.
    pub changed: u64,
}

// A time in nanoseconds since 1970, or nothing where it isn't told.
fn since_1970(seconds: i64, nanoseconds: i64) -> Option<u64> {
    let seconds = u64::try_from(seconds).ok()?;
    let nanoseconds = u64::try_from(nanoseconds).ok()?;
    if seconds == 0 {
        return None;
    }
    Some(
        seconds
            .saturating_mul(NANOSECONDS)
            .saturating_add(nanoseconds),
    )
}

/// The stamp of what is at the path, if it is told.
pub(crate) fn stamp_of<R: HostFiles>(rt: &R, path: &[u8]) -> Option<Stamp> {
    let path = str::from_utf8(path).ok()?;
    let metadata = fs::metadata(rt, path).ok()?;
    Some(Stamp {
        file: metadata.ino(),
        length: metadata.len(),
        changed: since_1970(metadata.ctime(), metadata.ctime_nsec())?,
    })
}
