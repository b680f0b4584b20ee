// Whether a file of the system has the bytes that are to be written.
use std::io::Read;
use std::rt::Files as HostFiles;
use std::{fs, str};

const PIECE: usize = 8192;

// Whether the file has these bytes from here to its end.
fn reads_as<F: Read + Drop>(file: F, bytes: &[u8]) -> bool {
    let mut file = file;
    let mut rest = bytes;
    let mut piece = [0u8; PIECE];
    for _ in 0..u64::MAX {
        let Ok(count) = file.read(&mut piece) else {
            return false;
        };
        if count == 0 {
            return rest.is_empty();
        }
        if count > rest.len() || piece[..count] != rest[..count] {
            return false;
        }
        rest = &rest[count..];
    }
    false
}

/// Whether a file, and no link, is at the path and has exactly these bytes. A file that can't be read counts as another.
pub(crate) fn holds<R: HostFiles>(rt: &R, path: &str, bytes: &[u8]) -> bool {
    let Ok(there) = fs::symlink_metadata(rt, path) else {
        return false;
    };
    if !there.is_file() || there.len() != bytes.len() as u64 {
        return false;
    }
    match fs::open(rt, path) {
        Ok(file) => reads_as(file, bytes),
        Err(_) => false,
    }
}
