// Files of the system that are removed, with the folders that this leaves empty.
use crate::answers::Removal;
use crate::sink::Failed;
use std::rt::Files as HostFiles;
use std::{fs, io, str};

// The path up to each slash after its first bytes, which are those of a folder that is followed wherever it is.
fn leads_over_link<R: HostFiles>(rt: &R, path: &str, folder: usize) -> bool {
    for (end, byte) in path.bytes().enumerate() {
        if byte == b'/' && end > folder {
            let is_link = match fs::symlink_metadata(rt, &path[..end]) {
                Ok(there) => there.is_symlink(),
                Err(_) => false,
            };
            if is_link {
                return true;
            }
        }
    }
    false
}

// Removes the folders of the path, the innermost first, as long as they are empty, up to the one that is not to go.
fn remove_empty<R: HostFiles>(rt: &R, path: &str, folder: usize) {
    let mut inner = path;
    for _ in 0..path.len() {
        let Some((outer, _)) = inner.rsplit_once('/') else {
            return;
        };
        if outer.len() <= folder || fs::remove_dir(rt, outer).is_err() {
            return;
        }
        inner = outer;
    }
}

fn is_missing(error: &io::Error) -> bool {
    matches!(
        error.kind(),
        io::ErrorKind::NotFound | io::ErrorKind::NotADirectory
    )
}

/// Removes the file or link at the path, which is under the folder, and the folders in between that this leaves empty.
pub(crate) fn remove_under<R: HostFiles>(
    rt: &R,
    folder: &[u8],
    path: &[u8],
) -> Result<Removal, Failed> {
    let is_under = path.len() > folder.len() && path.starts_with(folder);
    let Ok(path) = str::from_utf8(path) else {
        return Err(Failed);
    };
    if !is_under || path.as_bytes()[folder.len()] != b'/' {
        return Err(Failed);
    }
    if leads_over_link(rt, path, folder.len()) {
        return Ok(Removal::Linked);
    }
    match fs::remove_file(rt, path) {
        Ok(()) => {
            remove_empty(rt, path, folder.len());
            Ok(Removal::Removed)
        }
        Err(error) if is_missing(&error) => Ok(Removal::Absent),
        Err(_) => Err(Failed),
    }
}
