// The names under which files are written until they are whole.
use arrayvec::ArrayString;
use std::fmt::Write as _;
use std::fs::{File, OpenFile, TryLockError};
use std::io::Read;
use std::os::unix::fs::MetadataExt;
use std::rt::Files as HostFiles;
use std::{fs, io, str};

// The longest path that the system takes, in bytes.
const LONGEST: usize = 4096;

// The names of a folder are read in pieces of so many bytes.
const NAMES: usize = 8192;

// How many names are tried for one file.
const TRIES: usize = 64;

// How each name begins.
const FRONT: &str = ".strudel-part-";

/// A path in an array of its own, so that it takes no memory.
pub(crate) type ShortPath = ArrayString<LONGEST>;

/// A file that a process can lock as long as it has it open, so that others know that it is in use.
pub trait LockFile {
    /// Locks the file, unless another has locked it.
    fn try_lock(&self) -> Result<(), TryLockError>;
}

impl LockFile for File {
    fn try_lock(&self) -> Result<(), TryLockError> {
        File::try_lock(self)
    }
}

/// A new file that is locked, and its path.
#[derive(Drop)]
pub(crate) struct Temporary<F> {
    pub file: F,
    pub path: ShortPath,
}

/// The temporary files of one run. Their names have its number, and each a number of its own.
#[derive(Drop)]
pub(crate) struct Temporaries {
    run: u64,
    made: u64,
    folder: ShortPath,
}

fn is_left<R: HostFiles>(rt: &R, path: &str) -> bool
where
    R::File: LockFile,
{
    let is_file = matches!(&fs::symlink_metadata(rt, path), Ok(data) if data.is_file());
    is_file && matches!(&fs::open(rt, path), Ok(file) if file.try_lock().is_ok())
}

// Removes the file of the name if it is a temporary file that a run has left: who writes one has locked it.
fn clear_name<R: HostFiles>(rt: &R, folder: &str, name: &[u8])
where
    R::File: LockFile,
{
    let Ok(name) = str::from_utf8(name) else {
        return;
    };
    if !name.starts_with(FRONT) {
        return;
    }
    let mut path = ShortPath::new();
    if write!(path, "{folder}/{name}").is_ok() && is_left(rt, &path) {
        let _ = fs::remove_file(rt, path.as_str());
    }
}

// The names are ended by NULs.
fn clear_names<R: HostFiles>(rt: &R, folder: &str, names: &[u8])
where
    R::File: LockFile,
{
    for name in names.split(|byte| *byte == 0) {
        clear_name(rt, folder, name);
    }
}

// Removes what runs that were killed have left in the folder.
fn clear_folder<R: HostFiles>(rt: &R, folder: &str)
where
    R::File: LockFile,
{
    let mut path = ShortPath::new();
    if write!(path, "{folder}/").is_err() {
        return;
    }
    let Ok(mut names) = rt.open_dir(&path) else {
        return;
    };
    let mut piece = [0u8; NAMES];
    for _ in 0..u64::MAX {
        match names.read(&mut piece) {
            Ok(count) if count > 0 => clear_names(rt, folder, &piece[..count]),
            _ => return,
        }
    }
}

// Locks a new file. A run that clears the folder may have come first: then it has locked or removed the file.
fn is_taken<F: OpenFile + LockFile>(file: &F) -> bool {
    match file.try_lock() {
        Err(TryLockError::WouldBlock) => false,
        _ => matches!(&file.metadata(), Ok(data) if data.nlink() > 0),
    }
}

impl Temporaries {
    /// Those of the run of this number.
    pub(crate) fn new(run: u64) -> Temporaries {
        Temporaries {
            run,
            made: 0,
            folder: ShortPath::new(),
        }
    }

    fn next_path(&mut self, folder: &str) -> io::Result<ShortPath> {
        self.made = self.made.wrapping_add(1);
        let mut path = ShortPath::new();
        match write!(path, "{folder}/{FRONT}{:016x}-{}", self.run, self.made) {
            Ok(()) => Ok(path),
            Err(_) => Err(io::Error::from(io::ErrorKind::InvalidFilename)),
        }
    }

    /// A new file in the folder, under a name at which there was none.
    pub(crate) fn make<R: HostFiles>(
        &mut self,
        rt: &R,
        folder: &str,
    ) -> io::Result<Temporary<R::File>>
    where
        R::File: LockFile,
    {
        for _ in 0..TRIES {
            let path = self.next_path(folder)?;
            match File::create_new(rt, path.as_str()) {
                Ok(file) if is_taken(&file) => return Ok(Temporary { file, path }),
                Err(error) if error.kind() != io::ErrorKind::AlreadyExists => return Err(error),
                _ => {}
            }
        }
        Err(io::Error::from(io::ErrorKind::AlreadyExists))
    }

    /// Removes what runs that were killed have left in the folder, if the last call was not for the same folder.
    pub(crate) fn clear<R: HostFiles>(&mut self, rt: &R, folder: &str)
    where
        R::File: LockFile,
    {
        if self.folder.as_str() == folder {
            return;
        }
        clear_folder(rt, folder);
        self.folder.clear();
        let _ = self.folder.try_push_str(folder);
    }
}
