// A system whose disk is full.
use edge_io::LockFile;
use std::alloc::Allocator;
use std::fs::{Metadata, OpenFile, OpenOptions, TryLockError};
use std::io;
use std::io::{Read, Seek, SeekFrom, Write};
use std::rt::Files;

/// A file that takes so many bytes more.
#[derive(Drop)]
pub struct FullFile<F> {
    file: F,
    room: usize,
}

impl<F: Read> Read for FullFile<F> {
    fn read(&mut self, buffer: &mut [u8]) -> io::Result<usize> {
        self.file.read(buffer)
    }
}

impl<F: Write> Write for FullFile<F> {
    fn write(&mut self, bytes: &[u8]) -> io::Result<usize> {
        let room = self.room.min(bytes.len());
        if room < bytes.len() && room == 0 {
            return Err(io::Error::from(io::ErrorKind::StorageFull));
        }
        let count = self.file.write(&bytes[..room])?;
        self.room -= count;
        Ok(count)
    }

    fn flush(&mut self) -> io::Result<()> {
        self.file.flush()
    }
}

impl<F: Seek> Seek for FullFile<F> {
    fn seek(&mut self, place: SeekFrom) -> io::Result<u64> {
        self.file.seek(place)
    }
}

impl<F: OpenFile> OpenFile for FullFile<F> {
    fn metadata(&self) -> io::Result<Metadata> {
        self.file.metadata()
    }

    fn set_len(&self, size: u64) -> io::Result<()> {
        self.file.set_len(size)
    }

    fn sync_all(&self) -> io::Result<()> {
        self.file.sync_all()
    }

    fn sync_data(&self) -> io::Result<()> {
        self.file.sync_data()
    }
}

impl<F: LockFile> LockFile for FullFile<F> {
    fn try_lock(&self) -> Result<(), TryLockError> {
        self.file.try_lock()
    }
}

/// A system each of whose files takes so many bytes and no more.
#[derive(Drop)]
pub struct FullDisk<'r, R> {
    pub system: &'r R,
    pub room: usize,
}

impl<R: Files> Files for FullDisk<'_, R> {
    type File = FullFile<R::File>;

    type Dir = R::Dir;

    fn open_file(&self, how: &OpenOptions, path: &str) -> io::Result<FullFile<R::File>> {
        let file = self.system.open_file(how, path)?;
        Ok(FullFile {
            file,
            room: self.room,
        })
    }

    fn open_dir(&self, path: &str) -> io::Result<R::Dir> {
        self.system.open_dir(path)
    }

    fn metadata(&self, path: &str) -> io::Result<Metadata> {
        self.system.metadata(path)
    }

    fn symlink_metadata(&self, path: &str) -> io::Result<Metadata> {
        self.system.symlink_metadata(path)
    }

    fn copy(&self, from: &str, to: &str) -> io::Result<u64> {
        self.system.copy(from, to)
    }

    fn rename(&self, from: &str, to: &str) -> io::Result<()> {
        self.system.rename(from, to)
    }

    fn remove_file(&self, path: &str) -> io::Result<()> {
        self.system.remove_file(path)
    }

    fn create_dir(&self, path: &str) -> io::Result<()> {
        self.system.create_dir(path)
    }

    fn remove_dir(&self, path: &str) -> io::Result<()> {
        self.system.remove_dir(path)
    }

    fn remove_dir_all<B: Allocator>(&self, alloc: B, path: &str) -> io::Result<()> {
        self.system.remove_dir_all(alloc, path)
    }
}
