// Files of the system, each read as std wrote it, and each written as std reads it.
use crate::folder::Folder;
use crate::full::FullDisk;
use edge_io::{Failed, Files, ReadEnd, RealFiles, Removal, Stored};
use sd_value::{NoMemory, Str};
use std::alloc::Global;
use std::fs::Permissions;
use std::os::unix::fs::{PermissionsExt, symlink};
use std::test::Fail;
use std::{fs, io};

// A length of more than two of the buffers that a file is read by, and of no whole number of them.
const LONG: usize = 20_000;

// The number of the run, which is in the names of its temporary files.
const NUMBER: u64 = 7;

// What another run has written in part.
const PART: &str = ".strudel-part-0000000000000009-1";

// A full disk takes so many bytes of a file.
const ROOM: usize = 4;

// What is done with a file of a folder, or what must hold of it. The long text has bytes in which no two buffers are alike.
enum Step {
    // std writes the file.
    Put(&'static str, &'static [u8]),
    // std writes the long text.
    PutLong(&'static str),
    // std makes the file a link to the other one.
    Link(&'static str, &'static str),
    // std reads these bytes.
    Holds(&'static str, &'static [u8]),
    // It is a file and no link.
    IsFile(&'static str),
    // std gives the file this mode.
    SetsMode(&'static str, u32),
    // The file has this mode.
    HasMode(&'static str, u32),
    // The bytes are written while std has locked what another run has written in part.
    WritesBesideLocked(&'static str, &'static [u8]),
    // The folder has files of these names alone.
    Names(&'static [&'static str]),
    // The bytes are written, and std reads them.
    Writes(&'static str, &'static [u8]),
    // The long text is written, and std reads it.
    WritesLong(&'static str),
    // The bytes are there already, and the file stays as it is.
    Keeps(&'static str, &'static [u8]),
    // The long text is there already, and the file stays as it is.
    KeepsLong(&'static str),
    // A removal finds so.
    Removes(&'static str, Removal),
    // A removal fails, and is counted.
    RemoveFails(&'static str),
    // Nothing is there.
    IsMissing(&'static str),
    // A write fails, and is counted.
    WriteFails(&'static str),
    // At most so many bytes are read: the long text's first, of which there are so many.
    ReadsLong(&'static str, u64, usize),
    // A read fails, and is counted.
    ReadFails(&'static str),
    // The file is told to have so many bytes.
    TellsLength(&'static str, u64),
    // The bytes are written, and then something else is told of the file than before.
    TellsOther(&'static str, &'static [u8]),
    // Nothing is told of the file.
    TellsNothing(&'static str),
    // The bytes are written where the disk was full.
    WritesFull(&'static str, &'static [u8]),
    // A write to the full disk fails, and is counted.
    WriteFullFails(&'static str, &'static [u8]),
}

// What is done in a fresh folder, one after the other.
struct Story {
    name: &'static str,
    folder: &'static str,
    steps: &'static [Step],
}

const STORIES: &[Story] = &[
    Story {
        name: "a file is read up to a bound",
        folder: "bounds",
        steps: &[
            Step::PutLong("long"),
            Step::ReadsLong("long", 1_000_000, LONG),
            Step::ReadsLong("long", LONG as u64, LONG),
            Step::ReadsLong("long", LONG as u64 - 1, LONG - 1),
            Step::ReadsLong("long", 8_192, 8_192),
            Step::ReadsLong("long", 8_193, 8_193),
            Step::ReadsLong("long", 5, 5),
            Step::ReadsLong("long", 0, 0),
        ],
    },
    Story {
        name: "a missing file and a folder are not read",
        folder: "unread",
        steps: &[
            Step::ReadFails("none"),
            Step::ReadFails("none/x"),
            Step::ReadFails("."),
        ],
    },
    Story {
        name: "what is told of a file",
        folder: "told",
        steps: &[
            Step::TellsNothing("file"),
            Step::Put("file", b"one"),
            Step::TellsLength("file", 3),
            Step::TellsOther("file", b"two"),
            Step::TellsLength("file", 3),
            Step::PutLong("file"),
            Step::TellsLength("file", LONG as u64),
        ],
    },
    Story {
        name: "a file is written whole",
        folder: "written",
        steps: &[
            Step::WritesLong("file"),
            Step::Writes("file", b"over an old one"),
            Step::Writes("file", b""),
            Step::Writes("new/folders/file", b"in a new folder"),
            Step::WritesLong("new/folders/second"),
        ],
    },
    Story {
        name: "no file is written at a folder or under a file",
        folder: "unwritten",
        steps: &[
            Step::Writes("file", b"a file"),
            Step::Writes("folder/file", b"a file"),
            Step::WriteFails("folder"),
            Step::WriteFails("file/x"),
            Step::WriteFails("file/x/y"),
            Step::Holds("file", b"a file"),
        ],
    },
    // The old file stays until the new one takes its place, and nothing else is left, also where that fails.
    Story {
        name: "no other file is left",
        folder: "left",
        steps: &[
            Step::Writes("file", b"a file"),
            Step::Writes("file", b"over an old one"),
            Step::Writes("folder/file", b"a file"),
            Step::WriteFails("folder"),
            Step::Names(&["file", "folder"]),
            Step::Holds("folder/file", b"a file"),
        ],
    },
    // Another run was killed while it wrote.
    Story {
        name: "what a run has left is removed",
        folder: "removed",
        steps: &[
            Step::Put(PART, b"a part"),
            Step::Put(".strudel-files", b"no part"),
            Step::Writes("folder/file", b"a file"),
            Step::Names(&[PART, ".strudel-files", "folder"]),
            Step::Holds(PART, b"a part"),
            Step::Writes("file", b"a file"),
            Step::Names(&[".strudel-files", "file", "folder"]),
            Step::Holds(".strudel-files", b"no part"),
        ],
    },
    // Another run is writing.
    Story {
        name: "what is locked stays",
        folder: "locked",
        steps: &[
            Step::Put(PART, b"a part"),
            Step::WritesBesideLocked("file", b"a file"),
            Step::Holds(PART, b"a part"),
        ],
    },
    // It was written for some alone, and stays so.
    Story {
        name: "the mode of the old file stays",
        folder: "modes",
        steps: &[
            Step::Writes("file", b"an old file"),
            Step::SetsMode("file", 0o640),
            Step::Writes("file", b"a new file"),
            Step::HasMode("file", 0o640),
            Step::SetsMode("file", 0o604),
            Step::WritesLong("file"),
            Step::HasMode("file", 0o604),
        ],
    },
    // What a link names stays as it is, and the link goes.
    Story {
        name: "a link is replaced and not followed",
        folder: "links",
        steps: &[
            Step::Writes("outside", b"outside"),
            Step::Link("link", "outside"),
            Step::Writes("link", b"inside"),
            Step::Holds("outside", b"outside"),
            Step::IsFile("link"),
        ],
    },
    // Whoever goes by the time of a file sees that it is the same.
    Story {
        name: "a file that has the bytes stays as it is",
        folder: "kept",
        steps: &[
            Step::Writes("file", b"a file"),
            Step::Keeps("file", b"a file"),
            Step::Writes("file", b"a fil"),
            Step::Keeps("file", b"a fil"),
            Step::Writes("file", b""),
            Step::Keeps("file", b""),
            Step::WritesLong("new/file"),
            Step::KeepsLong("new/file"),
            Step::Link("link", "file"),
            Step::Writes("link", b""),
            Step::IsFile("link"),
        ],
    },
    Story {
        name: "a file is removed with the folders that this leaves empty",
        folder: "cleared",
        steps: &[
            Step::Writes("new/folders/file", b"a file"),
            Step::Writes("new/file", b"another"),
            Step::Removes("new/folders/file", Removal::Removed),
            Step::IsMissing("new/folders"),
            Step::Holds("new/file", b"another"),
            Step::Removes("new/folders/file", Removal::Absent),
            Step::Removes("new/file/x", Removal::Absent),
            Step::Removes("new/file", Removal::Removed),
            Step::IsMissing("new"),
            Step::Names(&[]),
            Step::Writes("folder/file", b"a file"),
            Step::RemoveFails("folder"),
            Step::Holds("folder/file", b"a file"),
        ],
    },
    Story {
        name: "a removal follows no link to a folder",
        folder: "followed",
        steps: &[
            Step::Writes("outside/folder/file", b"outside"),
            Step::Link("linked", "outside"),
            Step::Removes("linked/folder/file", Removal::Linked),
            Step::Holds("outside/folder/file", b"outside"),
            Step::Removes("linked", Removal::Removed),
            Step::Holds("outside/folder/file", b"outside"),
            Step::Names(&["outside"]),
        ],
    },
    Story {
        name: "an old file stays where a write fails",
        folder: "stays",
        steps: &[
            Step::Writes("file", b"an old file"),
            Step::WriteFullFails("file", b"a new file"),
            Step::Holds("file", b"an old file"),
            Step::Names(&["file"]),
            Step::WritesFull("file", b"four"),
        ],
    },
];

// The files of a full disk.
type FullFiles<'a> = RealFiles<'a, FullDisk<'a, HostRuntime>>;

// The long text.
fn long_text(alloc: Global) -> Result<Vec<u8>, NoMemory> {
    let mut text = Vec::new(alloc);
    for place in 0..LONG {
        text.push((place % 251) as u8)?;
    }
    Ok(text)
}

// The name of the file that the step is of.
fn name_of(step: &Step) -> &'static str {
    match step {
        Step::Put(name, _) | Step::PutLong(name) | Step::Link(name, _) => *name,
        Step::Holds(name, _) | Step::IsFile(name) | Step::Writes(name, _) => *name,
        Step::SetsMode(name, _) | Step::HasMode(name, _) => *name,
        Step::WritesBesideLocked(name, _) | Step::TellsNothing(name) => *name,
        Step::Keeps(name, _) | Step::KeepsLong(name) | Step::Removes(name, _) => *name,
        Step::RemoveFails(name) | Step::IsMissing(name) => *name,
        Step::TellsLength(name, _) | Step::TellsOther(name, _) => *name,
        Step::WritesLong(name) | Step::WriteFails(name) | Step::ReadsLong(name, _, _) => *name,
        Step::ReadFails(name) | Step::WritesFull(name, _) | Step::WriteFullFails(name, _) => *name,
        Step::Names(_) => ".",
    }
}

// Whether std reads these bytes.
fn holds(rt: &HostRuntime, path: &str, wanted: &[u8]) -> bool {
    match fs::read(rt, path) {
        Ok(found) => found.as_slice() == wanted,
        Err(_) => false,
    }
}

fn is_among(name: &str, names: &[&str]) -> bool {
    for other in names {
        if *other == name {
            return true;
        }
    }
    false
}

// Whether the folder has files of these names alone.
fn has_only(rt: &HostRuntime, path: &str, names: &[&str]) -> io::Result<bool> {
    for entry in fs::read_dir(rt, path)? {
        let entry = entry?;
        if !is_among(entry.file_name(), names) {
            return Ok(false);
        }
    }
    Ok(true)
}

// A link to the other file of the folder is made. Is it?
fn links(rt: &HostRuntime, folder: &Folder, path: &str, other: &str) -> bool {
    match folder.path(rt.alloc(), other) {
        Ok(other) => symlink(rt, other.as_str(), path).is_ok(),
        Err(_) => false,
    }
}

// The bytes are written, where so many writes have failed before. Is it so?
fn writes<F: Files>(files: &mut F, path: &Str, bytes: &[u8], faults: u64) -> bool {
    files.write(path, bytes) == Ok(Stored::Written) && files.write_faults(path) == faults
}

// The bytes are there already, and the same is told of the file as before. Is it so?
fn keeps<F: Files>(files: &mut F, path: &Str, bytes: &[u8]) -> bool {
    let before = files.stamp(path);
    let kept = files.write(path, bytes) == Ok(Stored::Kept);
    kept && before.is_some() && before == files.stamp(path) && files.is_there(path)
}

// A removal from the folder finds so. Is it so?
fn removes<F: Files>(
    alloc: Global,
    files: &mut F,
    folder: &Folder,
    path: &Str,
    removal: Removal,
) -> bool {
    match folder.as_str(alloc) {
        Ok(folder) => {
            files.remove(&folder, path) == Ok(removal) && files.write_faults(path) == 0
        }
        Err(_) => false,
    }
}

// The first removal fails, and is counted. Is it so?
fn remove_fails<F: Files>(alloc: Global, files: &mut F, folder: &Folder, path: &Str) -> bool {
    match folder.as_str(alloc) {
        Ok(folder) => {
            files.remove(&folder, path) == Err(Failed) && files.write_faults(path) == 1
        }
        Err(_) => false,
    }
}

// The bytes are written while the file that another run has written in part is locked. Is it so?
fn writes_beside_locked<F: Files>(
    rt: &HostRuntime,
    files: &mut F,
    folder: &Folder,
    path: &Str,
    bytes: &[u8],
) -> bool {
    let Ok(part) = folder.path(rt.alloc(), PART) else {
        return false;
    };
    match fs::open(rt, part.as_str()) {
        Ok(file) => file.try_lock().is_ok() && writes(files, path, bytes, 0),
        Err(_) => false,
    }
}

fn has_mode(rt: &HostRuntime, path: &str, mode: u32) -> bool {
    matches!(&fs::metadata(rt, path), Ok(data) if data.permissions().mode() & 0o777 == mode)
}

// The first write fails, and is counted. Is it so?
fn write_fails<F: Files>(files: &mut F, path: &Str, bytes: &[u8]) -> bool {
    let end = files.write(path, bytes);
    end == Err(Failed) && files.write_faults(path) == 1 && files.read_faults(path) == 0
}

// At most so many bytes are read, which are these. Is it so?
fn reads<F: Files>(alloc: Global, files: &mut F, path: &Str, at_most: u64, wanted: &[u8]) -> bool {
    match files.read(alloc, path, at_most) {
        Ok(found) => found.as_slice() == wanted && files.read_faults(path) == 0,
        Err(_) => false,
    }
}

// The first read fails, and is counted. Is it so?
fn read_fails<F: Files>(alloc: Global, files: &mut F, path: &Str) -> bool {
    let end = files.read(alloc, path, 9);
    end == Err(ReadEnd::Failed) && files.read_faults(path) == 1 && files.write_faults(path) == 0
}

// The bytes are written, and then something else is told of the file than before. Is it so?
fn tells_other<F: Files>(files: &mut F, path: &Str, bytes: &[u8]) -> bool {
    let before = files.stamp(path);
    let is_told = before.is_some() && before == files.stamp(path);
    is_told && writes(files, path, bytes, 0) && before != files.stamp(path)
}

// Takes the step, with files of the system of which no call has failed, or with those of the full disk. Does it go as it
// says?
fn goes(
    rt: &HostRuntime,
    full: &mut FullFiles<'_>,
    folder: &Folder,
    long: &[u8],
    path: &Str,
    at: &str,
    step: &Step,
) -> bool {
    let files = &mut RealFiles::new(rt, NUMBER);
    match step {
        Step::Put(_, bytes) => fs::write(rt, at, *bytes).is_ok(),
        Step::PutLong(_) => fs::write(rt, at, long).is_ok(),
        Step::Link(_, other) => links(rt, folder, at, other),
        Step::Holds(_, bytes) => holds(rt, at, bytes),
        Step::IsFile(_) => matches!(&fs::symlink_metadata(rt, at), Ok(data) if data.is_file()),
        Step::SetsMode(_, mode) => {
            fs::set_permissions(rt, at, Permissions::from_mode(*mode)).is_ok()
        }
        Step::HasMode(_, mode) => has_mode(rt, at, *mode),
        Step::WritesBesideLocked(_, bytes) => {
            writes_beside_locked(rt, files, folder, path, bytes) && holds(rt, at, bytes)
        }
        Step::Names(names) => matches!(&has_only(rt, at, names), Ok(true)),
        Step::Writes(_, bytes) => writes(files, path, bytes, 0) && holds(rt, at, bytes),
        Step::WritesLong(_) => writes(files, path, long, 0) && holds(rt, at, long),
        Step::Keeps(_, bytes) => keeps(files, path, bytes) && holds(rt, at, bytes),
        Step::KeepsLong(_) => keeps(files, path, long) && holds(rt, at, long),
        Step::Removes(_, removal) => removes(rt.alloc(), files, folder, path, *removal),
        Step::RemoveFails(_) => remove_fails(rt.alloc(), files, folder, path),
        Step::IsMissing(_) => !files.is_there(path) && fs::symlink_metadata(rt, at).is_err(),
        Step::WriteFails(_) => write_fails(files, path, b"x"),
        Step::ReadsLong(_, at_most, length) => match long.get(..*length) {
            Some(wanted) => reads(rt.alloc(), files, path, *at_most, wanted),
            None => false,
        },
        Step::ReadFails(_) => read_fails(rt.alloc(), files, path),
        Step::TellsLength(_, length) => {
            matches!(&files.stamp(path), Some(stamp) if stamp.length == *length)
        }
        Step::TellsOther(_, bytes) => tells_other(files, path, bytes),
        Step::TellsNothing(_) => files.stamp(path).is_none(),
        Step::WritesFull(_, bytes) => writes(full, path, bytes, 1) && holds(rt, at, bytes),
        Step::WriteFullFails(_, bytes) => write_fails(full, path, bytes),
    }
}

// Takes the step. Does it go as it says?
fn goes_in(
    rt: &HostRuntime,
    full: &mut FullFiles<'_>,
    folder: &Folder,
    long: &[u8],
    step: &Step,
) -> bool {
    let Ok(at) = folder.path(rt.alloc(), name_of(step)) else {
        return false;
    };
    match Str::new(rt.alloc(), at.as_bytes()) {
        Ok(path) => goes(rt, full, folder, long, &path, at.as_str(), step),
        Err(_) => false,
    }
}

// Takes the steps, with the files of one full disk. The first that doesn't go as it says.
fn first_amiss<'a>(
    rt: &HostRuntime,
    disk: &'a FullDisk<'a, HostRuntime>,
    folder: &Folder,
    long: &[u8],
    steps: &[Step],
) -> Option<usize> {
    let mut full: FullFiles<'a> = RealFiles::new(disk, NUMBER);
    for (place, step) in steps.iter().enumerate() {
        if !goes_in(rt, &mut full, folder, long, step) {
            return Some(place);
        }
    }
    None
}

fn take_story(rt: &HostRuntime, long: &[u8], story: &Story) -> Result<(), Fail> {
    let folder = Folder::fresh(rt, story.folder)?;
    let disk = FullDisk {
        system: rt,
        room: ROOM,
    };
    match first_amiss(rt, &disk, &folder, long, story.steps) {
        Some(place) => Err(Fail::new(format_args!("{}: step {place}", story.name))),
        None => folder.remove(rt),
    }
}

#[test]
fn each_story_of_files_goes_by_its_steps(rt: HostRuntime) -> Result<(), Fail> {
    let long = long_text(rt.alloc())?;
    for story in STORIES {
        take_story(&rt, &long, story)?;
    }
    Ok(())
}
