// Each call of the forms in memory once, with ample memory, and a failing one of each kind.
use crate::inputs::{check, check_text};
use edge_io::{Failed, Files, MemFile, MemFiles, MemSink, ReadEnd, Removal, Sink, Stored};
use happenings::Stream;
use sd_value::{NoMemory, Str};
use std::alloc::Global;
use std::test::Fail;

// One file, where the fourth call fails.
fn one_file(alloc: Global, path: &Str, bytes: &[u8]) -> Result<MemFiles, NoMemory> {
    let mut files = Vec::new(alloc);
    files.push(MemFile {
        path: path.copy(alloc)?,
        bytes: Str::new(alloc, bytes)?,
    })?;
    Ok(MemFiles::new(alloc, files, [4].to_vec(alloc)?))
}

// Whether the start of the file is read.
fn is_read(alloc: Global, files: &mut MemFiles, path: &Str, start: &[u8]) -> bool {
    match files.read(alloc, path, start.len() as u64) {
        Ok(found) => found.as_slice() == start,
        Err(_) => false,
    }
}

// Writes the text. Is this the end, and does the file hold the second text then?
fn is_written(files: &mut MemFiles, path: &Str, text: &[u8], end: Result<Stored, Failed>) -> bool {
    files.write(path, text) == end && files.bytes(path).unwrap_or(b"") == b"two".as_slice()
}

// The first call that goes wrong.
fn wrong_call(
    alloc: Global,
    files: &mut MemFiles,
    path: &Str,
    missing: &Str,
) -> Option<&'static str> {
    if !is_read(alloc, files, path, b"on") {
        return Some("the start of a file");
    }
    if !is_written(files, path, b"two", Ok(Stored::Written)) {
        return Some("a write");
    }
    if files.read(alloc, missing, 9) != Err(ReadEnd::Failed) {
        return Some("a missing file");
    }
    if !is_written(files, path, b"x", Err(Failed)) {
        return Some("a write that fails");
    }
    if files.write_faults(path) != 1 || files.short() {
        return Some("other faults");
    }
    if !is_written(files, path, b"two", Ok(Stored::Kept)) {
        return Some("a write of what is there");
    }
    None
}

// The first removal that goes wrong.
fn wrong_removal(files: &mut MemFiles, path: &Str, missing: &Str) -> Option<&'static str> {
    if !files.is_there(path) || files.is_there(missing) {
        return Some("what is there");
    }
    if files.remove(missing, missing) != Ok(Removal::Absent) {
        return Some("a missing file");
    }
    if files.remove(missing, path) != Ok(Removal::Removed) || files.is_there(path) {
        return Some("a removal");
    }
    if files.remove(missing, path) != Ok(Removal::Absent) {
        return Some("a file that was removed");
    }
    if files.remove(missing, path) != Err(Failed) || files.write_faults(path) != 1 {
        return Some("a removal that fails");
    }
    None
}

#[test]
fn files_are_removed(rt: HostRuntime) -> Result<(), Fail> {
    let alloc = rt.alloc();
    let path = Str::new(alloc, b"a")?;
    let missing = Str::new(alloc, b"b")?;
    let mut files = one_file(alloc, &path, b"one")?;
    match wrong_removal(&mut files, &path, &missing) {
        Some(call) => Err(Fail::new(call)),
        None => Ok(()),
    }
}

#[test]
fn files_are_read_and_written(rt: HostRuntime) -> Result<(), Fail> {
    let alloc = rt.alloc();
    let path = Str::new(alloc, b"a")?;
    let missing = Str::new(alloc, b"b")?;
    let mut files = one_file(alloc, &path, b"one")?;
    match wrong_call(alloc, &mut files, &path, &missing) {
        Some(call) => Err(Fail::new(call)),
        None => Ok(()),
    }
}

// The second call fails.
#[test]
fn a_sink_gathers(rt: HostRuntime) -> Result<(), Fail> {
    let mut sink = MemSink::new(rt.alloc(), [2].to_vec(rt.alloc())?, Stream::Output);
    check(sink.put(b"ab") == Ok(()), "the first call")?;
    check(sink.put(b"cd") == Err(Failed), "the second call")?;
    check(sink.put(b"e") == Ok(()), "the third call")?;
    check(sink.faults() == 1 && !sink.short(), "other faults")?;
    check_text(sink.bytes(), b"abe")
}
