// Files and a sink in memory, which fail by a list.
ghost use Rattle.std.specs.Prelude.{◌≡◌, ◌⊎◌, ◌↔◌, Contains, ℕ, List, ◌+◌, ◌<◌, ◌≤◌, ◌^◌, ◌++◌, ◌∷◌, [], length};
ghost use Rattle.std.specs.Prelude.{take, Some, MatchOption, None, OnOk, OnErr, IfOk, IfSome, IsErr, IsErrOf};
ghost use Rattle.std.specs.Prelude.{◌≢◌, vec_len, min, option_copied, true, false, MatchResult};
ghost use Rattle.happenings.specs.Happening.{Read, ReadFailed, WriteFailed, RemoveFailed, Put, PutFailed};
ghost use Rattle.std.specs.Bool.{OnTrue};
ghost use Rattle.std.specs.Option.{ForSome};
ghost use Rattle.edge_io.specs.Files.{IsStartOf, HasReadCause, HasWriteCause, PutsFile, LeavesOthers, ChangesOnly};
ghost use Rattle.edge_io.specs.Files.{stored_event, removal_events, IsStoredOver, IsRemovalOver};
ghost use Rattle.edge_io.specs.Counts.{HasCause, NoneFell, Rose};
ghost use Rattle.edge_io.specs.Sink.{Gains, GainsPart};
ghost use Rattle.edge_io.specs.Memory.{bytes_at, times, lost_of, next_call, IsNamed, next_put, IsSinkNamed};

use crate::answers::{ReadEnd, Removal, Stored};
use crate::files::Files;
use crate::sink::{Failed, Sink};
use happenings::{Log, Stream};
use sd_value::{NoMemory, Str};
use std::alloc::{AllocError, Global};
use std::marker::Model;
use std::mem::swap;

/// A file and its bytes.
#[derive(Debug, Drop)]
pub struct MemFile {
    pub path: Str,
    pub bytes: Str,
}

/// Files in memory. The calls that `failing` names, counted from 1, fail.
#[derive(Drop)]
pub struct MemFiles {
    alloc: Global,
    // the newest first: the first file of a path is the one that is
    files: Vec<MemFile>,
    failing: Vec<u64>,
    calls: u64,
    // the paths whose read failed, each as often as it did
    missed: Vec<Str>,
    lost: u64,
    short: bool,
    log: Log,
}

fn find<'f>(files: &'f [MemFile], path: &[u8]) -> Option<&'f MemFile>
    ensures { MatchOption result (bytes_at files.now path.now ≡ None)
        (λ file. bytes_at files.now path.now ≡ Some file.now.bytes) }
{
    for file in files {
        if file.path.bytes() == path {
            return Some(file);
        }
    }
    None
}

// What a write of these bytes at the path finds.
fn stored_over(files: &[MemFile], path: &[u8], bytes: &[u8]) -> Stored
    ensures { IsStoredOver (bytes_at files.now path.now) bytes.now result }
{
    match find(files, path) {
        Some(file) if file.bytes.bytes() == bytes => Stored::Kept,
        _ => Stored::Written,
    }
}

// Takes the files of the path away.
fn drop_file(files: &mut Vec<MemFile>, path: &[u8])
    ensures gone { bytes_at files.new.items path.now ≡ None }
    ensures elsewhere { ChangesOnly (bytes_at files.old.items)
        (bytes_at files.new.items) path.now }
{
    files.retain(|file| file.path.bytes() != path);
}

fn start_of(alloc: Global, bytes: &[u8], at_most: u64) -> Result<Vec<u8>, AllocError>
    ensures { IfOk result (λ start. start.items ≡ take at_most bytes.now) }
{
    if (bytes.len() as u64) < at_most {
        return bytes.to_vec(alloc);
    }
    bytes[..at_most as usize].to_vec(alloc)
}

fn is_named(failing: &Vec<u64>, call: u64) -> bool
    ensures { (result ≡ true) ↔ Contains failing.now.items call }
{
    failing.contains(&call)
}

// The file of a path, unless the call is to fail.
fn readable<'f>(files: &'f Vec<MemFile>, fails: bool, path: &Str) -> Option<&'f MemFile>
    ensures { MatchOption result ((fails ≡ true) ⊎ (bytes_at files.now.items path.now ≡ None))
        (λ file. (fails ≡ false) × (bytes_at files.now.items path.now ≡ Some file.now.bytes)) }
{
    if fails {
        return None;
    }
    find(files, path.bytes())
}

fn note_path(alloc: Global, paths: &mut Vec<Str>, path: &Str) -> Result<(), NoMemory>
    ensures ok { OnOk result (paths.new.items ≡ paths.old.items ++ path.now ∷ []) }
    ensures err { OnErr result (paths.new.items ≡ paths.old.items) }
{
    paths.push(path.copy(alloc)?)?;
    Ok(())
}

// Notes that a read of the path failed.
fn missed(alloc: Global, paths: &mut Vec<Str>, path: &Str) -> ReadEnd
    ensures later { NoneFell (times paths.old.items) (times paths.new.items) }
    ensures rose { result ≡ ReadEnd.Failed
        → Rose (times paths.old.items path.now) (times paths.new.items path.now) }
{
    match note_path(alloc, paths, path) {
        Ok(()) => ReadEnd::Failed,
        Err(_) => ReadEnd::NoMemory,
    }
}

fn count_path(paths: &[Str], path: &[u8]) -> usize
    ensures { result ≡ times paths.now path.now }
{
    paths.iter().filter(|p| p.bytes() == path).count()
}

fn put_file(
    alloc: Global,
    files: &mut Vec<MemFile>,
    path: &Str,
    bytes: &[u8],
) -> Result<(), NoMemory>
    ensures ok { OnOk result (files.new.items ≡ record {
      path = path.now;
      bytes = bytes.now;
    } ∷ files.old.items) }
    ensures err { OnErr result (files.new.items ≡ files.old.items) }
{
    let file = MemFile {
        path: path.copy(alloc)?,
        bytes: Str::new(alloc, bytes)?,
    };
    files.insert(0, file)?;
    Ok(())
}

impl Model for MemFiles {
    ghost use Rattle.edge_io.specs.Memory.{FilesInMemory};

    ghost Value = { FilesInMemory };

    ghost view = { λ m. record {
      files = m.files.items;
      failing = m.failing.items;
      calls = m.calls;
      missed = m.missed.items;
      lost = m.lost;
      is_short = m.short;
      trace = m.log.events;
    } };
}

impl MemFiles {
    /// These files. Of two with one path the first is.
    pub fn new(alloc: Global, files: Vec<MemFile>, failing: Vec<u64>) -> MemFiles
        ensures { result ≡ record {
          files = files.items;
          failing = failing.items;
          calls = 0;
          missed = [];
          lost = 0;
          is_short = false;
          trace = [];
        } }
    {
        MemFiles {
            alloc,
            files,
            failing,
            calls: 0,
            missed: Vec::new(alloc),
            lost: 0,
            short: false,
            log: Log::new(),
        }
    }

    /// What is at a path.
    pub fn bytes(&self, path: &Str) -> Option<&[u8]>
        ensures { option_copied result ≡ bytes_at self.now.files path.now }
    {
        Some(find(&self.files, path.bytes())?.bytes.bytes())
    }

    /// Whether memory was refused in a write.
    pub fn short(&self) -> bool
        ensures { result ≡ self.now.is_short }
    {
        self.short
    }
}

impl Files for MemFiles {
    type Log = Log;

    ghost trace = { λ m. m.trace };

    ghost contents = { λ m. Some (bytes_at m.files) };

    ghost failed_reads = { λ m. times m.missed };

    ghost failed_writes = { lost_of };

    fn lend(&mut self, log: &mut Log) {
        swap(&mut self.log, log);
    }

    /// Fails exactly where `failing` names the call or no file has the path.
    fn read(&mut self, alloc: Global, path: &Str, at_most: u64) -> Result<Vec<u8>, ReadEnd>
        ensures traced { MatchResult result
            (λ bytes. self.new.trace ≡ self.old.trace ++ Read path.now bytes.items ∷ [])
            (λ _. self.new.trace ≡ self.old.trace ++ ReadFailed path.now ∷ []) }
        ensures bound { IfOk result (λ bytes. length bytes.items ≤ at_most) }
        ensures bytes { IfOk result
            (λ bytes. ForSome (Some (bytes_at self.old.files))
            (λ map. IsStartOf (map path.now) at_most bytes.items)) }
        ensures same { Some (bytes_at self.new.files) ≡ Some (bytes_at self.old.files) }
        ensures cause { HasReadCause (times self.old.missed)
            (times self.new.missed) path.now result }
        ensures writes { lost_of self.new ≡ lost_of self.old }
        ensures failed { IsErrOf result ReadEnd.Failed → IsNamed self.old
            ⊎ (bytes_at self.old.files path.now ≡ None) }
        ensures fails { IsNamed self.old ⊎ (bytes_at self.old.files path.now ≡ None)
            → IsErr result }
        ensures calls { self.new.calls ≡ next_call self.old }
    {
        self.calls = self.calls.saturating_add(1);
        let fails = is_named(&self.failing, self.calls);
        let Some(file) = readable(&self.files, fails, path) else {
            self.log.read_failed(path.bytes());
            return Err(missed(self.alloc, &mut self.missed, path));
        };
        match start_of(alloc, file.bytes.bytes(), at_most) {
            Ok(bytes) => {
                self.log.read(path.bytes(), &bytes);
                Ok(bytes)
            }
            Err(_) => {
                self.log.read_failed(path.bytes());
                Err(ReadEnd::NoMemory)
            }
        }
    }

    fn is_there(&self, path: &Str) -> bool {
        find(&self.files, path.bytes()).is_some()
    }

    /// Fails exactly where `failing` names the call, which then leaves the files as they are, or memory was refused.
    fn write(&mut self, path: &Str, bytes: &[u8]) -> Result<Stored, Failed>
        ensures traced { MatchResult result
            (λ stored. self.new.trace
            ≡ self.old.trace ++ stored_event stored path.now bytes.now ∷ [])
            (λ _. self.new.trace ≡ self.old.trace ++ WriteFailed path.now ∷ []) }
        ensures written { OnOk result
            (PutsFile (Some (bytes_at self.old.files))
            (Some (bytes_at self.new.files)) path.now bytes.now) }
        ensures stored { IfOk result
            (λ stored. ForSome (Some (bytes_at self.old.files))
            (λ map. IsStoredOver (map path.now) bytes.now stored)) }
        ensures elsewhere { LeavesOthers (Some (bytes_at self.old.files))
            (Some (bytes_at self.new.files)) path.now }
        ensures cause { HasWriteCause (lost_of self.old) (lost_of self.new) path.now result }
        ensures reads { times self.new.missed ≡ times self.old.missed }
        ensures failed { OnErr result
            ((IsNamed self.old ⊎ (self.new.is_short ≡ true)) × (self.new.files ≡ self.old.files)) }
        ensures fails { IsNamed self.old → IsErr result }
        ensures calls { self.new.calls ≡ next_call self.old }
    {
        self.calls = self.calls.saturating_add(1);
        if is_named(&self.failing, self.calls) {
            self.lost = self.lost.saturating_add(1);
            self.log.write_failed(path.bytes());
            return Err(Failed);
        }
        let stored = stored_over(&self.files, path.bytes(), bytes);
        if put_file(self.alloc, &mut self.files, path, bytes).is_err() {
            self.lost = self.lost.saturating_add(1);
            self.short = true;
            self.log.write_failed(path.bytes());
            return Err(Failed);
        }
        match stored {
            Stored::Written => self.log.wrote(path.bytes(), bytes),
            Stored::Kept => self.log.kept(path.bytes(), bytes),
        }
        Ok(stored)
    }

    /// Fails exactly where `failing` names the call, which then leaves the files as they are.
    fn remove(&mut self, _folder: &Str, path: &Str) -> Result<Removal, Failed>
        ensures traced { MatchResult result
            (λ removal. self.new.trace ≡ self.old.trace ++ removal_events removal path.now)
            (λ _. self.new.trace ≡ self.old.trace ++ RemoveFailed path.now ∷ []) }
        ensures removed { IfOk result
            (λ removal. ForSome (Some (bytes_at self.old.files))
            (λ map. IsRemovalOver map (Some (bytes_at self.new.files)) path.now removal)) }
        ensures elsewhere { LeavesOthers (Some (bytes_at self.old.files))
            (Some (bytes_at self.new.files)) path.now }
        ensures cause { HasWriteCause (lost_of self.old) (lost_of self.new) path.now result }
        ensures reads { times self.new.missed ≡ times self.old.missed }
        ensures failed { OnErr result
            (IsNamed self.old × (self.new.files ≡ self.old.files)) }
        ensures fails { IsNamed self.old → IsErr result }
        ensures linked { IfOk result (λ removal. removal ≢ Removal.Linked) }
        ensures calls { self.new.calls ≡ next_call self.old }
    {
        self.calls = self.calls.saturating_add(1);
        if is_named(&self.failing, self.calls) {
            self.lost = self.lost.saturating_add(1);
            self.log.remove_failed(path.bytes());
            return Err(Failed);
        }
        if find(&self.files, path.bytes()).is_none() {
            return Ok(Removal::Absent);
        }
        drop_file(&mut self.files, path.bytes());
        self.log.removed(path.bytes());
        Ok(Removal::Removed)
    }

    fn read_faults(&self, path: &Str) -> u64 {
        count_path(&self.missed, path.bytes()) as u64
    }

    fn write_faults(&self, _path: &Str) -> u64 {
        self.lost
    }
}

/// A sink in memory. The puts that `failing` names, counted from 1, fail.
#[derive(Drop)]
pub struct MemSink {
    text: Vec<u8>,
    failing: Vec<u64>,
    calls: u64,
    faults: u64,
    short: bool,
    stream: Stream,
    log: Log,
}

impl Model for MemSink {
    ghost use Rattle.edge_io.specs.Memory.{SinkInMemory};

    ghost Value = { SinkInMemory };

    ghost view = { λ s. record {
      text = s.text.items;
      failing = s.failing.items;
      calls = s.calls;
      faults = s.faults;
      is_short = s.short;
      stream = s.stream;
      trace = s.log.events;
    } };
}

impl MemSink {
    /// No bytes yet, as this output.
    pub fn new(alloc: Global, failing: Vec<u64>, stream: Stream) -> MemSink
        ensures { result ≡ record {
          text = [];
          failing = failing.items;
          calls = 0;
          faults = 0;
          is_short = false;
          stream = stream;
          trace = [];
        } }
    {
        MemSink {
            text: Vec::new(alloc),
            failing,
            calls: 0,
            faults: 0,
            short: false,
            stream,
            log: Log::new(),
        }
    }

    /// The bytes so far.
    pub fn bytes(&self) -> &[u8]
        ensures { result.now ≡ self.now.text }
    {
        &self.text
    }

    /// Whether memory was refused in a put.
    pub fn short(&self) -> bool
        ensures { result ≡ self.now.is_short }
    {
        self.short
    }
}

impl Sink for MemSink {
    type Log = Log;

    ghost stream = { λ s. s.stream };

    ghost trace = { λ s. s.trace };

    ghost text = { λ s. Some s.text };

    ghost failed = { λ s. s.faults };

    fn lend(&mut self, log: &mut Log) {
        swap(&mut self.log, log);
    }

    /// Fails exactly where `failing` names the call, which then adds no byte, or memory was refused.
    fn put(&mut self, bytes: &[u8]) -> Result<(), Failed>
        ensures traced { MatchResult result
            (λ _. self.new.trace ≡ self.old.trace ++ Put self.old.stream bytes.now ∷ [])
            (λ _. (taken : ℕ)
            × (self.new.trace ≡ self.old.trace ++ PutFailed self.old.stream bytes.now taken ∷ [])
            × Gains (Some self.old.text) (Some self.new.text) (take taken bytes.now)) }
        ensures stays { self.new.stream ≡ self.old.stream }
        ensures whole { OnOk result (Gains (Some self.old.text) (Some self.new.text) bytes.now) }
        ensures part { GainsPart (Some self.old.text) (Some self.new.text) bytes.now }
        ensures cause { HasCause self.old.faults self.new.faults result }
        ensures failed { OnErr result
            ((IsSinkNamed self.old ⊎ (self.new.is_short ≡ true))
            × (self.new.text ≡ self.old.text)) }
        ensures fails { IsSinkNamed self.old → IsErr result }
        ensures calls { self.new.calls ≡ next_put self.old }
    {
        self.calls = self.calls.saturating_add(1);
        if is_named(&self.failing, self.calls) {
            self.faults = self.faults.saturating_add(1);
            self.log.put_failed(self.stream, bytes, 0);
            return Err(Failed);
        }
        if self.text.extend_from_slice(bytes).is_err() {
            self.faults = self.faults.saturating_add(1);
            self.short = true;
            self.log.put_failed(self.stream, bytes, 0);
            return Err(Failed);
        }
        self.log.put(self.stream, bytes);
        Ok(())
    }

    fn faults(&self) -> u64 {
        self.faults
    }
}
