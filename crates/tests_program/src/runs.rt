// A run of the program by its words alone, over files, outputs and a wire in memory, and what it has to leave.
use command_run::{GivenWords, NoWords, run_main};
use edge_io::{Files, MemFile, MemFiles, MemSink, Sink};
use happenings::{Log, Stream};
use mem_wire::{FailingSend, MemWire};
use script_reader::read_script;
use sd_value::{NoMemory, Str};
use std::alloc::Global;
use std::process::Abort;
use std::test::Fail;
use wire::Wire;

/// A file, by its path and its text.
#[derive(Drop)]
pub struct FileRow<'a> {
    pub path: &'static str,
    pub text: &'a str,
}

/// A part of a text: a text, and how often it stands there.
pub struct Part {
    pub text: &'static str,
    pub count: usize,
}

/// A connection, what it took, and whether it was closed.
pub struct Taken {
    pub connection: u64,
    pub bytes: &'static str,
    pub is_closed: bool,
}

/// A path, and the text that is there after the run, or none.
pub struct Written {
    pub path: &'static str,
    pub text: Option<&'static str>,
}

/// The words of a run, the events of its wire, the calls that fail, its exit code, what it puts on the output and the
/// standard error, what its connections took and its files hold. The name says which run it is where the words don't.
#[derive(Drop)]
pub struct Run<'w, 's, 'o> {
    pub name: &'static str,
    pub words: &'w [&'s str],
    pub script: &'static [Part],
    /// Of the files.
    pub failing_calls: &'static [u64],
    /// Of the output.
    pub failing_puts: &'static [u64],
    /// Of the standard error.
    pub failing_lines: &'static [u64],
    /// Of `listen` and `next`, counted together.
    pub failing_nexts: &'static [u64],
    pub failing_sends: &'static [FailingSend],
    pub code: u8,
    pub out: &'o str,
    pub err: &'static str,
    pub taken: &'static [Taken],
    pub written: &'static [Written],
}

/// A run without connections of which no call fails.
pub const PLAIN: Run = Run {
    name: "",
    words: &[],
    script: &[],
    failing_calls: &[],
    failing_puts: &[],
    failing_lines: &[],
    failing_nexts: &[],
    failing_sends: &[],
    code: 0,
    out: "",
    err: "",
    taken: &[],
    written: &[],
};

fn file(alloc: Global, row: &FileRow) -> Result<MemFile, NoMemory> {
    Ok(MemFile {
        path: Str::new(alloc, row.path.as_bytes())?,
        bytes: Str::new(alloc, row.text.as_bytes())?,
    })
}

/// These files, of which calls fail.
pub fn files_of(alloc: Global, rows: &[FileRow], failing: &[u64]) -> Result<MemFiles, NoMemory> {
    let mut files = Vec::new(alloc);
    for row in rows {
        files.push(file(alloc, row)?)?;
    }
    Ok(MemFiles::new(alloc, files, failing.to_vec(alloc)?))
}

/// The parts one after the other.
pub fn text_of(alloc: Global, parts: &[Part]) -> Result<Vec<u8>, NoMemory> {
    let mut text = Vec::new(alloc);
    for part in parts {
        let repeated = part.text.repeat(alloc, part.count)?;
        text.extend_from_slice(repeated.as_bytes())?;
    }
    Ok(text)
}

/// The wire of the run.
pub fn wire_of(alloc: Global, run: &Run) -> Result<MemWire, Fail> {
    let script = text_of(alloc, run.script)?;
    let events = read_script(alloc, &script, 65_536)?;
    let nexts = run.failing_nexts.to_vec(alloc)?;
    let sends = run.failing_sends.to_vec(alloc)?;
    Ok(MemWire::new(alloc, events, nexts, sends)?)
}

fn texts(alloc: Global, words: &[&str]) -> Result<Vec<Str>, NoMemory> {
    let mut texts = Vec::new(alloc);
    for word in words {
        texts.push(Str::new(alloc, word.as_bytes())?)?;
    }
    Ok(texts)
}

/// The words of a run, with the command that they give.
pub fn words_of(alloc: Global, words: &[&str]) -> Result<GivenWords, NoWords> {
    let texts = texts(alloc, words)?;
    let words = GivenWords::read(alloc, texts)?;
    Ok(words)
}

// The exit code of a run of these words. Nothing else calls the program, and this says nothing of it, so that its long
// contract stands in one proof alone.
fn exit_code<F: Files<Log = Log>, O: Sink<Log = Log>, W: Wire<Log = Log>>(
    alloc: Global,
    words: &[&str],
    files: &mut F,
    out: &mut O,
    err: &mut O,
    wire: &mut W,
) -> u8 {
    let words = words_of(alloc, words);
    let mut log = Log::new();
    run_main(alloc, &words, &mut log, files, out, err, wire)
}

/// Fails with the words and the name of the run, and with what isn't as it says.
pub fn check<R: Abort>(rt: &R, run: &Run, holds: bool, what: &str) {
    assert!(rt;
        holds,
        "{:?} {}: not as wanted: {what}",
        run.words, run.name
    );
}

fn check_text<R: Abort>(rt: &R, run: &Run, found: &[u8], wanted: &str) {
    let holds = found == wanted.as_bytes();
    check(rt, run, holds, str::from_utf8(found).unwrap_or("no UTF-8"));
}

fn check_taken<R: Abort>(rt: &R, run: &Run, wire: &MemWire) {
    for row in run.taken {
        check_text(rt, run, wire.taken(row.connection), row.bytes);
        let holds = wire.closed(row.connection) == row.is_closed;
        check(rt, run, holds, "closing");
    }
}

fn check_written<R: AllocGlobal + Abort>(rt: &R, run: &Run, files: &MemFiles) -> Result<(), Fail> {
    for row in run.written {
        let path = Str::new(rt.alloc(), row.path.as_bytes())?;
        let holds = files.bytes(&path) == row.text.map(|text| text.as_bytes());
        check(rt, run, holds, row.path);
    }
    Ok(())
}

/// The run over these files and this wire ends as it says.
pub fn check_with<R: AllocGlobal + Abort, F: Files<Log = Log>, W: Wire<Log = Log>>(
    rt: &R,
    run: &Run,
    files: &mut F,
    wire: &mut W,
) -> Result<(), Fail> {
    let alloc = rt.alloc();
    let mut out = MemSink::new(alloc, run.failing_puts.to_vec(alloc)?, Stream::Output);
    let mut err = MemSink::new(alloc, run.failing_lines.to_vec(alloc)?, Stream::Errors);
    let code = exit_code(alloc, run.words, files, &mut out, &mut err, wire);
    check_text(rt, run, err.bytes(), run.err);
    check_text(rt, run, out.bytes(), run.out);
    check(rt, run, code == run.code, "the exit code");
    Ok(())
}

/// The run over these files ends as it says.
pub fn check_over<R: AllocGlobal + Abort, F: Files<Log = Log>>(
    rt: &R,
    run: &Run,
    files: &mut F,
) -> Result<(), Fail> {
    let mut wire = wire_of(rt.alloc(), run)?;
    check_with(rt, run, files, &mut wire)?;
    check_taken(rt, run, &wire);
    Ok(())
}

/// The run over these files in memory ends as it says, and leaves them as it says.
pub fn check_run<R: AllocGlobal + Abort>(rt: &R, rows: &[FileRow], run: &Run) -> Result<(), Fail> {
    let mut files = files_of(rt.alloc(), rows, run.failing_calls)?;
    check_over(rt, run, &mut files)?;
    check_written(rt, run, &files)
}

/// The run over these files ends as it says, where these bytes are at the path, in place of any that are there.
pub fn check_beside<R: AllocGlobal + Abort>(
    rt: &R,
    rows: &[FileRow],
    path: &str,
    bytes: &[u8],
    run: &Run,
) -> Result<(), Fail> {
    let alloc = rt.alloc();
    let mut files = files_of(alloc, rows, &[])?;
    let path = Str::new(alloc, path.as_bytes())?;
    if files.write(&path, bytes).is_err() {
        return Err(Fail::new("no file"));
    }
    check_over(rt, run, &mut files)
}

/// Each of the runs, over these files in memory, ends as it says.
pub fn check_runs<R: AllocGlobal + Abort>(
    rt: &R,
    rows: &[FileRow],
    runs: &[Run],
) -> Result<(), Fail> {
    for run in runs {
        check_run(rt, rows, run)?;
    }
    Ok(())
}
