// A log that is a file of the system.
ghost use Rattle.std.specs.Prelude.{◌≡◌, [], IfOk};
ghost use Rattle.logged_wire.specs.Written.{lines_written};

use crate::log::AccessLog;
use edge_io::Failed;
use happenings::Log;
use sd_value::Str;
use std::fs::OpenOptions;
use std::io::Write;
use std::rt::Files;
use std::str;

/// A file that lines are added to, each by one call of the system where the file takes it whole. It stays open.
#[derive(Drop)]
pub struct FileLog<F> {
    file: F,
    /// The writes that did not fail.
    history: Log,
}

/// Opens the file at the path, or makes it, to add lines at its end.
///
/// # Errors
///
/// The path isn't text, or the system doesn't open it.
pub fn open_log<R: Files>(system: &R, path: &Str) -> Result<FileLog<R::File>, Failed>
    ensures { IfOk result (λ log. log.history.events ≡ []) }
{
    let Ok(path) = str::from_utf8(path.bytes()) else {
        return Err(Failed);
    };
    let mut options = OpenOptions::new();
    options.append(true).create(true);
    match options.open(system, path) {
        Ok(file) => Ok(FileLog {
            file,
            history: Log::new(),
        }),
        Err(_) => Err(Failed),
    }
}

impl<F: Write> AccessLog for FileLog<F> {
    ghost lines = { λ log. lines_written log.history.events };

    fn put(&mut self, line: &[u8]) -> Result<(), Failed> {
        match self.file.write_all(line) {
            Ok(()) => {
                self.history.wrote(&[], line);
                Ok(())
            }
            Err(_) => Err(Failed),
        }
    }
}
