// The script of a run, read after the inputs of its site.
ghost use Rattle.std.specs.Prelude.{◌≡◌, ◌∷◌, [], IfOk, All};
ghost use Rattle.std.specs.Option.{ForSome};
ghost use Rattle.script_reader.specs.Script.{IsScripted};
ghost use Rattle.site_inputs.specs.Reads.{Reads};
ghost use Rattle.site_inputs.specs.Runs.{ReadsHaveCause};
ghost use Rattle.command_replay.specs.Scripts.{script_result, ScriptTaken, ScriptEnds};

use command_spec::SCRIPT_LIMIT;
use data_source::told_of_text;
use edge_io::Files;
use run_report::Place;
use script_reader::read_script;
use sd_value::{NoMemory, Str};
use site_inputs::{Fault, read_file, refused};
use std::alloc::Global;
use wire::WireEvent;

fn take_script(alloc: Global, path: &Str, bytes: &[u8]) -> Result<Vec<WireEvent>, Fault>
    ensures { ScriptTaken path.now bytes.now (script_result result) }
{
    match read_script(alloc, bytes, SCRIPT_LIMIT) {
        Ok(events) => Ok(events),
        Err(refusal) => match told_of_text(&refusal, 111) {
            Ok(told) => Err(refused(alloc, path, told.number, Place::At(told.at))),
            Err(NoMemory) => Err(Fault::NoMemory),
        },
    }
}

/// The events of a script's file.
/// # Errors
/// A script that is refused or unread, or out of memory.
pub fn load_script<F: Files>(
    alloc: Global,
    files: &mut F,
    path: &Str,
) -> Result<Vec<WireEvent>, Fault>
    ensures traced { Reads (path.now ∷ []) (F.trace files.old) (F.trace files.new)
        (F.contents files.old) result
        (λ map. ScriptEnds map path.now (script_result result)) }
    ensures ends { ForSome (F.contents files.old) (λ map.
        ScriptEnds map path.now (script_result result)) }
    ensures same { F.contents files.new ≡ F.contents files.old }
    ensures cause { ReadsHaveCause (path.now ∷ [])
        (F.failed_reads files.old) (F.failed_reads files.new) result }
    ensures writes { F.failed_writes files.new ≡ F.failed_writes files.old }
{
    let bytes = read_file(alloc, files, path, SCRIPT_LIMIT)?;
    take_script(alloc, path, bytes.bytes())
}
