// The command `replay`.
ghost use Rattle.std.specs.Prelude.{◌≡◌, ◌++◌, List, IfOk, take, length};
ghost use Rattle.std.specs.List.{list_any};
ghost use Rattle.std.specs.Option.{ForSome};
ghost use Rattle.edge_io.specs.Counts.{Rose};
ghost use Rattle.happenings.specs.Happening.{Happening};
ghost use Rattle.command_spec.specs.Ranges.{AreLimits};
ghost use Rattle.site_inputs.specs.Reads.{Reads};
ghost use Rattle.site_inputs.specs.Runs.{ReadsHaveCause};
ghost use Rattle.site_inputs.specs.Statuses.{ReadRose, IsSilent};
ghost use Rattle.site_inputs.specs.Outside.{host};
ghost use Rattle.command_spec.specs.Inputs.{replay_paths};
ghost use Rattle.command_replay.specs.Scripts.{scripted_of, scripted_result, ScriptedEnd};
ghost use Rattle.command_replay.specs.Ends.{is_change, IsReplayed, ReplayEnds};
ghost use Rattle.command_replay.specs.Course.{ReplayCourse};

use crate::script::load_script;
use command_spec::{ReplayCommand, RunLimits};
use edge_io::{Files, Sink};
use happenings::Trace;
use hub::HubEnd;
use mem_wire::SteadyWire;
use run_report::Status;
use sd_value::NoMemory;
use serve_run::{opened_in, put_end, replay_text};
use site_inputs::{Fault, SiteInputs, load_inputs};
use site_serving::{PageSource, serve_site};
use std::alloc::Global;
use wire::WireEvent;

/// What a replay is made of.
#[derive(Drop)]
struct Script {
    site: SiteInputs,
    events: Vec<WireEvent>,
}

/// How a replay ended, and what it prints.
#[derive(Drop)]
struct Finished {
    end: HubEnd,
    text: Vec<u8>,
}

// The inputs of the site, and then the script.
fn load_all<F: Files>(
    alloc: Global,
    files: &mut F,
    command: &ReplayCommand,
) -> Result<Script, Fault>
    ensures traced { Reads (replay_paths command.now) (F.trace files.old) (F.trace files.new)
        (F.contents files.old) result
        (λ map. ScriptedEnd map command.now (scripted_result result)) }
    ensures ends { ForSome (F.contents files.old) (λ map.
        ScriptedEnd map command.now (scripted_result result)) }
    ensures same { F.contents files.new ≡ F.contents files.old }
    ensures cause { ReadsHaveCause (replay_paths command.now)
        (F.failed_reads files.old) (F.failed_reads files.new) result }
{
    let site = load_inputs(
        alloc,
        files,
        &command.sources,
        &command.over,
        &command.query,
        &command.templates,
    )?;
    let events = load_script(alloc, files, &command.script)?;
    Ok(Script { site, events })
}

// The same, while the log is lent to the files.
fn load_noted<L: Trace, F: Files<Log = L>>(
    alloc: Global,
    log: &mut L,
    files: &mut F,
    command: &ReplayCommand,
) -> Result<Script, Fault>
    ensures ends { ForSome (F.contents files.old) (λ map.
        ScriptedEnd map command.now (scripted_result result)) }
    ensures same { F.contents files.new ≡ F.contents files.old }
    ensures cause { ReadsHaveCause (replay_paths command.now)
        (F.failed_reads files.old) (F.failed_reads files.new) result }
    ensures course { Reads (replay_paths command.now) (L.events log.old) (L.events log.new)
        (F.contents files.old) result
        (λ map. ScriptedEnd map command.now (scripted_result result)) }
    ensures lent { F.trace files.new ≡ F.trace files.old }
{
    files.lend(log);
    let result = load_all(alloc, files, command);
    files.lend(log);
    result
}

// The first events, or all of them.
fn first_events(events: &[WireEvent], turns: u64) -> &[WireEvent]
    ensures { result.now ≡ take turns events.now }
{
    if turns < events.len() as u64 {
        &events[..turns as usize]
    } else {
        events
    }
}

// Whether the event is a text that is to change the data.
fn is_change(event: &WireEvent) -> bool
    ensures { result ≡ is_change event.now }
{
    match event {
        WireEvent::Change(_) => true,
        _ => false,
    }
}

// Whether one of the events is such a text.
fn have_change(events: &[WireEvent]) -> bool
    ensures { result ≡ list_any is_change events.now }
{
    events.iter().any(|event| is_change(event))
}

// Serves the site over a wire in memory of the script's events.
fn play(alloc: Global, script: Script, limits: &RunLimits) -> Result<Finished, NoMemory>
    requires { AreLimits limits.now }
    ensures { IfOk result (λ r. IsReplayed (scripted_of script) limits.now r.end r.text.items) }
{
    let opened = opened_in(alloc, first_events(&script.events, limits.turns))?;
    let with_changes = have_change(&script.events);
    let mut wire = SteadyWire::new(alloc, script.events)?;
    let served = serve_site(alloc, script.site, limits, PageSource::Demand, &mut wire);
    let text = replay_text(alloc, &wire, &opened, with_changes, &served.tally)?;
    Ok(Finished {
        end: served.end,
        text,
    })
}

/// Serves the site of the query over the data over the events of the script, and prints what each connection was sent,
/// and the counts of the run. The log is lent to the files and to the output for their calls; the wire is in memory, with a log
/// of its own.
pub fn replay<L: Trace, F: Files<Log = L>, O: Sink<Log = L>>(
    alloc: Global,
    log: &mut L,
    files: &mut F,
    out: &mut O,
    command: &ReplayCommand,
) -> Status
    requires { AreLimits command.now.limits }
    ensures ends { ForSome (F.contents files.old) (λ map.
        ReplayEnds command.now
        (host map (F.failed_reads files.old) (F.failed_writes files.old)
        (O.text out.old) (O.failed out.old))
        (host map (F.failed_reads files.new) (F.failed_writes files.new)
        (O.text out.new) (O.failed out.new))
        result) }
    ensures same { F.contents files.new ≡ F.contents files.old }
    ensures silent { IsSilent result → out.new ≡ out.old }
    ensures words { result ≡ Status.Usage → ⊥ }
    ensures no_wire { result ≡ Status.WireFault → ⊥ }
    ensures read_cause { ReadRose (replay_paths command.now)
        (F.failed_reads files.old) (F.failed_reads files.new) result }
    ensures write_cause { result ≡ Status.WriteFault → Rose (O.failed out.old) (O.failed out.new) }
    ensures course { (part : List Happening) × (L.events log.new ≡ L.events log.old ++ part)
        × ReplayCourse command.now (O.stream out.old) (F.contents files.old) part result }
    ensures lent { (F.trace files.new ≡ F.trace files.old) × (O.trace out.new ≡ O.trace out.old) }
{
    let script = match load_noted(alloc, log, files, command) {
        Ok(script) => script,
        Err(fault) => return Status::from(fault),
    };
    match play(alloc, script, &command.limits) {
        Ok(finished) => put_end(log, finished.end, &finished.text, out),
        Err(NoMemory) => Status::NoMemory,
    }
}
