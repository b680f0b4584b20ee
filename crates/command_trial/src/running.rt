// The run of a trial.
ghost use Rattle.std.specs.Prelude.{◌≤◌, IfOk, All, length};
ghost use Rattle.command_spec.specs.Ranges.{IsFrom1To};
ghost use Rattle.site_spec.specs.Root.{root_function};
ghost use Rattle.site_inputs.specs.Sites.{site_at};
ghost use Rattle.site_inputs.specs.Values.{inputs_of};
ghost use Rattle.command_trial.specs.Askable.{IsAskable};
ghost use Rattle.command_trial.specs.Ends.{IsTrial, TrialEnds};
ghost use Rattle.command_trial.specs.Runs.{AreCounted};

use crate::counts::count;
use crate::lines::lines_of;
use crate::requests::{events, targets};
use crate::site::made_site;
use command_spec::{RunLimits, TrialCommand};
use hub::HubEnd;
use mem_wire::SteadyWire;
use sd_value::{NoMemory, Str};
use site_inputs::{Fault, SiteInputs};
use site_serving::{PageSource, serve_site};
use std::alloc::Global;
use trial_spec::Counts;

// Any host, one request to a connection, a turn for every event, and 256 kept pages of 64 MiB.
const LIMITS: RunLimits = RunLimits {
    hosts: None,
    requests: 1,
    turns: 4_294_967_296,
    cache: 256,
    cache_bytes: 67_108_864,
};

/// What was counted of a run.
#[derive(Clone, Copy)]
struct Counted {
    counts: Counts,
    hits: u64,
}

// Asks for the targets, one after another, and counts the replies.
fn ask_for(alloc: Global, site: SiteInputs, targets: &[Str]) -> Result<Counted, NoMemory>
    requires askable { All IsAskable targets.now }
    requires few { length targets.now ≤ 40062 }
    ensures { IfOk result (λ counted.
        AreCounted (root_function site.query) (site_at (inputs_of site))
        (inputs_of site).templates targets.now counted.counts counted.hits) }
{
    let events = events(alloc, targets)?;
    let mut wire = SteadyWire::new(alloc, events)?;
    let served = serve_site(alloc, site, &LIMITS, PageSource::Demand, &mut wire);
    match served.end {
        HubEnd::Done => Ok(Counted {
            counts: count(&wire, targets.len() as u64)?,
            hits: served.tally.hits,
        }),
        HubEnd::TurnsSpent => unreachable!(),
        HubEnd::WireFailed => unreachable!(),
        HubEnd::NoMemory => Err(NoMemory),
    }
}

// The text of a trial of n entries.
fn numbers_of(alloc: Global, entries: u32) -> Result<Str, NoMemory>
    requires { entries ≤ 20000 }
    ensures { IfOk result (IsTrial entries) }
{
    let targets = targets(alloc, entries)?;
    let site = made_site(alloc, entries)?;
    let counted = ask_for(alloc, site, &targets)?;
    lines_of(
        alloc,
        u64::from(entries),
        targets.len() as u64,
        counted.counts,
        counted.hits,
    )
}

/// The text of a trial: each page of the site over made data is asked for twice, each time by a connection of its own,
/// and six numbers of this are printed, a line each.
/// # Errors
/// Out of memory, also for a single reply.
pub fn trial(alloc: Global, command: &TrialCommand) -> Result<Str, Fault>
    requires { IsFrom1To 20000 command.now.entries }
    ensures { TrialEnds command.now result }
{
    let text = numbers_of(alloc, command.entries)?;
    Ok(text)
}
