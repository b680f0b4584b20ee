// What is asked for in a trial.
ghost use Rattle.std.specs.Prelude.{◌≡◌, ◌<◌, ◌≤◌, ◌++◌, ◌∷◌, [], ◌+◌, IfOk, OnOk, map, length};
ghost use Rattle.page_spec.specs.Show as show;
ghost use Rattle.trial_spec.specs.Requests as specs;
ghost use Rattle.trial_spec.specs.Data.{below};
ghost use Rattle.trial_spec.specs.Events.{events_from};

use address::address;
use sd_value::{Args, Datum, NoMemory, Str, Term};
use std::alloc::Global;
use trial_site::node_name;
use wire::WireEvent;

// A page with one argument.
fn page_of(alloc: Global, function: &[u8], argument: Datum) -> Result<Term, NoMemory>
    ensures { IfOk result (λ term. term
        ≡ record { function = function.now; args = argument ∷ [] }) }
{
    let mut args = Vec::new(alloc);
    args.push(argument)?;
    Ok(Term {
        function: Str::new(alloc, function)?,
        args: Args::new(alloc, args)?,
    })
}

fn add_address(alloc: Global, targets: &mut Vec<Str>, term: &Term) -> Result<(), NoMemory>
    ensures { OnOk result (targets.new.items ≡ targets.old.items ++ show.address term.now ∷ []) }
{
    let mut text = Vec::new(alloc);
    address(alloc, term, &mut text)?;
    targets.push(Str::of(alloc, text)?)?;
    Ok(())
}

// The addresses of the entries' pages.
fn add_papers(alloc: Global, targets: &mut Vec<Str>, entries: u32) -> Result<(), NoMemory>
    ensures { OnOk result (targets.new.items ≡ targets.old.items ++ specs.papers entries) }
{
    for made in 0..u64::from(entries) {
        let node = node_name(alloc, made + 1)?;
        let page = page_of(alloc, b"PaperPage", Datum::Node(node))?;
        add_address(alloc, targets, &page)?;
    }
    Ok(())
}

// The addresses of the years' pages.
fn add_years(alloc: Global, targets: &mut Vec<Str>) -> Result<(), NoMemory>
    ensures { OnOk result (targets.new.items ≡ targets.old.items ++ specs.years 30) }
{
    for past in 0..30_u64 {
        let page = page_of(alloc, b"YearPage", Datum::Int((1_980 + past) as i64))?;
        add_address(alloc, targets, &page)?;
    }
    Ok(())
}

// The address of each page.
fn each_address(alloc: Global, entries: u32) -> Result<Vec<Str>, NoMemory>
    ensures { IfOk result (λ targets. targets.items ≡ specs.each_address entries) }
{
    let mut targets = Vec::new(alloc);
    add_papers(alloc, &mut targets, entries)?;
    add_years(alloc, &mut targets)?;
    targets.push(Str::new(alloc, b"/")?)?;
    Ok(targets)
}

/// The targets of a trial, in their order: the address of each page, and all of them once more.
pub(crate) fn targets(alloc: Global, entries: u32) -> Result<Vec<Str>, NoMemory>
    ensures { IfOk result (λ targets. targets.items ≡ specs.targets entries) }
{
    let mut targets = each_address(alloc, entries)?;
    let mut again = each_address(alloc, entries)?;
    targets.append(&mut again)?;
    Ok(targets)
}

// The bytes of a request.
fn request(alloc: Global, target: &[u8]) -> Result<Str, NoMemory>
    ensures { IfOk result (λ bytes. bytes ≡ specs.request target.now) }
{
    let mut bytes = Vec::from_slice(alloc, b"GET ")?;
    bytes.extend_from_slice(target)?;
    bytes.extend_from_slice(b" HTTP/1.1\r\nHost: a\r\n\r\n")?;
    Str::of(alloc, bytes)
}

// A connection that asks for the target, and for nothing else.
fn add_connection(
    alloc: Global,
    events: &mut Vec<WireEvent>,
    number: u64,
    target: &[u8],
) -> Result<(), NoMemory>
    ensures { OnOk result (events.new.items
        ≡ events.old.items ++ events_from number (target.now ∷ [])) }
{
    events.push(WireEvent::Opened(number))?;
    events.push(WireEvent::Bytes(number, request(alloc, target)?))?;
    events.push(WireEvent::Ended(number))?;
    Ok(())
}

/// The events of a trial: each target is asked for by a connection of its own, and these are numbered from 1.
pub(crate) fn events(alloc: Global, targets: &[Str]) -> Result<Vec<WireEvent>, NoMemory>
    ensures { IfOk result (λ events. events.items ≡ events_from 1 targets.now) }
{
    let mut events = Vec::new(alloc);
    for (i, target) in targets.iter().enumerate() {
        add_connection(alloc, &mut events, i as u64 + 1, target.bytes())?;
    }
    Ok(events)
}
