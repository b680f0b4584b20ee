// The connections that events open.
ghost use Rattle.std.specs.Prelude.{◌≡◌, ◌++◌, IfOk, OnOk};
ghost use Rattle.serving_spec.specs.Openings.{counts, greatest_after, opens, opened_in};

use sd_value::NoMemory;
use std::alloc::Global;
use wire::WireEvent;

/// The numbers of the connections that the events open, ascending: an opening counts where its number is above all that
/// were opened before.
pub fn opened_in(alloc: Global, events: &[WireEvent]) -> Result<Vec<u64>, NoMemory>
    ensures { IfOk result (λ opened. opened.items ≡ opened_in events.now) }
{
    let mut opened = Vec::new(alloc);
    let mut greatest = None;
    for event in events {
        note(&mut opened, &mut greatest, event)?;
    }
    Ok(opened)
}

/// Adds the number that the event opens, if it opens one.
fn note(
    opened: &mut Vec<u64>,
    greatest: &mut Option<u64>,
    event: &WireEvent,
) -> Result<(), NoMemory>
    ensures opened { OnOk result (opened.new.items
        ≡ opened.old.items ++ opens greatest.old event.now) }
    ensures greatest { OnOk result (greatest.new ≡ greatest_after event.now greatest.old) }
{
    let WireEvent::Opened(number) = event else {
        return Ok(());
    };
    if counts(*greatest, *number) {
        opened.push(*number)?;
        *greatest = Some(*number);
    }
    Ok(())
}

/// Whether a number is above all that were opened before.
fn counts(greatest: Option<u64>, number: u64) -> bool
    ensures { result ≡ counts greatest number }
{
    match greatest {
        None => true,
        Some(greatest) => greatest < number,
    }
}
