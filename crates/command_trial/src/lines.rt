// The lines that a trial prints.
ghost use Rattle.std.specs.Prelude.{◌≡◌, ◌++◌, IfOk, OnOk};
ghost use Rattle.trial_spec.specs.Numbers.{number_line, lines_of};

use sd_value::{NoMemory, Str};
use std::alloc::Global;
use token_writer::put_number;
use trial_spec::Counts;

fn push_line(text: &mut Vec<u8>, name: &[u8], number: u128) -> Result<(), NoMemory>
    ensures { OnOk result (text.new.items ≡ text.old.items ++ number_line name.now number) }
{
    text.extend_from_slice(name)?;
    put_number(number, text)?;
    text.extend_from_slice(b"\n")?;
    Ok(())
}

/// The six lines of a trial.
pub(crate) fn lines_of(
    alloc: Global,
    entries: u64,
    requests: u64,
    counts: Counts,
    hits: u64,
) -> Result<Str, NoMemory>
    ensures { IfOk result (λ text. text ≡ lines_of entries requests counts hits) }
{
    let mut text = Vec::new(alloc);
    push_line(&mut text, b"entries ", u128::from(entries))?;
    push_line(&mut text, b"requests ", u128::from(requests))?;
    push_line(&mut text, b"ok ", u128::from(counts.ok))?;
    push_line(&mut text, b"missing ", u128::from(counts.missing))?;
    push_line(&mut text, b"bytes ", counts.bytes)?;
    push_line(&mut text, b"hits ", u128::from(hits))?;
    Str::of(alloc, text)
}
