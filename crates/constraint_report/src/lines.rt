// The lines of constraints.
ghost use Rattle.std.specs.Prelude.{◌≡◌, ◌&&◌, IfOk};
ghost use Rattle.constraint_report.specs.Report.{verdict_word, verdict_line};

use sd_value::{NoMemory, Str};
use std::alloc::Global;
use token_writer::{put, put_number};

fn word(met: bool) -> &'static [u8]
    ensures { result.now ≡ verdict_word met }
{
    if met { b" met\n" } else { b" broken\n" }
}

/// The line of the constraint of this number.
pub fn line(alloc: Global, number: usize, met: bool) -> Result<Str, NoMemory>
    ensures { IfOk result (λ text. text ≡ verdict_line number met) }
{
    let mut text = Vec::new(alloc);
    put_number(number as u128, &mut text)?;
    put(word(met), &mut text)?;
    Ok(Str::of(alloc, text)?)
}

/// Whether both are so.
pub fn both(a: bool, b: bool) -> bool
    ensures { result ≡ (a && b) }
{
    a && b
}
