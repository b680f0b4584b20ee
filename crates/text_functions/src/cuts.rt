//! Where a text stands in another one.
ghost use Rattle.std.specs.Prelude.{◌≡◌, ◌<◌, IfOk, MatchOption, length, map};
ghost use Rattle.value_texts.specs.Texts.{TextHolds};
ghost use Rattle.value_texts.specs.declared.TextTest.TheVariants.{Has};
ghost use Rattle.function_spec.specs.Cuts.{IsFirstAt, AreParts};

use sd_value::NoMemory;
use std::alloc::Global;

/// What is before and after the first `by` in the text.
pub fn cut<'a>(text: &'a str, by: &str) -> Option<(&'a str, &'a str)>
    ensures { MatchOption result (¬ (TextHolds Has text.now by.now))
        (λ r. IsFirstAt by.now text.now r.0.now r.1.now) }
{
    text.split_once(by)
}

/// The parts of the text between each `by` in it.
pub fn parts<'a>(alloc: Global, text: &'a str, by: &str) -> Result<Vec<&'a str>, NoMemory>
    requires { 0 < length by.now }
    ensures { IfOk result (λ ps. AreParts by.now text.now (map (λ p. p.now) ps.items)) }
{
    let mut found = Vec::new(alloc);
    let mut rest = text;
    while let Some((part, next)) = cut(rest, by) {
        found.push(part)?;
        rest = next;
    }
    found.push(rest)?;
    Ok(found)
}
