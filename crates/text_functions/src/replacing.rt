//! A text with another one in place of each of one in it.
ghost use Rattle.std.specs.Prelude.{◌≡◌, ◌++◌, ◌<◌, ◌+◌, IfOk, MatchOption, length, map};
ghost use Rattle.std.specs.List.{flat_map};
ghost use Rattle.std.specs.String.{string_bytes};
ghost use Rattle.function_spec.specs.declared.Function.TheVariants.{Replace};
ghost use Rattle.function_spec.specs.Functions.{Gives, Replaced, longest};
ghost use Rattle.text_functions.specs.Told.{Tells};

use crate::cuts::parts;
use crate::results::{LONGEST, text_value, three_texts};
use sd_value::{NoMemory, Value};
use std::alloc::Global;

// Each part after the other text, unless that is too long for a Text after the first of them.
fn each_after(alloc: Global, parts: &[&str], by: &str) -> Result<Option<String>, NoMemory>
    ensures { IfOk result (λ r. MatchOption r
        (longest + length by.now < length (flat_map (λ t. by.now ++ t) (map (λ p. p.now) parts.now)))
        (λ t. string_bytes t ≡ flat_map (λ t. by.now ++ t) (map (λ p. p.now) parts.now))) }
{
    let mut text = String::new(alloc);
    for part in parts {
        text.push_str(by)?;
        text.push_str(part)?;
        let long = text.as_bytes().len().saturating_sub(by.len());
        if long > LONGEST {
            return Ok(None);
        }
    }
    Ok(Some(text))
}

fn replace_in(alloc: Global, text: &str, part: &str, by: &str) -> Result<Option<Value>, NoMemory>
    requires { 0 < length part.now }
    ensures { IfOk result (Tells (Replaced ((text.now, part.now), by.now))) }
{
    let found = parts(alloc, text, part)?;
    let Some(made) = each_after(alloc, found.as_slice(), by)? else {
        return Ok(None);
    };
    let (_, joined) = made.as_bytes().split_at(by.len());
    let value = text_value(alloc, joined)?;
    Ok(value)
}

/// The first text with the third in place of each of the second in it.
pub fn replace(alloc: Global, values: &[Value]) -> Result<Option<Value>, NoMemory>
    ensures { IfOk result (Tells (Gives Replace values.now)) }
{
    let Some((texts, by)) = three_texts(alloc, values)? else {
        return Ok(None);
    };
    if texts.1.as_str().is_empty() {
        return Ok(None);
    }
    let value = replace_in(alloc, texts.0.as_str(), texts.1.as_str(), by.as_str())?;
    Ok(value)
}
