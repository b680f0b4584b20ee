// A word of a path expression.
ghost use Rattle.std.specs.Prelude.{◌≡◌, ◌++◌, OnOk};
ghost use Rattle.rpe.specs.Reading.{regex_of};
ghost use Rattle.counterexample_spec.specs.Frozen.{word as word_of};

use rpe::Rpe;
use sd_value::{NoMemory, Str};
use std::alloc::Global;

/// Adds the labels of a word of the expression: the first side of each choice, and what may be
/// repeated once or not at all.
pub(crate) fn add_word(
    alloc: Global,
    expression: &Rpe,
    repeats: bool,
    word: &mut Vec<Str>,
) -> Result<(), NoMemory>
    ensures { OnOk result
        (word.new.items ≡ word.old.items ++ word_of repeats (regex_of expression.now)) }
{
    match expression {
        Rpe::Label(label) => word.push(label.copy(alloc)?)?,
        Rpe::Any => word.push(Str::new(alloc, b"any")?)?,
        Rpe::Empty => {}
        Rpe::Seq(first, second) => {
            add_word(alloc, first, repeats, word)?;
            add_word(alloc, second, repeats, word)?;
        }
        Rpe::Alt(first, _) => add_word(alloc, first, repeats, word)?,
        Rpe::Star(body) => {
            if repeats {
                add_word(alloc, body, repeats, word)?;
            }
        }
    }
    Ok(())
}
