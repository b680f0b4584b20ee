// What is asked of an expression itself.

ghost use Rattle.std.specs.Prelude.{◌≡◌, ◌<◌, ◌≤◌, ◌↔◌, IsTrue, IfOk, min, length};
ghost use Rattle.rpe.specs.Regex.{Word};
ghost use Rattle.rpe.specs.Language.{InLanguage, positions};
ghost use Rattle.rpe.specs.Reading.{regex_of};
ghost use Rattle.automaton.specs.Table.{HasWord};

use automaton::{Automaton, RpeRefusal};
use rpe::Rpe;
use sd_value::NoMemory;
use std::alloc::Global;

/// The most positions of an expression whose words are searched.
pub const MAX_SEARCHED: u32 = 16;

// The number of positions, or 17 where there are more.
fn count_positions(expression: &Rpe) -> u32
    ensures { result ≡ min (positions (regex_of expression.now)) 17 }
{
    match expression {
        Rpe::Label(_) | Rpe::Any => 1,
        Rpe::Empty => 0,
        Rpe::Seq(a, b) | Rpe::Alt(a, b) => (count_positions(a) + count_positions(b)).min(17),
        Rpe::Star(a) => count_positions(a),
    }
}

/// Whether it has few enough positions.
pub fn is_searched(expression: &Rpe) -> bool
    ensures { IsTrue result ↔ (positions (regex_of expression.now) ≤ 16) }
{
    count_positions(expression) <= MAX_SEARCHED
}

/// The automaton of an expression with few positions.
pub fn automaton_of(alloc: Global, expression: &Rpe) -> Result<Automaton, NoMemory>
    requires { positions (regex_of expression.now) ≤ 16 }
    ensures words { IfOk result (λ a. (w : Word) → HasWord a w
        ↔ InLanguage (regex_of expression.now) w) }
    ensures few { IfOk result (λ a. length a.letters ≤ 16) }
{
    match Automaton::of(alloc, expression) {
        Ok(automaton) => Ok(automaton),
        Err(RpeRefusal::NoMemory) => Err(NoMemory),
        Err(RpeRefusal::TooManyPositions) => unreachable!(),
    }
}
