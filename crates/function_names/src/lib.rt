//! The names of the functions of a query's conditions, and how many arguments they take.
#![tactic(auto)]

ghost use Rattle.std.specs.Prelude.{◌≡◌, ◌↔◌, IsTrue, MatchOption};
ghost use Rattle.function_spec.specs.declared.Function.{Function as AnyFunction};
ghost use Rattle.function_names.specs.Names.{name_of, arity_of, Takes};

use function_spec::Function;

// All functions.
const ALL: [Function; 21] = [
    Function::Lower,
    Function::Upper,
    Function::Fold,
    Function::Slug,
    Function::Trim,
    Function::First,
    Function::Last,
    Function::Rest,
    Function::Before,
    Function::After,
    Function::Replace,
    Function::Join,
    Function::Length,
    Function::Number,
    Function::Decimal,
    Function::Plus,
    Function::Minus,
    Function::Times,
    Function::Div,
    Function::Mod,
    Function::Split,
];

/// The name of a function, as a query has it.
pub fn name(function: Function) -> &'static str
    ensures { result.now ≡ name_of function }
{
    match function {
        Function::Lower => "lower",
        Function::Upper => "upper",
        Function::Fold => "fold",
        Function::Slug => "slug",
        Function::Trim => "trim",
        Function::First => "first",
        Function::Last => "last",
        Function::Rest => "rest",
        Function::Before => "before",
        Function::After => "after",
        Function::Replace => "replace",
        Function::Join => "join",
        Function::Length => "length",
        Function::Number => "number",
        Function::Decimal => "decimal",
        Function::Plus => "plus",
        Function::Minus => "minus",
        Function::Times => "times",
        Function::Div => "div",
        Function::Mod => "mod",
        Function::Split => "split",
    }
}

fn arity(function: Function) -> (usize, usize)
    ensures { result ≡ arity_of function }
{
    match function {
        Function::Lower => (1, 1),
        Function::Upper => (1, 1),
        Function::Fold => (1, 1),
        Function::Slug => (1, 1),
        Function::Trim => (1, 1),
        Function::First => (2, 2),
        Function::Last => (2, 2),
        Function::Rest => (2, 2),
        Function::Before => (2, 2),
        Function::After => (2, 2),
        Function::Replace => (3, 3),
        Function::Join => (2, 16),
        Function::Length => (1, 1),
        Function::Number => (1, 1),
        Function::Decimal => (3, 3),
        Function::Plus => (2, 2),
        Function::Minus => (2, 2),
        Function::Times => (2, 2),
        Function::Div => (2, 2),
        Function::Mod => (2, 2),
        Function::Split => (2, 2),
    }
}

/// Whether a function may have so many arguments.
pub fn takes(function: Function, arguments: usize) -> bool
    ensures { IsTrue result ↔ Takes function arguments }
{
    let (least, most) = arity(function);
    least <= arguments && arguments <= most
}

/// The function of this name, if there is one.
pub fn named(text: &[u8]) -> Option<Function>
    ensures { MatchOption result ((f : AnyFunction) → text.now ≡ name_of f → ⊥)
        (λ f. text.now ≡ name_of f) }
{
    for function in &ALL {
        if text == name(*function).as_bytes() {
            return Some(*function);
        }
    }
    None
}
