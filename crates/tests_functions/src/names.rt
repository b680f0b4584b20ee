// The names of functions, and how many arguments they take.
use function_names::{name, named, takes};
use function_spec::Function;
use std::test::Fail;

// A name, its function, and how many arguments that takes at least and at most.
struct NameRow {
    name: &'static str,
    function: Function,
    least: usize,
    most: usize,
}

const NAMES: &[NameRow] = &[
    NameRow {
        name: "lower",
        function: Function::Lower,
        least: 1,
        most: 1,
    },
    NameRow {
        name: "upper",
        function: Function::Upper,
        least: 1,
        most: 1,
    },
    NameRow {
        name: "fold",
        function: Function::Fold,
        least: 1,
        most: 1,
    },
    NameRow {
        name: "slug",
        function: Function::Slug,
        least: 1,
        most: 1,
    },
    NameRow {
        name: "trim",
        function: Function::Trim,
        least: 1,
        most: 1,
    },
    NameRow {
        name: "first",
        function: Function::First,
        least: 2,
        most: 2,
    },
    NameRow {
        name: "last",
        function: Function::Last,
        least: 2,
        most: 2,
    },
    NameRow {
        name: "rest",
        function: Function::Rest,
        least: 2,
        most: 2,
    },
    NameRow {
        name: "before",
        function: Function::Before,
        least: 2,
        most: 2,
    },
    NameRow {
        name: "after",
        function: Function::After,
        least: 2,
        most: 2,
    },
    NameRow {
        name: "replace",
        function: Function::Replace,
        least: 3,
        most: 3,
    },
    NameRow {
        name: "join",
        function: Function::Join,
        least: 2,
        most: 16,
    },
    NameRow {
        name: "length",
        function: Function::Length,
        least: 1,
        most: 1,
    },
    NameRow {
        name: "number",
        function: Function::Number,
        least: 1,
        most: 1,
    },
    NameRow {
        name: "decimal",
        function: Function::Decimal,
        least: 3,
        most: 3,
    },
    NameRow {
        name: "plus",
        function: Function::Plus,
        least: 2,
        most: 2,
    },
    NameRow {
        name: "minus",
        function: Function::Minus,
        least: 2,
        most: 2,
    },
    NameRow {
        name: "times",
        function: Function::Times,
        least: 2,
        most: 2,
    },
    NameRow {
        name: "div",
        function: Function::Div,
        least: 2,
        most: 2,
    },
    NameRow {
        name: "mod",
        function: Function::Mod,
        least: 2,
        most: 2,
    },
    NameRow {
        name: "split",
        function: Function::Split,
        least: 2,
        most: 2,
    },
];

fn check_row(row: &NameRow) -> Result<(), Fail> {
    let named = named(row.name.as_bytes()) == Some(row.function);
    let arity = takes(row.function, row.least)
        && takes(row.function, row.most)
        && !takes(row.function, row.least.saturating_sub(1))
        && !takes(row.function, row.most.saturating_add(1));
    if named && arity && name(row.function) == row.name {
        return Ok(());
    }
    Err(Fail::new(row.name))
}

#[test]
fn functions_have_names(_rt: HostRuntime) -> Result<(), Fail> {
    for row in NAMES {
        check_row(row)?;
    }
    Ok(())
}

// Texts that name no function.
const NO_NAMES: &[&str] = &["", "Lower", "LOWER", "lower ", "low", "starts", "count"];

#[test]
fn other_texts_name_none(_rt: HostRuntime) -> Result<(), Fail> {
    for text in NO_NAMES {
        if named(text.as_bytes()).is_some() {
            return Err(Fail::new(*text));
        }
    }
    Ok(())
}
