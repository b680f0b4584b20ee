//! The functions of a query's conditions, and what they mean.
#![tactic(auto)]

/// A function that computes values from values.
#[derive(Clone, Copy, Debug, PartialEq, Eq)]
pub enum Function {
    Lower,
    Upper,
    Fold,
    Slug,
    Trim,
    First,
    Last,
    Rest,
    Before,
    After,
    Replace,
    Join,
    Length,
    Number,
    Decimal,
    Plus,
    Minus,
    Times,
    Div,
    Mod,
    Split,
}
