// Building the tables of an expression, part by part from the left.

ghost use Rattle.std.specs.Prelude.{◌≡◌, ℕ, ◌+◌, ◌<◌, ◌≤◌, ◌⊎◌, ◌↔◌, IsTrue, false, vec_len, IfOk, min};
ghost use Rattle.rpe.specs.Language.{positions};
ghost use Rattle.rpe.specs.Reading.{regex_of};
ghost use Rattle.automaton.specs.PositionSet.{Has};
ghost use Rattle.automaton.specs.Table.{row, IsBefore};
ghost use Rattle.automaton.specs.Building.{AddsLetter, IsAdded, Links};

use crate::position_set::{MAX_POSITIONS, PositionSet};
use rpe::Rpe;
use sd_value::{NoMemory, Str};
use std::alloc::Global;

/// The number of positions, or 257 where there are more.
pub fn count_positions(expression: &Rpe) -> u32
    ensures { result ≡ min (positions (regex_of expression.now)) 257 }
{
    match expression {
        Rpe::Label(_) | Rpe::Any => 1,
        Rpe::Empty => 0,
        Rpe::Seq(a, b) | Rpe::Alt(a, b) => (count_positions(a) + count_positions(b)).min(257),
        Rpe::Star(a) => count_positions(a),
    }
}

/// The ends of a part of an expression, while its tables are built.
#[derive(Drop)]
pub struct Ends {
    pub has_empty: bool,
    pub first: PositionSet,
    pub last: PositionSet,
}

// Adds one position, and answers the set of it alone.
fn add_letter(
    letter: Option<Str>,
    letters: &mut Vec<Option<Str>>,
    next: &mut Vec<PositionSet>,
) -> Result<PositionSet, NoMemory>
    requires { vec_len letters.old < 256 }
    ensures { IfOk result
        (λ here. AddsLetter letter letters.old.items letters.new.items next.old.items
        next.new.items here) }
{
    let mut here = PositionSet::new();
    here.insert(letters.len() as u32);
    next.push(PositionSet::new())?;
    letters.push(letter)?;
    Ok(here)
}

// Lets each position of `ones` be followed by each of `others`.
fn link(next: &mut Vec<PositionSet>, ones: &PositionSet, others: &PositionSet)
    requires size { vec_len next.old ≤ 256 }
    requires within { (p : ℕ) → Has ones.now p → p < vec_len next.old }
    ensures len { vec_len next.new ≡ vec_len next.old }
    ensures links { Links next.old.items next.new.items ones.now others.now }
{
    for p in 0..next.len() {
        if ones.contains(p as u32) {
            next[p].add_all(others);
        }
    }
}

// The first set, with the other where the mark is set.
fn joined_where(mark: bool, mut ones: PositionSet, others: &PositionSet) -> PositionSet
    ensures { (q : ℕ) → Has result q ↔ (Has ones q ⊎ (IsTrue mark × Has others.now q)) }
{
    if mark {
        ones.add_all(others);
    }
    ones
}

fn joined(mut ones: PositionSet, others: &PositionSet) -> PositionSet
    ensures { (q : ℕ) → Has result q ↔ (Has ones q ⊎ Has others.now q) }
{
    ones.add_all(others);
    ones
}

impl Ends {
    ghost use Rattle.automaton.specs.Building.{IsSequence, IsChoice};

    fn of_position(here: PositionSet) -> Ends
        ensures { result ≡ record { has_empty = false; first = here; last = here } }
    {
        Ends {
            has_empty: false,
            first: here,
            last: here,
        }
    }

    fn in_sequence(one: Ends, other: Ends) -> Ends
        ensures { IsSequence one other result }
    {
        Ends {
            has_empty: one.has_empty && other.has_empty,
            first: joined_where(one.has_empty, one.first, &other.first),
            last: joined_where(other.has_empty, other.last, &one.last),
        }
    }

    fn in_choice(one: Ends, other: Ends) -> Ends
        ensures { IsChoice one other result }
    {
        Ends {
            has_empty: one.has_empty || other.has_empty,
            first: joined(one.first, &other.first),
            last: joined(one.last, &other.last),
        }
    }
}

/// Adds the positions of the expression to the tables.
pub fn add(
    alloc: Global,
    expression: &Rpe,
    letters: &mut Vec<Option<Str>>,
    next: &mut Vec<PositionSet>,
) -> Result<Ends, NoMemory>
    requires room { vec_len letters.old + positions (regex_of expression.now) ≤ 256 }
    requires paired { vec_len next.old ≡ vec_len letters.old }
    ensures added { IfOk result (IsAdded (regex_of expression.now)
        letters.old.items letters.new.items next.old.items next.new.items) }
    ensures len { IfOk result
        (λ _. vec_len letters.new ≡ vec_len letters.old + positions (regex_of expression.now)) }
    ensures paired { IfOk result (λ _. vec_len next.new ≡ vec_len letters.new) }
    ensures within { IfOk result (λ ends. (p : ℕ) → Has ends.last p → p < vec_len next.new) }
{
    match expression {
        Rpe::Label(label) => {
            let label = label.copy(alloc)?;
            let here = add_letter(Some(label), letters, next)?;
            Ok(Ends::of_position(here))
        }
        Rpe::Any => {
            let here = add_letter(None, letters, next)?;
            Ok(Ends::of_position(here))
        }
        Rpe::Empty => Ok(Ends {
            has_empty: true,
            first: PositionSet::new(),
            last: PositionSet::new(),
        }),
        Rpe::Seq(a, b) => {
            let one = add(alloc, a, letters, next)?;
            let other = add(alloc, b, letters, next)?;
            link(next, &one.last, &other.first);
            Ok(Ends::in_sequence(one, other))
        }
        Rpe::Alt(a, b) => {
            let one = add(alloc, a, letters, next)?;
            let other = add(alloc, b, letters, next)?;
            Ok(Ends::in_choice(one, other))
        }
        Rpe::Star(a) => {
            let body = add(alloc, a, letters, next)?;
            link(next, &body.last, &body.first);
            Ok(Ends {
                has_empty: true,
                first: body.first,
                last: body.last,
            })
        }
    }
}

// The positions that `p` may follow.
fn before(rows: &Vec<PositionSet>, p: u32) -> PositionSet
    requires size { vec_len rows.now ≤ 256 }
    requires small { p < MAX_POSITIONS }
    ensures { IsBefore rows.now.items p result }
{
    let mut set = PositionSet::new();
    for q in 0..rows.len() {
        if rows[q].contains(p) {
            set.insert(q as u32);
        }
    }
    set
}

/// For each position those that it may follow, from those that may follow it.
pub fn transposed(alloc: Global, rows: &Vec<PositionSet>) -> Result<Vec<PositionSet>, NoMemory>
    requires { vec_len rows.now ≤ 256 }
    ensures len { IfOk result (λ turned. vec_len turned ≡ vec_len rows.now) }
    ensures turned { IfOk result
        (λ turned. (p : ℕ) → p < vec_len rows.now
        → IsBefore rows.now.items p (row turned.items p)) }
{
    let mut turned = Vec::new(alloc);
    for p in 0..rows.len() {
        turned.push(before(rows, p as u32))?;
    }
    Ok(turned)
}
