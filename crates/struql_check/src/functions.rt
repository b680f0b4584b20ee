//! The checks of the functions that a query's terms name.

ghost use Rattle.std.specs.Prelude.{◌≡◌, ◌||◌, ◌&&◌, ℕ, not, List, IfOk, if◌then◌else◌};
ghost use Rattle.std.specs.BTreeMap as tree;
ghost use Rattle.std.specs.BTreeSet as set;
ghost use Rattle.sd_value.specs.Order.{bytes_cmp};
ghost use Rattle.query_spec.specs.Mentions.{same_name};
ghost use Rattle.struql_check.specs.Faults.{SomeIn, TermFault, is_index, is_reserved};
ghost use Rattle.struql_check.specs.First.{IsFirst};
ghost use Rattle.struql_check.specs.Known.{AreCreated, AreArities, or_else, differs, broken_term};
ghost use Rattle.struql_check.specs.declared.terms.SeenTerm.{SeenTerm as Seen};

use crate::faults::{Check, Fault, earlier};
use crate::passes::{fault_at, is_index, is_reserved};
use crate::terms::SeenTerm;
use sd_value::{NoMemory, Str};
use std::alloc::Global;
use std::collections::{BTreeMap, BTreeSet};

fn add_created(alloc: Global, created: &mut BTreeSet<Str>, term: &SeenTerm) -> Result<(), NoMemory>
    ensures { IfOk result (λ _. (f : List ℕ)
        → set.contains bytes_cmp created.new f
        ≡ (set.contains bytes_cmp created.old f
        || (same_name f term.now.function && not term.now.linked))) }
{
    if !term.linked {
        let function = term.function.copy(alloc)?;
        created.insert(function)?;
    }
    Ok(())
}

/// The functions that are in a CREATE.
fn created_of(alloc: Global, terms: &[SeenTerm]) -> Result<BTreeSet<Str>, NoMemory>
    ensures { IfOk result (λ created. AreCreated terms.now (set.contains bytes_cmp created)) }
{
    let mut created = BTreeSet::new(alloc);
    for term in terms {
        add_created(alloc, &mut created, term)?;
    }
    Ok(created)
}

fn add_arity(
    alloc: Global,
    arities: &mut BTreeMap<Str, usize>,
    term: &SeenTerm,
) -> Result<(), NoMemory>
    ensures { IfOk result (λ _. (f : List ℕ)
        → tree.get bytes_cmp arities.new f
        ≡ or_else (tree.get bytes_cmp arities.old f)
        (if same_name f term.now.function then Some term.now.arity else None)) }
{
    if arities.get(&term.function).is_none() {
        let function = term.function.copy(alloc)?;
        arities.insert(function, term.arity)?;
    }
    Ok(())
}

/// Each function, and how many arguments its first term has.
fn arities_of(alloc: Global, terms: &[SeenTerm]) -> Result<BTreeMap<Str, usize>, NoMemory>
    ensures { IfOk result (λ arities. AreArities terms.now (tree.get bytes_cmp arities)) }
{
    let mut arities = BTreeMap::new(alloc);
    for term in terms {
        add_arity(alloc, &mut arities, term)?;
    }
    Ok(arities)
}

fn differs(first: Option<usize>, arity: usize) -> bool
    ensures { result ≡ differs first arity }
{
    match first {
        Some(n) => n != arity,
        None => false,
    }
}

fn broken_term(uncreated: bool, differing: bool, reserved: bool) -> Option<Check>
    ensures { result ≡ broken_term uncreated differing reserved }
{
    if uncreated {
        Some(Check::NeverCreated)
    } else if differing {
        Some(Check::Arity)
    } else if reserved {
        Some(Check::Reserved)
    } else {
        None
    }
}

fn is_uncreated(created: &BTreeSet<Str>, term: &SeenTerm) -> bool
    ensures { result ≡ (term.now.linked
        && not (set.contains bytes_cmp created.now term.now.function)) }
{
    term.linked && !created.contains(&term.function)
}

fn is_taken(version: u8, name: &Str) -> bool
    ensures { result ≡ (is_index name.now || is_reserved version name.now) }
{
    is_index(name) || is_reserved(version, name)
}

fn term_fault(
    version: u8,
    created: &BTreeSet<Str>,
    arities: &BTreeMap<Str, usize>,
    term: &SeenTerm,
) -> Option<Fault>
    ensures { (all : List Seen) → AreCreated all (set.contains bytes_cmp created.now)
        → AreArities all (tree.get bytes_cmp arities.now)
        → IsFirst (TermFault version all term.now) result }
{
    let uncreated = is_uncreated(created, term);
    let first = arities.get(&term.function).copied();
    let differing = differs(first, term.arity);
    let reserved = is_taken(version, &term.function);
    let check = broken_term(uncreated, differing, reserved);
    fault_at(check, term.at)
}

/// The first fault of the functions of these terms, which are all terms of a query.
pub(crate) fn first_of_terms(
    alloc: Global,
    version: u8,
    terms: &[SeenTerm],
) -> Result<Option<Fault>, NoMemory>
    ensures { IfOk result (λ first. IsFirst
        (SomeIn (TermFault version terms.now) terms.now) first) }
{
    let created = created_of(alloc, terms)?;
    let arities = arities_of(alloc, terms)?;
    let mut first = None;
    for term in terms {
        first = earlier(first, term_fault(version, &created, &arities, term));
    }
    Ok(first)
}
