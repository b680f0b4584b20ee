// What tests are made of: texts, terms, and wires in memory.
use mem_wire::{FailingSend, MemWire};
use script_reader::read_script;
use sd_value::{Args, Datum, NoMemory, Str, Term};
use std::alloc::Global;
use std::str;
use std::test::Fail;

/// Adds the parts one after the other.
pub fn push_all(out: &mut Vec<u8>, parts: &[&[u8]]) -> Result<(), NoMemory> {
    for part in parts {
        out.extend_from_slice(part)?;
    }
    Ok(())
}

/// A text that is repeated, between a head and a tail.
#[derive(Drop)]
pub struct Repeated<'a> {
    pub head: &'a [u8],
    pub text: &'a [u8],
    pub count: usize,
    pub tail: &'a [u8],
}

/// The whole text: the head, the repeated text, and the tail.
pub fn repeated_text(alloc: Global, row: &Repeated) -> Result<Vec<u8>, NoMemory> {
    let texts = row.text.repeat(alloc, row.count)?;
    let mut out = Vec::new(alloc);
    push_all(&mut out, &[row.head, &texts, row.tail])?;
    Ok(out)
}

/// The term of the function with these arguments.
pub fn term(alloc: Global, function: &[u8], args: Vec<Datum>) -> Result<Term, NoMemory> {
    Ok(Term {
        function: Str::new(alloc, function)?,
        args: Args::new(alloc, args)?,
    })
}

/// A wire with the events of the script, on which these sends fail.
pub fn wire_of(alloc: Global, script: &[u8], sends: &[FailingSend]) -> Result<MemWire, Fail> {
    let sends = sends.to_vec(alloc)?;
    let events = read_script(alloc, script, 65_536)?;
    Ok(MemWire::new(alloc, events, Vec::new(alloc), sends)?)
}

/// Fails with the row's name where it doesn't hold.
pub fn check(holds: bool, name: &str) -> Result<(), Fail> {
    if holds {
        return Ok(());
    }
    Err(Fail::new(name))
}

/// Fails with the row's text where it doesn't hold.
pub fn check_row(holds: bool, text: &[u8]) -> Result<(), Fail> {
    check(holds, str::from_utf8(text).unwrap_or("a row"))
}

/// Whether the texts are the same: the borrow checker takes them from two places only in a call.
pub fn are_same(found: &[u8], wanted: &[u8]) -> bool {
    found == wanted
}

/// Compares two texts.
pub fn check_text(found: &[u8], wanted: &[u8]) -> Result<(), Fail> {
    if found == wanted {
        return Ok(());
    }
    Err(Fail::new(format_args!("{found:?} in place of {wanted:?}")))
}
