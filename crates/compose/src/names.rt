// What the values of a site are in its graph.
ghost use Rattle.std.specs.Prelude.{◌≡◌, ◌∷◌, IfOk};
ghost use Rattle.sd_value.specs.declared.Value.TheVariants.{Data};
ghost use Rattle.page_spec.specs.Show as show;
ghost use Rattle.compose_spec.specs.Composed as spec;

use address::address;
use sd_value::{Datum, NoMemory, Str, Term, Value};
use std::alloc::Global;

fn begins_with_slash(name: &[u8]) -> bool
    ensures { result ≡ spec.begins_with_slash name.now }
{
    match name.split_first() {
        None => false,
        Some((first, _)) => *first == b'/',
    }
}

fn after_slash(alloc: Global, name: &Str) -> Result<Str, NoMemory>
    ensures { IfOk result (λ s. s ≡ 47 ∷ name.now) }
{
    let mut text = Vec::from_slice(alloc, b"/")?;
    text.extend_from_slice(name.bytes())?;
    Str::of(alloc, text)
}

/// The name that a node of the data has in a site's graph: one that begins with `/` begins with one more, since what
/// else begins with `/` are the addresses of pages.
/// # Errors
/// Out of memory.
pub fn node_name(alloc: Global, name: &Str) -> Result<Str, NoMemory>
    ensures { IfOk result (λ s. s ≡ spec.node_name name.now) }
{
    if begins_with_slash(name.bytes()) {
        after_slash(alloc, name)
    } else {
        name.copy(alloc)
    }
}

/// The name that a page has in a site's graph: its address.
pub(crate) fn page_name(alloc: Global, term: &Term) -> Result<Str, NoMemory>
    ensures { IfOk result (λ s. s ≡ show.address term.now) }
{
    let mut text = Vec::new(alloc);
    address(alloc, term, &mut text)?;
    Str::of(alloc, text)
}

fn encoded_datum(alloc: Global, datum: &Datum) -> Result<Datum, NoMemory>
    ensures { IfOk result (λ d. d ≡ spec.encoded (Data datum.now)) }
{
    match datum {
        Datum::Int(number) => Ok(Datum::Int(*number)),
        Datum::Text(text) => Ok(Datum::Text(text.copy(alloc)?)),
        Datum::Url(text) => Ok(Datum::Url(text.copy(alloc)?)),
        Datum::File(text) => Ok(Datum::File(text.copy(alloc)?)),
        Datum::Node(name) => Ok(Datum::Node(node_name(alloc, name)?)),
    }
}

/// What a value of a site is in the site's graph: a page is the node of its address, and a node the one of `node_name`.
/// # Errors
/// Out of memory.
pub fn encoded(alloc: Global, value: &Value) -> Result<Datum, NoMemory>
    ensures { IfOk result (λ d. d ≡ spec.encoded value.now) }
{
    match value {
        Value::Data(datum) => encoded_datum(alloc, datum),
        Value::Page(term) => Ok(Datum::Node(page_name(alloc, term)?)),
    }
}
